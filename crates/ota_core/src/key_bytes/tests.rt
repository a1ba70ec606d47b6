use super::*;
use crate::counters::Counter;
use crate::keysets::{KeysetFacts, Mode};
use std::test::Fail;

/// The lengths of a key (FIPS 197, 5).
const LENGTHS: [usize; 3] = [16, 24, 32];

#[test]
fn key_has_16_24_or_32_octets(rt: HostRuntime) -> Result<(), Fail> {
    let octets = [0x2B; 40];
    for len in 0..=octets.len() {
        assert_eq!(rt;
            KeyBytes::new(&octets[..len]).is_ok(),
            LENGTHS.contains(&len)
        );
    }
    Ok(())
}

#[test]
fn key_keeps_its_octets(rt: HostRuntime) -> Result<(), Fail> {
    let octets = [
        0x01, 0x23, 0x45, 0x67, 0x89, 0xAB, 0xCD, 0xEF, 0xFE, 0xDC, 0xBA, 0x98, 0x76, 0x54, 0x32,
        0x10,
    ];
    let key = KeyBytes::new(&octets).ok().ok_or("a key has 16 octets")?;
    assert_eq!(rt; key.as_slice(), octets.as_slice());
    assert_eq!(rt; KeyBytes::new(&octets[1..]), Err(KeyLength));
    Ok(())
}

#[test]
fn debug_shows_no_octet_of_a_key(rt: HostRuntime) -> Result<(), Fail> {
    let alloc = rt.alloc();
    let key = KeyBytes::new(&[0x2B; 24])
        .ok()
        .ok_or("a key has 24 octets")?;
    let facts = KeysetFacts {
        base: Counter(0),
        mode: Mode::Higher,
        ciphered: true,
        kic: key,
        kid: key,
    };
    let shown = format!(in alloc; "{facts:?}")?;
    let wanted =
        "KeysetFacts { base: Counter(0), mode: Higher, ciphered: true, kic: KeyBytes(24 octets), kid: KeyBytes(24 octets) }";
    assert_eq!(rt; shown.as_str(), wanted);
    Ok(())
}
