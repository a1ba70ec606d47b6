use super::*;
use std::test::Fail;

const HIGHER: [(bool, bool, [u8; 2]); 4] = [
    (false, false, [0x12, 0x29]),
    (false, true, [0x12, 0x39]),
    (true, false, [0x16, 0x29]),
    (true, true, [0x16, 0x39]),
];

const NEXT: [(bool, bool, [u8; 2]); 4] = [
    (false, false, [0x1A, 0x29]),
    (false, true, [0x1A, 0x39]),
    (true, false, [0x1E, 0x29]),
    (true, true, [0x1E, 0x39]),
];

const PAIRS: [[u8; 2]; 8] = [
    [0x12, 0x29],
    [0x12, 0x39],
    [0x16, 0x29],
    [0x16, 0x39],
    [0x1A, 0x29],
    [0x1A, 0x39],
    [0x1E, 0x29],
    [0x1E, 0x39],
];

/// Whether a pair is written and read so.
fn is_pair(mode: Mode, ciphered: bool, answer_ciphered: bool, octets: [u8; 2]) -> bool {
    let spi = Spi {
        ciphered,
        mode,
        answer_ciphered,
    };
    write_spi(spi) == octets && read_spi(octets) == Ok(spi)
}

#[test]
fn spi_is_one_of_eight_pairs(rt: HostRuntime) -> Result<(), Fail> {
    for (ciphered, answer_ciphered, octets) in HIGHER {
        assert!(rt; is_pair(Mode::Higher, ciphered, answer_ciphered, octets));
    }
    for (ciphered, answer_ciphered, octets) in NEXT {
        assert!(rt; is_pair(Mode::Next, ciphered, answer_ciphered, octets));
    }
    Ok(())
}

#[test]
fn other_pairs_are_refused(rt: HostRuntime) -> Result<(), Fail> {
    for first in 0..=255u8 {
        for second in 0..=255u8 {
            let octets = [first, second];
            assert_eq!(rt; read_spi(octets).is_ok(), PAIRS.contains(&octets));
        }
    }
    assert_eq!(rt; read_spi([0x16, 0x19]), Err(NotProfile));
    Ok(())
}

#[test]
fn keys_name_their_number(rt: HostRuntime) -> Result<(), Fail> {
    assert_eq!(rt; read_kic(0x12), Ok(1));
    assert_eq!(rt; read_kic(0x02), Err(NotProfile));
    assert_eq!(rt; read_kid(0xF2), Ok(15));
    assert_eq!(rt; read_kid(0x13), Err(NotProfile));
    assert_eq!(rt; write_key(1), 0x12);
    assert_eq!(rt; write_key(15), 0xF2);
    Ok(())
}
