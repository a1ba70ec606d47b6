// The octets of packets are those of `openssl enc -aes-128-cbc -nopad` from a zero block and `openssl mac CMAC`, over the
// fields as ETSI TS 102 225, 5.1 lays them out.
use crate::{OpenErr, PacketBuf, build, build_in, kvn_of, open};
use aes_modes::Keys;
use ota_core::{Counter, Mode, Spi, Tar};
use std::alloc::Global;
use std::process::Abort;
use std::test::Fail;

const KIC: [u8; 16] = [
    0x00, 0x01, 0x02, 0x03, 0x04, 0x05, 0x06, 0x07, 0x08, 0x09, 0x0A, 0x0B, 0x0C, 0x0D, 0x0E, 0x0F,
];

const KID: [u8; 16] = [
    0x2B, 0x7E, 0x15, 0x16, 0x28, 0xAE, 0xD2, 0xA6, 0xAB, 0xF7, 0x15, 0x88, 0x09, 0xCF, 0x4F, 0x3C,
];

const TAR: Tar = Tar([0xB0, 0x00, 0x10]);

/// SELECT of 7F10 and of 6F3A, UPDATE BINARY of three octets.
const SCRIPT: [u8; 22] = [
    0x00, 0xA4, 0x00, 0x00, 0x02, 0x7F, 0x10, 0x00, 0xA4, 0x00, 0x00, 0x02, 0x6F, 0x3A, 0x00, 0xD6,
    0x00, 0x00, 0x03, 0xAA, 0xBB, 0xCC,
];

/// The script with counter 1, ciphered.
const CIPHERED: [u8; 58] = [
    0x00, 0x38, 0x15, 0x16, 0x39, 0x12, 0x12, 0xB0, 0x00, 0x10, 0x65, 0x12, 0xB7, 0x2B, 0xF0, 0x1B,
    0xEA, 0x6D, 0xF7, 0x86, 0x07, 0x81, 0x07, 0x2D, 0x78, 0xAF, 0x53, 0x18, 0xE7, 0x8F, 0x84, 0xA5,
    0x2E, 0xC0, 0x1C, 0x2B, 0xF2, 0xBF, 0xB4, 0xF1, 0xD0, 0xA7, 0xF9, 0x77, 0x86, 0xDA, 0xCA, 0x97,
    0xA6, 0x2D, 0xEE, 0xA4, 0x70, 0x51, 0x5F, 0x4F, 0x80, 0x3E,
];

/// The script with counter 1, not ciphered.
const PLAIN: [u8; 46] = [
    0x00, 0x2C, 0x15, 0x12, 0x29, 0x12, 0x12, 0xB0, 0x00, 0x10, 0x00, 0x00, 0x00, 0x00, 0x01, 0x00,
    0xC3, 0x39, 0x53, 0x37, 0xF1, 0xFA, 0xC8, 0xD7, 0x00, 0xA4, 0x00, 0x00, 0x02, 0x7F, 0x10, 0x00,
    0xA4, 0x00, 0x00, 0x02, 0x6F, 0x3A, 0x00, 0xD6, 0x00, 0x00, 0x03, 0xAA, 0xBB, 0xCC,
];

/// The same with PCNTR 3: its last three octets are padding.
const PADDED: [u8; 46] = [
    0x00, 0x2C, 0x15, 0x12, 0x29, 0x12, 0x12, 0xB0, 0x00, 0x10, 0x00, 0x00, 0x00, 0x00, 0x01, 0x03,
    0xB0, 0xB7, 0x0F, 0x13, 0xC5, 0x6D, 0x20, 0xB2, 0x00, 0xA4, 0x00, 0x00, 0x02, 0x7F, 0x10, 0x00,
    0xA4, 0x00, 0x00, 0x02, 0x6F, 0x3A, 0x00, 0xD6, 0x00, 0x00, 0x03, 0xAA, 0xBB, 0xCC,
];

/// The same with PCNTR 23, one above the octets behind CC.
const PADDED_ABOVE: [u8; 46] = [
    0x00, 0x2C, 0x15, 0x12, 0x29, 0x12, 0x12, 0xB0, 0x00, 0x10, 0x00, 0x00, 0x00, 0x00, 0x01, 0x17,
    0xB9, 0x23, 0x34, 0x47, 0xE6, 0x92, 0x11, 0x27, 0x00, 0xA4, 0x00, 0x00, 0x02, 0x7F, 0x10, 0x00,
    0xA4, 0x00, 0x00, 0x02, 0x6F, 0x3A, 0x00, 0xD6, 0x00, 0x00, 0x03, 0xAA, 0xBB, 0xCC,
];

fn keys() -> Result<Keys, Fail> {
    Ok(Keys::new(&KIC, &KID)?)
}

fn spi(ciphered: bool) -> Spi {
    Spi {
        ciphered,
        mode: Mode::Higher,
        answer_ciphered: ciphered,
    }
}

#[test]
fn built_as_openssl_does(rt: HostRuntime) -> Result<(), Fail> {
    let keys = keys()?;
    let mut out = PacketBuf::new();
    for (ciphered, want) in [(true, CIPHERED.as_slice()), (false, PLAIN.as_slice())] {
        let packet = build(
            rt.alloc(),
            &keys,
            1,
            spi(ciphered),
            TAR,
            Counter(1),
            &SCRIPT,
        )?;
        assert!(rt; packet.as_slice() == want, "{ciphered}");
        // What was in the buffer before doesn't count.
        build_in(&keys, 1, spi(ciphered), TAR, Counter(1), &SCRIPT, &mut out);
        assert!(rt; out.as_slice() == want, "{ciphered}");
    }
    Ok(())
}

/// So many SELECTs of 3F00, and a rest.
fn selects(alloc: Global, count: usize, rest: &[u8]) -> Result<Vec<u8>, Fail> {
    let mut script = Vec::new(alloc);
    for _ in 0..count {
        script.extend_from_slice(&[0x00, 0xA4, 0x00, 0x00, 0x02, 0x3F, 0x00])?;
    }
    script.extend_from_slice(rest)?;
    Ok(script)
}

#[test]
fn longer_scripts(rt: HostRuntime) -> Result<(), Fail> {
    // SELECTs, the rest, the octets of the packet, and its last ones.
    let cases: [(usize, &[u8], usize, [u8; 8]); 5] = [
        (
            14,
            &[],
            122,
            [0xE5, 0x06, 0x15, 0x9B, 0x82, 0xD0, 0x95, 0x25],
        ),
        (
            13,
            &[0x00, 0xD6, 0x00, 0x00, 0x03, 0xAA, 0xBB, 0xCC],
            138,
            [0x74, 0x8B, 0x0B, 0xAF, 0x26, 0x30, 0x10, 0x4C],
        ),
        (
            146,
            &[0x00, 0x00],
            1050,
            [0xB4, 0x23, 0x05, 0x0C, 0xA8, 0x24, 0x27, 0x33],
        ),
        (
            146,
            &[0x00, 0x00, 0x00],
            1050,
            [0x8A, 0xB9, 0x81, 0x6F, 0x50, 0xEC, 0x87, 0x86],
        ),
        (
            585,
            &[0x00],
            4122,
            [0xD4, 0xE0, 0xE5, 0x9B, 0xA4, 0x3E, 0x39, 0xE7],
        ),
    ];
    let keys = keys()?;
    for (count, rest, len, last) in cases {
        let script = selects(rt.alloc(), count, rest)?;
        if script.is_empty() || script.len() > 4096 {
            return Err("a script that fits no packet")?;
        }
        let packet = build(rt.alloc(), &keys, 1, spi(true), TAR, Counter(1), &script)?;
        assert_eq!(rt; packet.as_slice().len(), len);
        assert!(rt; packet.as_slice().ends_with(&last), "{len}");
        let command = open(rt.alloc(), &keys, 1, packet.as_slice())?;
        assert!(rt; command.body.as_slice() == script.as_slice(), "{len}");
    }
    Ok(())
}

#[test]
fn opened_with_their_fields(rt: HostRuntime) -> Result<(), Fail> {
    let keys = keys()?;
    for (packet, ciphered, len) in [
        (CIPHERED.as_slice(), true, 22),
        (PLAIN.as_slice(), false, 22),
        (PADDED.as_slice(), false, 19),
    ] {
        assert_eq!(rt; kvn_of(packet), Some(1));
        let command = open(rt.alloc(), &keys, 1, packet)?;
        assert_eq!(rt; command.kvn, 1);
        assert!(rt; command.spi == spi(ciphered));
        assert!(rt; command.tar == TAR);
        assert!(rt; command.counter == Counter(1));
        assert_eq!(rt; command.body.as_slice().len(), len);
        assert!(rt; SCRIPT.starts_with(command.body.as_slice()));
    }
    Ok(())
}

/// Opens a packet, and compares the refusal.
fn refuses(
    rt: &impl Abort,
    alloc: Global,
    packet: &[u8],
    kvn: u8,
    want: OpenErr,
) -> Result<(), Fail> {
    let keys = keys()?;
    match open(alloc, &keys, kvn, packet) {
        Ok(_) => assert!(rt; false, "opened, and not {want:?}"),
        Err(refusal) => assert_eq!(rt; refusal, want),
    }
    Ok(())
}

#[test]
fn changed_octets_are_refused(rt: HostRuntime) -> Result<(), Fail> {
    // One octet of the packet that isn't ciphered, its new value, the refusal, and what it names.
    let cases: [(usize, u8, OpenErr, Option<u8>); 13] = [
        // CPL one more or less, CHL, and 36 octets that the SPI says are ciphered.
        (1, 0x2D, OpenErr::Form, None),
        (1, 0x2B, OpenErr::Form, None),
        (2, 0x0F, OpenErr::Form, None),
        (3, 0x16, OpenErr::Form, None),
        // Other SPIs, KIcs and KIDs; KIc and KID of two keysets.
        (3, 0x11, OpenErr::UnknownAlgorithm, None),
        (4, 0x19, OpenErr::UnknownAlgorithm, None),
        (5, 0x11, OpenErr::UnknownAlgorithm, None),
        (6, 0x02, OpenErr::UnknownAlgorithm, None),
        (5, 0x22, OpenErr::UnknownAlgorithm, None),
        // TAR, counter, PCNTR and the body are all under CC.
        (7, 0xB1, OpenErr::CcWrong, Some(1)),
        (14, 0x02, OpenErr::CcWrong, Some(1)),
        (15, 0x17, OpenErr::CcWrong, Some(1)),
        (45, 0xCD, OpenErr::CcWrong, Some(1)),
    ];
    for (at, octet, want, names) in cases {
        let mut packet = PLAIN;
        if let Some(place) = packet.get_mut(at) {
            *place = octet;
        }
        assert_eq!(rt; kvn_of(&packet), names, "{at}");
        refuses(&rt, rt.alloc(), &packet, 1, want)?;
    }
    Ok(())
}

#[test]
fn first_refusal_that_applies(rt: HostRuntime) -> Result<(), Fail> {
    let alloc = rt.alloc();
    // Nothing, too little, the last octet missing.
    refuses(&rt, alloc, &[], 1, OpenErr::Form)?;
    refuses(&rt, alloc, &PLAIN[..23], 1, OpenErr::Form)?;
    refuses(&rt, alloc, &CIPHERED[..57], 1, OpenErr::Form)?;
    // Another keyset than the packet's.
    refuses(&rt, alloc, &CIPHERED, 2, OpenErr::UnknownAlgorithm)?;
    // One bit of the ciphered octets of CC changed.
    let mut forged = CIPHERED;
    if let Some(octet) = forged.get_mut(20) {
        *octet ^= 0x10;
    }
    refuses(&rt, alloc, &forged, 1, OpenErr::CcWrong)?;
    // CC is right, and there are fewer octets than PCNTR says.
    refuses(&rt, alloc, &PADDED_ABOVE, 1, OpenErr::Padding)?;
    Ok(())
}
