// The octets of packets are those of `openssl enc -aes-128-cbc -nopad` from a zero block and `openssl mac CMAC`, over the
// fields as ETSI TS 102 225, 5.2 lays them out, with the user data header in front for the checksum.
use crate::{AnswerErr, build, build_in, build_plain, is_settling, open, open_in};
use aes_modes::Keys;
use ota_core::{Counter, Tar};
use secured_packet::PacketBuf;
use std::alloc::Global;
use std::process::Abort;
use std::test::Fail;

const KIC: [u8; 16] = [
    0x00, 0x01, 0x02, 0x03, 0x04, 0x05, 0x06, 0x07, 0x08, 0x09, 0x0A, 0x0B, 0x0C, 0x0D, 0x0E, 0x0F,
];

const KID: [u8; 16] = [
    0x2B, 0x7E, 0x15, 0x16, 0x28, 0xAE, 0xD2, 0xA6, 0xAB, 0xF7, 0x15, 0x88, 0x09, 0xCF, 0x4F, 0x3C,
];

const TAR: Tar = Tar([0xB0, 0x00, 0x10]);

/// Status 00 and the data 036981, ciphered.
const CIPHERED: [u8; 38] = [
    0x00, 0x24, 0x12, 0xB0, 0x00, 0x10, 0xC0, 0x94, 0xF9, 0xE6, 0xC3, 0xF1, 0x4F, 0xC2, 0x6B, 0x23,
    0xFC, 0x0F, 0x2F, 0x66, 0xBA, 0x10, 0x0F, 0xA7, 0xC6, 0xA4, 0xB0, 0x90, 0x1C, 0x18, 0xAF, 0xEF,
    0xB7, 0x44, 0xAC, 0xF6, 0x34, 0x33,
];

/// Status 00 and the data 039000, ciphered.
const DONE: [u8; 38] = [
    0x00, 0x24, 0x12, 0xB0, 0x00, 0x10, 0x46, 0xBB, 0x6A, 0x62, 0x88, 0xFD, 0x79, 0xE5, 0x62, 0x58,
    0x08, 0xD4, 0xF9, 0x25, 0x0C, 0x11, 0x63, 0xA4, 0xD4, 0x07, 0x7B, 0x1A, 0x85, 0x79, 0xB5, 0x75,
    0xED, 0x2F, 0x72, 0x2B, 0xA2, 0x6D,
];

/// Status 09 without data, ciphered.
const REFUSED: [u8; 22] = [
    0x00, 0x14, 0x12, 0xB0, 0x00, 0x10, 0x72, 0xBA, 0x57, 0xBC, 0x83, 0xD3, 0x07, 0xB9, 0x8C, 0x90,
    0x93, 0x55, 0x33, 0x32, 0xB9, 0x8A,
];

/// Status 00 and the data 036981, not ciphered.
const PLAIN: [u8; 24] = [
    0x00, 0x16, 0x12, 0xB0, 0x00, 0x10, 0x00, 0x00, 0x00, 0x00, 0x01, 0x00, 0x00, 0x1A, 0xEE, 0x50,
    0x08, 0x91, 0xEA, 0xE9, 0xC1, 0x03, 0x69, 0x81,
];

/// The same with PCNTR 2: its last two octets are padding.
const PADDED: [u8; 24] = [
    0x00, 0x16, 0x12, 0xB0, 0x00, 0x10, 0x00, 0x00, 0x00, 0x00, 0x01, 0x02, 0x00, 0xDC, 0xDE, 0xC2,
    0x22, 0xC5, 0xBD, 0x45, 0x18, 0x03, 0x69, 0x81,
];

/// The same with PCNTR 4, one above the octets behind CC.
const PADDED_ABOVE: [u8; 24] = [
    0x00, 0x16, 0x12, 0xB0, 0x00, 0x10, 0x00, 0x00, 0x00, 0x00, 0x01, 0x04, 0x00, 0x4D, 0x65, 0x57,
    0x9D, 0x0F, 0xCF, 0xE4, 0x99, 0x03, 0x69, 0x81,
];

/// The unsecured form with status 06, TAR and a counter of zero.
const UNSECURED: [u8; 13] = [
    0x00, 0x0B, 0x0A, 0xB0, 0x00, 0x10, 0x00, 0x00, 0x00, 0x00, 0x00, 0x00, 0x06,
];

/// 21 octets with RPL 19 in decimal and RHL 12, and a checksum of no key.
const SHORT: [u8; 21] = [
    0x00, 0x13, 0x12, 0xB0, 0x00, 0x10, 0x00, 0x00, 0x00, 0x00, 0x01, 0x00, 0x00, 0x00, 0x00, 0x00,
    0x00, 0x00, 0x00, 0x00, 0x00,
];

fn keys() -> Result<Keys, Fail> {
    Ok(Keys::new(&KIC, &KID)?)
}

#[test]
fn built_as_openssl_does(rt: HostRuntime) -> Result<(), Fail> {
    let keys = keys()?;
    let mut out = PacketBuf::new();
    let cases: [(bool, u8, &[u8], &[u8]); 4] = [
        (true, 0x00, &[0x03, 0x69, 0x81], &CIPHERED),
        (true, 0x00, &[0x03, 0x90, 0x00], &DONE),
        (true, 0x09, &[], &REFUSED),
        (false, 0x00, &[0x03, 0x69, 0x81], &PLAIN),
    ];
    for (ciphered, status, octets, want) in cases {
        if octets.len() > 259 {
            return Err("too many data")?;
        }
        let packet = build(rt.alloc(), &keys, ciphered, TAR, Counter(1), status, octets)?;
        assert!(rt; packet.as_slice() == want);
        // What was in the buffer before doesn't count.
        build_in(&keys, ciphered, TAR, Counter(1), status, octets, &mut out);
        assert!(rt; out.as_slice() == want);
    }
    assert!(rt; build_plain(TAR, Counter(0), 0x06) == UNSECURED);
    Ok(())
}

#[test]
fn opened_with_their_fields(rt: HostRuntime) -> Result<(), Fail> {
    let keys = keys()?;
    let cases: [(bool, &[u8], u8, &[u8]); 5] = [
        (true, &CIPHERED, 0x00, &[0x03, 0x69, 0x81]),
        (true, &DONE, 0x00, &[0x03, 0x90, 0x00]),
        (true, &REFUSED, 0x09, &[]),
        (false, &PLAIN, 0x00, &[0x03, 0x69, 0x81]),
        (false, &PADDED, 0x00, &[0x03]),
    ];
    for (ciphered, packet, status, octets) in cases {
        let answer = open(rt.alloc(), &keys, ciphered, packet)?;
        assert!(rt; answer.tar == TAR);
        assert!(rt; answer.counter == Counter(1));
        assert_eq!(rt; answer.status, status);
        assert!(rt; answer.octets.as_slice() == octets);
    }
    Ok(())
}

#[test]
fn opened_in_the_callers_octets(rt: HostRuntime) -> Result<(), Fail> {
    let keys = keys()?;
    // More octets than the packet has.
    let mut work = [0xEE; 64];
    let answer = open_in(&keys, true, &CIPHERED, &mut work)?;
    assert!(rt; answer.tar == TAR);
    assert!(rt; answer.counter == Counter(1));
    assert_eq!(rt; answer.status, 0x00);
    let behind = work.get(answer.from as usize..).ok_or("outside")?;
    assert_eq!(rt; answer.len, 3);
    assert!(rt; behind.starts_with(&[0x03, 0x69, 0x81]));
    match open_in(&keys, false, &UNSECURED, &mut work) {
        Ok(_) => assert!(rt; false, "opened"),
        Err(refusal) => assert_eq!(rt; refusal, AnswerErr::Unsecured(0x06)),
    }
    Ok(())
}

/// Opens a packet, and compares the refusal.
fn refuses(
    rt: &impl Abort,
    alloc: Global,
    ciphered: bool,
    packet: &[u8],
    want: AnswerErr,
) -> Result<(), Fail> {
    let keys = keys()?;
    match open(alloc, &keys, ciphered, packet) {
        Ok(_) => assert!(rt; false, "opened, and not {want:?}"),
        Err(refusal) => assert_eq!(rt; refusal, want),
    }
    Ok(())
}

#[test]
fn changed_octets_are_refused(rt: HostRuntime) -> Result<(), Fail> {
    // One octet of the packet that isn't ciphered, its new value, and the refusal.
    let cases: [(usize, u8, AnswerErr); 10] = [
        // RPL one more or less, RHL of neither form, RHL of the unsecured form.
        (1, 0x17, AnswerErr::Form),
        (1, 0x15, AnswerErr::Form),
        (2, 0x13, AnswerErr::Form),
        (2, 0x0A, AnswerErr::Unsecured(0x00)),
        // TAR, counter, PCNTR, status, CC and the data.
        (3, 0xB1, AnswerErr::CcWrong),
        (10, 0x02, AnswerErr::CcWrong),
        (11, 0x04, AnswerErr::CcWrong),
        (12, 0x07, AnswerErr::CcWrong),
        (13, 0x1B, AnswerErr::CcWrong),
        (23, 0x82, AnswerErr::CcWrong),
    ];
    for (at, octet, want) in cases {
        let mut packet = PLAIN;
        if let Some(place) = packet.get_mut(at) {
            *place = octet;
        }
        refuses(&rt, rt.alloc(), false, &packet, want)?;
    }
    Ok(())
}

#[test]
fn first_refusal_that_applies(rt: HostRuntime) -> Result<(), Fail> {
    let mut forged = CIPHERED;
    if let Some(octet) = forged.get_mut(20) {
        *octet ^= 0x10;
    }
    let cases: [(bool, &[u8], AnswerErr); 11] = [
        // One bit of the ciphered octets of CC changed.
        (true, &forged, AnswerErr::CcWrong),
        // RHL is 12: an octet missing, and the fewest octets that have the form.
        (false, &SHORT[..20], AnswerErr::Form),
        (false, &SHORT, AnswerErr::CcWrong),
        // Nothing, too little, an octet missing.
        (true, &[], AnswerErr::Form),
        (true, &UNSECURED[..12], AnswerErr::Form),
        (true, &CIPHERED[..37], AnswerErr::Form),
        // Not whole blocks where ciphered is asked; ciphered octets opened as plain.
        (true, &PLAIN, AnswerErr::Form),
        (false, &CIPHERED, AnswerErr::CcWrong),
        // With CC there are at least 21 octets.
        (
            false,
            &[
                0x00, 0x0B, 0x12, 0xB0, 0x00, 0x10, 0x00, 0x00, 0x00, 0x00, 0x00, 0x00, 0x06,
            ],
            AnswerErr::Form,
        ),
        (true, &UNSECURED, AnswerErr::Unsecured(0x06)),
        // CC is right, and there are fewer octets than PCNTR says.
        (false, &PADDED_ABOVE, AnswerErr::Padding),
    ];
    for (ciphered, packet, want) in cases {
        refuses(&rt, rt.alloc(), ciphered, packet, want)?;
    }
    Ok(())
}

#[test]
fn statuses_that_settle(rt: HostRuntime) {
    for status in 0..=255 {
        let settles = status == 0 || status == 7 || status == 9;
        assert_eq!(rt; is_settling(status), settles, "{status}");
    }
}
