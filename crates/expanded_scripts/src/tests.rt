//! Scripts by hand: how they are read and written, and what a new card answers.

use super::*;
use ota_core::Octets;
use script_engine::{CardState, Part};
use std::alloc::Global;
use std::test::Fail;

/// Octets that are no script (-: none), and why.
const REFUSED: &str = "\
# No octets, and another tag.
- Tag
ab0780010123029000 Tag
# The template's length: missing, of no form, cut off, overrunning, ending too early.
aa Length(1)
aa80 Length(1)
aa830000 Length(1)
aa81 Length(1)
aa8200 Length(1)
aa01 Length(1)
aa0000 Length(1)
aa0322020000 Length(1)
aa09220700a40000027f1000 Length(1)
aa0a220700a40000027f10 Length(1)
# A child's tag.
aa0100 Child(2)
aa8103230100 Child(3)
aa8103230100ff Length(1)
aa0bff Length(1)
aa0b220700a40000027f10aa00 Child(11)
# A child's length: missing, of no form, cut off, overrunning the template.
aa0122 Length(3)
aa022280 Length(3)
aa022281 Length(3)
aa03228200 Length(3)
aa03220200 Length(3)
aa03228101 Length(3)
aa820009220800a40000027f10 Length(5)
aa0c220700a40000027f10220200 Length(12)
# A child's value: nothing, too short, data cut off, two octets behind the data, an Le without data.
aa022200 Command(4)
aa0422020000 Command(4)
aa08220600a40000027f Command(4)
aa0b220900a40000027f10ffff Command(4)
aa08220600b000000a00 Command(4)
aa0822060020000000ff Command(4)
aa0a228200060020000000ff Command(6)
aa0922810600b201040000 Command(5)
aa12220700a40000027f10220700a40000037f10 Command(13)";

/// Scripts, and as they are written.
const READ: &str = "\
aa00 aa00
aa8100 aa00
aa820000 aa00
aa09220700a40000027f10 aa09220700a40000027f10
aa810a22810700a40000027f10 aa09220700a40000027f10
aa82000b2282000700a40000027f10 aa09220700a40000027f10
aa06220400b00000 aa07220500b0000000
aa0e220400a4000022060020000001ff aa0f220500a400000022060020000001ff
aa07220500b000000a aa07220500b000000a
aa09220700a20104014f00 aa08220600a20104014f
aa08220600a20104014f aa08220600a20104014f
aa0a220800a40000023f0000 aa09220700a40000023f00
aa0722050020000000 aa0722050020000000
aa819022818d00d600008711111111111111111111111111111111111111111111111111111111111111111111111111111111111111111111111111111111111111111111111111111111111111111111111111111111111111111111111111111111111111111111111111111111111111111111111111111111111111111111111111111111111111111111111111111100 aa818f22818c00d6000087111111111111111111111111111111111111111111111111111111111111111111111111111111111111111111111111111111111111111111111111111111111111111111111111111111111111111111111111111111111111111111111111111111111111111111111111111111111111111111111111111111111111111111111111111111
aa8201092282010500d60000ff22222222222222222222222222222222222222222222222222222222222222222222222222222222222222222222222222222222222222222222222222222222222222222222222222222222222222222222222222222222222222222222222222222222222222222222222222222222222222222222222222222222222222222222222222222222222222222222222222222222222222222222222222222222222222222222222222222222222222222222222222222222222222222222222222222222222222222222222222222222222222222222222222222222222222222222222222222222222222222222222222222222222222222222222222222200 aa8201082282010400d60000ff222222222222222222222222222222222222222222222222222222222222222222222222222222222222222222222222222222222222222222222222222222222222222222222222222222222222222222222222222222222222222222222222222222222222222222222222222222222222222222222222222222222222222222222222222222222222222222222222222222222222222222222222222222222222222222222222222222222222222222222222222222222222222222222222222222222222222222222222222222222222222222222222222222222222222222222222222222222222222222222222222222222222222222222222222222";

/// Scripts, and what a new card answers to them on its files.
const RUNS: &str = "\
# Nothing is executed.
aa00 ab03800100
aa09220700a40000027f10 ab0780010123029000
aa10220700a40000026fa1220500b000000a ab1580010223029000230cffffffffffffffffffff9000
# P3 is missing: READ BINARY of all 64 octets. An output command may stand anywhere.
aa18220700a40000026fa1220400b00000220700a40000027f10 ab4f800103230290002342ffffffffffffffffffffffffffffffffffffffffffffffffffffffffffffffffffffffffffffffffffffffffffffffffffffffffffffffffffffffffffffffff900023029000
# The run ends behind a refused command, and the MF is selected at its start.
aa10220700a40000026f3a220500b000000a ab0780010123026a82
aa19220700a40000027f10220700a40000026fa1220500b000000a ab0b8001022302900023026a82
# SEARCH RECORD with its Le and without.
aa1c220700a40000027f10220700a40000026f3a220800a2010402ffff00 ab198001032302900023029000230c0102030405060708090a9000
aa1b220700a40000027f10220700a40000026f3a220700a2010402ffff ab198001032302900023029000230c0102030405060708090a9000
aa0722050020000000 ab0780010123026d00";

/// A script of INSTALL, LOAD, INSTALL and GET STATUS with its Le, and what a new card answers to it on its applets.
const RUNS_ON_APPLETS: [&str; 2] = [
    "aa47220f80e602000a05a00000000100000000220980e8800004c4021122221f80e60c001a05a00000000106a0000000010106a00000000102010002c90000220880f24000024f0000",
    "ab1c800104230290002302900023029000230b06a0000000010207009000",
];

/// The octets of hexadecimal digits; none, where a hyphen stands.
fn octets_of(alloc: Global, digits: &str) -> Result<Vec<u8>, Fail> {
    if digits == "-" {
        return Ok(Vec::new(alloc));
    }
    Ok(hex::decode(alloc, digits)?)
}

/// Why octets are no script.
fn refusal(alloc: Global, octets: &[u8]) -> Result<String, Fail> {
    match read_template(alloc, octets) {
        Ok(_) => Ok(String::new(alloc)),
        Err(error) => Ok(format!(in alloc; "{error:?}")?),
    }
}

/// What a card answers, in hexadecimal digits.
fn answer_of(
    alloc: Global,
    card: &mut CardState,
    part: Part,
    octets: &[u8],
) -> Result<String, Fail> {
    match read_template(alloc, octets) {
        Ok(script) => {
            let response = run_expanded(card, part, &script)?;
            Ok(hex::encode(alloc, response.as_slice())?)
        }
        Err(_) => Ok(String::new(alloc)),
    }
}

fn assert_len(octets: &Octets, len: usize) -> Result<(), Fail> {
    if octets.as_slice().len() == len {
        Ok(())
    } else {
        Err(Fail::from("another length"))
    }
}

/// A script as it is written again, in hexadecimal digits; none, where it comes out too long.
fn written_again(alloc: Global, octets: &[u8]) -> Result<String, Fail> {
    match read_template(alloc, octets) {
        Ok(script) => {
            let len = written_len(&script);
            if len > 4096 {
                return Ok(String::new(alloc));
            }
            let written = write_template(&script)?;
            assert_len(&written, len)?;
            Ok(hex::encode(alloc, written.as_slice())?)
        }
        Err(_) => Ok(String::new(alloc)),
    }
}

#[test]
fn refused_at_the_first_place(rt: HostRuntime) -> Result<(), Fail> {
    for line in REFUSED.lines() {
        let mut words = line.split_whitespace();
        let digits = words.next().unwrap_or("");
        let want = words.next().unwrap_or("");
        if digits != "#" {
            let octets = octets_of(rt.alloc(), digits)?;
            let got = refusal(rt.alloc(), &octets)?;
            assert_eq!(rt; got.as_str(), want, "{line}");
        }
    }
    Ok(())
}

#[test]
fn more_than_4096_octets_are_refused(rt: HostRuntime) -> Result<(), Fail> {
    let mut octets = Vec::new(rt.alloc());
    // A template of 4,096 octets: 676 children of 6 octets, and 4 of 9.
    octets.extend_from_slice(&[0xAA, 0x82, 0x0F, 0xFC])?;
    for _ in 0..676 {
        octets.extend_from_slice(&[0x22, 0x04, 0x00, 0xA4, 0x00, 0x00])?;
    }
    for _ in 0..4 {
        octets.extend_from_slice(&[0x22, 0x07, 0x00, 0xA4, 0x00, 0x00, 0x02, 0x7F, 0x10])?;
    }
    assert_eq!(rt; octets.len(), 4096);
    let got = refusal(rt.alloc(), &octets)?;
    assert_eq!(rt; got.as_str(), "");
    // Each of the 676 is written with its P3, and has an octet more then.
    match read_template(rt.alloc(), &octets) {
        Ok(script) => assert_eq!(rt; written_len(&script), 4772),
        Err(_) => return Err(Fail::from("a script")),
    }
    // The last command with an Le: one octet more.
    octets[3] = 0xFD;
    octets[4088] = 0x08;
    octets.push(0x00)?;
    let got = refusal(rt.alloc(), &octets)?;
    assert_eq!(rt; got.as_str(), "Length(1)");
    Ok(())
}

#[test]
fn written_with_least_lengths(rt: HostRuntime) -> Result<(), Fail> {
    for line in READ.lines() {
        let mut words = line.split_whitespace();
        let octets = octets_of(rt.alloc(), words.next().unwrap_or(""))?;
        let got = written_again(rt.alloc(), &octets)?;
        assert_eq!(rt; got.as_str(), words.next().unwrap_or(""), "{line}");
        let octets = octets_of(rt.alloc(), got.as_str())?;
        let again = written_again(rt.alloc(), &octets)?;
        assert_eq!(rt; again.as_str(), got.as_str(), "{line}");
    }
    Ok(())
}

#[test]
fn cards_answer_each_executed_command(rt: HostRuntime) -> Result<(), Fail> {
    for line in RUNS.lines() {
        let mut words = line.split_whitespace();
        let digits = words.next().unwrap_or("");
        let want = words.next().unwrap_or("");
        if digits != "#" {
            let mut card = CardState::fresh(rt.alloc())?;
            let octets = octets_of(rt.alloc(), digits)?;
            let got = answer_of(rt.alloc(), &mut card, Part::Files, &octets)?;
            assert_eq!(rt; got.as_str(), want, "{line}");
        }
    }
    Ok(())
}

#[test]
fn applets_answer_too(rt: HostRuntime) -> Result<(), Fail> {
    let [script, want] = RUNS_ON_APPLETS;
    let mut card = CardState::fresh(rt.alloc())?;
    let octets = octets_of(rt.alloc(), script)?;
    let got = answer_of(rt.alloc(), &mut card, Part::Applets, &octets)?;
    assert_eq!(rt; got.as_str(), want);
    Ok(())
}

/// A script that makes a file of 256 octets, and reads it all 260 times.
fn many_reads(alloc: Global) -> Result<Vec<u8>, Fail> {
    let mut octets = hex::decode(alloc, "aa820625220b00e0000006025001000100")?;
    for _ in 0..260 {
        octets.extend_from_slice(&[0x22, 0x04, 0x00, 0xB0, 0x00, 0x00])?;
    }
    Ok(octets)
}

/// The response script to it: 261 commands were executed.
fn many_entries(alloc: Global) -> Result<Vec<u8>, Fail> {
    let mut octets = hex::decode(alloc, "ab83010a1f8001ff23029000")?;
    for _ in 0..260 {
        octets.extend_from_slice(&[0x23, 0x82, 0x01, 0x02])?;
        octets.extend_from_slice(&[0xFF; 256])?;
        octets.extend_from_slice(&[0x90, 0x00])?;
    }
    Ok(octets)
}

#[test]
fn long_response_counts_255(rt: HostRuntime) -> Result<(), Fail> {
    let mut card = CardState::fresh(rt.alloc())?;
    let octets = many_reads(rt.alloc())?;
    let got = answer_of(rt.alloc(), &mut card, Part::Files, &octets)?;
    let want = hex::encode(rt.alloc(), many_entries(rt.alloc())?.as_slice())?;
    assert!(rt; got == want);
    Ok(())
}
