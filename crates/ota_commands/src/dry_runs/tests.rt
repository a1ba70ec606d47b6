//! Dry runs by hand: what is written, and how each ends.

use super::*;
use ota_io::MemSink;
use std::alloc::AllocError;
use std::test::Fail;

/// Words behind `try`, and what is written.
const WRITTEN: &str = "\
--part rfm --script aa09220700a40000027f10 > ab0780010123029000
--part rfm --script aa10220700a40000026fa1220500b000000a > ab1580010223029000230cffffffffffffffffffff9000
# Compact scripts: done, refused, with data, and on applets.
--part rfm --script 00a40000027f1000a40000026f3a00d6000003aabbcc > 036981
--part rfm --script 00a40000026fa100b000000a > 029000ffffffffffffffffffff
--part rfm --script 00 > 016700
--part ram --script 80e602000a05a0000000010000000080e8800004c402112280e60c001a05a00000000106a0000000010106a00000000102010002c9000080f24000024f00 > 04900006a000000001020700
--part rfm --script 80f24000024f00 > 016d00
# The options in any order, with = or without, and digits of either case.
--script aa09220700a40000027f10 --part rfm > ab0780010123029000
--part=rfm --script=AA09220700A40000027F10 > ab0780010123029000
--script=00a40000023f00 --part ram > 016d00";

/// Words behind `try`, and the fault's text.
const REFUSED: &str = "\
--part rfm --script aa0322020000 > script refused: length 1
--part rfm --script aa0422020000 > script refused: command 4
--part ram --script aa0100 > script refused: child 2
--part rfm --script aa > script refused: length 1";

/// Words that are none of the command.
const NO_WORDS: &str = "\
-
try
try --part rfm
try --script 00
try --part rfm --script
try --part --script 00
try --part rfm --script 0
try --part rfm --script 0g
try --part rfm --script=
try --part= --script 00
try --part RFM --script 00
try --part rfm --part rfm --script 00
try --part rfm --script 00 --script 00
try --part rfm --script 00 more
try --part rfm --script 00 --more
try --part rfm --script 00 --
try -- --part rfm --script 00
try --part rfm --script -00
try --par rfm --script 00
try -p rfm --script 00
try --part rfm --script 00 --help
try --part rfm --script 00 --version
try --help
try help
dry --part rfm --script 00
--part rfm --script 00";

/// The words of a line; none, where it is a hyphen.
fn words_of(alloc: Global, line: &str) -> Result<Vec<String>, AllocError> {
    let mut words = Vec::new(alloc);
    if line != "-" {
        for word in line.split_whitespace() {
            words.push(String::from_str(alloc, word)?)?;
        }
    }
    Ok(words)
}

/// A dry run that has room for so many octets, and what it wrote.
fn run(alloc: Global, words: &[String], room: usize) -> Result<(Drilled, String), Fail> {
    let mut out = MemSink::new(alloc, room, Vec::new(alloc)).map_err(|_| AllocError)?;
    let ended = dry_run(alloc, words, &mut out);
    let text = str::from_utf8(out.content()).map_err(|_| Fail::from("no text"))?;
    let text = String::from_str(alloc, text)?;
    Ok((ended, text))
}

#[test]
fn responses_are_written(rt: HostRuntime) -> Result<(), Fail> {
    for line in WRITTEN.lines() {
        if let Some((said, want)) = line.split_once(" > ") {
            let said = format!(in rt.alloc(); "try {said}")?;
            let words = words_of(rt.alloc(), &said)?;
            let (ended, text) = run(rt.alloc(), &words, 1000)?;
            let want = format!(in rt.alloc(); "{want}\n")?;
            assert_eq!(rt; ended.status, 0, "{line}");
            assert!(rt; ended.fault.is_none(), "{line}");
            assert_eq!(rt; text.as_str(), want.as_str(), "{line}");
        }
    }
    Ok(())
}

#[test]
fn refused_scripts_have_status_18(rt: HostRuntime) -> Result<(), Fail> {
    for line in REFUSED.lines() {
        if let Some((said, want)) = line.split_once(" > ") {
            let said = format!(in rt.alloc(); "try {said}")?;
            let words = words_of(rt.alloc(), &said)?;
            let (ended, text) = run(rt.alloc(), &words, 1000)?;
            assert_eq!(rt; ended.status, 18, "{line}");
            assert_eq!(rt; text.as_str(), "", "{line}");
            match ended.fault {
                Some(fault) => {
                    let got = format!(in rt.alloc(); "{fault}")?;
                    assert_eq!(rt; got.as_str(), want, "{line}");
                }
                None => return Err(Fail::from("a fault")),
            }
        }
    }
    Ok(())
}

#[test]
fn other_words_have_status_10(rt: HostRuntime) -> Result<(), Fail> {
    for line in NO_WORDS.lines() {
        let words = words_of(rt.alloc(), line)?;
        let (ended, text) = run(rt.alloc(), &words, 1000)?;
        assert_eq!(rt; ended.status, 10, "{line}");
        assert_eq!(rt; text.as_str(), "", "{line}");
    }
    Ok(())
}

/// The words for a compact script of so many SELECTs of the MF and an octet.
fn selects(alloc: Global, count: usize) -> Result<Vec<String>, AllocError> {
    let mut script = String::new(alloc);
    for _ in 0..count {
        script.push_str("00a40000023f00")?;
    }
    script.push_str("00")?;
    let mut words = words_of(alloc, "try --part rfm --script")?;
    words.push(script)?;
    Ok(words)
}

#[test]
fn compact_scripts_have_4096_octets_at_most(rt: HostRuntime) -> Result<(), Fail> {
    let (ended, text) = run(rt.alloc(), &selects(rt.alloc(), 585)?, 1000)?;
    assert_eq!(rt; ended.status, 0);
    assert_eq!(rt; text.as_str(), "ff6700\n");
    let (ended, _) = run(rt.alloc(), &selects(rt.alloc(), 586)?, 1000)?;
    assert_eq!(rt; ended.status, 10);
    Ok(())
}

#[test]
fn a_full_sink_has_a_part(rt: HostRuntime) -> Result<(), Fail> {
    let words = words_of(rt.alloc(), "try --part rfm --script 00a40000023f00")?;
    let (ended, text) = run(rt.alloc(), &words, 4)?;
    assert_eq!(rt; ended.status, 21);
    assert_eq!(rt; text.as_str(), "0190");
    Ok(())
}
