use super::*;
use apdu_codec::{ScriptErr, compact_response, split_script};
use ota_core::Tar;
use std::test::Fail;

/// Scripts on a new card, one a line: the path of the file that is selected first (-: the MF), the commands
/// behind that (-: none), and the compact response to the whole. A line that begins with # says what the
/// next ones are of.
const CASES: &str = "\
# What stands in a script.
- - 009000
- 00 016700
- 00a4000002 016700
- 00a40000023f0000 026700
- 00a40000023f00 019000
# The instruction, the class and the place are tested before P1, P2 and P3.
- 00c0000000 016d00
- 80c0000000 016d00
- 00f2000000 016d00
- 80a40400023f00 016e00
6fa0 0032000003000005 026e00
- 80b000000000a40000023f00 016e00
6fa1 00b080000000a40000023f00 026985
6fa1 00b000000000 026985
7f106f3a 00b201040000a40000023f00 026985
6fa0 00a20104010000a40000023f00 026985
6fa0 00a2010401000000 026985
# Instructions of the applets, and the one that both parts have.
- 80d8000224020110000102030405060708090a0b0c0d0e0f102b7e151628aed2a6abf7158809cf4f3c 016d00
- 80e602000a05a00000000100000000 016d00
- 80e8800004c4021122 016d00
- 80f0408006a00000000102 016d00
- 80f24000024f00 016d00
- 80f24000024f0000a40000023f00 016d00
- 80e40000074f05a000000001 016e00
- 80e40000026fa1 016e00
# SELECT by an identifier.
- 00a40004027f10 019000
- 00a4000c026fa1 019000
7f10 00a40000026f3a 029000
7f106f3a 00a40000026f42 029000
7f106f3a 00a40000023f0000d600000107 036986
7f10 00e000000601500100000000a40000027f10 039000
- 00e000000601500100000000a40000027f10 029000
7f106f3a 00a40000027f10 026a82
7f10 00a40000026fa1 026a82
7f10 00e000000601500100000000a40000022fe2 036a82
- 00a40000026f3a 016a82
- 00a40100023f00 016a86
- 00a40001023f00 016a86
- 00a40400013f 016a86
- 00a40000013f 016700
- 00a40000047f106f3a 016700
# SELECT by a path.
- 00a40800026fa1 019000
- 00a40800047f106f42 019000
7f10 00a40800026f3a 026a82
- 00a40800047f106fa1 016a82
- 00a40800046fa17f10 016a82
- 00a40800023f00 016a82
- 00a40800067f106f3a0000 016a82
- 00a40800087f106f3a00000000 016a82
- 00a40800037f106f 016700
- 00a408000a7f106f3a000000000000 016700
- 00a4080000 016700
# READ BINARY.
6fa1 00b0003e02 029000ffff
6fa1 00b0003d00 029000ffffff
6fa1 00b0800001 026a86
- 00b0800001 016a86
- 00b0000001 016986
7f106f3a 00b0000001 026981
6fa0 00b0000001 026981
2fe2 00b0000001 026982
2fe2 00b000ff01 026982
6fa1 000400000000b0000001 036985
6fa1 00b0004000 026b00
6fa1 00b0003f02 026b00
6fa1 00b07fff00 026b00
# UPDATE BINARY.
6fa1 00d6003f010700b0003e02 039000ff07
6fa1 00d6800000 026a86
6fa1 00d6000000 026700
- 00d600000107 016986
7f106f42 00d600000107 026981
2fe2 00d600ff0107 026982
6fa1 000400000000d600000107 036985
6fa1 00d6003f020707 026b00
# READ RECORD.
7f106f3a 00b20a041c 029000ffffffffffffffffffffffffffffffffffffffffffffffffffffffff
6fa0 00b2030400 029000000000
7f106f3a 00b2010300 026a86
- 00b2010400 016986
6fa1 00b2010400 026981
2fe2 00b2010400 026981
7f106f3a 000400000000b2010400 036985
7f106f3a 00b2000400 026a83
7f106f3a 00b20b041b 026a83
7f106f3a 00b201041b 026700
7f106f3a 00b201041d 026700
# UPDATE RECORD.
6fa0 00dc00030301010100dc00030302020200b2010400 049000020202
6fa0 00dc00030301010100dc00030302020200b2020400 049000010101
6fa0 00dc00030301010100dc00030302020200dc00030303030300dc00030304040400b2030400 069000020202
7f106f3a 00dc01050100 026a86
6fa0 00dc010303010203 026a86
- 00dc01040100 016986
- 00dc00030100 016986
6fa0 00dc010403010203 026981
7f106f3a 00dc00030100 026981
6fa1 00dc01040100 026981
6fa0 000400000000dc000303010203 036985
7f106f3a 000400000000dc01040100 036985
7f106f3a 00dc00040100 026a83
7f106f3a 00dc0b040100 026a83
7f106f3a 00dc01040100 026700
6fa0 00dc00030401020304 026700
# SEARCH RECORD.
6fa0 00a202040100 0290000203
6fa0 00a20104020000 029000010203
6fa0 00a2010403000000 029000010203
6fa0 00dc00030300070000a20104020007 03900001
6fa0 00a20104010000 029000010203
6fa0 00a201050100 026a86
6fa0 00a2010500 026a86
6fa0 00a2010400 026700
- 00a201040100 016986
6fa1 00a2010401ff 026981
6fa0 000400000000a201040100 036985
7f106f3a 00a2000401ff 026a83
7f106f3a 00a20b0401ff 026a83
6fa0 00a204040400000000 026a83
6fa0 00a201040400000000 026700
6fa0 00a201040101 026a83
# INCREASE.
6fa0 8032000003000005 029000000005000005
6fa0 80320000030000058032000003000100 039000000105000100
6fa0 8032000003ffffff 029000ffffffffffff
6fa0 80320000030000058032000003ffffff 039850
6fa0 8032000003ffffff8032000003000001 039850
6fa0 8032000003000005803200000300000700b2020400 049000000005
6fa0 8032010003000005 026a86
6fa0 8032000103000005 026a86
6fa0 80320000020005 026700
- 8032000003000005 016986
6fa1 8032000003000005 026981
7f106f3a 8032000003000005 026981
- 00e0000006046fb002000a8032000003000005 026981
- 00e0000006046fb01100228032000003000005 026981
- 00e0000006046fb01000208032000003000005 02900000000000000000000000000000000005000005
6fa0 00040000008032000003000005 036985
# DEACTIVATE FILE.
6fa1 0004000000 029000
- 00040000026fa1 019000
- 0004000100 016a86
- 0004010000 016a86
- 00040000016f 016700
- 00040000036fa100 016700
- 0004000000 016986
- 00040000026f3a 016a82
- 00040000027f10 016a82
2fe2 0004000000 026982
- 00040000022fe2 016982
6fa1 00040000000004000000 036985
# ACTIVATE FILE.
6fa1 0004000000004400000000b0003f00 049000ff
- 00040000026fa100440000026fa1 029000
- 0044020000 016a86
- 00440000016f 016700
- 0044000000 016986
- 00440000027f10 016a82
- 00440000022fe2 016982
- 00440000026fa1 016985
# CREATE FILE.
- 00e0000006026fb000001000b0000002 029000ffff
- 00e0000006036fb003000900b2030400 029000ffffff
- 00e0000006046fb003000900b2030400 029000000000
- 00e000000601500100000000e0000006026fb000001000a40000025001 036a82
- 00e0000006046fb00100fe 019000
- 00e0000006026fb0007e45 019000
7f10 00e000000601500100000000e000000601500200000000e0000006027f10000010 049000
- 00e000000601500100000000e000000601500200000000e000000601500300000000e0000006026fb0000001 049000
- 00e0010006026fb0000010 016a86
- 00e0000106026fb0000010 016a86
- 00e0000005026fb00000 016700
- 00e0000006006fb0000010 016a80
- 00e0000006056fb0000010 016a80
- 00e0000006023f00000010 016a80
7f10 00e0000006027f10000010 026a80
7f10 00e000000601500100000000e0000006027f10000010 036a80
- 00e0000006026fa1000010 016a80
- 00e0000006017f10000000 016a80
- 00e0000006015001010000 016a80
- 00e0000006015001000001 016a80
- 00e000000601500100000000e000000601500200000000e000000601500300000000e0000006015004000000 046a80
- 00e0000006026fb0010010 016a80
- 00e0000006026fb0000000 016a80
- 00e0000006036fb0000010 016a80
- 00e0000006036fb0040000 016a80
- 00e0000006036fb0030010 016a80
- 00e0000006046fb00100ff 016a80
- 00e0000006026fa100ffff 016a80
- 00e0000006026fb0007e46 016a84
# DELETE FILE.
- 00e40000026fa100a40000026fa1 026a82
6fa1 00e40000026fa100b0003f00 036986
6fa1 00e40000026fa000b0003f00 039000ff
- 00e40000027f1000a40800047f106f3a 026a82
- 00e40100026fa1 016a86
- 00e40001026fa1 016a86
- 00e40000016f 016700
- 00e40000036fa100 016700
- 00e40000026f3a 016a82
7f10 00e40000027f10 026a82
- 00e40000022fe2 016982
";

/// Scripts for the applets, one card a line: it is new, then come scripts (-: no commands), and behind each
/// one the compact response to it. A line that begins with # says what the next ones are of.
const APPLET_CASES: &str = "\
# What stands in a script.
- 009000
00 016700
80e602000a05a000000001000000 016700
80e602000a05a0000000010000000000 026700
80e600000080e602000a05a00000000100000000 016a86 80e8800004c4021122 016985
80e602000a05a00000000100000000 019000 80e8800004c4021122 019000 80f22000024f00 01900005a0000000010100
# The instruction, the class and the place are tested before P1, P2 and the data.
80c0000000 016d00
00c0000000 016d00
00a40000023f00 016d00
00b0000001 016d00
00b000000180f24000024f00 016d00
00d600000107 016d00
00b2010400 016d00
00dc01040100 016d00
00a201040100 016d00
00a20104010080f24000024f00 016d00
8032000003000005 016d00
0004000000 016d00
0044000000 016d00
00e0000006026fb0000010 016d00
00e40000026fa1 016e00
00e602000a05a00000000100000000 016e00
00e8800004c4021122 016e00
00e40000074f05a000000001 016e00
00f0408006a00000000102 016e00
00f24000024f00 016e00
84e602000a05a00000000100000000 016e00
00e6000000 016e00
00f24000024f0080f24000024f00 016e00
80f24000024f0080f24000024f00 016985
80f21000024f0080f24000024f00 016985
80f240000080f24000024f00 016985
80f24000024f0000 016a88
80f24000024f000000 016985
80f210000000 016a86
# INSTALL.
80e6000000 016a86
80e603000a05a00000000100000000 016a86
80e602010a05a00000000100000000 016a86
80e6020000 016a80
80e6040000 016a80
80e6080000 016a80
80e602000a05a0000000010000000080e602000a05a00000000100000000 026985
80e60c001a05a00000000106a0000000010106a00000000102010002c90000 016a88
80e604001a05a00000000106a0000000010106a00000000102010002c90000 016a88
80e608000d000006a0000000010201000000 016a88
# LOAD.
80e8010000 016a86
80e88000022122 016985
80e602000a05a0000000010000000080e8800104c4021122 026985
80e602000a05a0000000010000000080e8800002c480 026a80 80e8800004c4021122 016985
80e602000a05a0000000010000000080e8000002c40280e80001021122 039000
80e602000a05a0000000010000000080e8000002c40280e88001021122 039000
# DELETE.
80e40100074f05a000000001 016a86
80e40001074f05a000000001 016a86
80e4000000 016a80
80e40000024f00 016a80
80e40000074f05a000000001 016a88
80e602000a05a0000000010000000080e8800004c402112280e40000074f05a00000000180f22000024f00 046a88
# SET STATUS.
80f0808006a00000000102 016a86
80f0408000 016a80
80f0408006a00000000102 016a88
# GET STATUS.
80f21000024f00 016a86
80f24001024f00 016a86
80f2400000 016a80
80f24000024f00 016a88
80f22000024f00 016a88
80f28000024f00 016a88
# A load file and its application, and what becomes of them.
80e602000a05a0000000010000000080e8800004c402112280e60c001a05a00000000106a0000000010106a00000000102010002c9000080f24000024f00 04900006a000000001020700 80e40000074f05a000000001 016985 80f0408006a0000000010280f24000024f0000 02900006a000000001028700 80e608000d000006a0000000010201000000 016985 80e40080074f05a00000000180f24000024f00 026a88
80e602000a05a0000000010000000080e8800004c402112280e604001a05a00000000106a0000000010106a00000000102010002c90000 039000 80e608000d000006a000000001020100000080f24000024f00 02900006a000000001020700 80e40000084f06a0000000010280e40000074f05a000000001 029000
# PUT KEY.
80d8000224020110000102030405060708090a0b0c0d0e0f102b7e151628aed2a6abf7158809cf4f3c 019000 80d8000224020110000102030405060708090a0b0c0d0e0f102b7e151628aed2a6abf7158809cf4f3c 019000 80d8000224030110000102030405060708090a0b0c0d0e0f102b7e151628aed2a6abf7158809cf4f3c 016985
80d8000224020110000102030405060708090a0b0c0d0e0f102b7e151628aed2a6abf7158809cf4f3c80d8000224020110000102030405060708090a0b0c0d0e0f102b7e151628aed2a6abf7158809cf4f3c 029000
80d8000224020110000102030405060708090a0b0c0d0e0f102b7e151628aed2a6abf7158809cf4f3c80d8000224030110000102030405060708090a0b0c0d0e0f102b7e151628aed2a6abf7158809cf4f3c 026985
80d8000224020110000102030405060708090a0b0c0d0e0f102b7e151628aed2a6abf7158809cf4f3c80e602000a05a00000000100000000 029000 80f22000024f00 016a88
00d8000224020110000102030405060708090a0b0c0d0e0f102b7e151628aed2a6abf7158809cf4f3c 016e00
80d8010224020110000102030405060708090a0b0c0d0e0f102b7e151628aed2a6abf7158809cf4f3c 016a86
80d8000024020110000102030405060708090a0b0c0d0e0f102b7e151628aed2a6abf7158809cf4f3c 016a86
80d8000224040110000102030405060708090a0b0c0d0e0f102b7e151628aed2a6abf7158809cf4f3c 016a80
80d8000200 016a80
80d8000224020110000102030405060708090a0b0c0d0e0f102b7e151628aed2a6abf7158809cf4f 016700
";

/// A script that selects the file of a path, if one is said, and then goes on with these commands.
fn script_on(alloc: Global, path: &str, commands: &str) -> Result<Vec<u8>, Fail> {
    let path = octets(alloc, path)?;
    let mut script = Vec::new(alloc);
    if !path.is_empty() {
        script.extend_from_slice(&[0x00, 0xA4, 0x08, 0x00, (path.len() % 256) as u8])?;
        script.extend_from_slice(&path)?;
    }
    script.extend_from_slice(&octets(alloc, commands)?)?;
    Ok(script)
}

/// The compact response to a script on a card, in hexadecimal digits.
fn response(
    alloc: Global,
    card: &mut CardState,
    part: Part,
    script: &[u8],
) -> Result<String, Fail> {
    if script.len() > 5_000 {
        return Ok(String::new(alloc));
    }
    let ran = card.run_script(part, script)?;
    let octets = compact_response(ran.count, ran.reply.sw, ran.reply.out.as_slice());
    Ok(hex::encode(alloc, octets.as_slice())?)
}

/// The octets of hexadecimal digits; none, where a hyphen stands.
fn octets(alloc: Global, digits: &str) -> Result<Vec<u8>, Fail> {
    if digits == "-" {
        return Ok(Vec::new(alloc));
    }
    Ok(hex::decode(alloc, digits)?)
}

#[test]
fn commands_answer_as_their_table_says(rt: HostRuntime) -> Result<(), Fail> {
    for line in CASES.lines() {
        let mut words = line.split_whitespace();
        let path = words.next().unwrap_or("");
        let commands = words.next().unwrap_or("");
        let want = words.next().unwrap_or("");
        if path != "#" {
            let mut card = CardState::fresh(rt.alloc())?;
            let script = script_on(rt.alloc(), path, commands)?;
            let got = response(rt.alloc(), &mut card, Part::Files, &script)?;
            assert_eq!(rt; got.as_str(), want, "{line}");
        }
    }
    Ok(())
}

/// A script of many commands SELECT of the MF, and what stands behind them.
fn selects(alloc: Global, count: usize, behind: &[u8]) -> Result<Vec<u8>, Fail> {
    let mut script = Vec::new(alloc);
    for _ in 0..count {
        script.extend_from_slice(&[0x00, 0xA4, 0x00, 0x00, 0x02, 0x3F, 0x00])?;
    }
    script.extend_from_slice(behind)?;
    Ok(script)
}

/// Whether a script has so many commands, or is cut off at a place.
fn is_split(alloc: Global, script: &[u8], commands: usize, cut: Option<u32>) -> Result<bool, Fail> {
    if script.len() > 5_000 {
        return Ok(false);
    }
    match split_script(alloc, script) {
        Ok(found) => Ok(cut.is_none() && found.len() == commands),
        Err(ScriptErr::Short(at)) => Ok(cut == Some(at)),
        Err(ScriptErr::Memory) => Ok(false),
    }
}

#[test]
fn scripts_are_answered(rt: HostRuntime) -> Result<(), Fail> {
    let wrong_kind = hex::decode(rt.alloc(), "00a40000027f1000a40000026f3a00d6000003aabbcc")?;
    let written = hex::decode(
        rt.alloc(),
        "00a40000027f1000a40000026f3a00dc01041c4f7461ffffffffffffffffffffffffffffffffffffffffffffffffff",
    )?;
    let no_file = [0x00, 0xD6, 0x00, 0x00, 0x03, 0xAA, 0xBB, 0xCC];
    let cases = [
        (wrong_kind, 3, None, "036981"),
        (written, 3, None, "039000"),
        (selects(rt.alloc(), 14, &[])?, 14, None, "0e9000"),
        (selects(rt.alloc(), 13, &no_file)?, 14, None, "0e6986"),
        (
            selects(rt.alloc(), 146, &[0, 0])?,
            146,
            Some(1022),
            "936700",
        ),
        (selects(rt.alloc(), 256, &[])?, 256, None, "ff9000"),
    ];
    for (script, commands, cut, want) in cases.iter() {
        let mut card = CardState::fresh(rt.alloc())?;
        let got = response(rt.alloc(), &mut card, Part::Files, script)?;
        assert_eq!(rt; got.as_str(), *want);
        assert!(rt; is_split(rt.alloc(), script, *commands, *cut)?, "{want}");
    }
    Ok(())
}

#[test]
fn card_keeps_its_files_between_scripts(rt: HostRuntime) -> Result<(), Fail> {
    let mut card = CardState::fresh(rt.alloc())?;
    let cases = [
        ("00a40000026fa08032000003000005", "029000000005000005"),
        ("00a40000026fa08032000003ffffff", "029850"),
        ("8032000003000001", "016986"),
        ("00b000000100a40000023f00", "016985"),
        ("00e0000006026fb000001000b0000002", "029000ffff"),
        ("00a40000022fe200d600000100", "026982"),
    ];
    for (script, want) in cases {
        let script = hex::decode(rt.alloc(), script)?;
        let got = response(rt.alloc(), &mut card, Part::Files, &script)?;
        assert_eq!(rt; got.as_str(), want);
    }
    Ok(())
}

#[test]
fn applet_commands_answer_as_their_table_says(rt: HostRuntime) -> Result<(), Fail> {
    for line in APPLET_CASES.lines().filter(|line| !line.starts_with("#")) {
        let mut words = line.split_whitespace();
        let mut card = CardState::fresh(rt.alloc())?;
        while let Some(script) = words.next() {
            let script = octets(rt.alloc(), script)?;
            let got = response(rt.alloc(), &mut card, Part::Applets, &script)?;
            assert_eq!(rt; got.as_str(), words.next().unwrap_or(""), "{line}");
        }
    }
    Ok(())
}

/// A load file with an application that may be selected, and a list of the applications.
const APPLICATION_LOADED: &str =
    "80e602000a05a0000000010000000080e8800004c402112280e60c001a05a00000000106a0000000010106a00000000102010002c9000080f24000024f00";

#[test]
fn parts_of_a_card_leave_each_other_alone(rt: HostRuntime) -> Result<(), Fail> {
    let mut card = CardState::fresh(rt.alloc())?;
    let cases = [
        (Part::Files, "00a40000026fa100d60000021122", "029000"),
        (
            Part::Applets,
            APPLICATION_LOADED,
            "04900006a000000001020700",
        ),
        (Part::Applets, "80e602000a05a00000000200000000", "019000"),
        (Part::Files, "00a40000026fa100b0000003", "0290001122ff"),
        (Part::Files, "80f24000024f00", "016d00"),
        (Part::Files, "00e40000026fa1", "019000"),
        (Part::Applets, "00a40000027f10", "016d00"),
        (Part::Applets, "80e8800004c4021122", "019000"),
        (
            Part::Applets,
            "80f22000024f00",
            "01900005a000000001010005a0000000020100",
        ),
        (Part::Applets, "80f24000024f00", "01900006a000000001020700"),
        (Part::Files, "00a40000026fa1", "016a82"),
    ];
    for (part, script, want) in cases {
        let script = hex::decode(rt.alloc(), script)?;
        let got = response(rt.alloc(), &mut card, part, &script)?;
        assert_eq!(rt; got.as_str(), want);
    }
    Ok(())
}

#[test]
fn applet_commands_run_one_by_one(rt: HostRuntime) -> Result<(), Fail> {
    let script = hex::decode(rt.alloc(), APPLICATION_LOADED)?;
    if script.len() != 62 {
        assert!(rt; false, "the script has 62 octets");
        return Ok(());
    }
    let mut card = CardState::fresh(rt.alloc())?;
    card.begin_script();
    for (at, next) in [(0, Some(15)), (15, Some(24)), (24, Some(55)), (55, None)] {
        let step = card.run_one(Part::Applets, &script, at)?;
        assert_eq!(rt; step.reply.sw, 0x9000);
        assert_eq!(rt; step.next, next);
        // A new start leaves what is loaded, and the load under way.
        card.begin_script();
    }
    // The last command alone gives data, and what begins a second time is refused.
    let step = card.run_one(Part::Applets, &script, 55)?;
    let entry = [6, 0xA0, 0, 0, 0, 1, 2, 7, 0];
    assert_eq!(rt; step.reply.out.as_slice(), entry.as_slice());
    let step = card.run_one(Part::Applets, &script, 0)?;
    assert_eq!(rt; step.reply.sw, 0x6985);
    assert_eq!(rt; step.next, None);
    Ok(())
}

#[test]
fn commands_run_one_by_one(rt: HostRuntime) -> Result<(), Fail> {
    // SELECT of 6FA1, and UPDATE BINARY of its octets 0 and 1.
    let script = [
        0x00, 0xA4, 0x00, 0x00, 0x02, 0x6F, 0xA1, 0x00, 0xD6, 0x00, 0x00, 0x01, 0x11, 0x00, 0xD6,
        0x00, 0x01, 0x01, 0x22,
    ];
    let mut card = CardState::fresh(rt.alloc())?;
    card.begin_script();
    for (at, next) in [(0, Some(7)), (7, Some(13))] {
        let step = card.run_one(Part::Files, &script, at)?;
        assert_eq!(rt; step.reply.sw, 0x9000);
        assert_eq!(rt; step.next, next);
    }
    match card.files().octets_of(&[0x6FA1]) {
        Some(octets) => assert!(rt; octets.starts_with(&[0x11, 0xFF])),
        None => assert!(rt; false, "6FA1 is transparent"),
    }
    let step = card.run_one(Part::Files, &script, 13)?;
    assert_eq!(rt; step.reply.sw, 0x9000);
    assert_eq!(rt; step.next, None);
    // Behind the start of a script no EF is current.
    card.begin_script();
    let step = card.run_one(Part::Files, &script, 7)?;
    assert_eq!(rt; step.reply.sw, 0x6986);
    assert_eq!(rt; step.next, None);
    Ok(())
}

#[test]
fn reading_all_gives_at_most_256_octets(rt: HostRuntime) -> Result<(), Fail> {
    let mut card = CardState::fresh(rt.alloc())?;
    let script = hex::decode(rt.alloc(), "00e0000006026fb000012c00b0000000")?;
    let got = response(rt.alloc(), &mut card, Part::Files, &script)?;
    assert_eq!(rt; got.len(), 6 + 2 * 256);
    let script = hex::decode(rt.alloc(), "00a40000026fb000b0002d00")?;
    let got = response(rt.alloc(), &mut card, Part::Files, &script)?;
    assert_eq!(rt; got.len(), 6 + 2 * 255);
    Ok(())
}

#[test]
fn a_tar_asks_for_a_part(rt: HostRuntime) {
    let files = Tar([0xb0, 0x00, 0x10]);
    let applets = Tar([0x00, 0x00, 0x00]);
    let neither = Tar([0xb0, 0x00, 0x11]);
    assert_eq!(rt; Part::of(&files, &files, &applets), Some(Part::Files));
    assert_eq!(rt; Part::of(&applets, &files, &applets), Some(Part::Applets));
    assert_eq!(rt; Part::of(&neither, &files, &applets), None);
    assert_eq!(rt; Part::of(&files, &files, &files), Some(Part::Files));
}

#[test]
fn issued_keysets_are_not_put(rt: HostRuntime) -> Result<(), Fail> {
    let script = hex::decode(
        rt.alloc(),
        "80d8000224020110000102030405060708090a0b0c0d0e0f102b7e151628aed2a6abf7158809cf4f3c",
    )?;
    let mut card = CardState::issued(rt.alloc(), &[1, 2])?;
    assert!(rt; card.is_issued(1));
    let got = response(rt.alloc(), &mut card, Part::Applets, &script)?;
    assert_eq!(rt; got.as_str(), "016985");
    assert!(rt; card.put_keyset(2).is_none());
    let mut card = CardState::issued(rt.alloc(), &[1])?;
    let got = response(rt.alloc(), &mut card, Part::Applets, &script)?;
    assert_eq!(rt; got.as_str(), "019000");
    assert!(rt; !card.is_issued(2));
    match card.put_keyset(2) {
        Some(facts) => {
            let kid = hex::encode(rt.alloc(), facts.kid.as_slice())?;
            assert_eq!(rt; kid.as_str(), "2b7e151628aed2a6abf7158809cf4f3c");
        }
        None => assert!(rt; false, "keyset 2 was put"),
    }
    Ok(())
}
