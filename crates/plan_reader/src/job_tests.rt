use super::*;
use ota_core::{CardId, JobId, Tar};
use std::alloc::{AllocError, Global};
use std::test::Fail;

/// A card that is wide with one keyset, and one that isn't with a keyset that is put later.
const PLAN: &str = "campaign = 7
[[card]]
number = 8901
[[card]]
number = 8902
wide = true
[[keyset]]
card = 8902
kvn = 1
kic = \"000102030405060708090a0b0c0d0e0f\"
kid = \"000102030405060708090a0b0c0d0e0f\"
[[keyset]]
card = 8901
kvn = 12
kic = \"000102030405060708090a0b0c0d0e0f\"
kid = \"2b7e151628aed2a6abf7158809cf4f3c\"
put = true
";

fn plan(alloc: Global) -> Result<Plan, Fail> {
    match read_plan(alloc, PLAN.as_bytes()) {
        Ok(plan) => Ok(plan),
        Err(_) => Err(Fail::from("no plan")),
    }
}

fn count(alloc: Global, plan: &Plan, text: &[u8]) -> Option<usize> {
    match read_jobs(alloc, text, plan) {
        Ok(jobs) => Some(jobs.len()),
        Err(_) => None,
    }
}

fn is_refused(alloc: Global, plan: &Plan, text: &[u8], row: u32, column: Column) -> bool {
    match read_jobs(alloc, text, plan) {
        Ok(_) => false,
        Err(err) => err == JobsErr::Refused(row, column),
    }
}

#[test]
fn each_column_of_a_job_is_read(rt: HostRuntime) -> Result<(), Fail> {
    let alloc = rt.alloc();
    let plan = plan(alloc)?;
    let text =
        "job,card,kvn,tar,script\n0000000002,8901,12,B00010,00Ff\r\n\"1\",000000000000008902,01,\"000000\",\"0a\"";
    let jobs = match read_jobs(alloc, text.as_bytes(), &plan) {
        Ok(jobs) => jobs,
        Err(_) => return Err(Fail::from("no jobs")),
    };
    assert_eq!(rt; jobs.len(), 2);
    assert_eq!(rt;
        jobs[0].id,
        JobId {
            campaign: 7,
            job: 2
        }
    );
    assert_eq!(rt; jobs[0].keyset.card, CardId(8901));
    assert_eq!(rt; jobs[0].keyset.kvn, 12);
    assert_eq!(rt; jobs[0].tar, Tar([0xb0, 0x00, 0x10]));
    assert!(rt; jobs[0].body.as_slice() == [0x00, 0xff].as_slice());
    assert_eq!(rt;
        jobs[1].id,
        JobId {
            campaign: 7,
            job: 1
        }
    );
    assert_eq!(rt; jobs[1].keyset.card, CardId(8902));
    assert_eq!(rt; jobs[1].keyset.kvn, 1);
    assert_eq!(rt; jobs[1].tar, Tar([0x00, 0x00, 0x00]));
    assert!(rt; jobs[1].body.as_slice() == [0x0a].as_slice());
    Ok(())
}

#[test]
fn other_forms_of_a_list_are_read(rt: HostRuntime) -> Result<(), Fail> {
    let alloc = rt.alloc();
    let plan = plan(alloc)?;
    for (text, jobs) in [
        ("job,card,kvn,tar,script", 0),
        ("job,card,kvn,tar,script\n", 0),
        ("\u{feff}job,card,kvn,tar,script\r\n", 0),
        (
            "\n\n\"job\",\"card\",kvn,tar,script\n\n\n0,8902,1,b00010,00\n\n",
            1,
        ),
        (
            "job,card,kvn,tar,script\r1,8902,1,b00010,00\r2,8902,1,b00010,00",
            2,
        ),
        ("job,card,kvn,tar,script\n4294967295,8902,1,b00010,00", 1),
    ] {
        assert_eq!(rt;
            count(alloc, &plan, text.as_bytes()),
            Some(jobs),
            "at {text}"
        );
    }
    Ok(())
}

#[test]
fn each_refusal_of_the_header(rt: HostRuntime) -> Result<(), Fail> {
    let alloc = rt.alloc();
    let plan = plan(alloc)?;
    for text in [
        "",
        "\n",
        "\u{feff}",
        "job,card,kvn,tar",
        "job,card,kvn,tar,script,",
        "Job,card,kvn,tar,script",
        "job, card,kvn,tar,script",
        "job,card,kvn,script,tar",
        "job;card;kvn;tar;script",
        "\"job,card,kvn,tar,script\"",
        "1,8902,1,b00010,00\njob,card,kvn,tar,script",
        "\"job,card,kvn,tar,script",
        "'job',card,kvn,tar,script",
        "\n\u{feff}job,card,kvn,tar,script",
    ] {
        assert!(rt;
            is_refused(alloc, &plan, text.as_bytes(), 0, Column::Header),
            "at {text}"
        );
    }
    assert!(rt;
        is_refused(
            alloc,
            &plan,
            b"job,card,kvn,tar,script\xff\n",
            0,
            Column::Header
        )
    );
    assert!(rt; is_refused(alloc, &plan, b"\xff\xfej\x00", 0, Column::Header));
    Ok(())
}

#[test]
fn each_refusal_of_a_column(rt: HostRuntime) -> Result<(), Fail> {
    let alloc = rt.alloc();
    let plan = plan(alloc)?;
    for (row, column) in [
        ("2,8902,1,b00010", Column::Shape),
        ("2,8902,1,b00010,00,", Column::Shape),
        ("x", Column::Shape),
        (",0,,,", Column::Job),
        ("x,0,,,", Column::Job),
        (" 2,8902,1,b00010,00", Column::Job),
        ("+2,8902,1,b00010,00", Column::Job),
        ("4294967296,8902,1,b00010,00", Column::Job),
        ("00000000002,8902,1,b00010,00", Column::Job),
        ("1,8902,1,b00010,00", Column::Job),
        ("01,0,1,b00010,00", Column::Job),
        ("2,,0,b00010,00", Column::Card),
        ("2,8903,0,b00010,00", Column::Card),
        ("2,0000000000000008902,1,b00010,00", Column::Card),
        ("2,-8902,1,b00010,00", Column::Card),
        ("2,8902,,b0001,00", Column::Kvn),
        ("2,8902,0,b00010,00", Column::Kvn),
        ("2,8902,001,b00010,00", Column::Kvn),
        ("2,8902,12,b00010,00", Column::Kvn),
        ("2,8901,1,b00010,00", Column::Kvn),
        ("2,8902,99,b00010,00", Column::Kvn),
        ("2,8902,1,,", Column::Tar),
        ("2,8902,1,b0001,", Column::Tar),
        ("2,8902,1,b000100,00", Column::Tar),
        ("2,8902,1,b0001g,00", Column::Tar),
        ("2,8902,1,b00010,", Column::Script),
        ("2,8902,1,b00010,0", Column::Script),
        ("2,8902,1,b00010,000", Column::Script),
        ("2,8902,1,b00010,0x", Column::Script),
        ("2,8902,1,b00010,00 ", Column::Script),
        ("\"2,8902,1,b00010,00\"", Column::Shape),
        ("\"2\"\"\",8902,1,b00010,00", Column::Job),
        ("\"2\n\",8902,1,b00010,00", Column::Job),
        ("2,\"8902,\",1,b00010,00", Column::Card),
        ("2,8902,\"\",b00010,00", Column::Kvn),
        ("2,8902,1,\"b00010\"0,00", Column::Tar),
        ("2,8902,1,b00010,\"00\r\n\"", Column::Script),
    ] {
        let text = format!(in alloc; "job,card,kvn,tar,script\n1,8902,1,b00010,00\n{row}\n3\n")?;
        assert!(rt;
            is_refused(alloc, &plan, text.as_bytes(), 2, column),
            "at {row}"
        );
    }
    for (row, column) in [
        (b"\xff,8902,1,b00010,00".as_slice(), Column::Job),
        (b"1,\xc3\xa9,1,b00010,00".as_slice(), Column::Card),
        (b"1,8902,\x80,b00010,00".as_slice(), Column::Kvn),
        (b"1,8902,1,\xff\xff\xff,00".as_slice(), Column::Tar),
        (b"1,8902,1,b00010,\xff\xff".as_slice(), Column::Script),
    ] {
        let mut text = String::from_str(alloc, "job,card,kvn,tar,script\n")?.into_bytes();
        text.extend_from_slice(row)?;
        assert!(rt; is_refused(alloc, &plan, text.as_slice(), 1, column));
    }
    Ok(())
}

/// A list of so many jobs.
fn rows_text(alloc: Global, rows: u32) -> Result<String, AllocError> {
    let mut text = String::from_str(alloc, "job,card,kvn,tar,script\n")?;
    for job in 0..rows {
        let row = format!(in alloc; "{job},8902,1,b00010,00\n")?;
        text.push_str(row.as_str())?;
    }
    Ok(text)
}

/// A list of one job on a card with a script of so many octets.
fn script_text(alloc: Global, keyset: &str, octets: u32) -> Result<String, AllocError> {
    let mut text = String::from_str(alloc, "job,card,kvn,tar,script\n1,")?;
    text.push_str(keyset)?;
    text.push_str(",b00010,")?;
    for _ in 0..octets {
        text.push_str("a5")?;
    }
    text.push_str("\n")?;
    Ok(text)
}

#[test]
fn limits_of_a_list(rt: HostRuntime) -> Result<(), Fail> {
    let alloc = rt.alloc();
    let plan = plan(alloc)?;
    let mut rows = rows_text(alloc, 100_000)?;
    assert_eq!(rt; count(alloc, &plan, rows.as_bytes()), Some(100_000));
    rows.push_str("x,,,,\n")?;
    assert!(rt; is_refused(alloc, &plan, rows.as_bytes(), 100_001, Column::TooMany));
    let mut rows = rows_text(alloc, 100_000)?;
    rows.push_str("x\n")?;
    assert!(rt; is_refused(alloc, &plan, rows.as_bytes(), 100_001, Column::Shape));
    for (keyset, octets, is_read) in [
        ("8901,12", 1024, true),
        ("8901,12", 1025, false),
        ("8902,1", 1025, true),
        ("8902,1", 4096, true),
        ("8902,1", 4097, false),
    ] {
        let text = script_text(alloc, keyset, octets)?;
        if is_read {
            assert_eq!(rt;
                count(alloc, &plan, text.as_bytes()),
                Some(1),
                "at {octets}"
            );
        } else {
            assert!(rt;
                is_refused(alloc, &plan, text.as_bytes(), 1, Column::Script),
                "at {octets}"
            );
        }
    }
    Ok(())
}
