// The octets of packets are those of `openssl enc -aes-128-cbc -nopad` from a zero block and `openssl mac CMAC`, over the
// fields as ETSI TS 102 225, 5.1 lays them out, cut as 3GPP TS 23.040, 9.2.3.24.1 says.
ghost use Rattle.std.specs.Prelude.{◌≤◌, All};
ghost use Rattle.std.specs.Bool.{OnTrue};
ghost use Rattle.reports.specs.Packets.{HasBody};

use crate::{cards_text, packet_text, report_text, summary_text, times_text};
use ota_core::{
    CardId, Counter, Entry, History, Job, JobId, KeyBytes, KeysetFacts, KeysetId, Memory, Mode,
    Octets, Tar,
};
use plan_reader::{Plan, read_plan};
use std::alloc::{AllocError, Global};
use std::test::Fail;

const KIC: [u8; 16] = [
    0x00, 0x01, 0x02, 0x03, 0x04, 0x05, 0x06, 0x07, 0x08, 0x09, 0x0A, 0x0B, 0x0C, 0x0D, 0x0E, 0x0F,
];

const KID: [u8; 16] = [
    0x2B, 0x7E, 0x15, 0x16, 0x28, 0xAE, 0xD2, 0xA6, 0xAB, 0xF7, 0x15, 0x88, 0x09, 0xCF, 0x4F, 0x3C,
];

const TAR: Tar = Tar([0xB0, 0x00, 0x10]);

const SCRIPT: [u8; 22] = [
    0x00, 0xA4, 0x00, 0x00, 0x02, 0x7F, 0x10, 0x00, 0xA4, 0x00, 0x00, 0x02, 0x6F, 0x3A, 0x00, 0xD6,
    0x00, 0x00, 0x03, 0xAA, 0xBB, 0xCC,
];

fn keyset(kvn: u8) -> KeysetId
    requires above { 1 ≤ kvn }
    requires below { kvn ≤ 15 }
{
    KeysetId {
        card: CardId(8901),
        kvn,
    }
}

fn facts(base: Counter, mode: Mode, ciphered: bool) -> Result<KeysetFacts, Fail> {
    let kic = KeyBytes::new(&KIC).ok().ok_or("a key has 16 octets")?;
    let kid = KeyBytes::new(&KID).ok().ok_or("a key has 16 octets")?;
    Ok(KeysetFacts {
        base,
        mode,
        ciphered,
        kic,
        kid,
    })
}

fn opened(keyset: KeysetId, base: Counter, mode: Mode, ciphered: bool) -> Result<Entry, Fail> {
    let facts = facts(base, mode, ciphered)?;
    Ok(Entry::Open {
        by: 0,
        moment: 0,
        keyset,
        facts,
    })
}

fn reserved(
    alloc: Global,
    keyset: KeysetId,
    counter: Counter,
    job: u32,
    script: &[u8],
) -> Result<Entry, Memory> {
    let body = Octets::from_slice(alloc, script)?;
    Ok(Entry::Reserve {
        by: 1,
        moment: 0,
        keyset,
        counter,
        job: JobId { campaign: 7, job },
        tar: TAR,
        name: Octets::from_slice(alloc, &[])?,
        body,
    })
}

fn done(alloc: Global, keyset: KeysetId, counter: Counter, answer: &[u8]) -> Result<Entry, Memory> {
    let answer = Octets::from_slice(alloc, answer)?;
    Ok(Entry::Done {
        by: 1,
        moment: 0,
        keyset,
        counter,
        answer,
    })
}

fn refused(keyset: KeysetId, counter: Counter) -> Entry {
    Entry::Refused {
        by: 1,
        moment: 0,
        keyset,
        counter,
        status: 9,
    }
}

fn job(alloc: Global, keyset: KeysetId, job: u32) -> Result<Job, Memory> {
    let body = Octets::from_slice(alloc, &SCRIPT)?;
    Ok(Job {
        id: JobId { campaign: 7, job },
        keyset,
        tar: TAR,
        body,
    })
}

fn add(history: &mut History, entry: Entry) -> Result<(), Fail> {
    if history.may_add(&entry).is_err() {
        return Err(Fail::from("the entry is illegal"));
    }
    history.add(entry)?;
    Ok(())
}

fn has_body(entry: &Entry) -> bool
    ensures { OnTrue result (HasBody entry.now) }
{
    match entry {
        Entry::Reserve { body, .. } => {
            let len = body.as_slice().len();
            len >= 1 && len <= 4096
        }
        _ => true,
    }
}

fn have_bodies(entries: &[Entry]) -> bool
    ensures { OnTrue result (All HasBody entries.now) }
{
    for entry in entries {
        if !has_body(entry) {
            return false;
        }
    }
    true
}

fn all_have_bodies(histories: &[History]) -> bool
    ensures { OnTrue result (All (λ history. All HasBody history.entries) histories.now) }
{
    for history in histories {
        if !have_bodies(history.entries()) {
            return false;
        }
    }
    true
}

fn text_of(alloc: Global, jobs: &[Job], histories: &[History]) -> Result<String, Fail> {
    if histories.is_empty() || !all_have_bodies(histories) {
        return Err(Fail::from("there is a lane, and each script has 1 to 4,096 octets"));
    }
    Ok(packet_text(alloc, jobs, histories)?)
}

#[test]
fn only_unsettled_reservations_are_sent(rt: HostRuntime) -> Result<(), Fail> {
    let alloc = rt.alloc();
    let first = keyset(1);
    let mut history = History::new(alloc);
    add(&mut history, opened(first, Counter(0), Mode::Higher, true)?)?;
    let jobs = vec![in alloc;
        job(alloc, first, 1)?,
        job(alloc, first, 2)?,
        job(alloc, first, 3)?,
        job(alloc, first, 4)?,
    ]?;
    add(
        &mut history,
        reserved(alloc, first, Counter(1), 1, &SCRIPT)?,
    )?;
    add(
        &mut history,
        reserved(alloc, first, Counter(2), 2, &SCRIPT)?,
    )?;
    add(
        &mut history,
        done(alloc, first, Counter(2), &[0x03, 0x69, 0x81])?,
    )?;
    add(
        &mut history,
        reserved(alloc, first, Counter(3), 3, &SCRIPT)?,
    )?;
    add(&mut history, refused(first, Counter(3)))?;
    let histories = vec![in alloc; history]?;
    let text = text_of(alloc, &jobs, &histories)?;
    assert_eq!(rt;
        text.as_str(),
        "job,counter,place,octets\n1,0000000001,1,02700000381516391212b000106512b72bf01bea6df7860781072d78af5318e78f84a52ec01c2bf2bfb4f1d0a7f97786daca97a62deea470515f4f803e\n"
    );
    Ok(())
}

#[test]
fn a_longer_packet_is_sent_in_two_messages(rt: HostRuntime) -> Result<(), Fail> {
    let alloc = rt.alloc();
    let second = keyset(2);
    let mut history = History::new(alloc);
    add(
        &mut history,
        opened(second, Counter(0x1FE), Mode::Next, false)?,
    )?;
    add(
        &mut history,
        reserved(alloc, second, Counter(0x1FF), 2, &[0x5A; 114])?,
    )?;
    // a card of an odd number is on the second of two lanes
    let histories = vec![in alloc; History::new(alloc), history]?;
    let jobs = vec![in alloc; job(alloc, second, 2)?]?;
    let text = text_of(alloc, &jobs, &histories)?;
    assert_eq!(rt;
        text.as_str(),
        "job,counter,place,octets\n2,00000001ff,1,070003ff020170000088151a292222b0001000000001ff005425a8f641907bd95a5a5a5a5a5a5a5a5a5a5a5a5a5a5a5a5a5a5a5a5a5a5a5a5a5a5a5a5a5a5a5a5a5a5a5a5a5a5a5a5a5a5a5a5a5a5a5a5a5a5a5a5a5a5a5a5a5a5a5a5a5a5a5a5a5a5a5a5a5a5a5a5a5a5a5a5a5a5a5a5a5a5a5a5a5a5a5a5a5a5a5a5a5a5a5a5a5a5a5a5a5a5a5a5a5a5a5a\n2,00000001ff,2,050003ff02025a5a5a5a5a5a\n"
    );
    Ok(())
}

// 146 selections and three octets: 1,025 octets. The packet leaves under a reference of two octets, in seven messages of 140
// octets and one of 128.
#[test]
fn a_long_script_is_sent_under_a_wide_reference(rt: HostRuntime) -> Result<(), Fail> {
    let alloc = rt.alloc();
    let first = keyset(1);
    let mut history = History::new(alloc);
    add(&mut history, opened(first, Counter(0), Mode::Higher, true)?)?;
    let mut script = Vec::new(alloc);
    for _ in 0..146 {
        script.extend_from_slice(&[0x00, 0xA4, 0x00, 0x00, 0x02, 0x3F, 0x00])?;
    }
    script.extend_from_slice(&[0x00, 0x00, 0x00])?;
    add(
        &mut history,
        reserved(alloc, first, Counter(1), 1, &script)?,
    )?;
    let jobs = vec![in alloc; job(alloc, first, 1)?]?;
    let text = text_of(alloc, &jobs, &[history])?;
    let front =
        "job,counter,place,octets\n1,0000000001,1,08080400010801700004181516391212b00010ee89e5c468";
    let back = "8c4ed136a3ceadfa3db933b78ab9816f50ec8786\n";
    assert_eq!(rt; text.len(), 2369);
    assert!(rt; text.as_str().starts_with(front));
    assert!(rt; text.as_str().ends_with(back));
    Ok(())
}

fn keyset_of(card: u64, kvn: u8) -> KeysetId
    requires above { 1 ≤ kvn }
    requires below { kvn ≤ 15 }
{
    KeysetId {
        card: CardId(card),
        kvn,
    }
}

// The reservation of a job of a named campaign, at a moment.
fn named(
    alloc: Global,
    moment: u64,
    counter: Counter,
    job: u32,
    name: &[u8],
) -> Result<Entry, Memory> {
    Ok(Entry::Reserve {
        by: 1,
        moment,
        keyset: keyset(1),
        counter,
        job: JobId { campaign: 7, job },
        tar: TAR,
        name: Octets::from_slice(alloc, name)?,
        body: Octets::from_slice(alloc, &SCRIPT)?,
    })
}

// Card 8901 with keyset 1, of which job 1 is done under the last counter; job 2 finds none.
fn exhausted(alloc: Global) -> Result<History, Fail> {
    let first = keyset(1);
    let mut history = History::new(alloc);
    add(
        &mut history,
        opened(first, Counter(0xFF_FFFF_FFFD), Mode::Higher, true)?,
    )?;
    add(
        &mut history,
        reserved(alloc, first, Counter(0xFF_FFFF_FFFE), 1, &SCRIPT)?,
    )?;
    add(
        &mut history,
        done(alloc, first, Counter(0xFF_FFFF_FFFE), &[0x03, 0x90, 0x00])?,
    )?;
    Ok(history)
}

#[test]
fn no_jobs_give_the_lines_of_columns(rt: HostRuntime) -> Result<(), Fail> {
    let alloc = rt.alloc();
    let histories = [History::new(alloc)];
    assert_eq!(rt;
        report_text(alloc, &[], &histories)?.as_str(),
        "job,card,kvn,outcome,counter,note\n"
    );
    assert_eq!(rt;
        summary_text(alloc, &[], &histories)?.as_str(),
        "jobs 0 done 0 refused 0 unsettled 0\n"
    );
    assert_eq!(rt;
        text_of(alloc, &[], &histories)?.as_str(),
        "job,counter,place,octets\n"
    );
    assert_eq!(rt;
        times_text(alloc, &[], &histories)?.as_str(),
        "job,name,reserved,settled\n"
    );
    assert_eq!(rt;
        cards_text(alloc, &plan_of(alloc, "")?, &histories)?.as_str(),
        "card,kvn,lane,state,last,reserved,done,refused,unsettled\n"
    );
    Ok(())
}

#[test]
fn an_exhausted_keyset_is_noted(rt: HostRuntime) -> Result<(), Fail> {
    let alloc = rt.alloc();
    let first = keyset(1);
    let histories = [exhausted(alloc)?];
    let jobs = vec![in alloc; job(alloc, first, 1)?, job(alloc, first, 2)?]?;
    assert_eq!(rt;
        report_text(alloc, &jobs, &histories)?.as_str(),
        "job,card,kvn,outcome,counter,note\n1,8901,1,done,fffffffffe,039000\n2,8901,1,unsettled,-,exhausted\n"
    );
    assert_eq!(rt;
        summary_text(alloc, &jobs, &histories)?.as_str(),
        "jobs 2 done 1 refused 0 unsettled 1\n"
    );
    Ok(())
}

// Of two lanes: on the first keysets 1 and 2 of card 8900, of which the second is closed, and on the second card 8901.
#[test]
fn each_outcome_has_its_line(rt: HostRuntime) -> Result<(), Fail> {
    let alloc = rt.alloc();
    let open = keyset_of(8900, 1);
    let closed = keyset_of(8900, 2);
    let mut history = History::new(alloc);
    add(&mut history, opened(open, Counter(0), Mode::Higher, true)?)?;
    add(&mut history, opened(closed, Counter(15), Mode::Next, true)?)?;
    add(
        &mut history,
        reserved(alloc, open, Counter(1), 4294967295, &SCRIPT)?,
    )?;
    add(&mut history, refused(open, Counter(1)))?;
    add(&mut history, reserved(alloc, open, Counter(2), 2, &SCRIPT)?)?;
    add(&mut history, done(alloc, open, Counter(2), &[])?)?;
    add(
        &mut history,
        reserved(alloc, closed, Counter(16), 3, &SCRIPT)?,
    )?;
    add(
        &mut history,
        Entry::Close {
            by: 0,
            moment: 0,
            keyset: closed,
        },
    )?;
    let histories = [history, History::new(alloc)];
    let jobs = vec![in alloc;
        job(alloc, open, 2)?,
        job(alloc, open, 4294967295)?,
        job(alloc, closed, 3)?,
        job(alloc, closed, 4)?,
        job(alloc, open, 5)?,
        job(alloc, keyset(1), 2)?,
    ]?;
    assert_eq!(rt;
        report_text(alloc, &jobs, &histories)?.as_str(),
        "job,card,kvn,outcome,counter,note\n2,8900,1,done,0000000002,-\n4294967295,8900,1,refused,0000000001,09\n3,8900,2,unsettled,0000000010,-\n4,8900,2,unsettled,-,closed\n5,8900,1,unsettled,-,-\n2,8901,1,unsettled,-,new\n"
    );
    assert_eq!(rt;
        summary_text(alloc, &jobs, &histories)?.as_str(),
        "jobs 6 done 1 refused 1 unsettled 4\n"
    );
    Ok(())
}

#[test]
fn a_job_has_the_times_of_its_last_reservation(rt: HostRuntime) -> Result<(), Fail> {
    let alloc = rt.alloc();
    let first = keyset(1);
    let mut history = History::new(alloc);
    add(&mut history, opened(first, Counter(0), Mode::Higher, true)?)?;
    add(&mut history, named(alloc, 40, Counter(1), 1, b"winter")?)?;
    add(
        &mut history,
        Entry::Refused {
            by: 1,
            moment: 45,
            keyset: first,
            counter: Counter(1),
            status: 7,
        },
    )?;
    add(&mut history, named(alloc, 50, Counter(2), 1, b"spring")?)?;
    add(
        &mut history,
        Entry::Done {
            by: 1,
            moment: 50,
            keyset: first,
            counter: Counter(2),
            answer: Octets::from_slice(alloc, &[0x03, 0x90, 0x00])?,
        },
    )?;
    add(
        &mut history,
        named(
            alloc,
            18446744073709551615,
            Counter(3),
            2,
            b"a,Z_09/z~@[`{:",
        )?,
    )?;
    add(
        &mut history,
        named(alloc, 18446744073709551615, Counter(4), 3, b"")?,
    )?;
    let jobs = vec![in alloc;
        job(alloc, first, 1)?,
        job(alloc, first, 2)?,
        job(alloc, first, 3)?,
        job(alloc, first, 4)?,
    ]?;
    assert_eq!(rt;
        times_text(alloc, &jobs, &[history])?.as_str(),
        "job,name,reserved,settled\n1,spring,50,50\n2,a?Z_09?z??????,18446744073709551615,-\n3,-,18446744073709551615,-\n4,-,-,-\n"
    );
    Ok(())
}

/// The plan with these tables.
fn plan_of(alloc: Global, tables: &str) -> Result<Plan, Fail> {
    let text = format!(in alloc; "campaign = 7\n{tables}")?;
    match read_plan(alloc, text.as_bytes()) {
        Ok(plan) => Ok(plan),
        Err(_) => Err(Fail::from("no plan")),
    }
}

/// The table of a keyset, with a key for the checksum of its own.
fn listed(alloc: Global, card: u64, kvn: u8, rest: &str) -> Result<String, AllocError> {
    format!(in alloc;
        "[[keyset]]\ncard = {card}\nkvn = {kvn}\nkic = \"000102030405060708090a0b0c0d0e0f\"\nkid = \"{card:016}{kvn:016}\"\n{rest}\n"
    )
}

// Card 8901 with keysets 1 and 3 and, later, 2; card 8902 with keyset 1, on the first of two lanes.
#[test]
fn keysets_stand_card_by_card(rt: HostRuntime) -> Result<(), Fail> {
    let alloc = rt.alloc();
    let first = keyset(1);
    let mut history = History::new(alloc);
    add(
        &mut history,
        opened(first, Counter(0xA), Mode::Higher, true)?,
    )?;
    add(
        &mut history,
        reserved(alloc, first, Counter(0xB), 1, &SCRIPT)?,
    )?;
    add(&mut history, refused(first, Counter(0xB)))?;
    add(
        &mut history,
        reserved(alloc, first, Counter(0xC), 1, &SCRIPT)?,
    )?;
    add(
        &mut history,
        reserved(alloc, first, Counter(0xD), 2, &SCRIPT)?,
    )?;
    add(
        &mut history,
        done(alloc, first, Counter(0xC), &[0x01, 0x90, 0x00])?,
    )?;
    add(
        &mut history,
        reserved(alloc, first, Counter(0xE), 3, &SCRIPT)?,
    )?;
    add(
        &mut history,
        opened(keyset(3), Counter(0x2A), Mode::Higher, true)?,
    )?;
    add(
        &mut history,
        Entry::Close {
            by: 0,
            moment: 0,
            keyset: keyset(3),
        },
    )?;
    let mut tables = String::from_str(alloc, "[[card]]\nnumber = 8901\n[[card]]\nnumber = 8902\n")?;
    for (card, kvn, rest) in [
        (8902, 9, "put = true"),
        (8901, 3, "base = \"000000002a\""),
        (8901, 2, "put = true"),
        (8901, 1, "base = \"000000000a\""),
        (8902, 2, "put = true"),
        (8902, 1, "base = \"ffffffffff\""),
    ] {
        tables.push_str(listed(alloc, card, kvn, rest)?.as_str())?;
    }
    assert_eq!(rt;
        cards_text(
            alloc,
            &plan_of(alloc, &tables)?,
            &[History::new(alloc), history]
        )?
        .as_str(),
        "card,kvn,lane,state,last,reserved,done,refused,unsettled\n8901,3,1,closed,000000002a,0,0,0,0\n8901,1,1,open,000000000e,4,1,1,2\n8901,2,1,new,0000000000,0,0,0,0\n8902,1,0,new,ffffffffff,0,0,0,0\n8902,9,0,new,0000000000,0,0,0,0\n8902,2,0,new,0000000000,0,0,0,0\n"
    );
    Ok(())
}

#[test]
fn a_reserved_job_is_in_every_text(rt: HostRuntime) -> Result<(), Fail> {
    let alloc = rt.alloc();
    let first = keyset(1);
    let mut history = History::new(alloc);
    add(&mut history, opened(first, Counter(0), Mode::Higher, true)?)?;
    add(
        &mut history,
        reserved(alloc, first, Counter(1), 1, &SCRIPT)?,
    )?;
    let histories = [history];
    let jobs = vec![in alloc; job(alloc, first, 1)?]?;
    let keyset = listed(alloc, 8901, 1, "")?;
    let tables = format!(in alloc; "[[card]]\nnumber = 8901\n{keyset}")?;
    assert_eq!(rt;
        report_text(alloc, &jobs, &histories)?.as_str(),
        "job,card,kvn,outcome,counter,note\n1,8901,1,unsettled,0000000001,-\n"
    );
    let packets = text_of(alloc, &jobs, &histories)?;
    assert!(rt;
        packets
            .as_str()
            .starts_with("job,counter,place,octets\n1,0000000001,1,")
    );
    assert_eq!(rt; packets.len(), 25 + 15 + 122 + 1);
    assert_eq!(rt;
        cards_text(alloc, &plan_of(alloc, &tables)?, &histories)?.as_str(),
        "card,kvn,lane,state,last,reserved,done,refused,unsettled\n8901,1,0,open,0000000001,1,0,0,1\n"
    );
    Ok(())
}
