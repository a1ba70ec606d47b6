// What the generator gives is what scripts/drill-vectors prints, which shares no code with it.

use crate::{drill_jobs, drill_plan, work_list};
use keyset_book::Book;
use ota_core::{
    CardId, Counter, Entry, History, Job, JobId, KeyBytes, KeysetFacts, KeysetId, Memory, Mode,
    Octets, Tar,
};
use senders::Work;
use std::alloc::Global;
use std::test::Fail;

pub(crate) const TAR: Tar = Tar([0xB0, 0x00, 0x10]);

pub(crate) fn keyset(card: u64) -> KeysetId {
    KeysetId {
        card: CardId(card),
        kvn: 1,
    }
}

pub(crate) fn opened(card: u64, base: Counter) -> Result<Entry, Fail> {
    let key = KeyBytes::new(&[7; 16]).ok().ok_or("a key has 16 octets")?;
    Ok(Entry::Open {
        by: 0,
        moment: 0,
        keyset: keyset(card),
        facts: KeysetFacts {
            base,
            mode: Mode::Higher,
            ciphered: true,
            kic: key,
            kid: key,
        },
    })
}

pub(crate) fn reserved(
    alloc: Global,
    card: u64,
    counter: Counter,
    job: u32,
) -> Result<Entry, Memory> {
    Ok(Entry::Reserve {
        by: 1,
        moment: 0,
        keyset: keyset(card),
        counter,
        job: JobId { campaign: 7, job },
        tar: TAR,
        name: Octets::from_slice(alloc, &[])?,
        body: Octets::from_slice(alloc, &[0xA4])?,
    })
}

pub(crate) fn done(alloc: Global, card: u64, counter: Counter) -> Result<Entry, Memory> {
    Ok(Entry::Done {
        by: 1,
        moment: 0,
        keyset: keyset(card),
        counter,
        answer: Octets::from_slice(alloc, &[0x01, 0x90, 0x00])?,
    })
}

pub(crate) fn refused(card: u64, counter: Counter) -> Entry {
    Entry::Refused {
        by: 1,
        moment: 0,
        keyset: keyset(card),
        counter,
        status: 9,
    }
}

fn job(alloc: Global, job: u32, card: u64) -> Result<Job, Memory> {
    Ok(Job {
        id: JobId { campaign: 7, job },
        keyset: keyset(card),
        tar: TAR,
        body: Octets::from_slice(alloc, &[0x00, 0xA4])?,
    })
}

pub(crate) fn add(history: &mut History, entry: Entry) -> Result<(), Fail> {
    if history.may_add(&entry).is_err() {
        return Err(Fail::from("the entry is illegal"));
    }
    history.add(entry)?;
    Ok(())
}

// Jobs that are numbered from 1, on these cards.
fn jobs_on(alloc: Global, cards: &[u64]) -> Result<Vec<Job>, Memory> {
    let mut jobs = Vec::new(alloc);
    let mut number = 0u32;
    for card in cards {
        number = number.wrapping_add(1);
        jobs.push(job(alloc, number, *card)?)?;
    }
    Ok(jobs)
}

// The lanes and the numbers of the jobs of each piece, as `0: 1 3; 1: 2; `.
fn shape(alloc: Global, works: &[Work]) -> Result<String, Memory> {
    let mut text = String::new(alloc);
    for work in works {
        let lane = work.lane;
        write!(text, "{lane}:")?;
        for job in work.jobs.as_slice() {
            let number = job.id.job;
            write!(text, " {number}")?;
        }
        text.push_str("; ")?;
    }
    Ok(text)
}

// The shape of the work list of these jobs.
fn work_of(
    alloc: Global,
    jobs: &[Job],
    histories: &[History],
    retry: bool,
    batch: u32,
) -> Result<String, Fail> {
    let mut books = Vec::new(alloc);
    for history in histories {
        books.push(Book::from_history(alloc, history)?)?;
    }
    if books.is_empty() || books.len() > 64 {
        return Err(Fail::from("there are 1 to 64 lanes"));
    }
    let works = work_list(alloc, jobs, &books, retry, batch)?;
    Ok(shape(alloc, &works)?)
}

// One lane with card 8901, and nothing reserved behind this base.
fn one_lane(alloc: Global, base: Counter) -> Result<[History; 1], Fail> {
    let mut history = History::new(alloc);
    add(&mut history, opened(8901, base)?)?;
    Ok([history])
}

#[test]
fn jobs_join_the_last_piece_that_has_room(rt: HostRuntime) -> Result<(), Fail> {
    let alloc = rt.alloc();
    let histories = one_lane(alloc, Counter(0))?;
    let two = jobs_on(alloc, &[8901, 8901])?;
    let six = jobs_on(alloc, &[8901; 6])?;
    assert_eq!(rt;
        work_of(alloc, &two, &histories, false, 16)?.as_str(),
        "0: 1 2; "
    );
    assert_eq!(rt;
        work_of(alloc, &two, &histories, false, 1)?.as_str(),
        "0: 1; 0: 2; "
    );
    assert_eq!(rt;
        work_of(alloc, &two, &histories, false, 0)?.as_str(),
        "0: 1; 0: 2; "
    );
    assert_eq!(rt;
        work_of(alloc, &six, &histories, false, 5)?.as_str(),
        "0: 1 2 3 4 5; 0: 6; "
    );
    assert_eq!(rt;
        work_of(alloc, &six, &histories, false, 3)?.as_str(),
        "0: 1 2 3; 0: 4 5 6; "
    );
    assert_eq!(rt; work_of(alloc, &[], &histories, true, 16)?.as_str(), "");
    Ok(())
}

#[test]
fn pieces_stand_in_order_of_their_first_jobs(rt: HostRuntime) -> Result<(), Fail> {
    let alloc = rt.alloc();
    let mut even = History::new(alloc);
    let mut odd = History::new(alloc);
    add(&mut even, opened(8900, Counter(0))?)?;
    add(&mut odd, opened(8901, Counter(0))?)?;
    let histories = [even, odd];
    let jobs = jobs_on(alloc, &[8901, 8900, 8900, 8901, 8900, 8901, 8901, 8901])?;
    assert_eq!(rt;
        work_of(alloc, &jobs, &histories, false, 2)?.as_str(),
        "1: 1 4; 0: 2 3; 0: 5; 1: 6 7; 1: 8; "
    );
    Ok(())
}

#[test]
fn jobs_past_the_last_counter_are_left_out(rt: HostRuntime) -> Result<(), Fail> {
    let alloc = rt.alloc();
    let jobs = jobs_on(alloc, &[8901, 8901, 8901])?;
    let one = one_lane(alloc, Counter(0xFF_FFFF_FFFD))?;
    assert_eq!(rt; work_of(alloc, &jobs, &one, false, 16)?.as_str(), "0: 1; ");
    let two = one_lane(alloc, Counter(0xFF_FFFF_FFFC))?;
    assert_eq!(rt;
        work_of(alloc, &jobs, &two, false, 16)?.as_str(),
        "0: 1 2; "
    );
    let none = one_lane(alloc, Counter(0xFF_FFFF_FFFE))?;
    assert_eq!(rt; work_of(alloc, &jobs, &none, false, 16)?.as_str(), "");
    let past = one_lane(alloc, Counter(0xFF_FFFF_FFFF))?;
    assert_eq!(rt; work_of(alloc, &jobs, &past, false, 16)?.as_str(), "");
    Ok(())
}

// Job 1 is done, 2 is refused, 3 is unsettled, 4 is new, 5 is on a keyset that is closed, and 6 on one without Open.
#[test]
fn only_jobs_that_wait_for_a_counter_remain(rt: HostRuntime) -> Result<(), Fail> {
    let alloc = rt.alloc();
    let mut history = History::new(alloc);
    add(&mut history, opened(8901, Counter(0))?)?;
    add(&mut history, opened(8902, Counter(0))?)?;
    add(&mut history, reserved(alloc, 8901, Counter(1), 1)?)?;
    add(&mut history, done(alloc, 8901, Counter(1))?)?;
    add(&mut history, reserved(alloc, 8901, Counter(2), 2)?)?;
    add(&mut history, refused(8901, Counter(2)))?;
    add(&mut history, reserved(alloc, 8901, Counter(3), 3)?)?;
    add(
        &mut history,
        Entry::Close {
            by: 0,
            moment: 0,
            keyset: keyset(8902),
        },
    )?;
    let histories = [history];
    let jobs = jobs_on(alloc, &[8901, 8901, 8901, 8901, 8902, 8903])?;
    assert_eq!(rt;
        work_of(alloc, &jobs, &histories, false, 16)?.as_str(),
        "0: 4; "
    );
    assert_eq!(rt;
        work_of(alloc, &jobs, &histories, true, 16)?.as_str(),
        "0: 2 4; "
    );
    Ok(())
}

// Job 1 was refused on card 8900, and its row moves it to card 8901 on the other lane.
#[test]
fn a_refused_job_is_new_on_another_lane(rt: HostRuntime) -> Result<(), Fail> {
    let alloc = rt.alloc();
    let mut even = History::new(alloc);
    let mut odd = History::new(alloc);
    add(&mut even, opened(8900, Counter(0))?)?;
    add(&mut even, reserved(alloc, 8900, Counter(1), 1)?)?;
    add(&mut even, refused(8900, Counter(1)))?;
    add(&mut odd, opened(8901, Counter(0))?)?;
    let histories = [even, odd];
    let moved = jobs_on(alloc, &[8901])?;
    assert_eq!(rt;
        work_of(alloc, &moved, &histories, false, 1)?.as_str(),
        "1: 1; "
    );
    let stayed = jobs_on(alloc, &[8900])?;
    assert_eq!(rt; work_of(alloc, &stayed, &histories, false, 1)?.as_str(), "");
    Ok(())
}

#[test]
fn a_drill_has_the_octets_of_its_number(rt: HostRuntime) -> Result<(), Fail> {
    let alloc = rt.alloc();
    assert_eq!(rt;
        drill_plan(alloc, 7, 2)?.as_slice(),
        b"campaign = 1\n[[card]]\nnumber = 1\n[[card]]\nnumber = 2\n[[keyset]]\ncard = 1\nkvn = 1\nkic = \"7ef4e84544236752fbb56b8f31a23a10\"\nkid = \"0000000000000001e42814f5f55ca037\"\n[[keyset]]\ncard = 2\nkvn = 1\nkic = \"cdcc11c64c9a3b2949c1bb6070031461\"\nkid = \"00000000000000021732a6c2fea98eeb\"\n".as_slice()
    );
    assert_eq!(rt;
        drill_plan(alloc, 7, 0)?.as_slice(),
        b"campaign = 1\n".as_slice()
    );
    assert_eq!(rt;
        drill_jobs(alloc, 7, 2, 3)?.as_slice(),
        b"job,card,kvn,tar,script\n1,1,1,b00010,00a40000027f1000a40000026f3a00dc07041cf4e84544236752fbb56b8f31a23a10e42814f5f55ca037cdcc11c64c\n2,2,1,b00010,00a40000027f1000a40000026f3a00dc05041c3b2949c1bb60700314611732a6c2fea98eebc0266a11a93970100e97\n3,1,1,b00010,00a40000027f1000a40000026f3a00dc0a041cc2ea8498706d5e670216803c4e529f3749e0871017110d95ebefb8b1\n".as_slice()
    );
    assert_eq!(rt;
        drill_jobs(alloc, 7, 3, 0)?.as_slice(),
        b"job,card,kvn,tar,script\n".as_slice()
    );
    let long = drill_jobs(alloc, 18_446_744_073_709_551_615, 3, 50)?;
    assert!(rt;
        long.as_slice().ends_with(
            b"\n50,2,1,b00011,00a40000027f1000a40000026f3a00dc05041cdaa2b2eccbc3c6d73d50004fb35067009d55a4580acf779b6d8663e8\n"
        )
    );
    Ok(())
}
