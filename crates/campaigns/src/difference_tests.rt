use crate::tests::{TAR, add, done, keyset, opened, refused, reserved};
use crate::{job_difference, keyset_difference};
use keyset_book::Book;
use ota_core::{Counter, History, Job, JobId, KeysetId, Memory, Octets, Tar};
use plan_reader::read_plan;
use std::alloc::Global;
use std::test::Fail;

/// The keyset of card 8901 with the facts with which it is opened.
const OPENED: &str = "[[keyset]]
card = 8901
kvn = 1
kic = \"07070707070707070707070707070707\"
kid = \"07070707070707070707070707070707\"
";

/// The same with another key.
const OTHER: &str = "[[keyset]]
card = 8901
kvn = 1
kic = \"07070707070707070707070707070707\"
kid = \"07070707070707070707070707070708\"
";

/// The keyset of card 8900 with another key than that with which it is opened.
const OTHER_EVEN: &str = "[[keyset]]
card = 8900
kvn = 1
kic = \"07070707070707070707070707070707\"
kid = \"07070707070707070707070707070709\"
";

/// What differs from a plan of cards 8901 and 8900 with these keysets, where lane 0 of 2 has opened keyset 1 of card 8900
/// and lane 1 that of 8901.
fn differing_keyset(alloc: Global, keysets: &str) -> Result<Option<KeysetId>, Fail> {
    let text = format!(in alloc;
        "campaign = 7\n[[card]]\nnumber = 8901\n[[card]]\nnumber = 8900\n{keysets}"
    )?;
    let plan = match read_plan(alloc, text.as_bytes()) {
        Ok(plan) => plan,
        Err(_) => return Err(Fail::from("no plan")),
    };
    let mut even = History::new(alloc);
    let mut odd = History::new(alloc);
    add(&mut even, opened(8900, Counter(0))?)?;
    add(&mut odd, opened(8901, Counter(0))?)?;
    let books = [
        Book::from_history(alloc, &even)?,
        Book::from_history(alloc, &odd)?,
    ];
    Ok(keyset_difference(&plan, &books))
}

#[test]
fn a_keyset_with_other_facts_than_the_plan_is_named(rt: HostRuntime) -> Result<(), Fail> {
    let alloc = rt.alloc();
    let odd = Some(keyset(8901));
    assert_eq!(rt; differing_keyset(alloc, "")?, None);
    assert_eq!(rt; differing_keyset(alloc, OPENED)?, None);
    for fact in [
        "base = \"0000000001\"",
        "mode = \"next\"",
        "cipher = false",
        "put = true\ncipher = false",
    ] {
        let keysets = format!(in alloc; "{OPENED}{fact}\n")?;
        assert_eq!(rt;
            differing_keyset(alloc, keysets.as_str())?,
            odd,
            "at {fact}"
        );
    }
    assert_eq!(rt; differing_keyset(alloc, OTHER)?, odd);
    let even_first = format!(in alloc; "{OTHER_EVEN}{OTHER}")?;
    assert_eq!(rt; differing_keyset(alloc, even_first.as_str())?, odd);
    let later_first = format!(in alloc; "{OTHER}put = true\n{OTHER_EVEN}")?;
    assert_eq!(rt;
        differing_keyset(alloc, later_first.as_str())?,
        Some(keyset(8900))
    );
    let unopened = OTHER.replace(alloc, "kvn = 1", "kvn = 2")?;
    assert_eq!(rt; differing_keyset(alloc, unopened.as_str())?, None);
    Ok(())
}

fn row(alloc: Global, job: u32, card: u64, tar: Tar, body: &[u8]) -> Result<Job, Memory> {
    Ok(Job {
        id: JobId { campaign: 7, job },
        keyset: keyset(card),
        tar,
        body: Octets::from_slice(alloc, body)?,
    })
}

/// What differs from two rows: that of job 4, which is new, and this one. Lane 0 of 2 holds job 2 on card 8900; lane 1
/// holds jobs 1, 3 and 5 on card 8901, refused, done and unsettled.
fn differing_row(alloc: Global, second: Job) -> Result<Option<(u32, Counter)>, Fail> {
    let mut even = History::new(alloc);
    add(&mut even, opened(8900, Counter(0))?)?;
    add(&mut even, reserved(alloc, 8900, Counter(1), 2)?)?;
    let mut odd = History::new(alloc);
    add(&mut odd, opened(8901, Counter(0))?)?;
    add(&mut odd, reserved(alloc, 8901, Counter(1), 1)?)?;
    add(&mut odd, refused(8901, Counter(1)))?;
    add(&mut odd, reserved(alloc, 8901, Counter(2), 3)?)?;
    add(&mut odd, done(alloc, 8901, Counter(2))?)?;
    add(&mut odd, reserved(alloc, 8901, Counter(3), 5)?)?;
    let even_book = Book::from_history(alloc, &even)?;
    let odd_book = Book::from_history(alloc, &odd)?;
    let first = row(alloc, 4, 8901, TAR, &[0x00])?;
    Ok(job_difference(&[first, second], &[&even, &odd], &[even_book, odd_book]))
}

#[test]
fn the_first_row_that_a_lane_holds_otherwise_is_named(rt: HostRuntime) -> Result<(), Fail> {
    let alloc = rt.alloc();
    let other = Tar([0xB0, 0x00, 0x11]);
    for (job, card, tar, body, counter) in [
        (2, 8900, TAR, [0xA4], None),
        (3, 8901, TAR, [0xA4], None),
        (5, 8901, TAR, [0xA4], None),
        (6, 8901, TAR, [0x00], None),
        (1, 8901, TAR, [0x00], None),
        (1, 8900, other, [0x00], None),
        (3, 8901, TAR, [0x00], Some(Counter(2))),
        (3, 8901, other, [0xA4], Some(Counter(2))),
        (3, 8900, TAR, [0xA4], Some(Counter(2))),
        (5, 8903, TAR, [0xA4], Some(Counter(3))),
        (2, 8901, TAR, [0xA4], Some(Counter(1))),
    ] {
        let second = row(alloc, job, card, tar, &body)?;
        let found = differing_row(alloc, second)?;
        match counter {
            Some(counter) => assert_eq!(rt; found, Some((2, counter)), "at job {job}"),
            None => assert_eq!(rt; found, None, "at job {job}"),
        }
    }
    Ok(())
}
