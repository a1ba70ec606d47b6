ghost use Rattle.std.specs.Prelude.{◌≤◌};

use crate::{Book, BookErr, Looked, Settled};
use ota_core::{
    CardId, Counter, Entry, History, Illegal, JobId, KeyBytes, KeysetFacts, KeysetId, KeysetState,
    Mode, Octets, Reservation, Tar,
};
use std::alloc::Global;
use std::test::Fail;

fn keyset(kvn: u8) -> KeysetId
    requires above { 1 ≤ kvn }
    requires below { kvn ≤ 15 }
{
    KeysetId {
        card: CardId(8901),
        kvn,
    }
}

fn job(job: u32) -> JobId {
    JobId { campaign: 7, job }
}

fn facts(base: Counter) -> Result<KeysetFacts, Fail> {
    let key = KeyBytes::new(&[7; 16]).ok().ok_or("a key has 16 octets")?;
    Ok(KeysetFacts {
        base,
        mode: Mode::Higher,
        ciphered: true,
        kic: key,
        kid: key,
    })
}

fn opened(keyset: KeysetId, base: Counter) -> Result<Entry, Fail> {
    Ok(Entry::Open {
        by: 0,
        moment: 5,
        keyset,
        facts: facts(base)?,
    })
}

fn reserved(alloc: Global, keyset: KeysetId, counter: Counter, id: u32) -> Result<Entry, Fail> {
    Ok(Entry::Reserve {
        by: 1,
        moment: 5,
        keyset,
        counter,
        job: job(id),
        tar: Tar([0xb0, 0x00, 0x10]),
        name: Octets::from_slice(alloc, b"spring")?,
        body: Octets::from_slice(alloc, &[0xa4])?,
    })
}

fn done(alloc: Global, keyset: KeysetId, counter: Counter) -> Result<Entry, Fail> {
    Ok(Entry::Done {
        by: 1,
        moment: 6,
        keyset,
        counter,
        answer: Octets::from_slice(alloc, &[0x01, 0x90, 0x00])?,
    })
}

fn refused(keyset: KeysetId, counter: Counter, status: u8) -> Result<Entry, Fail> {
    Ok(Entry::Refused {
        by: 1,
        moment: 5,
        keyset,
        counter,
        status,
    })
}

fn closed(keyset: KeysetId, moment: u64) -> Result<Entry, Fail> {
    Ok(Entry::Close {
        by: 0,
        moment,
        keyset,
    })
}

/// Whether the book names this rule, or none. Where it names none, the entry is added.
fn answers(
    book: &mut Book,
    entry: Result<Entry, Fail>,
    expected: Result<(), Illegal>,
) -> Result<bool, Fail> {
    let entry = entry?;
    let answer = book.may_add(&entry);
    if answer.is_ok() {
        book.add(&entry)?;
    }
    Ok(answer == expected)
}

#[test]
fn rules_of_keysets_are_named(rt: HostRuntime) -> Result<(), Fail> {
    let alloc = rt.alloc();
    let mut book = Book::new(alloc);
    let one = keyset(1);
    let first = Counter(1);
    let other = reserved(alloc, one, first, 1);
    assert!(rt; answers(&mut book, other, Err(Illegal::NotOpened))?);
    let other = done(alloc, one, first);
    assert!(rt; answers(&mut book, other, Err(Illegal::NotOpened))?);
    assert!(rt; answers(&mut book, refused(one, first, 8), Err(Illegal::NotOpened))?);
    assert!(rt; answers(&mut book, closed(one, 5), Err(Illegal::NotOpened))?);
    assert!(rt; answers(&mut book, opened(one, Counter(0)), Ok(()))?);
    assert!(rt;
        answers(
            &mut book,
            opened(one, Counter(0)),
            Err(Illegal::OpenedTwice)
        )?
    );
    assert!(rt; answers(&mut book, closed(one, 4), Err(Illegal::Earlier(5)))?);
    assert!(rt; answers(&mut book, closed(one, 5), Ok(()))?);
    assert!(rt; answers(&mut book, closed(one, 4), Err(Illegal::Closed))?);
    let other = reserved(alloc, one, first, 1);
    assert!(rt; answers(&mut book, other, Err(Illegal::Closed))?);
    assert!(rt;
        answers(
            &mut book,
            opened(one, Counter(0)),
            Err(Illegal::OpenedTwice)
        )?
    );
    Ok(())
}

#[test]
fn rules_of_counters_are_named(rt: HostRuntime) -> Result<(), Fail> {
    let alloc = rt.alloc();
    let mut book = Book::new(alloc);
    let one = keyset(1);
    let first = Counter(1);
    let second = Counter(2);
    assert!(rt; answers(&mut book, opened(one, Counter(0)), Ok(()))?);
    let entry = reserved(alloc, one, second, 1);
    assert!(rt; answers(&mut book, entry, Err(Illegal::NotNext(first)))?);
    assert!(rt; answers(&mut book, reserved(alloc, one, first, 1), Ok(()))?);
    let entry = reserved(alloc, one, second, 1);
    assert!(rt; answers(&mut book, entry, Err(Illegal::JobTaken(first)))?);
    assert!(rt;
        answers(
            &mut book,
            refused(one, second, 8),
            Err(Illegal::NotReserved)
        )?
    );
    assert!(rt; answers(&mut book, refused(one, first, 8), Err(Illegal::BadStatus))?);
    assert!(rt; answers(&mut book, refused(one, first, 9), Ok(()))?);
    assert!(rt;
        answers(
            &mut book,
            refused(one, first, 8),
            Err(Illegal::AlreadySettled)
        )?
    );
    assert!(rt; answers(&mut book, reserved(alloc, one, second, 1), Ok(()))?);
    assert!(rt; answers(&mut book, done(alloc, one, second), Ok(()))?);
    let entry = reserved(alloc, one, Counter(3), 1);
    assert!(rt; answers(&mut book, entry, Err(Illegal::JobTaken(second)))?);
    Ok(())
}

#[test]
fn the_last_counter_is_the_last(rt: HostRuntime) -> Result<(), Fail> {
    let alloc = rt.alloc();
    let mut book = Book::new(alloc);
    let one = keyset(1);
    let last = Counter(0xFF_FFFF_FFFE);
    assert!(rt; answers(&mut book, opened(one, Counter(0xFF_FFFF_FFFD)), Ok(()))?);
    assert!(rt; answers(&mut book, reserved(alloc, one, last, 2), Ok(()))?);
    let entry = reserved(alloc, one, Counter(0xFF_FFFF_FFFF), 2);
    assert!(rt; answers(&mut book, entry, Err(Illegal::Exhausted))?);
    assert!(rt; book.next(one) == Err(BookErr::Exhausted));
    Ok(())
}

/// Adds an entry.
fn put(entries: &mut Vec<Entry>, entry: Result<Entry, Fail>) -> Result<(), Fail> {
    entries.push(entry?)?;
    Ok(())
}

/// A keyset that is closed, and one with a counter left. The first job is refused and reserved again, under the other
/// keyset.
fn campaign(alloc: Global) -> Result<Vec<Entry>, Fail> {
    let mut entries = Vec::new(alloc);
    put(&mut entries, opened(keyset(1), Counter(0)))?;
    put(&mut entries, opened(keyset(3), Counter(16)))?;
    put(&mut entries, reserved(alloc, keyset(1), Counter(1), 1))?;
    put(&mut entries, reserved(alloc, keyset(1), Counter(2), 2))?;
    put(&mut entries, refused(keyset(1), Counter(1), 7))?;
    put(&mut entries, reserved(alloc, keyset(3), Counter(17), 1))?;
    put(&mut entries, closed(keyset(1), 5))?;
    put(&mut entries, reserved(alloc, keyset(3), Counter(18), 3))?;
    put(&mut entries, done(alloc, keyset(3), Counter(18)))?;
    Ok(entries)
}

/// The book of these entries.
fn book_of(alloc: Global, entries: Vec<Entry>) -> Result<Book, Fail> {
    let mut history = History::new(alloc);
    for entry in entries {
        if history.may_add(&entry).is_err() {
            return Err(Fail::from("an entry breaks a rule"));
        }
        history.add(entry)?;
    }
    Ok(Book::from_history(alloc, &history)?)
}

#[test]
fn keysets_are_known(rt: HostRuntime) -> Result<(), Fail> {
    let alloc = rt.alloc();
    let book = book_of(alloc, campaign(alloc)?)?;
    assert!(rt; book.keyset_state(keyset(1)) == KeysetState::Closed);
    assert!(rt; book.keyset_state(keyset(3)) == KeysetState::Open);
    assert!(rt; book.keyset_state(keyset(2)) == KeysetState::New);
    assert!(rt; book.next(keyset(1)) == Err(BookErr::Closed));
    assert!(rt; book.next(keyset(3)) == Ok(Counter(19)));
    assert!(rt; book.next(keyset(2)) == Err(BookErr::UnknownKeyset));
    assert!(rt; book.last_counter(keyset(1)) == Some(Counter(2)));
    assert!(rt; book.last_counter(keyset(2)).is_none());
    assert!(rt; book.opened_facts(keyset(3)) == Some(facts(Counter(16))?));
    assert!(rt; book.last_moment() == 6);
    Ok(())
}

/// A counter of the keyset.
fn place(keyset: KeysetId, counter: Counter) -> Reservation {
    Reservation { keyset, counter }
}

#[test]
fn jobs_are_looked_up(rt: HostRuntime) -> Result<(), Fail> {
    let alloc = rt.alloc();
    let book = book_of(alloc, campaign(alloc)?)?;
    assert!(rt; book.look(job(1)) == Looked::Unsettled(keyset(3), Counter(17)));
    assert!(rt; book.look(job(2)) == Looked::Unsettled(keyset(1), Counter(2)));
    assert!(rt; book.look(job(3)) == Looked::Done(keyset(3), Counter(18)));
    assert!(rt; book.look(job(4)) == Looked::New);
    assert!(rt; book.settlement(place(keyset(1), Counter(1))) == Some(Settled::Refused(7)));
    assert!(rt; book.settlement(place(keyset(3), Counter(18))) == Some(Settled::Done));
    assert!(rt; book.settlement(place(keyset(3), Counter(17))).is_none());
    assert!(rt; book.has_reserve(place(keyset(3), Counter(17))));
    assert!(rt; !book.has_reserve(place(keyset(3), Counter(1))));
    assert!(rt; book.last_reservation(job(1)) == Some(place(keyset(3), Counter(17))));
    Ok(())
}

#[test]
fn reservations_have_their_positions(rt: HostRuntime) -> Result<(), Fail> {
    let alloc = rt.alloc();
    let book = book_of(alloc, campaign(alloc)?)?;
    assert!(rt; book.position(place(keyset(1), Counter(1))) == Some(2));
    assert!(rt; book.position(place(keyset(1), Counter(2))) == Some(3));
    assert!(rt; book.position(place(keyset(3), Counter(17))) == Some(5));
    assert!(rt; book.position(place(keyset(3), Counter(18))) == Some(7));
    assert!(rt; book.position(place(keyset(1), Counter(17))).is_none());
    assert!(rt; book.position(place(keyset(3), Counter(16))).is_none());
    Ok(())
}

#[test]
fn room_says_nothing(rt: HostRuntime) -> Result<(), Fail> {
    let alloc = rt.alloc();
    let mut book = Book::new(alloc);
    let entries = campaign(alloc)?;
    book.make_room(&entries)?;
    assert!(rt; book.keyset_state(keyset(1)) == KeysetState::New);
    assert!(rt; book.look(job(1)) == Looked::New);
    book.put(&entries);
    assert!(rt; book.look(job(3)) == Looked::Done(keyset(3), Counter(18)));
    Ok(())
}

const BATCHES: u32 = 1000;

const BATCH: u32 = 100;

#[test]
fn large_history_is_looked_up(rt: HostRuntime) -> Result<(), Fail> {
    let alloc = rt.alloc();
    let mut book = Book::new(alloc);
    book.add(&opened(keyset(1), Counter(0))?)?;
    for batch in 0..BATCHES {
        let mut entries = Vec::new(alloc);
        for place in 1..=BATCH {
            let id = batch * BATCH + place;
            entries.push(reserved(alloc, keyset(1), Counter(u64::from(id)), id)?)?;
        }
        book.apply(&entries)?;
    }
    for id in 1..=BATCHES * BATCH {
        let looked = Looked::Unsettled(keyset(1), Counter(u64::from(id)));
        assert_eq!(rt; book.look(job(id)), looked);
    }
    assert_eq!(rt; book.next(keyset(1)), Ok(Counter(0x1_86a1)));
    Ok(())
}
