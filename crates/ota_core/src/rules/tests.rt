ghost use Rattle.std.specs.Prelude.{◌≤◌};

use crate::application::Tar;
use crate::cards::CardId;
use crate::counters::Counter;
use crate::entries::{Entry, Illegal};
use crate::histories::History;
use crate::jobs::JobId;
use crate::key_bytes::KeyBytes;
use crate::keysets::{KeysetFacts, KeysetId, Mode};
use crate::octet_string::Octets;
use crate::wants::Memory;
use std::alloc::Global;
use std::test::Fail;

fn keyset(kvn: u8) -> KeysetId
    requires above { 1 ≤ kvn }
    requires below { kvn ≤ 15 }
{
    KeysetId {
        card: CardId(8901),
        kvn,
    }
}

fn opened(keyset: KeysetId, base: Counter) -> Result<Entry, Fail> {
    let key = KeyBytes::new(&[7; 16]).ok().ok_or("a key has 16 octets")?;
    let facts = KeysetFacts {
        base,
        mode: Mode::Higher,
        ciphered: true,
        kic: key,
        kid: key,
    };
    Ok(Entry::Open {
        by: 0,
        moment: 5,
        keyset,
        facts,
    })
}

fn reserved(alloc: Global, keyset: KeysetId, counter: Counter, job: u32) -> Result<Entry, Memory> {
    let body = Octets::from_slice(alloc, &[0x00, 0xa4])?;
    Ok(Entry::Reserve {
        by: 1,
        moment: 5,
        keyset,
        counter,
        job: JobId { campaign: 7, job },
        tar: Tar([0xb0, 0x00, 0x10]),
        name: Octets::from_slice(alloc, b"spring")?,
        body,
    })
}

fn done(alloc: Global, keyset: KeysetId, counter: Counter) -> Result<Entry, Memory> {
    let answer = Octets::from_slice(alloc, &[0x03, 0x69, 0x81])?;
    Ok(Entry::Done {
        by: 1,
        moment: 5,
        keyset,
        counter,
        answer,
    })
}

fn refused(keyset: KeysetId, counter: Counter, status: u8) -> Entry {
    Entry::Refused {
        by: 1,
        moment: 5,
        keyset,
        counter,
        status,
    }
}

fn add_if_legal(history: &mut History, entry: Entry) -> Result<Result<(), Illegal>, Memory> {
    let answer = history.may_add(&entry);
    if answer.is_ok() {
        history.add(entry)?;
    }
    Ok(answer)
}

#[test]
fn each_rule_is_named(rt: HostRuntime) -> Result<(), Fail> {
    let alloc = rt.alloc();
    let mut history = History::new(alloc);
    let first = keyset(1);
    let last = keyset(2);
    let cases = vec![in alloc;
        (
            reserved(alloc, first, Counter(1), 1)?,
            Err(Illegal::NotOpened)
        ),
        (opened(first, Counter(0))?, Ok(())),
        (opened(first, Counter(0))?, Err(Illegal::OpenedTwice)),
        (
            reserved(alloc, first, Counter(2), 1)?,
            Err(Illegal::NotNext(Counter(1)))
        ),
        (reserved(alloc, first, Counter(1), 1)?, Ok(())),
        (
            reserved(alloc, first, Counter(3), 2)?,
            Err(Illegal::NotNext(Counter(2)))
        ),
        (
            reserved(alloc, first, Counter(2), 1)?,
            Err(Illegal::JobTaken(Counter(1)))
        ),
        (done(alloc, first, Counter(2))?, Err(Illegal::NotReserved)),
        (refused(first, Counter(1), 8), Err(Illegal::BadStatus)),
        (refused(first, Counter(1), 9), Ok(())),
        (
            done(alloc, first, Counter(1))?,
            Err(Illegal::AlreadySettled)
        ),
        (reserved(alloc, first, Counter(2), 1)?, Ok(())),
        (
            Entry::Close {
                by: 0,
                moment: 4,
                keyset: first
            },
            Err(Illegal::Earlier(5))
        ),
        (
            Entry::Close {
                by: 0,
                moment: 5,
                keyset: first
            },
            Ok(())
        ),
        (done(alloc, first, Counter(2))?, Err(Illegal::Closed)),
        (opened(first, Counter(0))?, Err(Illegal::OpenedTwice)),
        (opened(last, Counter(0xFF_FFFF_FFFD))?, Ok(())),
        (reserved(alloc, last, Counter(0xFF_FFFF_FFFE), 2)?, Ok(())),
        (
            reserved(alloc, last, Counter(0xFF_FFFF_FFFF), 3)?,
            Err(Illegal::Exhausted)
        ),
        (refused(last, Counter(0xFF_FFFF_FFFE), 7), Ok(())),
    ]?;
    for (place, (entry, expected)) in cases.into_iter().enumerate() {
        let answer = add_if_legal(&mut history, entry)?;
        assert_eq!(rt; answer, expected, "at entry {place}");
    }
    assert_eq!(rt; history.entries().len(), 8);
    Ok(())
}
