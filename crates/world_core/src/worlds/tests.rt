ghost use Rattle.std.specs.Prelude.{◌≡◌, IfOk};

use crate::batches::Batch;
use crate::card_steps::CardStep;
use crate::events::Event;
use crate::pieces::Pieces;
use crate::refusals::NotAllowed;
use crate::worlds::World;
use ota_core::{
    CardFacts, CardId, Counter, Entry, Illegal, JobId, KeyBytes, KeysetFacts, KeysetId, KeysetList,
    Memory, Mode, Octets, Tar,
};
use std::alloc::Global;
use std::test::Fail;

const CARD: CardId = CardId(8901);

const OTHER_CARD: CardId = CardId(8902);

const RFM: Tar = Tar([0xb0, 0x00, 0x10]);

const RAM: Tar = Tar([0x00, 0x00, 0x00]);

const UNKNOWN: Tar = Tar([0xb0, 0x00, 0x11]);

/// Three commands of a file script.
const SCRIPT: [u8; 22] = [
    0x00, 0xa4, 0x00, 0x00, 0x02, 0x7f, 0x10, 0x00, 0xa4, 0x00, 0x00, 0x02, 0x6f, 0x3a, 0x00, 0xd6,
    0x00, 0x00, 0x03, 0xaa, 0xbb, 0xcc,
];

const KIC: [u8; 16] = [
    0x00, 0x01, 0x02, 0x03, 0x04, 0x05, 0x06, 0x07, 0x08, 0x09, 0x0a, 0x0b, 0x0c, 0x0d, 0x0e, 0x0f,
];

const KID: [u8; 16] = [
    0x2b, 0x7e, 0x15, 0x16, 0x28, 0xae, 0xd2, 0xa6, 0xab, 0xf7, 0x15, 0x88, 0x09, 0xcf, 0x4f, 0x3c,
];

fn keyset() -> KeysetId {
    KeysetId { card: CARD, kvn: 1 }
}

fn other_keyset() -> KeysetId {
    KeysetId {
        card: OTHER_CARD,
        kvn: 1,
    }
}

/// A keyset that no card was issued with.
fn put_keyset() -> KeysetId {
    KeysetId { card: CARD, kvn: 2 }
}

fn facts() -> Result<KeysetFacts, Fail> {
    let kic = KeyBytes::new(&KIC).ok().ok_or("a key has 16 octets")?;
    let kid = KeyBytes::new(&KID).ok().ok_or("a key has 16 octets")?;
    Ok(KeysetFacts {
        base: Counter(0),
        mode: Mode::Higher,
        ciphered: true,
        kic,
        kid,
    })
}

fn card_with(
    alloc: Global,
    card: CardId,
    buffer: u32,
    facts: KeysetFacts,
) -> Result<CardFacts, Fail>
    ensures { IfOk result (λ made. made.card ≡ card) }
{
    let mut keysets = KeysetList::new(alloc);
    keysets.push(1, facts)?;
    Ok(CardFacts {
        card,
        buffer,
        rfm: RFM,
        ram: RAM,
        keysets,
        wide: false,
    })
}

fn world_with(alloc: Global, buffer: u32, facts: KeysetFacts) -> Result<World, Fail> {
    let cards = vec![in alloc; card_with(alloc, CARD, buffer, facts)?]?;
    Ok(World::new(alloc, cards)?)
}

fn world(alloc: Global) -> Result<World, Fail> {
    world_with(alloc, 1024, facts()?)
}

fn opened_with(keyset: KeysetId, facts: KeysetFacts) -> Entry {
    Entry::Open {
        by: 0,
        moment: 0,
        keyset,
        facts,
    }
}

fn reserved_with(
    alloc: Global,
    keyset: KeysetId,
    counter: Counter,
    job: u32,
    tar: Tar,
    body: &[u8],
) -> Result<Entry, Memory> {
    let name = Octets::from_slice(alloc, &[])?;
    let body = Octets::from_slice(alloc, body)?;
    Ok(Entry::Reserve {
        by: 1,
        moment: 0,
        keyset,
        counter,
        job: JobId { campaign: 7, job },
        tar,
        name,
        body,
    })
}

fn opened() -> Result<Entry, Fail> {
    Ok(opened_with(keyset(), facts()?))
}

fn reserved(alloc: Global, counter: Counter, job: u32) -> Result<Entry, Memory> {
    reserved_with(alloc, keyset(), counter, job, RFM, &SCRIPT)
}

fn begin(alloc: Global, entry: Entry) -> Result<Event, Fail> {
    Ok(Event::Begin(Batch::new(vec![in alloc; entry]?)))
}

fn leave(reservation: u64, place: u8) -> Event {
    Event::Leave { reservation, place }
}

fn delivery_of(alloc: Global, card: CardId, pieces: &[u64], step: CardStep) -> Result<Event, Fail> {
    Ok(Event::Deliver {
        card,
        pieces: Pieces::new(Vec::from_slice(alloc, pieces)?),
        step,
    })
}

fn delivery(alloc: Global, step: CardStep) -> Result<Event, Fail> {
    delivery_of(alloc, CARD, &[0], step)
}

fn took(
    alloc: Global,
    executed: u32,
    finished: bool,
    answer: &[u8],
    answered: bool,
) -> Result<CardStep, Memory> {
    let answer = Octets::from_slice(alloc, answer)?;
    Ok(CardStep::Took {
        executed,
        finished,
        status: 0x00,
        answer,
        answered,
    })
}

/// The counter is used up with this status, and nothing runs.
fn took_with(alloc: Global, status: u8) -> Result<CardStep, Memory> {
    let answer = Octets::from_slice(alloc, &[])?;
    Ok(CardStep::Took {
        executed: 0,
        finished: true,
        status,
        answer,
        answered: true,
    })
}

/// Both entries, each durable.
fn written(alloc: Global, open: Entry, reserve: Entry) -> Result<Vec<Event>, Fail> {
    let events = vec![in alloc;
        begin(alloc, open)?,
        Event::Seal,
        begin(alloc, reserve)?,
        Event::Seal,
    ]?;
    Ok(events)
}

/// The events after which the keyset is open and the first counter is reserved, both durable.
fn first_events(alloc: Global) -> Result<Vec<Event>, Fail> {
    written(alloc, opened()?, reserved(alloc, Counter(1), 1)?)
}

#[test]
fn no_packet_leaves_before_its_reservation_is_durable(rt: HostRuntime) -> Result<(), Fail> {
    let alloc = rt.alloc();
    let mut world = world(alloc)?;
    let events = vec![in alloc;
        begin(alloc, opened()?)?,
        Event::Seal,
        begin(alloc, reserved(alloc, Counter(1), 1)?)?,
        Event::Leave {
            reservation: 1,
            place: 1
        },
    ]?;
    assert_eq!(rt;
        world.run(events.as_slice()),
        Err((3, NotAllowed::BatchOpen))
    );
    assert_eq!(rt; world.history().len(), 1);
    assert_eq!(rt; world.step(&Event::Seal), Ok(()));
    assert_eq!(rt;
        world.step(&Event::Leave {
            reservation: 1,
            place: 1
        }),
        Ok(())
    );
    assert_eq!(rt; world.sent().len(), 1);
    let third = begin(alloc, reserved(alloc, Counter(3), 2)?)?;
    let not_next = NotAllowed::Broken(Illegal::NotNext(Counter(2)));
    assert_eq!(rt; world.step(&third), Err(not_next));
    Ok(())
}

#[test]
fn cut_script_is_not_run_again(rt: HostRuntime) -> Result<(), Fail> {
    let alloc = rt.alloc();
    let mut world = world(alloc)?;
    let first = first_events(alloc)?;
    assert_eq!(rt; world.run(first.as_slice()), Ok(()));
    let events = vec![in alloc;
        Event::Leave {
            reservation: 1,
            place: 1
        },
        delivery(alloc, took(alloc, 2, false, &[], false)?)?,
        delivery(alloc, took(alloc, 3, true, &[], false)?)?,
    ]?;
    assert_eq!(rt; world.run(events.as_slice()), Err((2, NotAllowed::BadStep)));
    assert_eq!(rt; world.log_of(CARD).len(), 1);
    let again = delivery(alloc, CardStep::Answered(0x02))?;
    assert_eq!(rt; world.step(&again), Ok(()));
    assert_eq!(rt; world.made().len(), 1);
    let refused = Entry::Refused {
        by: 1,
        moment: 0,
        keyset: keyset(),
        counter: Counter(1),
        status: 0x07,
    };
    let settlement = begin(alloc, refused)?;
    assert_eq!(rt; world.step(&settlement), Err(NotAllowed::NoAnswer));
    Ok(())
}

#[test]
fn refused_events_change_nothing(rt: HostRuntime) -> Result<(), Fail> {
    let alloc = rt.alloc();
    let mut world = world(alloc)?;
    let first = first_events(alloc)?;
    assert_eq!(rt; world.run(first.as_slice()), Ok(()));
    let taken = NotAllowed::Broken(Illegal::JobTaken(Counter(1)));
    let cases = vec![in alloc;
        (begin(alloc, reserved(alloc, Counter(2), 1)?)?, taken),
        (
            Event::Leave {
                reservation: 1,
                place: 2
            },
            NotAllowed::BadPlace
        ),
        (
            Event::Leave {
                reservation: 0,
                place: 1
            },
            NotAllowed::NoReservation
        ),
        (Event::Seal, NotAllowed::NoBatch),
        (Event::Start, NotAllowed::Up),
        (Event::Give { made: 0 }, NotAllowed::NoAnswer),
        (Event::PowerCut(CardId(1)), NotAllowed::NoCard),
        (delivery(alloc, CardStep::Drop)?, NotAllowed::NotWhole),
    ]?;
    for (event, refusal) in cases {
        assert_eq!(rt; world.step(&event), Err(refusal));
    }
    assert_eq!(rt; world.history().len(), 2);
    assert_eq!(rt; world.sent().len(), 0);
    Ok(())
}

#[test]
fn answered_script_is_settled(rt: HostRuntime) -> Result<(), Fail> {
    let alloc = rt.alloc();
    let mut world = world(alloc)?;
    let first = first_events(alloc)?;
    assert_eq!(rt; world.run(first.as_slice()), Ok(()));
    let answer = Octets::from_slice(alloc, &[0x03, 0x69, 0x81])?;
    let done = Entry::Done {
        by: 1,
        moment: 0,
        keyset: keyset(),
        counter: Counter(1),
        answer,
    };
    let events = vec![in alloc;
        Event::Leave {
            reservation: 1,
            place: 1
        },
        Event::PowerCut(CARD),
        delivery(alloc, CardStep::CutBeforeCounter)?,
        delivery(alloc, took(alloc, 3, true, &[0x03, 0x69, 0x81], true)?)?,
        Event::Stop { kept: true },
        Event::Start,
        Event::Give { made: 0 },
        begin(alloc, done)?,
        Event::Stop { kept: true },
    ]?;
    assert_eq!(rt; world.run(events.as_slice()), Ok(()));
    assert_eq!(rt; world.history().len(), 3);
    assert_eq!(rt; world.log_of(CARD).len(), 1);
    assert_eq!(rt; world.log_of(CardId(1)).len(), 0);
    assert_eq!(rt; world.given().len(), 1);
    assert_eq!(rt; world.step(&Event::Seal), Err(NotAllowed::Down));
    Ok(())
}

/// The facts of a keyset in short: its keys are these octets 16 times.
#[derive(Clone, Copy)]
struct ShortFacts {
    base: u32,
    mode: Mode,
    ciphered: bool,
    kic: u8,
    kid: u8,
}

const PLAIN: ShortFacts = ShortFacts {
    base: 0,
    mode: Mode::Higher,
    ciphered: false,
    kic: 0x11,
    kid: 0x22,
};

const CIPHERED: ShortFacts = ShortFacts {
    base: 0,
    mode: Mode::Higher,
    ciphered: true,
    kic: 0x11,
    kid: 0x22,
};

const NEXT: ShortFacts = ShortFacts {
    base: 0,
    mode: Mode::Next,
    ciphered: true,
    kic: 0x11,
    kid: 0x22,
};

const OTHER_KIC: ShortFacts = ShortFacts {
    base: 0,
    mode: Mode::Higher,
    ciphered: false,
    kic: 0x33,
    kid: 0x22,
};

const OTHER_KID: ShortFacts = ShortFacts {
    base: 0,
    mode: Mode::Next,
    ciphered: true,
    kic: 0x11,
    kid: 0x33,
};

/// The last counter is stored.
const SPENT: ShortFacts = ShortFacts {
    base: u32::MAX,
    mode: Mode::Higher,
    ciphered: true,
    kic: 0x11,
    kid: 0x22,
};

const USED: ShortFacts = ShortFacts {
    base: 1,
    mode: Mode::Higher,
    ciphered: true,
    kic: 0x11,
    kid: 0x22,
};

const USED_NEXT: ShortFacts = ShortFacts {
    base: 1,
    mode: Mode::Next,
    ciphered: true,
    kic: 0x11,
    kid: 0x22,
};

fn keyset_facts(facts: ShortFacts) -> Result<KeysetFacts, Fail> {
    let base = if facts.base == u32::MAX {
        Counter(0xFF_FFFF_FFFF)
    } else {
        Counter(facts.base as u64)
    };
    let kic = KeyBytes::new(&[facts.kic; 16])
        .ok()
        .ok_or("a key has 16 octets")?;
    let kid = KeyBytes::new(&[facts.kid; 16])
        .ok()
        .ok_or("a key has 16 octets")?;
    Ok(KeysetFacts {
        base,
        mode: facts.mode,
        ciphered: facts.ciphered,
        kic,
        kid,
    })
}

/// The world steps through all these events.
fn pass(world: &mut World, events: &[Event]) -> Result<(), Fail> {
    match world.run(events) {
        Ok(()) => Ok(()),
        Err(_) => Err(Fail::from("the events are allowed")),
    }
}

/// A card with a buffer of 64 octets, and a packet of one message that left for it.
fn world_of(
    alloc: Global,
    own: ShortFacts,
    opened: ShortFacts,
    tar: Tar,
    body: &[u8],
) -> Result<World, Fail> {
    let mut world = world_with(alloc, 64, keyset_facts(own)?)?;
    let open = opened_with(keyset(), keyset_facts(opened)?);
    let counter = Counter(opened.base as u64 + 1);
    let reserve = reserved_with(alloc, keyset(), counter, 1, tar, body)?;
    let events = written(alloc, open, reserve)?;
    pass(&mut world, events.as_slice())?;
    pass(&mut world, &[leave(1, 1)])?;
    Ok(world)
}

/// The statuses with which the card may answer the packet, no counter used up.
fn answers(alloc: Global, world: &mut World) -> Result<Vec<u8>, Fail> {
    let mut given = Vec::new(alloc);
    for status in 0x00..=0x0C {
        let event = delivery(alloc, CardStep::Answered(status))?;
        if world.step(&event).is_ok() {
            given.push(status)?;
        }
    }
    Ok(given)
}

/// The status with which the card may use the counter up.
fn takes(alloc: Global, world: &mut World) -> Result<Option<u8>, Fail> {
    for status in 0x00..=0x0C {
        let event = delivery(alloc, took_with(alloc, status)?)?;
        if world.step(&event).is_ok() {
            return Ok(Some(status));
        }
    }
    Ok(None)
}

#[test]
fn first_rule_of_the_receiving_order_gives_the_answer(rt: HostRuntime) -> Result<(), Fail> {
    let alloc = rt.alloc();
    let cases = [
        (OTHER_KID, PLAIN, 0x01),
        (OTHER_KIC, CIPHERED, 0x01),
        (CIPHERED, PLAIN, 0x0A),
        (NEXT, CIPHERED, 0x0A),
        (SPENT, CIPHERED, 0x04),
        (USED, CIPHERED, 0x02),
        (USED_NEXT, NEXT, 0x02),
        (CIPHERED, USED_NEXT, 0x03),
    ];
    for (own, opened, status) in cases {
        let mut world = world_of(alloc, own, opened, UNKNOWN, &[0x00; 65])?;
        let given = answers(alloc, &mut world)?;
        assert_eq!(rt; given.as_slice(), [status].as_slice());
        assert_eq!(rt; takes(alloc, &mut world)?, None);
    }
    Ok(())
}

#[test]
fn packet_that_passes_the_receiving_order_is_taken(rt: HostRuntime) -> Result<(), Fail> {
    let alloc = rt.alloc();
    let cases = [
        (CIPHERED, CIPHERED, RFM, 64, 0x00),
        (PLAIN, CIPHERED, RAM, 64, 0x00),
        (OTHER_KIC, PLAIN, RFM, 64, 0x00),
        (NEXT, NEXT, RFM, 64, 0x00),
        (CIPHERED, USED, RFM, 64, 0x00),
        (CIPHERED, CIPHERED, RFM, 65, 0x07),
        (CIPHERED, CIPHERED, UNKNOWN, 64, 0x09),
        (CIPHERED, CIPHERED, UNKNOWN, 65, 0x09),
    ];
    for (own, opened, tar, body, status) in cases {
        let body = vec![in alloc; 0x00; body]?;
        let mut world = world_of(alloc, own, opened, tar, body.as_slice())?;
        assert_eq!(rt; answers(alloc, &mut world)?.len(), 0);
        assert_eq!(rt; takes(alloc, &mut world)?, Some(status));
    }
    Ok(())
}

/// A packet of a keyset that the card wasn't issued with.
fn unissued_world(alloc: Global) -> Result<World, Fail> {
    let mut world = world(alloc)?;
    let reserve = reserved_with(alloc, put_keyset(), Counter(1), 1, RFM, &SCRIPT)?;
    let events = written(alloc, opened_with(put_keyset(), facts()?), reserve)?;
    pass(&mut world, events.as_slice())?;
    pass(&mut world, &[leave(1, 1)])?;
    Ok(world)
}

#[test]
fn keyset_that_was_put_takes_what_its_open_says(rt: HostRuntime) -> Result<(), Fail> {
    let alloc = rt.alloc();
    let mut world = unissued_world(alloc)?;
    assert_eq!(rt;
        answers(alloc, &mut world)?.as_slice(),
        [0x01, 0x06, 0x0A].as_slice()
    );
    assert_eq!(rt; world.made().len(), 1);
    assert_eq!(rt; takes(alloc, &mut world)?, Some(0x00));
    assert_eq!(rt; takes(alloc, &mut world)?, None);
    assert_eq!(rt;
        answers(alloc, &mut world)?.as_slice(),
        [0x01, 0x02, 0x06, 0x0A].as_slice()
    );
    assert_eq!(rt; world.log_of(CARD).len(), 1);
    Ok(())
}

/// In how many pieces a packet with so many octets of body leaves.
fn pieces_of(alloc: Global, body: usize) -> Result<u8, Fail> {
    let mut world = world(alloc)?;
    let body = vec![in alloc; 0x00; body]?;
    let reserve = reserved_with(alloc, keyset(), Counter(1), 1, RFM, body.as_slice())?;
    let events = written(alloc, opened()?, reserve)?;
    pass(&mut world, events.as_slice())?;
    let mut last = 0;
    for place in 1..=64 {
        if world.step(&leave(1, place)).is_ok() {
            last = place;
        }
    }
    Ok(last)
}

#[test]
fn long_bodies_leave_in_wide_pieces(rt: HostRuntime) -> Result<(), Fail> {
    let alloc = rt.alloc();
    let cases = [
        (98, 1),
        (99, 2),
        (1024, 8),
        (1026, 8),
        (1027, 9),
        (4096, 32),
    ];
    for (body, pieces) in cases {
        assert_eq!(rt; pieces_of(alloc, body)?, pieces);
    }
    Ok(())
}

/// Two cards, for each of which a packet of two pieces left: at positions 0 and 3, and at 1 and 2.
fn two_cards(alloc: Global) -> Result<World, Fail> {
    let first = card_with(alloc, CARD, 1024, facts()?)?;
    let second = card_with(alloc, OTHER_CARD, 1024, facts()?)?;
    let mut world = World::new(alloc, vec![in alloc; first, second]?)?;
    reserve_two(alloc, &mut world)?;
    let leaving = vec![in alloc; leave(1, 1), leave(3, 1), leave(3, 2), leave(1, 2)]?;
    pass(&mut world, leaving.as_slice())?;
    Ok(world)
}

fn reserve_two(alloc: Global, world: &mut World) -> Result<(), Fail> {
    let body = [0x00; 200];
    let first = reserved_with(alloc, keyset(), Counter(1), 1, RFM, &body)?;
    let events = written(alloc, opened()?, first)?;
    pass(world, events.as_slice())?;
    let second = reserved_with(alloc, other_keyset(), Counter(1), 2, RFM, &body)?;
    let events = written(alloc, opened_with(other_keyset(), facts()?), second)?;
    pass(world, events.as_slice())?;
    Ok(())
}

#[test]
fn packet_is_whole_with_each_place_of_it(rt: HostRuntime) -> Result<(), Fail> {
    let alloc = rt.alloc();
    let mut world = two_cards(alloc)?;
    assert_eq!(rt; world.step(&leave(1, 3)), Err(NotAllowed::BadPlace));
    let cases: [(&[u64], bool); 9] = [
        (&[], false),
        (&[0], false),
        (&[3], false),
        (&[0, 0], false),
        (&[0, 2], false),
        (&[0, 3, 4], false),
        (&[0, 3, 1], false),
        (&[0, 3], true),
        (&[3, 0, 3], true),
    ];
    for (pieces, whole) in cases {
        let event = delivery_of(alloc, CARD, pieces, CardStep::Drop)?;
        let due = if whole {
            Ok(())
        } else {
            Err(NotAllowed::NotWhole)
        };
        assert_eq!(rt; world.step(&event), due);
    }
    Ok(())
}

#[test]
fn packet_is_whole_at_its_own_card(rt: HostRuntime) -> Result<(), Fail> {
    let alloc = rt.alloc();
    let mut world = two_cards(alloc)?;
    let wrong_card = delivery_of(alloc, OTHER_CARD, &[0, 3], CardStep::Drop)?;
    assert_eq!(rt; world.step(&wrong_card), Err(NotAllowed::NotWhole));
    let own = delivery_of(alloc, OTHER_CARD, &[2, 1], took_with(alloc, 0x00)?)?;
    assert_eq!(rt; world.step(&own), Ok(()));
    assert_eq!(rt; world.log_of(CARD).len(), 0);
    assert_eq!(rt; world.log_of(OTHER_CARD).len(), 1);
    Ok(())
}

fn refused(status: u8) -> Entry {
    Entry::Refused {
        by: 1,
        moment: 0,
        keyset: keyset(),
        counter: Counter(1),
        status,
    }
}

#[test]
fn refused_job_is_settled_and_reserved_again(rt: HostRuntime) -> Result<(), Fail> {
    let alloc = rt.alloc();
    let mut world = world_of(alloc, CIPHERED, CIPHERED, UNKNOWN, &SCRIPT)?;
    assert_eq!(rt; takes(alloc, &mut world)?, Some(0x09));
    assert_eq!(rt; world.step(&Event::Give { made: 0 }), Ok(()));
    let other = begin(alloc, refused(0x07))?;
    assert_eq!(rt; world.step(&other), Err(NotAllowed::NoAnswer));
    let settled = begin(alloc, refused(0x09))?;
    assert_eq!(rt; world.step(&settled), Ok(()));
    assert_eq!(rt; world.step(&Event::Seal), Ok(()));
    let again = begin(alloc, reserved(alloc, Counter(2), 1)?)?;
    assert_eq!(rt; world.step(&again), Ok(()));
    Ok(())
}

#[test]
fn earlier_moment_is_refused(rt: HostRuntime) -> Result<(), Fail> {
    let alloc = rt.alloc();
    let mut world = world(alloc)?;
    let open = Entry::Open {
        by: 0,
        moment: 5,
        keyset: keyset(),
        facts: facts()?,
    };
    let opening = vec![in alloc; begin(alloc, open)?, Event::Seal]?;
    assert_eq!(rt; world.run(opening.as_slice()), Ok(()));
    let close = Entry::Close {
        by: 0,
        moment: 4,
        keyset: keyset(),
    };
    let earlier = NotAllowed::Broken(Illegal::Earlier(5));
    assert_eq!(rt; world.step(&begin(alloc, close)?), Err(earlier));
    Ok(())
}

#[test]
fn debug_text_shows_no_key(rt: HostRuntime) -> Result<(), Fail> {
    let alloc = rt.alloc();
    let opening = begin(alloc, opened()?)?;
    let text = format!(in alloc; "{opening:?}")?;
    for octets in ["43, 126", "2b, 7e", "2b7e", "0x2b", "1, 2, 3"] {
        assert!(rt; !text.as_str().contains(octets));
    }
    Ok(())
}
