//! What the tables of a book answer.

ghost use Rattle.std.specs.Prelude.{◌≡◌, ◌+◌, nat_le, if◌then◌else◌, Ok, Err};
ghost use Rattle.std.specs.Option.{option_map};
ghost use Rattle.keyset_book.specs.Asked.{next_after, state_with, looked_at, looked_after, settled_with};

use crate::answers::{BookErr, Looked, Settled};
use crate::books::Book;
use crate::counter_table::Standing;
use crate::keyset_table::Known;
use crate::rules::LAST_COUNTER;
use ota_core::{Counter, KeysetFacts, KeysetState, Reservation};

pub(crate) fn next_after(known: Option<Known>) -> Result<Counter, BookErr>
    ensures { result ≡ next_after known }
{
    match known {
        None => Err(BookErr::UnknownKeyset),
        Some(known) if known.closed => Err(BookErr::Closed),
        Some(known) => next_to(known.last),
    }
}

fn next_to(last: Counter) -> Result<Counter, BookErr>
    ensures { result ≡ (if nat_le (last + 1) 0xFF_FFFF_FFFE then Ok (last + 1) else Err BookErr.Exhausted) }
{
    let next = last.0 + 1;
    if next > LAST_COUNTER {
        return Err(BookErr::Exhausted);
    }
    Ok(Counter(next))
}

pub(crate) fn state_with(known: Option<Known>) -> KeysetState
    ensures { result ≡ state_with known }
{
    match known {
        None => KeysetState::New,
        Some(known) if known.closed => KeysetState::Closed,
        Some(_) => KeysetState::Open,
    }
}

pub(crate) fn facts_with(known: Option<Known>) -> Option<KeysetFacts>
    ensures { result ≡ option_map (λ known. known.facts) known }
{
    known.map(|known| known.facts)
}

pub(crate) fn last_with(known: Option<Known>) -> Option<Counter>
    ensures { result ≡ option_map (λ known. known.last) known }
{
    known.map(|known| known.last)
}

pub(crate) fn looked_after(book: &Book, last: Option<Reservation>) -> Looked
    ensures { result ≡ looked_after book.now last }
{
    match last {
        None => Looked::New,
        Some(counter) => looked_at(counter, book.counters.look(counter)),
    }
}

fn looked_at(counter: Reservation, standing: Option<Standing>) -> Looked
    ensures { result ≡ looked_at counter standing }
{
    match standing {
        Some(Standing::Done) => Looked::Done(counter.keyset, counter.counter),
        Some(Standing::Refused(_)) => Looked::Refused(counter.keyset, counter.counter),
        _ => Looked::Unsettled(counter.keyset, counter.counter),
    }
}

pub(crate) fn settled_with(standing: Option<Standing>) -> Option<Settled>
    ensures { result ≡ settled_with standing }
{
    match standing {
        Some(Standing::Done) => Some(Settled::Done),
        Some(Standing::Refused(status)) => Some(Settled::Refused(status)),
        _ => None,
    }
}
