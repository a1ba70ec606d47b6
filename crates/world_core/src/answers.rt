//! The secured answers that cards make.

ghost use Rattle.std.specs.Prelude.{◌≡◌, IsSome, reverse, slice_get, OnOk, OnErr, ◌++◌};
ghost use Rattle.std.specs.Option.{option_to_list};
ghost use Rattle.std.specs.List.{list_any, list_all};
ghost use Rattle.world_core.specs.Condition.{is_answer_with, passes, is_given, is_answered};

use ota_core::questions::is_same_keyset;
use ota_core::{CardId, Counter, Entry, KeysetId, Memory, Octets};

/// A secured answer that a card made.
#[derive(Debug, Drop)]
pub struct Made {
    pub card: CardId,
    pub keyset: KeysetId,
    pub counter: Counter,
    /// The response status code (ETSI TS 102 225, 5.2.2).
    pub status: u8,
    /// The compact response, with status 00 alone.
    pub answer: Octets,
}

/// Adds the answer, if there is one, at the end.
pub(crate) fn add_answer(made: &mut Vec<Made>, answer: Option<Made>) -> Result<(), Memory>
    ensures ok { OnOk result (made.new.items ≡ made.old.items ++ option_to_list answer) }
    ensures wanted { OnErr result (IsSome answer) }
    ensures err { OnErr result (made.new.items ≡ made.old.items) }
{
    if let Some(answer) = answer {
        made.push(answer)?;
    }
    Ok(())
}

/// Whether each settlement of the batch has an answer that reached the gateway.
pub(crate) fn are_answered(made: &[Made], given: &[u64], batch: &[Entry]) -> bool
    ensures { result ≡ list_all (is_answered made.now given.now) batch.now }
{
    batch.iter().all(|entry| is_answered(made, given, entry))
}

fn is_answered(made: &[Made], given: &[u64], entry: &Entry) -> bool
    ensures { result ≡ is_answered made.now given.now entry.now }
{
    match entry {
        Entry::Done {
            keyset,
            counter,
            answer,
            ..
        } => is_given(made, given, *keyset, *counter, 0x00, answer.as_slice()),
        Entry::Refused {
            keyset,
            counter,
            status,
            ..
        } => is_given(made, given, *keyset, *counter, *status, &[]),
        _ => true,
    }
}

/// Whether such an answer reached the gateway. It is mostly the last one.
#[tactic(auto, using(crate::proofs::Walks::list_any_reverse))]
fn is_given(
    made: &[Made],
    given: &[u64],
    keyset: KeysetId,
    counter: Counter,
    status: u8,
    answer: &[u8],
) -> bool
    ensures { result ≡ is_given (is_answer_with keyset counter status answer.now) made.now given.now }
{
    is_given_lately(made, given, keyset, counter, status, answer)
}

fn is_given_lately(
    made: &[Made],
    given: &[u64],
    keyset: KeysetId,
    counter: Counter,
    status: u8,
    answer: &[u8],
) -> bool
    ensures { result ≡ list_any (λ position. passes (is_answer_with keyset counter status answer.now) (slice_get made.now position)) (reverse given.now) }
{
    given.iter().rev().any(|position| is_at(made, *position, keyset, counter, status, answer))
}

fn is_at(
    made: &[Made],
    position: u64,
    keyset: KeysetId,
    counter: Counter,
    status: u8,
    answer: &[u8],
) -> bool
    ensures { result ≡ passes (is_answer_with keyset counter status answer.now) (slice_get made.now position) }
{
    match made.get(position as usize) {
        Some(made) => is_answer_with(made, keyset, counter, status, answer),
        None => false,
    }
}

fn is_answer_with(
    made: &Made,
    keyset: KeysetId,
    counter: Counter,
    status: u8,
    answer: &[u8],
) -> bool
    ensures { result ≡ is_answer_with keyset counter status answer.now made.now }
{
    is_same_keyset(made.keyset, keyset)
        && made.counter.0 == counter.0
        && made.status == status
        && made.answer.as_slice() == answer
}
