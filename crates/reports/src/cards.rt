ghost use Rattle.std.specs.Prelude.{◌≡◌, ◌<◌, ◌%◌, ◌++◌, length, map, reverse, string_bytes, IfOk, OnOk, codes};
ghost use Rattle.std.specs.List.{flat_map};
ghost use Rattle.std.specs.Fmt.{decimal};
ghost use Rattle.ota_core.specs.Questions.{state_of};
ghost use Rattle.reports.specs.Report.{counter_text, entries_in, history_of};
ghost use Rattle.reports.specs.Cards.{counts_text, state_text, cards_header, last_used, keyset_row, issued_keysets, cards_of};

use crate::keyset_counts::{Counts, LaneCounts, lane_counts};
use crate::lane_books::{LaneBook, lane_of};
use crate::later_keysets::LaterKeysets;
use crate::report::put_counter;
use ota_core::{CardFacts, Counter, History, KeysetFacts, KeysetId, KeysetState, Memory};
use plan_reader::Plan;
use std::alloc::Global;

/// The keysets of a plan, by the histories of the lanes in their order: those that its cards are issued with, and those
/// that they are to be given later.
///
/// It has a line for its columns, `card,kvn,lane,state,last,reserved,done,refused,unsettled`, and then a line for each
/// keyset, in order of the cards; a card's later keysets stand behind those that it is issued with. `state` is `new`,
/// `open` or `closed`; `last` is the last reserved counter, or the base where none is reserved, in ten hexadecimal digits;
/// behind it stand how many counters are reserved, and how many of these are settled as done, as refused, and not at all.
pub fn cards_text(alloc: Global, plan: &Plan, histories: &[History]) -> Result<String, Memory>
    requires { 0 < length histories.now }
    ensures { IfOk result (λ text. string_bytes text ≡ cards_of plan.now (map entries_in histories.now)) }
{
    let lanes = lane_counts(alloc, histories)?;
    let later = LaterKeysets::of(alloc, plan.later.as_slice())?;
    let mut text = String::from_str(alloc, cards_header())?;
    for card in plan.cards.as_slice() {
        put_card(&mut text, &lanes, card, later.of_card(card.card))?;
    }
    Ok(text)
}

#[tactic(auto, unfolding(crate::specs::Cards::cards_header))]
fn cards_header() -> &'static str
    ensures { result.now ≡ cards_header }
{
    "card,kvn,lane,state,last,reserved,done,refused,unsettled\n"
}

/// The lines of a card, of which these are the later keysets.
fn put_card(
    text: &mut String,
    lanes: &[LaneCounts<'_>],
    card: &CardFacts,
    later: &[(KeysetId, KeysetFacts)],
) -> Result<(), Memory>
    requires { 0 < length lanes.now }
    ensures { OnOk result (string_bytes text.new ≡ string_bytes text.old ++ flat_map (keyset_row (card.now.card.0 % length lanes.now) (history_of lanes.now card.now.card)) (issued_keysets card.now ++ later.now)) }
{
    let place = lane_of(card.card, lanes.len());
    let lane = &lanes[place];
    put_issued(text, place, lane, card)?;
    put_keysets(text, place, lane, later)
}

/// The lines of the keysets that a card is issued with.
fn put_issued(
    text: &mut String,
    place: usize,
    lane: &LaneCounts<'_>,
    card: &CardFacts,
) -> Result<(), Memory>
    ensures { OnOk result (string_bytes text.new ≡ string_bytes text.old ++ flat_map (keyset_row place lane.now) (issued_keysets card.now)) }
{
    for (kvn, facts) in card.keysets.as_slice() {
        let keyset = KeysetId {
            card: card.card,
            kvn: *kvn,
        };
        put_keyset(text, place, lane, keyset, facts)?;
    }
    Ok(())
}

/// The lines of these keysets.
fn put_keysets(
    text: &mut String,
    place: usize,
    lane: &LaneCounts<'_>,
    keysets: &[(KeysetId, KeysetFacts)],
) -> Result<(), Memory>
    ensures { OnOk result (string_bytes text.new ≡ string_bytes text.old ++ flat_map (keyset_row place lane.now) keysets.now) }
{
    for (keyset, facts) in keysets {
        put_keyset(text, place, lane, *keyset, facts)?;
    }
    Ok(())
}

/// The line of a keyset.
fn put_keyset(
    text: &mut String,
    place: usize,
    lane: &LaneCounts<'_>,
    keyset: KeysetId,
    facts: &KeysetFacts,
) -> Result<(), Memory>
    ensures { OnOk result (string_bytes text.new ≡ string_bytes text.old ++ keyset_row place lane.now (keyset, facts.now)) }
{
    put_names(text, keyset, place)?;
    put_standing(text, lane.book(), keyset, facts)?;
    put_counts(text, &lane.of_keyset(keyset))
}

/// The first three columns: the card, the keyset and the lane.
fn put_names(text: &mut String, keyset: KeysetId, lane: usize) -> Result<(), Memory>
    ensures { OnOk result (string_bytes text.new ≡ string_bytes text.old ++ (decimal keyset.card.0 ++ codes "," ++ decimal keyset.kvn ++ codes "," ++ decimal lane ++ codes ",")) }
{
    let card = keyset.card.0;
    let kvn = keyset.kvn;
    write!(text, "{card},{kvn},{lane},")?;
    Ok(())
}

/// How the keyset stands, and its last counter.
fn put_standing(
    text: &mut String,
    lane: &LaneBook<'_>,
    keyset: KeysetId,
    facts: &KeysetFacts,
) -> Result<(), Memory>
    ensures { OnOk result (string_bytes text.new ≡ string_bytes text.old ++ (state_text (state_of keyset (reverse lane.now)) ++ codes "," ++ counter_text (last_used keyset facts.now (reverse lane.now)) ++ codes ",")) }
{
    text.push_str(state_word(lane.keyset_state(keyset)))?;
    text.push_str(",")?;
    put_counter(text, last_used(lane, keyset, facts))?;
    text.push_str(",")?;
    Ok(())
}

fn state_word(state: KeysetState) -> &'static str
    ensures { result.now ≡ state_text state }
{
    match state {
        KeysetState::New => "new",
        KeysetState::Open => "open",
        KeysetState::Closed => "closed",
    }
}

/// The last reserved counter, or the base.
fn last_used(lane: &LaneBook<'_>, keyset: KeysetId, facts: &KeysetFacts) -> Counter
    ensures { result ≡ last_used keyset facts.now (reverse lane.now) }
{
    match lane.last_counter(keyset) {
        Some(counter) => counter,
        None => facts.base,
    }
}

/// The last four columns.
fn put_counts(text: &mut String, counts: &Counts) -> Result<(), Memory>
    ensures { OnOk result (string_bytes text.new ≡ string_bytes text.old ++ (counts_text counts.now ++ codes "\n")) }
{
    let reserved = counts.reserved;
    let done = counts.done;
    let refused = counts.refused;
    let unsettled = counts.unsettled;
    write!(text, "{reserved},{done},{refused},{unsettled}")?;
    text.push_str("\n")?;
    Ok(())
}
