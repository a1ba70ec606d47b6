//! Where the lanes differ from a plan or from the rows of a list of jobs. Each call walks the histories.

ghost use Rattle.std.specs.Prelude.{◌≡◌, ◌<◌, ◌^◌, length, None};
ghost use Rattle.std.specs.List.{list_any};
ghost use Rattle.lane_session.specs.Rows.{NoneDiffers};
ghost use Rattle.lane_session.specs.Differences.{
  histories_of,
  is_same_mode,
  are_same_facts,
  opens_otherwise,
  is_opened_otherwise,
  keyset_of_card,
  issued_difference,
  later_difference,
  keyset_difference,
  counter_otherwise,
  job_difference,
};

use crate::due::differs_in;
use crate::lanes::Lane;
use ota_core::questions::is_same_keyset;
use ota_core::{CardFacts, Counter, Entry, Job, KeysetFacts, KeysetId, Mode};
use plan_reader::Plan;

/// The first keyset of the plan, in its order, that a lane has opened with other facts. Those that are put later stand
/// behind all others.
pub fn keyset_difference(lanes: &[Lane], plan: &Plan) -> Option<KeysetId>
    ensures { result ≡ keyset_difference plan.now (histories_of lanes.now) }
{
    match issued_difference(lanes, plan.cards.as_slice()) {
        Some(keyset) => Some(keyset),
        None => later_difference(lanes, plan.later.as_slice()),
    }
}

/// The first keyset with which one of the cards is issued that a lane has opened with other facts.
fn issued_difference(lanes: &[Lane], cards: &[CardFacts]) -> Option<KeysetId>
    ensures { result ≡ issued_difference cards.now (histories_of lanes.now) }
{
    for card in cards {
        let keyset = keyset_of_card(lanes, card);
        if keyset.is_some() {
            return keyset;
        }
    }
    None
}

/// The first of the keysets that are put later which a lane has opened with other facts.
fn later_difference(lanes: &[Lane], later: &[(KeysetId, KeysetFacts)]) -> Option<KeysetId>
    ensures { result ≡ later_difference later.now (histories_of lanes.now) }
{
    for (keyset, facts) in later {
        if is_opened_otherwise(lanes, *keyset, facts) {
            return Some(*keyset);
        }
    }
    None
}

/// The first keyset of the card that a lane has opened with other facts.
fn keyset_of_card(lanes: &[Lane], card: &CardFacts) -> Option<KeysetId>
    ensures { result ≡ keyset_of_card (histories_of lanes.now) card.now }
{
    for (kvn, facts) in card.keysets.as_slice() {
        let keyset = KeysetId {
            card: card.card,
            kvn: *kvn,
        };
        if is_opened_otherwise(lanes, keyset, facts) {
            return Some(keyset);
        }
    }
    None
}

fn is_opened_otherwise(lanes: &[Lane], keyset: KeysetId, facts: &KeysetFacts) -> bool
    ensures { result ≡ is_opened_otherwise (histories_of lanes.now) keyset facts.now }
{
    lanes.iter().any(|lane| has_open_otherwise(lane.journal.history().entries(), keyset, facts))
}

fn has_open_otherwise(entries: &[Entry], keyset: KeysetId, facts: &KeysetFacts) -> bool
    ensures { result ≡ list_any (opens_otherwise keyset facts.now) entries.now }
{
    entries
        .iter()
        .any(|entry| opens_otherwise(entry, keyset, facts))
}

/// Whether the entry opens the keyset with other facts.
fn opens_otherwise(entry: &Entry, keyset: KeysetId, facts: &KeysetFacts) -> bool
    ensures { result ≡ opens_otherwise keyset facts.now entry.now }
{
    match entry {
        Entry::Open {
            keyset: opened,
            facts: other,
            ..
        } => is_same_keyset(*opened, keyset) && !are_same_facts(other, facts),
        _ => false,
    }
}

fn are_same_facts(a: &KeysetFacts, b: &KeysetFacts) -> bool
    ensures { result ≡ are_same_facts a.now b.now }
{
    let has_base = a.base.0 == b.base.0;
    let has_mode = is_same_mode(a.mode, b.mode);
    let has_flag = a.ciphered == b.ciphered;
    let has_kic = a.kic.as_slice() == b.kic.as_slice();
    let has_kid = a.kid.as_slice() == b.kid.as_slice();
    has_base && has_mode && has_flag && has_kic && has_kid
}

fn is_same_mode(a: Mode, b: Mode) -> bool
    ensures { result ≡ is_same_mode a b }
{
    match (a, b) {
        (Mode::Higher, Mode::Higher) => true,
        (Mode::Next, Mode::Next) => true,
        _ => false,
    }
}

/// The first row, from 1, whose job a lane holds otherwise than the row says, with the counter that it holds: the job's
/// last reservation there isn't refused, and has another keyset, application or script.
pub fn job_difference(lanes: &[Lane], jobs: &[Job]) -> Option<(u32, Counter)>
    requires few { length jobs.now < 2 ^ 32 }
    ensures first { result ≡ job_difference jobs.now (histories_of lanes.now) }
    ensures none { result ≡ None → NoneDiffers jobs.now (histories_of lanes.now) }
{
    for (place, job) in jobs.iter().enumerate() {
        if let Some(counter) = counter_otherwise(lanes, job) {
            return Some((place as u32 + 1, counter));
        }
    }
    None
}

/// The counter that the first lane holds for the row's job otherwise than the row says.
fn counter_otherwise(lanes: &[Lane], job: &Job) -> Option<Counter>
    ensures { result ≡ counter_otherwise (histories_of lanes.now) job.now }
{
    for lane in lanes {
        let counter = differs_in(lane.journal.history().entries(), job);
        if counter.is_some() {
            return counter;
        }
    }
    None
}
