//! Where the lanes differ from a plan or from the rows of a list of jobs, by the books of their histories.

ghost use Rattle.std.specs.Prelude.{◌≡◌, ◌<◌, ◌^◌, Some, None, List, map, length, reverse, get_or};
ghost use Rattle.std.specs.List.{list_any};
ghost use Rattle.ota_core.specs.Entry.{is_refusal_of};
ghost use Rattle.ota_core.specs.History.{last_reservation};
ghost use Rattle.ota_core.specs.Questions.{Reserved, place_of, last_reserved};
ghost use Rattle.ota_core.specs.declared.entries.Entry.{Entry};
ghost use Rattle.keyset_book.specs.Book.{StandsFor};
ghost use Rattle.campaigns.specs.WorkList.{AreBooksOf};
ghost use Rattle.campaigns.specs.Rows.{is_as_said, differs_in, NoneDiffers};
ghost use Rattle.campaigns.specs.Differences.{
  is_same_mode,
  are_same_facts,
  opens_otherwise,
  is_opened_otherwise,
  keyset_of_card,
  issued_difference,
  later_difference,
  keyset_difference,
  counter_otherwise,
  job_difference,
};
ghost use Rattle.campaigns.specs.DifferenceSteps.{unlike_facts, is_said_by, is_refusal};

use keyset_book::{Book, Settled};
use ota_core::questions::is_same_keyset;
use ota_core::{CardFacts, Counter, Entry, History, Job, KeysetFacts, KeysetId, Mode, Reservation};
use plan_reader::Plan;

/// The first keyset of the plan, in its order, that a lane has opened with other facts, by the books of the lanes. Those
/// that are put later stand behind all others. It takes no memory, and the time of a look-up for each keyset and lane.
pub fn keyset_difference(plan: &Plan, books: &[Book]) -> Option<KeysetId>
    ensures { (histories : List (List Entry)) → AreBooksOf histories books.now → result ≡ keyset_difference plan.now histories }
{
    match issued_difference(plan.cards.as_slice(), books) {
        Some(keyset) => Some(keyset),
        None => later_difference(plan.later.as_slice(), books),
    }
}

/// The first keyset with which one of the cards is issued that a lane has opened with other facts.
fn issued_difference(cards: &[CardFacts], books: &[Book]) -> Option<KeysetId>
    ensures { (histories : List (List Entry)) → AreBooksOf histories books.now → result ≡ issued_difference cards.now histories }
{
    for card in cards {
        let keyset = keyset_of_card(card, books);
        if keyset.is_some() {
            return keyset;
        }
    }
    None
}

/// The first of the keysets that are put later which a lane has opened with other facts.
fn later_difference(later: &[(KeysetId, KeysetFacts)], books: &[Book]) -> Option<KeysetId>
    ensures { (histories : List (List Entry)) → AreBooksOf histories books.now → result ≡ later_difference later.now histories }
{
    for (keyset, facts) in later {
        if is_opened_otherwise(books, *keyset, facts) {
            return Some(*keyset);
        }
    }
    None
}

/// The first keyset of the card that a lane has opened with other facts.
fn keyset_of_card(card: &CardFacts, books: &[Book]) -> Option<KeysetId>
    ensures { (histories : List (List Entry)) → AreBooksOf histories books.now → result ≡ keyset_of_card histories card.now }
{
    for (kvn, facts) in card.keysets.as_slice() {
        let keyset = KeysetId {
            card: card.card,
            kvn: *kvn,
        };
        if is_opened_otherwise(books, keyset, facts) {
            return Some(keyset);
        }
    }
    None
}

fn is_opened_otherwise(books: &[Book], keyset: KeysetId, facts: &KeysetFacts) -> bool
    ensures { (histories : List (List Entry)) → AreBooksOf histories books.now → result ≡ is_opened_otherwise histories keyset facts.now }
{
    for book in books {
        if opens_otherwise(book, keyset, facts) {
            return true;
        }
    }
    false
}

fn opens_otherwise(book: &Book, keyset: KeysetId, facts: &KeysetFacts) -> bool
    ensures { (history : List Entry) → StandsFor book.now history → result ≡ list_any (opens_otherwise keyset facts.now) history }
{
    unlike_facts(facts, book.opened_facts(keyset))
}

/// Whether the keyset is opened with other facts.
fn unlike_facts(facts: &KeysetFacts, opened: Option<KeysetFacts>) -> bool
    ensures { result ≡ unlike_facts facts.now opened }
{
    match opened {
        Some(opened) => !are_same_facts(&opened, facts),
        None => false,
    }
}

fn are_same_facts(a: &KeysetFacts, b: &KeysetFacts) -> bool
    ensures { result ≡ are_same_facts a.now b.now }
{
    let has_base = a.base.0 == b.base.0;
    let has_mode = is_same_mode(a.mode, b.mode);
    let has_flag = a.ciphered == b.ciphered;
    let has_kic = a.kic.as_slice() == b.kic.as_slice();
    let has_kid = a.kid.as_slice() == b.kid.as_slice();
    has_base && has_mode && has_flag && has_kic && has_kid
}

fn is_same_mode(a: Mode, b: Mode) -> bool
    ensures { result ≡ is_same_mode a b }
{
    match (a, b) {
        (Mode::Higher, Mode::Higher) => true,
        (Mode::Next, Mode::Next) => true,
        _ => false,
    }
}

/// The first row, from 1, whose job a lane holds otherwise than the row says, with the counter that it holds: the job's
/// last reservation there isn't refused, and has another keyset, application or script. The histories and their books are
/// those of the lanes in order. It takes no memory, and the time of a look-up for each row and lane.
pub fn job_difference(
    jobs: &[Job],
    histories: &[&History],
    books: &[Book],
) -> Option<(u32, Counter)>
    requires few { length jobs.now < 2 ^ 32 }
    requires books { AreBooksOf (map (λ history. history.now.entries) histories.now) books.now }
    ensures first { result ≡ job_difference jobs.now (map (λ history. history.now.entries) histories.now) }
    ensures none { result ≡ None → NoneDiffers jobs.now (map (λ history. history.now.entries) histories.now) }
{
    for (place, job) in jobs.iter().enumerate() {
        if let Some(counter) = counter_otherwise(job, histories, books) {
            return Some((place as u32 + 1, counter));
        }
    }
    None
}

/// The counter that the first lane holds for the row's job otherwise than the row says.
fn counter_otherwise(job: &Job, histories: &[&History], books: &[Book]) -> Option<Counter>
    requires many { length histories.now ≡ length books.now }
    requires books { AreBooksOf (map (λ history. history.now.entries) histories.now) books.now }
    ensures { result ≡ counter_otherwise (map (λ history. history.now.entries) histories.now) job.now }
{
    for lane in 0..histories.len() {
        let counter = differs_in(histories[lane].entries(), &books[lane], job);
        if counter.is_some() {
            return counter;
        }
    }
    None
}

/// The counter of the job's last reservation in the history, where that isn't refused and another than the row says.
fn differs_in(history: &[Entry], book: &Book, job: &Job) -> Option<Counter>
    requires { StandsFor book.now history.now }
    ensures { result ≡ differs_in history.now job.now }
{
    match book.last_reservation(job.id) {
        Some(place) => counter_unlike(history, book, job, place),
        None => None,
    }
}

fn counter_unlike(history: &[Entry], book: &Book, job: &Job, place: Reservation) -> Option<Counter>
    requires stands { StandsFor book.now history.now }
    requires last { last_reservation job.now.id (reverse history.now) ≡ Some place }
    ensures { result ≡ differs_in history.now job.now }
{
    if is_refused(book, place) || is_as_said(history, book, job, place) {
        return None;
    }
    Some(place.counter)
}

fn is_refused(book: &Book, place: Reservation) -> bool
    ensures { (history : List Entry) → StandsFor book.now history → result ≡ list_any (is_refusal_of place) (reverse history) }
{
    is_refusal(book.settlement(place))
}

fn is_refusal(settled: Option<Settled>) -> bool
    ensures { result ≡ is_refusal settled }
{
    match settled {
        Some(Settled::Refused(_)) => true,
        _ => false,
    }
}

/// Whether what is reserved for the job last is what the row says.
fn is_as_said(history: &[Entry], book: &Book, job: &Job, place: Reservation) -> bool
    requires { StandsFor book.now history.now }
    ensures { (reserved : Reserved) → last_reserved job.now.id (reverse history.now) ≡ Some reserved → place_of reserved ≡ place → result ≡ is_as_said job.now reserved }
{
    match book.position(place) {
        Some(position) => is_said_at(history, job, position as usize),
        None => false,
    }
}

fn is_said_at(history: &[Entry], job: &Job, position: usize) -> bool
    requires { position < length history.now }
    ensures { (entry : Entry) → result ≡ is_said_by job.now (get_or history.now position entry) }
{
    is_said_by(&history[position], job)
}

fn is_said_by(entry: &Entry, job: &Job) -> bool
    ensures { result ≡ is_said_by job.now entry.now }
{
    match entry {
        Entry::Reserve {
            keyset,
            tar,
            body,
            ..
        } => {
            let has_keyset = is_same_keyset(*keyset, job.keyset);
            let has_tar = tar.0.as_slice() == job.tar.0.as_slice();
            let has_body = body.as_slice() == job.body.as_slice();
            has_keyset && has_tar && has_body
        }
        _ => false,
    }
}
