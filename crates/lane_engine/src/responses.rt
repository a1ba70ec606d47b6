//! What a card's response says to a lane, and the entry that settles it.

ghost use Rattle.std.specs.Prelude.{◌≡◌, ◌+◌, ◌&&◌, ◌≤◌, ℕ, nat_le, List, Some, None, IfSome, take, drop, length, reverse};
ghost use Rattle.std.specs.Option.{option_map, option_and_then};
ghost use Rattle.ota_core.specs.declared.keysets.KeysetFacts.{KeysetFacts as Facts};
ghost use Rattle.ota_core.specs.Questions.{opened_facts};
ghost use Rattle.ota_core.specs.declared.entries.Entry.{Entry as HistoryEntry};
ghost use Rattle.keyset_book.specs.Book.{StandsFor};
ghost use Rattle.response_packet.specs.Response.{settles};
ghost use Rattle.lane_engine.specs.Packets.{keys_of};
ghost use Rattle.lane_engine.specs.Receipts.{Response, place_of, response_of, response_under, answer_to_place, answer_to_receipt, answer_to_response, settlement_of};
ghost use Rattle.lane_engine.specs.Responses.{response_in_octets};

use crate::answers::Poll;
use aes_modes::Keys;
use keyset_book::Book;
use ota_core::{CardId, Entry, KeysetFacts, KeysetId, KeysetState, OctetsRoom, Reservation};
use response_packet::{AnswerIn, is_settling, open_in};

/// The most octets of data that a receipt has: those of the longest compact response (ETSI TS 102 226, 5.2.1).
pub(crate) const LONGEST_DATA: usize = 259;

/// What a response packet says, and the keyset under which it opens. Its data stand in the octets that it was opened in.
#[derive(Clone, Copy)]
pub(crate) struct ResponseIn {
    pub(crate) keyset: KeysetId,
    pub(crate) answer: AnswerIn,
}

/// What a card's packet says under the first of its keysets, in the order of their numbers, under which it opens.
pub(crate) fn response_of(
    book: &Book,
    card: CardId,
    packet: &[u8],
    work: &mut [u8],
) -> Option<ResponseIn>
    requires { length packet.now ≤ length work.old }
    ensures says { (history : List HistoryEntry) → StandsFor book.now history → option_map (λ response. response_in_octets response work.new) result ≡ response_of history card packet.now }
    ensures within { IfSome result (λ response. response.answer.from + response.answer.len ≤ length work.new) }
{
    let mut kvn = 1;
    while kvn <= 15 {
        let keyset = KeysetId { card, kvn };
        if let Some(response) = response_under(book, keyset, packet, work) {
            return Some(response);
        }
        kvn += 1;
    }
    None
}

/// What a packet says under a keyset, where the history opens that.
fn response_under(
    book: &Book,
    keyset: KeysetId,
    packet: &[u8],
    work: &mut [u8],
) -> Option<ResponseIn>
    requires { length packet.now ≤ length work.old }
    ensures says { (history : List HistoryEntry) → StandsFor book.now history → option_map (λ response. response_in_octets response work.new) result ≡ option_and_then (response_under keyset packet.now) (opened_facts keyset history) }
    ensures within { IfSome result (λ response. response.answer.from + response.answer.len ≤ length work.new) }
{
    match book.opened_facts(keyset) {
        Some(facts) => opened_under(keyset, &facts, packet, work),
        None => None,
    }
}

/// What a packet says under a keyset with these facts.
fn opened_under(
    keyset: KeysetId,
    facts: &KeysetFacts,
    packet: &[u8],
    work: &mut [u8],
) -> Option<ResponseIn>
    requires { length packet.now ≤ length work.old }
    ensures says { option_map (λ response. response_in_octets response work.new) result ≡ response_under keyset packet.now facts.now }
    ensures within { IfSome result (λ response. response.answer.from + response.answer.len ≤ length work.new) }
{
    match open_in(&keys_of(facts), facts.ciphered, packet, work) {
        Ok(answer) => Some(ResponseIn { keyset, answer }),
        Err(_) => None,
    }
}

/// The keys of a keyset with these facts.
fn keys_of(facts: &KeysetFacts) -> Keys
    ensures { result ≡ keys_of facts.now }
{
    Keys::new(facts.kic.as_slice(), facts.kid.as_slice()).unwrap()
}

/// The answer to a response: a notice, or that to its receipt.
pub(crate) fn answer_to(book: &Book, response: &ResponseIn) -> Poll
    ensures { (history : List HistoryEntry) → StandsFor book.now history → (octets : List ℕ) → response.now.answer.from + response.now.answer.len ≤ length octets → result ≡ answer_to_response (reverse history) (Some (response_in_octets response.now octets)) }
{
    if is_receipt(response) {
        answer_to_receipt(
            book,
            Reservation {
                keyset: response.keyset,
                counter: response.answer.counter,
            },
        )
    } else {
        Poll::Notice(response.answer.status)
    }
}

/// Whether a response says that the card used the counter up, with no more data than a compact response has.
fn is_receipt(response: &ResponseIn) -> bool
    ensures { result ≡ (settles response.now.answer.status && nat_le response.now.answer.len 259) }
{
    is_settling(response.answer.status) && response.answer.len as usize <= LONGEST_DATA
}

/// The answer to a receipt of this counter.
fn answer_to_receipt(book: &Book, place: Reservation) -> Poll
    ensures { (history : List HistoryEntry) → StandsFor book.now history → (response : Response) → place_of response ≡ place → result ≡ answer_to_receipt (reverse history) response }
{
    match book.keyset_state(place.keyset) {
        KeysetState::Closed => Poll::Late,
        _ => answer_to_place(book, place),
    }
}

/// The answer to a receipt of this counter of a keyset that isn't closed.
fn answer_to_place(book: &Book, place: Reservation) -> Poll
    ensures { (history : List HistoryEntry) → StandsFor book.now history → result ≡ answer_to_place (reverse history) place }
{
    if !book.has_reserve(place) {
        return Poll::NotOurs;
    }
    match book.settlement(place) {
        Some(_) => Poll::Late,
        None => Poll::Settled(place.keyset, place.counter),
    }
}

/// The data of a response that was opened in these octets.
fn data_of<'a>(response: &ResponseIn, work: &'a [u8]) -> &'a [u8]
    requires { response.now.answer.from + response.now.answer.len ≤ length work.now }
    ensures { result.now ≡ take response.now.answer.len (drop response.now.answer.from work.now) }
{
    let from = response.answer.from as usize;
    &work[from..from + response.answer.len as usize]
}

/// The entry that settles a receipt whose data stand in these octets.
pub(crate) fn settlement_of(
    by: u32,
    moment: u64,
    response: &ResponseIn,
    work: &[u8],
    room: OctetsRoom,
) -> Entry
    requires within { response.now.answer.from + response.now.answer.len ≤ length work.now }
    requires short { response.now.answer.len ≤ room }
    ensures { result ≡ settlement_of by moment (response_in_octets response.now work.now) }
{
    let keyset = response.keyset;
    let counter = response.answer.counter;
    if response.answer.status == 0x00 {
        return Entry::Done {
            by,
            moment,
            keyset,
            counter,
            answer: room.put(data_of(response, work)),
        };
    }
    Entry::Refused {
        by,
        moment,
        keyset,
        counter,
        status: response.answer.status,
    }
}
