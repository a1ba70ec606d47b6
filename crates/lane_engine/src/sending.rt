//! What a lane hands to the port.

ghost use Rattle.std.specs.Prelude.{◌≡◌, ◌≤◌, ◌++◌, ◌-◌, ◌%◌, ◌&&◌, not, nat_lt, if◌then◌else◌, is_err, false, ℕ, List, Some, None, All, OnOk, drop, length, map, reverse, slice_get};
ghost use Rattle.std.specs.List.{list_any, position_or_len};
ghost use Rattle.std.specs.Option.{option_and_then};
ghost use Rattle.std.specs.Result.{result_err};
ghost use Rattle.disk_model.specs.Disk.{Tells};
ghost use Rattle.ota_core.specs.Entry.{Reservation, is_reserve_of, is_settlement_of};
ghost use Rattle.ota_core.specs.Questions.{reserved_in};
ghost use Rattle.ota_core.specs.declared.entries.Entry.{Entry as HistoryEntry};
ghost use Rattle.keyset_book.specs.Book.{StandsFor};
ghost use Rattle.site_model.specs.Cards.{port_now};
ghost use Rattle.site_model.specs.Causes.{HasSiteCause};
ghost use Rattle.site_model.specs.Pieces.{pieces_under};
ghost use Rattle.world_core.specs.Packet.{packet_at, pieces_of, pieces_of_length};
ghost use Rattle.world_core.specs.declared.events.Event.TheVariants.{Begin, Seal};
ghost use Rattle.lane_engine.specs.Adding.{moment_for, AddingAnswer, LaneCause};
ghost use Rattle.lane_engine.specs.Course.{CardsActSince, PiecesCourse, ResendingCourse, SendingCourse};
ghost use Rattle.lane_engine.specs.Departing.{AreHandedOver, HaveCardsGoneOn, IsResent, IsSending, IsSendingRun, IsUnasked, LeavesWhole, ResendAnswer, SendsOnlyAdded, SendingEvents, ResendingEvents, departures_under, pieces_at, pieces_from};
ghost use Rattle.lane_engine.specs.Kept.{KeptSince, IsFair, IsLater};
ghost use Rattle.lane_engine.specs.Opening.{Opening};
ghost use Rattle.lane_engine.specs.Packets.{departures_for, departures_if, departures_of, octets_of, reference_of, spi_of};
ghost use Rattle.lane_engine.specs.Reserving.{IsJobOf, JobsDiffer, jobs_refusal, reserves_of, resend_refusal};
ghost use Rattle.lane_engine.specs.Sending.{AreAllHanded, HandsOver, HandsOverBuilt, IsCarried, IsOkOrFault, handed, packet_with};

use crate::answers::LaneErr;
use crate::lanes::Lane;
use crate::reserving::in_use;
use aes_modes::Keys;
use command_packet::{PacketBuf, build_in};
use keyset_book::Book;
use ota_core::{
    CardId, Counter, Entry, Job, KeysetFacts, KeysetId, Reference, Reservation, Reserved, Spi,
};
use site_model::{SiteCalls, SiteFault};
use sms_segments::pieces_of;

/// The longest script that leaves under a reference of one octet.
const LONGEST_SHORT: usize = 1_024;

impl<T: SiteCalls> Lane<T> {
    /// Reserves the batch as `reserve` does, and then hands every piece of each of its packets to the port, in order. All
    /// memory is taken before the first call of the site.
    pub fn reserve_and_send(&mut self, by: u32, jobs: &[Job]) -> Result<(), LaneErr>
        requires some { 1 ≤ length jobs.now }
        requires few { length jobs.now ≤ 16 }
        requires differ { JobsDiffer jobs.now }
        requires of_lane { All (IsJobOf self.old.journal.lane self.old.journal.lanes) jobs.now }
        ensures answer { AddingAnswer self.old (jobs_refusal by (moment_for self.old) self.old.name (reverse self.old.journal.entries) jobs.now) (reserves_of by (moment_for self.old) self.old.name (reverse self.old.journal.entries) jobs.now) result }
        ensures added { IsSending self.old self.new (reserves_of by (moment_for self.old) self.old.name (reverse self.old.journal.entries) jobs.now) result }
        ensures sent { Tells T.told self.old.site → AreHandedOver (departures_for (self.old.journal.entries ++ reserves_of by (moment_for self.old) self.old.name (reverse self.old.journal.entries) jobs.now) (reserves_of by (moment_for self.old) self.old.name (reverse self.old.journal.entries) jobs.now)) (port_now T.told T.port T.lines self.old.site) (port_now T.told T.port T.lines self.new.site) result }
        ensures only_added { Tells T.told self.old.site → SendsOnlyAdded T.told T.port T.lines self.old self.new }
        ensures unasked { Tells T.told self.old.site → IsUnasked (port_now T.told T.port T.lines self.old.site) (port_now T.told T.port T.lines self.new.site) }
        ensures moments { Tells T.told self.old.site → self.old.is_stale ≡ false → LeavesWhole T.told T.port T.lines self.old self.new (reserves_of by (moment_for self.old) self.old.name (reverse self.old.journal.entries) jobs.now) }
        ensures events { Tells T.told self.old.site → SendingEvents T.told T.port T.lines self.old self.new (reserves_of by (moment_for self.old) self.old.name (reverse self.old.journal.entries) jobs.now) result }
        ensures course { Tells T.told self.old.site → CardsActSince T.told T.port T.lines self.old.journal.lane self.old.journal.lanes (T.told.clock self.old.site) self.new.site → SendingCourse T.told T.port T.lines self.old self.new (reserves_of by (moment_for self.old) self.old.name (reverse self.old.journal.entries) jobs.now) result }
        ensures went_on { (opening : Opening) → Tells T.told self.old.site → KeptSince T.told T.counts T.port T.lines opening self.old → IsFair T.told T.counts T.port T.lines opening self.new.site → HaveCardsGoneOn T.told T.port T.lines self.old self.new }
        ensures cause { LaneCause (T.counts self.old.site) (T.counts self.new.site) result }
        ensures later { IsLater T.told T.counts T.port T.lines self.old self.new }
        ensures kept { (opening : Opening) → KeptSince T.told T.counts T.port T.lines opening self.old → KeptSince T.told T.counts T.port T.lines opening self.new }
    {
        if self.is_stale {
            return Err(LaneErr::Stale);
        }
        let batch = self.batch_for(by, jobs)?;
        let first = self.journal.history().entries().len();
        self.append(batch)?;
        self.send_from(first)
    }

    /// Hands all pieces of the packet of a reservation to the port once more: with the octets that were reserved. It wants
    /// no memory.
    pub fn resend(&mut self, by: u32, keyset: KeysetId, counter: Counter) -> Result<(), LaneErr>
        ensures answer { ResendAnswer self.old (resend_refusal (reverse self.old.journal.entries) (record { keyset = keyset; counter = counter })) result }
        ensures resent { IsResent self.old self.new result }
        ensures sent { Tells T.told self.old.site → AreHandedOver (departures_under self.old.journal.entries (record { keyset = keyset; counter = counter })) (port_now T.told T.port T.lines self.old.site) (port_now T.told T.port T.lines self.new.site) result }
        ensures unasked { Tells T.told self.old.site → IsUnasked (port_now T.told T.port T.lines self.old.site) (port_now T.told T.port T.lines self.new.site) }
        ensures events { Tells T.told self.old.site → ResendingEvents T.told T.port T.lines self.old self.new (record { keyset = keyset; counter = counter }) result }
        ensures course { Tells T.told self.old.site → CardsActSince T.told T.port T.lines self.old.journal.lane self.old.journal.lanes (T.told.clock self.old.site) self.new.site → ResendingCourse T.told T.port T.lines self.old self.new (record { keyset = keyset; counter = counter }) result }
        ensures went_on { (opening : Opening) → Tells T.told self.old.site → KeptSince T.told T.counts T.port T.lines opening self.old → IsFair T.told T.counts T.port T.lines opening self.new.site → HaveCardsGoneOn T.told T.port T.lines self.old self.new }
        ensures cause { LaneCause (T.counts self.old.site) (T.counts self.new.site) result }
        ensures later { IsLater T.told T.counts T.port T.lines self.old self.new }
        ensures kept { (opening : Opening) → KeptSince T.told T.counts T.port T.lines opening self.old → KeptSince T.told T.counts T.port T.lines opening self.new }
    {
        let _ = by;
        if self.is_stale {
            return Err(LaneErr::Stale);
        }
        let place = Reservation { keyset, counter };
        may_resend(self.journal.book(), place)?;
        let position = self.position_of(place);
        self.send_at(position)
    }
}

impl<T: SiteCalls> Lane<T> {
    /// Hands over the packets of all reservations from this position of the history on.
    fn send_from(&mut self, first: usize) -> Result<(), LaneErr>
        requires live { self.old.is_stale ≡ false }
        requires within { first ≤ length self.old.journal.entries }
        ensures answer { IsOkOrFault result }
        ensures resent { IsResent self.old self.new result }
        ensures hands { Tells T.told self.old.site → HandsOverBuilt T.told T.port T.lines self.old.journal.entries self.old.site self.new.site (departures_for self.old.journal.entries (drop first self.old.journal.entries)) (pieces_from self.old.journal.entries first (length self.old.journal.entries - first)) result }
        ensures course { Tells T.told self.old.site → CardsActSince T.told T.port T.lines self.old.journal.lane self.old.journal.lanes (T.told.clock self.old.site) self.new.site → PiecesCourse T.told T.port T.lines self.old self.new (pieces_from self.old.journal.entries first (length self.old.journal.entries - first)) result }
        ensures went_on { (opening : Opening) → Tells T.told self.old.site → KeptSince T.told T.counts T.port T.lines opening self.old → IsFair T.told T.counts T.port T.lines opening self.new.site → HaveCardsGoneOn T.told T.port T.lines self.old self.new }
        ensures later { IsLater T.told T.counts T.port T.lines self.old self.new }
        ensures kept { (opening : Opening) → KeptSince T.told T.counts T.port T.lines opening self.old → KeptSince T.told T.counts T.port T.lines opening self.new }
        ensures cause { LaneCause (T.counts self.old.site) (T.counts self.new.site) result }
    {
        let count = self.journal.history().entries().len();
        for position in first..count {
            self.send_at(position)?;
        }
        Ok(())
    }

    /// Hands over the packet of the reservation at a position of the history.
    fn send_at(&mut self, position: usize) -> Result<(), LaneErr>
        requires live { self.old.is_stale ≡ false }
        ensures answer { IsOkOrFault result }
        ensures resent { IsResent self.old self.new result }
        ensures hands { Tells T.told self.old.site → HandsOverBuilt T.told T.port T.lines self.old.journal.entries self.old.site self.new.site (departures_if (packet_at self.old.journal.entries position)) (pieces_at self.old.journal.entries position) result }
        ensures tells { T.told.tells self.new.site ≡ T.told.tells self.old.site }
        ensures cause { LaneCause (T.counts self.old.site) (T.counts self.new.site) result }
    {
        let reserved = match reserved_at(self.journal.history().entries(), position) {
            Some(reserved) => reserved,
            None => return Ok(()),
        };
        let facts = match self.journal.book().opened_facts(reserved.keyset) {
            Some(facts) => facts,
            None => return Ok(()),
        };
        send(
            &mut self.site,
            &mut self.is_stale,
            &reserved,
            &facts,
            &mut self.workspace.packet,
        )
    }

    /// The position in the history of the entry that reserves a counter, or the number of entries where none does.
    fn position_of(&self, place: Reservation) -> usize
        ensures { result ≡ position_or_len (is_reserve_of place) self.now.journal.entries }
    {
        let count = self.journal.history().entries().len();
        match self.journal.book().position(place) {
            Some(position) => position as usize,
            None => count,
        }
    }
}

/// Builds the packet of what is reserved under a keyset that is opened with these facts, and hands it over.
fn send<T: SiteCalls>(
    site: &mut T,
    is_stale: &mut bool,
    reserved: &Reserved<'_>,
    facts: &KeysetFacts,
    packet: &mut PacketBuf,
) -> Result<(), LaneErr>
    requires live { is_stale.old ≡ false }
    requires some { 1 ≤ length reserved.now.body }
    requires fits { length reserved.now.body ≤ 4096 }
    ensures answer { IsOkOrFault result }
    ensures stale { is_stale.new ≡ is_err result }
    ensures carried { IsCarried (packet_with reserved.now facts.now) }
    ensures hands { Tells T.told site.old → HandsOver T.told T.port T.lines site.old site.new (departures_of (packet_with reserved.now facts.now)) }
    ensures all { Tells T.told site.old → OnOk result (AreAllHanded T.told T.port T.lines site.old site.new (departures_of (packet_with reserved.now facts.now))) }
    ensures tells { T.told.tells site.new ≡ T.told.tells site.old }
    ensures cause { LaneCause (T.counts site.old) (T.counts site.new) result }
{
    let cover = build(reserved, facts, packet);
    match hand_over(site, packet.as_slice(), cover) {
        Ok(()) => Ok(()),
        Err(fault) => {
            *is_stale = true;
            Err(LaneErr::SiteFault(fault))
        }
    }
}

/// How a packet leaves: for which card, under which reference, in how many pieces.
#[derive(Clone, Copy)]
struct Cover {
    card: CardId,
    reference: Reference,
    pieces: u8,
}

/// Leaves in `out` the packet of what is reserved under a keyset that is opened with these facts.
fn build(reserved: &Reserved<'_>, facts: &KeysetFacts, out: &mut PacketBuf) -> Cover
    requires some { 1 ≤ length reserved.now.body }
    requires fits { length reserved.now.body ≤ 4096 }
    ensures octets { out.new.items ≡ octets_of (packet_with reserved.now facts.now) }
    ensures carried { IsCarried (packet_with reserved.now facts.now) }
    ensures card { result.card ≡ reserved.now.keyset.card }
    ensures reference { result.reference ≡ reference_of (packet_with reserved.now facts.now) }
    ensures pieces { result.pieces ≡ pieces_of (packet_with reserved.now facts.now) }
    ensures within { result.pieces ≡ pieces_under result.reference (length out.new.items) }
{
    let keys = Keys::new(facts.kic.as_slice(), facts.kid.as_slice()).unwrap();
    let keyset = reserved.keyset;
    let body = reserved.body.as_slice();
    build_in(
        &keys,
        keyset.kvn,
        spi_of(facts),
        reserved.tar,
        reserved.counter,
        body,
        out,
    );
    Cover {
        card: keyset.card,
        reference: reference_of(reserved.counter, body.len()),
        pieces: count_pieces(out.len(), body.len() > LONGEST_SHORT),
    }
}

/// The number of messages that a packet of so many octets leaves in.
fn count_pieces(octets: usize, is_wide: bool) -> u8
    requires some { 1 ≤ octets }
    requires fits { octets ≤ 4128 }
    ensures { result ≡ pieces_of_length octets is_wide }
{
    pieces_of(octets, is_wide) as u8
}

/// How the commands of a keyset are secured. A ciphered command asks for a ciphered answer.
fn spi_of(facts: &KeysetFacts) -> Spi
    ensures { result ≡ spi_of facts.now }
{
    Spi {
        ciphered: facts.ciphered,
        mode: facts.mode,
        answer_ciphered: facts.ciphered,
    }
}

/// The low octet of the counter, or its two low octets for a script of more than 1,024.
fn reference_of(counter: Counter, body: usize) -> Reference
    ensures { result ≡ (if nat_lt 1024 body then Reference.Wide (counter % 65536) else Reference.Short (counter % 256)) }
{
    if body > LONGEST_SHORT {
        return Reference::Wide((counter.0 % 65536) as u16);
    }
    Reference::Short((counter.0 % 256) as u8)
}

/// Hands all pieces of a packet to the port, in order.
fn hand_over<T: SiteCalls>(site: &mut T, packet: &[u8], cover: Cover) -> Result<(), SiteFault>
    requires within { cover.pieces ≤ pieces_under cover.reference (length packet.now) }
    ensures hands { Tells T.told site.old → HandsOver T.told T.port T.lines site.old site.new (handed cover.card packet.now cover.reference cover.pieces) }
    ensures all { Tells T.told site.old → OnOk result (AreAllHanded T.told T.port T.lines site.old site.new (handed cover.card packet.now cover.reference cover.pieces)) }
    ensures tells { T.told.tells site.new ≡ T.told.tells site.old }
    ensures cause { HasSiteCause (T.counts site.old) (T.counts site.new) result }
{
    let mut place = 0;
    while place < cover.pieces {
        place += 1;
        site.send(cover.card, packet, cover.reference, place)?;
    }
    Ok(())
}

/// What is reserved at a position of the history.
fn reserved_at(entries: &[Entry], position: usize) -> Option<Reserved<'_>>
    ensures { result ≡ option_and_then reserved_in (slice_get entries.now position) }
{
    match entries.get(position) {
        Some(
            Entry::Reserve {
                moment,
                keyset,
                counter,
                job,
                tar,
                name,
                body,
                ..
            },
        ) => Some(Reserved {
            keyset: *keyset,
            counter: *counter,
            job: *job,
            moment: *moment,
            tar: *tar,
            name,
            body,
        }),
        _ => None,
    }
}

/// Whether a counter can be sent again: its keyset is open, and it is reserved and not settled.
pub(crate) fn may_resend(book: &Book, place: Reservation) -> Result<(), LaneErr>
    ensures { (history : List HistoryEntry) → StandsFor book.now history → result_err result ≡ resend_refusal (reverse history) place }
{
    in_use(book, place.keyset)?;
    if is_unsettled(book, place) {
        return Ok(());
    }
    Err(LaneErr::NotReserved)
}

/// Whether the counter is reserved and not settled.
fn is_unsettled(book: &Book, place: Reservation) -> bool
    ensures { (history : List HistoryEntry) → StandsFor book.now history → result ≡ (list_any (is_reserve_of place) (reverse history) && not (list_any (is_settlement_of place) (reverse history))) }
{
    book.has_reserve(place) && !is_settled(book, place)
}

/// Whether the counter is settled.
fn is_settled(book: &Book, place: Reservation) -> bool
    ensures { (history : List HistoryEntry) → StandsFor book.now history → result ≡ list_any (is_settlement_of place) (reverse history) }
{
    match book.settlement(place) {
        Some(_) => true,
        None => false,
    }
}
