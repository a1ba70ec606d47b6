//! How a lane asks the port, and settles what a card answers.

ghost use Rattle.std.specs.Prelude.{All, ◌≡◌, ◌≤◌, ◌+◌, ◌++◌, ◌∷◌, [], ℕ, List, Some, None, Ok, Err, true, false, length, reverse, vec_capacity, IfOk, IfErr, OnOk, IfNone, IfSome};
ghost use Rattle.disk_model.specs.Disk.{Tells};
ghost use Rattle.gate_log.specs.Opening.{LIMIT};
ghost use Rattle.ota_core.specs.History.{broken};
ghost use Rattle.counter_journal.specs.EntryRanges.{IsEntry, IsSized, IsOfLane};
ghost use Rattle.keyset_book.specs.Book.{needs_no_room};
ghost use Rattle.site_model.specs.Cards.{Keeps, port_now};
ghost use Rattle.site_model.specs.Causes.{CountsEmpty, empty_polls};
ghost use Rattle.site_model.specs.Port.{IsPolling};
ghost use Rattle.site_model.specs.Runs.{PortRun};
ghost use Rattle.sms_segments.specs.declared.assembling.Push.TheVariants.{Whole as WholePacket};
ghost use Rattle.lane_engine.specs.Adding.{LaneCause, need_for};
ghost use Rattle.lane_engine.specs.Course.{CardsActSince, PollingCourse};
ghost use Rattle.lane_engine.specs.Departing.{HaveCardsGoneOn};
ghost use Rattle.lane_engine.specs.Kept.{KeptSince, IsFair, IsLater};
ghost use Rattle.lane_engine.specs.Opening.{Opening};
ghost use Rattle.lane_engine.specs.Polling.{CountsNothing, IsPolled, IsUnpolled, LosesDue, PollingAnswer, PollingEvents, PortPolled, LONGEST_SETTLEMENT};
ghost use Rattle.lane_engine.specs.Settling.{AskingAnswer, IsAskedOnce, IsHeard, IsSettled, IsTaken, RoomAnswer, SettlingRun, settled_by};
ghost use Rattle.lane_engine.specs.LaneValue.{IsSameHearing};

use crate::answers::{LaneErr, Poll};
use crate::lanes::Lane;
use crate::responses::{LONGEST_DATA, answer_to, response_of, settlement_of};
use arrayvec::ArrayVec;
use ota_core::{CardId, Entry, Memory, Octets, OctetsRoom};
use response_packet::unsecured_status;
use site_model::SiteCalls;
use sms_segments::Push;

/// The octets that the longest settlement needs in the journal.
const LONGEST_SETTLEMENT: u64 = 295;

/// The greatest length of a journal, in octets.
const LIMIT: u64 = 16_777_216;

/// The memory for a settlement.
#[derive(Drop)]
struct Room {
    answer: OctetsRoom,
    batch: Vec<Entry>,
}

impl<T: SiteCalls> Lane<T> {
    /// Asks the port once, and settles the receipt that its message makes whole, where it is due. Keysets are tried in
    /// the order of their numbers. It takes its memory, and tests room for the longest settlement, before it asks, so that no receipt
    /// is lost for want of either.
    pub fn poll_settle(&mut self, by: u32) -> Result<Poll, LaneErr>
        ensures answer { PollingAnswer self.old result }
        ensures polled { IsPolled self.old self.new by result }
        ensures told { Tells T.told self.old.site → PortPolled self.old self.new by (port_now T.told T.port T.lines self.old.site) (port_now T.told T.port T.lines self.new.site) result }
        ensures lost { Tells T.told self.old.site → LosesDue self.old self.new by (port_now T.told T.port T.lines self.old.site) (port_now T.told T.port T.lines self.new.site) result }
        ensures nothing { CountsNothing (T.counts self.old.site) (T.counts self.new.site) result }
        ensures events { (opening : Opening) → Tells T.told self.old.site → KeptSince T.told T.counts T.port T.lines opening self.old → IsFair T.told T.counts T.port T.lines opening self.new.site → PollingEvents T.told T.port T.lines self.old self.new by result }
        ensures course { (opening : Opening) → Tells T.told self.old.site → KeptSince T.told T.counts T.port T.lines opening self.old → IsFair T.told T.counts T.port T.lines opening self.new.site → CardsActSince T.told T.port T.lines self.old.journal.lane self.old.journal.lanes (T.told.clock self.old.site) self.new.site → PollingCourse T.told T.port T.lines self.old self.new by result }
        ensures went_on { (opening : Opening) → Tells T.told self.old.site → KeptSince T.told T.counts T.port T.lines opening self.old → IsFair T.told T.counts T.port T.lines opening self.new.site → HaveCardsGoneOn T.told T.port T.lines self.old self.new }
        ensures cause { LaneCause (T.counts self.old.site) (T.counts self.new.site) result }
        ensures later { IsLater T.told T.counts T.port T.lines self.old self.new }
        ensures kept { (opening : Opening) → KeptSince T.told T.counts T.port T.lines opening self.old → KeptSince T.told T.counts T.port T.lines opening self.new }
    {
        if self.is_stale {
            return Err(LaneErr::Stale);
        }
        let room = self.make_room()?;
        self.has_room()?;
        match self.ask()? {
            None => Ok(Poll::Nothing),
            Some((card, message)) => self.hear(by, card, message.as_slice(), room),
        }
    }

    /// Takes the memory for a message, for what it may settle, and for the answer that is then kept.
    fn make_room(&mut self) -> Result<Room, Memory>
        ensures same { IsUnpolled self.old self.new }
        ensures heard { OnOk result (1 ≤ self.new.heard.room) }
        ensures journal { OnOk result (1 ≤ self.new.journal.room) }
        ensures answer { IfOk result (λ room. 259 ≤ room.answer) }
        ensures batch { IfOk result (λ room. room.batch.items ≡ []) }
        ensures place { IfOk result (λ room. 1 ≤ vec_capacity room.batch) }
    {
        self.assembler.make_room()?;
        self.journal.make_room(1)?;
        let answer = Octets::room(self.alloc, LONGEST_DATA)?;
        let batch = Vec::with_capacity(self.alloc, 1)?;
        Ok(Room { answer, batch })
    }

    /// Whether the journal has room for the longest settlement.
    fn has_room(&self) -> Result<(), LaneErr>
        ensures { RoomAnswer self.now.journal.length result }
    {
        let length = self.journal.length();
        if length > LIMIT - LONGEST_SETTLEMENT {
            return Err(LaneErr::Full {
                length,
                need: LONGEST_SETTLEMENT,
            });
        }
        Ok(())
    }

    /// Asks the port once.
    fn ask(&mut self) -> Result<Option<(CardId, ArrayVec<u8, 140>)>, LaneErr>
        requires live { self.old.is_stale ≡ false }
        ensures asked { IsAskedOnce self.old self.new }
        ensures answer { AskingAnswer self.new result }
        ensures given { Tells T.told self.old.site → IfOk result (λ message. IfSome message (λ m. (port_now T.told T.port T.lines self.new.site).given ≡ (port_now T.told T.port T.lines self.old.site).given ++ (m.0, m.1.items) ∷ [])) }
        ensures none { Tells T.told self.old.site → IfOk result (λ message. IfNone message ((port_now T.told T.port T.lines self.new.site).given ≡ (port_now T.told T.port T.lines self.old.site).given)) }
        ensures polls { Tells T.told self.old.site → OnOk result ((port_now T.told T.port T.lines self.new.site).polls ≡ (port_now T.told T.port T.lines self.old.site).polls + 1) }
        ensures run { Tells T.told self.old.site → PortRun T.told self.old.site self.new.site (λ beside. IsPolling (port_now T.told T.port T.lines self.old.site) (T.port beside)) }
        ensures keeps { Tells T.told self.old.site → Keeps T.told T.port T.lines self.old.site self.new.site }
        ensures tells { T.told.tells self.new.site ≡ T.told.tells self.old.site }
        ensures empty { IfOk result (λ message. CountsEmpty (T.counts self.old.site) (T.counts self.new.site) (Ok message)) }
        ensures empty_err { IfErr result (λ error. empty_polls (T.counts self.new.site) ≡ empty_polls (T.counts self.old.site)) }
        ensures cause { LaneCause (T.counts self.old.site) (T.counts self.new.site) result }
    {
        match self.site.poll() {
            Ok(message) => Ok(message),
            Err(fault) => {
                self.is_stale = true;
                Err(LaneErr::SiteFault(fault))
            }
        }
    }

    /// Takes a message of a card.
    fn hear(&mut self, by: u32, card: CardId, message: &[u8], room: Room) -> Result<Poll, LaneErr>
        requires live { self.old.is_stale ≡ false }
        requires fits { self.old.journal.length + LONGEST_SETTLEMENT ≤ LIMIT }
        requires heard_room { 1 ≤ self.old.heard.room }
        requires journal_room { 1 ≤ self.old.journal.room }
        requires answer_room { 259 ≤ room.answer }
        requires batch { room.batch.items ≡ [] }
        requires place { 1 ≤ vec_capacity room.batch }
        ensures heard { IsHeard T.told self.old self.new by (card, message.now) result }
        ensures tells { T.told.tells self.new.site ≡ T.told.tells self.old.site }
        ensures empty_polls { empty_polls (T.counts self.new.site) ≡ empty_polls (T.counts self.old.site) }
        ensures cause { LaneCause (T.counts self.old.site) (T.counts self.new.site) result }
    {
        match self.assembler.push(card, message) {
            Ok(Push::Whole(packet)) => self.read(by, card, packet.as_slice(), room),
            Ok(Push::More) => Ok(Poll::More),
            Ok(Push::NotOurs) => Ok(Poll::NotOurs),
            Err(_) => Err(LaneErr::Memory),
        }
    }

    /// Takes a packet of a card.
    fn read(&mut self, by: u32, card: CardId, packet: &[u8], room: Room) -> Result<Poll, LaneErr>
        requires live { self.old.is_stale ≡ false }
        requires fits { self.old.journal.length + LONGEST_SETTLEMENT ≤ LIMIT }
        requires journal_room { 1 ≤ self.old.journal.room }
        requires answer_room { 259 ≤ room.answer }
        requires batch { room.batch.items ≡ [] }
        requires place { 1 ≤ vec_capacity room.batch }
        requires short { length packet.now ≤ 34168 }
        ensures taken { IsTaken self.old self.new by card (WholePacket packet.now) result }
        ensures run { Tells T.told self.old.site → SettlingRun T.told self.old self.new (settled_by by self.old card (WholePacket packet.now)) }
        ensures tells { T.told.tells self.new.site ≡ T.told.tells self.old.site }
        ensures empty_polls { empty_polls (T.counts self.new.site) ≡ empty_polls (T.counts self.old.site) }
        ensures cause { LaneCause (T.counts self.old.site) (T.counts self.new.site) result }
    {
        let work = &mut self.workspace.response[..];
        if let Some(status) = unsecured_status(packet) {
            return Ok(Poll::Notice(status));
        }
        let response = match response_of(self.journal.book(), card, packet, work) {
            Some(response) => response,
            None => return Ok(Poll::NotOurs),
        };
        let poll = answer_to(self.journal.book(), &response);
        if let Poll::Settled(_, _) = poll {
            let moment = self.moment_for();
            let work = &self.workspace.response[..];
            let entry = settlement_of(by, moment, &response, work, room.answer);
            self.settle(entry, room.batch)?;
        }
        Ok(poll)
    }

    /// Adds the settlement of a receipt.
    fn settle(&mut self, entry: Entry, batch: Vec<Entry>) -> Result<(), LaneErr>
        requires live { self.old.is_stale ≡ false }
        requires fits { self.old.journal.length + need_for (entry ∷ []) ≤ LIMIT }
        requires journal_room { 1 ≤ self.old.journal.room }
        requires small { needs_no_room entry ≡ true }
        requires sized { IsSized entry }
        requires of_lane { IsOfLane self.old.journal.lane self.old.journal.lanes entry }
        requires legal { broken (reverse self.old.journal.entries) entry ≡ None }
        requires batch { batch.items ≡ [] }
        requires place { 1 ≤ vec_capacity batch }
        ensures settled { IsSettled self.old self.new (entry ∷ []) result }
        ensures fits { All IsEntry (entry ∷ []) }
        ensures rest { IsSameHearing self.old self.new }
        ensures run { Tells T.told self.old.site → SettlingRun T.told self.old self.new (entry ∷ []) }
        ensures tells { T.told.tells self.new.site ≡ T.told.tells self.old.site }
        ensures empty_polls { empty_polls (T.counts self.new.site) ≡ empty_polls (T.counts self.old.site) }
        ensures cause { LaneCause (T.counts self.old.site) (T.counts self.new.site) result }
    {
        let mut batch = batch;
        batch.push(entry).unwrap();
        self.append(batch)
    }
}
