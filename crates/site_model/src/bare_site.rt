// A site without cards.
ghost use Rattle.std.specs.Prelude.{◌≡◌, ◌+◌, ◌≤◌, [], ◌∷◌, ◌++◌, IfOk, IfNone, IfSome, OnOk, vec_len, vec_capacity};
ghost use Rattle.disk_model.specs.Disk.{Tells};
ghost use Rattle.site_model.specs.Bare.{now_pair};
ghost use Rattle.site_model.specs.BareTold.{site_told, site_counts, port_of};
ghost use Rattle.site_model.specs.Cards.{Keeps};
ghost use Rattle.site_model.specs.Causes.{CountsEmpty, HasSiteCause};
ghost use Rattle.site_model.specs.Giving.{messages_of, TakesNext, GivesNext};
ghost use Rattle.site_model.specs.Port.{IsPolling};
ghost use Rattle.site_model.specs.Runs.{PortRun};

use crate::moments::{Given, Moment, add, add_call, reserve};
use crate::{Departure, Port, SiteCalls, SiteFault};
use arrayvec::ArrayVec;
use disk_model::{DiskCalls, DiskFault};
use ota_core::{CardId, Memory, Octets, Reference};
use std::alloc::Global;

/// A site with this disk and no cards. It keeps what was sent. Its port gives the messages that it was told to give, in
/// order, and then none.
///
/// Each call takes a little memory for its moment; a call that finds none does nothing and answers so.
#[derive(Drop)]
pub struct BareSite<D> {
    disk: D,
    alloc: Global,
    moments: Vec<Moment>,
    // the messages that are still to be given, the last one first
    waiting: Vec<(CardId, ArrayVec<u8, 140>)>,
    empty_polls: u64,
    wants: u64,
}

impl<D: DiskCalls> BareSite<D> {
    /// A site of which nothing was asked yet.
    pub fn new(alloc: Global, disk: D) -> BareSite<D>
        ensures disk { result.disk ≡ disk }
        ensures moments { result.moments.items ≡ [] }
        ensures messages { messages_of result ≡ [] }
        ensures empty_polls { result.empty_polls ≡ 0 }
        ensures wants { result.wants ≡ 0 }
    {
        BareSite {
            disk,
            alloc,
            moments: Vec::new(alloc),
            waiting: Vec::new(alloc),
            empty_polls: 0,
            wants: 0,
        }
    }

    /// The same site, whose polls give these messages in order, and then none, in place of those that it was to give.
    pub fn giving(self, messages: Vec<(CardId, ArrayVec<u8, 140>)>) -> BareSite<D>
        ensures messages { messages_of result ≡ messages.items }
        ensures disk { result.disk ≡ self.disk }
        ensures moments { result.moments.items ≡ self.moments.items }
        ensures empty_polls { result.empty_polls ≡ self.empty_polls }
        ensures wants { result.wants ≡ self.wants }
    {
        let mut waiting = messages;
        waiting.reverse();
        BareSite {
            disk: self.disk,
            alloc: self.alloc,
            moments: self.moments,
            waiting,
            empty_polls: self.empty_polls,
            wants: self.wants,
        }
    }

    /// The disk of the journal.
    pub fn disk(&self) -> &D
        ensures { result.now ≡ self.now.disk }
    {
        &self.disk
    }
}

impl<D: DiskCalls> DiskCalls for BareSite<D> {
    type Beside = Port;

    type Choice = ();

    ghost told = { site_told D.told };

    ghost counts = { site_counts D.counts };

    ghost seen_is_image = { λ site tells. now_pair D.told site.disk site.moments.items (D.told.seen site.disk) (D.seen_is_image site.disk tells) };

    fn len(&mut self) -> Result<u64, DiskFault> {
        if reserve(&mut self.moments).is_err() {
            self.wants = self.wants.saturating_add(1);
            return Err(DiskFault::Memory);
        }
        let outcome = self.disk.len();
        add_call(&mut self.moments, &outcome);
        outcome
    }

    fn read_at(&mut self, at: u64, into: &mut [u8]) -> Result<usize, DiskFault> {
        if reserve(&mut self.moments).is_err() {
            self.wants = self.wants.saturating_add(1);
            return Err(DiskFault::Memory);
        }
        let outcome = self.disk.read_at(at, into);
        add_call(&mut self.moments, &outcome);
        outcome
    }

    fn write_at(&mut self, at: u64, from: &[u8]) -> Result<(), DiskFault> {
        if reserve(&mut self.moments).is_err() {
            self.wants = self.wants.saturating_add(1);
            return Err(DiskFault::Memory);
        }
        let outcome = self.disk.write_at(at, from);
        add_call(&mut self.moments, &outcome);
        outcome
    }

    fn cut(&mut self, len: u64) -> Result<(), DiskFault> {
        if reserve(&mut self.moments).is_err() {
            self.wants = self.wants.saturating_add(1);
            return Err(DiskFault::Memory);
        }
        let outcome = self.disk.cut(len);
        add_call(&mut self.moments, &outcome);
        outcome
    }

    fn sync(&mut self) -> Result<(), DiskFault> {
        if reserve(&mut self.moments).is_err() {
            self.wants = self.wants.saturating_add(1);
            return Err(DiskFault::Memory);
        }
        let outcome = self.disk.sync();
        add_call(&mut self.moments, &outcome);
        outcome
    }
}

impl<D: DiskCalls> SiteCalls for BareSite<D> {
    ghost port = { λ port. port };

    ghost lines = { λ _ _. [] };

    ghost has_choice = { λ site tells moment past. (tt, tt) };

    fn send(
        &mut self,
        card: CardId,
        packet: &[u8],
        reference: Reference,
        place: u8,
    ) -> Result<(), SiteFault> {
        match self.departure(card, packet, reference, place) {
            Some(departure) => {
                add(&mut self.moments, Moment::Sent(departure));
                Ok(())
            }
            None => {
                self.wants = self.wants.saturating_add(1);
                Err(SiteFault::Memory)
            }
        }
    }

    fn poll(&mut self) -> Result<Option<(CardId, ArrayVec<u8, 140>)>, SiteFault>
        ensures gives { GivesNext self.old self.new result }
        ensures given { Tells (site_told D.told) self.old → IfOk result (λ message. IfSome message (λ m. (port_of D.told self.new).given ≡ (port_of D.told self.old).given ++ (m.0, m.1.items) ∷ [])) }
        ensures nothing { Tells (site_told D.told) self.old → IfOk result (λ message. IfNone message ((port_of D.told self.new).given ≡ (port_of D.told self.old).given)) }
        ensures polled { Tells (site_told D.told) self.old → OnOk result ((port_of D.told self.new).polls ≡ (port_of D.told self.old).polls + 1) }
        ensures moments { Tells (site_told D.told) self.old → PortRun (site_told D.told) self.old self.new (λ beside. IsPolling (port_of D.told self.old) beside) }
        ensures keeps { Tells (site_told D.told) self.old → Keeps (site_told D.told) (λ port. port) (λ _ _. []) self.old self.new }
        ensures content { Tells (site_told D.told) self.old → (site_told D.told).seen self.new ≡ (site_told D.told).seen self.old }
        ensures tells { (site_told D.told).tells self.new ≡ (site_told D.told).tells self.old }
        ensures empty { CountsEmpty (site_counts D.counts self.old) (site_counts D.counts self.new) result }
        ensures cause { HasSiteCause (site_counts D.counts self.old) (site_counts D.counts self.new) result }
    {
        match self.take_next() {
            Ok(Some(message)) => Ok(Some(message)),
            Ok(None) => {
                add(&mut self.moments, Moment::Polled);
                self.empty_polls = self.empty_polls.saturating_add(1);
                Ok(None)
            }
            Err(_) => {
                self.wants = self.wants.saturating_add(1);
                Err(SiteFault::Memory)
            }
        }
    }
}

impl<D: DiskCalls> BareSite<D> {
    /// What is handed to the port, and room for its moment; None where memory is wanting.
    fn departure(
        &mut self,
        card: CardId,
        packet: &[u8],
        reference: Reference,
        place: u8,
    ) -> Option<Departure>
        ensures moments { self.new.moments.items ≡ self.old.moments.items }
        ensures disk { self.new.disk ≡ self.old.disk }
        ensures empty_polls { self.new.empty_polls ≡ self.old.empty_polls }
        ensures wants { self.new.wants ≡ self.old.wants }
        ensures room { IfSome result (λ departure. vec_len self.new.moments + 1 ≤ vec_capacity self.new.moments) }
        ensures departure { IfSome result (λ departure. departure ≡ record { card = card; packet = packet.now; reference = reference; place = place }) }
    {
        if reserve(&mut self.moments).is_err() {
            return None;
        }
        match Octets::from_slice(self.alloc, packet) {
            Ok(packet) => Some(Departure {
                card,
                packet,
                reference,
                place,
            }),
            Err(_) => None,
        }
    }

    /// The next message, which the moments keep too; where there is none, room for the moment of a poll.
    fn take_next(&mut self) -> Result<Option<(CardId, ArrayVec<u8, 140>)>, Memory>
        ensures disk { self.new.disk ≡ self.old.disk }
        ensures empty_polls { self.new.empty_polls ≡ self.old.empty_polls }
        ensures wants { self.new.wants ≡ self.old.wants }
        ensures next { TakesNext self.old self.new result }
        ensures room { IfOk result (λ message. IfNone message (vec_len self.new.moments + 1 ≤ vec_capacity self.new.moments)) }
    {
        reserve(&mut self.moments)?;
        match self.waiting.pop() {
            Some((card, message)) => match Octets::from_slice(self.alloc, message.as_slice()) {
                Ok(octets) => {
                    add(
                        &mut self.moments,
                        Moment::Gave(Given {
                            card,
                            message: octets,
                        }),
                    );
                    Ok(Some((card, message)))
                }
                Err(error) => {
                    self.waiting.push((card, message)).unwrap();
                    Err(error)
                }
            },
            None => Ok(None),
        }
    }
}

#[cfg(test)]
mod tests;
