//! The load files and the applications of a card.

ghost use Rattle.std.specs.Prelude.{◌≡◌, ◌+◌, ◌<◌, ◌≤◌, true, false, ◌++◌, ◌∷◌, [], if◌then◌else◌, length, nat_le, option_and_then, option_copied, IsOk, MatchResult, IfOk, IfSome, OnErr, Ok, Err};
ghost use Rattle.apdu_codec.specs.Reply.{answer, answered};
ghost use Rattle.applet_registry.specs.Commands as command;
ghost use Rattle.applet_registry.specs.Sound.{IsNew, IsSound};
ghost use Rattle.ota_core.specs.KeysetList.{has_kvn};
ghost use Rattle.applet_registry.specs.State.{is_issued, put_of, has_load_file, has_application, is_loading, is_known, is_in_use, total_of, with_state, without_application, without_load_file, without_load, under_way, room_of};
ghost use Rattle.applet_registry.specs.Status.{fitting};

use crate::aid::Aid;
use crate::application::{Application, INSTALLED, NewState, SELECTABLE, set_state, state_of};
use crate::blocks::Blocks;
use crate::data_block::data_block;
use crate::fields::{installed, new_application, new_load_file, tagged_value};
use crate::keyset::{are_same, keyset_of};
use crate::limits::{APPLICATIONS, KVN_FIRST, KVN_LAST, LOAD_FILES, LOAD_FILES_ROOM};
use crate::load::Load;
use crate::load_file::{LoadFile, total};
use crate::status::{Out, of_applications, of_load_files};
use apdu_codec::{Refusal, Reply};
use arrayvec::ArrayVec;
use ota_core::{KeysetFacts, KeysetList, Memory, Octets};
use std::alloc::Global;
use std::marker::Model;

/// The load files and the applications of a card, the load under way, the numbers of the keysets with which
/// the card was issued, and the keysets that were put.
///
/// GlobalPlatform Card Specification 2.1.1, 6.
#[derive(Drop)]
pub struct Registry {
    load_files: Vec<LoadFile>,
    applications: Vec<Application>,
    load: Option<Load>,
    issued: Vec<u8>,
    put: KeysetList,
    alloc: Global,
}

impl Model for Registry {
    ghost use Rattle.applet_registry.specs.State.{State};
    ghost use Rattle.applet_registry.specs.Sound.{IsSound};

    ghost Value = { State };

    ghost view = { λ r. record { load_files = r.load_files.items; applications = r.applications.items; load = r.load; issued = r.issued.items; put = r.put } };

    ghost invariant = { λ r. IsSound (record { load_files = r.load_files.items; applications = r.applications.items; load = r.load; issued = r.issued.items; put = r.put }) };
}

impl Registry {
    /// A registry that holds nothing, of a card that was issued with no keyset.
    pub fn fresh(alloc: Global) -> Registry
        ensures { result ≡ command.fresh_state }
    {
        Registry {
            load_files: Vec::new(alloc),
            applications: Vec::new(alloc),
            load: None,
            issued: Vec::new(alloc),
            put: KeysetList::new(alloc),
            alloc,
        }
    }

    /// A registry that holds nothing, of a card that was issued with keysets of these numbers.
    pub fn issued(alloc: Global, kvns: &[u8]) -> Result<Registry, Memory>
        ensures { IfOk result (λ registry. registry ≡ command.issued_state kvns.now) }
    {
        let issued = Vec::from_slice(alloc, kvns)?;
        Ok(Registry {
            load_files: Vec::new(alloc),
            applications: Vec::new(alloc),
            load: None,
            issued,
            put: KeysetList::new(alloc),
            alloc,
        })
    }

    /// Whether the card was issued with a keyset of this number.
    pub fn is_issued(&self, kvn: u8) -> bool
        ensures issued { result ≡ is_issued self.now kvn }
        ensures sound { IsSound self.now }
    {
        self.issued.iter().any(|issued| *issued == kvn)
    }

    /// The keyset that was put with this number.
    pub fn put_keyset(&self, kvn: u8) -> Option<&KeysetFacts>
        ensures keyset { option_copied result ≡ put_of self.now kvn }
        ensures sound { IsSound self.now }
    {
        self.put
            .as_slice()
            .iter()
            .find(|keyset| keyset.0 == kvn)
            .map(|keyset| &keyset.1)
    }

    /// INSTALL: [for load] (P1 02), [for install] (04), [for install and make selectable] (0C), [for make
    /// selectable] (08). GlobalPlatform Card Specification 2.1.1, 9.5.
    pub fn install(&mut self, p1: u8, p2: u8, p3: u8, octets: &[u8]) -> Result<Reply, Memory>
        requires { length octets.now ≡ p3 }
        ensures answer { IfOk result (λ reply. answered self.new reply ≡ command.install self.old p1 p2 p3 octets.now) }
        ensures err { OnErr result (self.new ≡ self.old) }
    {
        if p2 != 0 {
            return Ok(Reply::refused(Refusal::WrongParameters));
        }
        match p1 {
            0x02 => Ok(self.begin_load(octets)),
            0x04 => self.register(INSTALLED, octets),
            0x0C => self.register(SELECTABLE, octets),
            0x08 => Ok(self.make_selectable(octets)),
            _ => Ok(Reply::refused(Refusal::WrongParameters)),
        }
    }

    /// LOAD. GlobalPlatform Card Specification 2.1.1, 9.6.
    pub fn load(&mut self, p1: u8, p2: u8, p3: u8, octets: &[u8]) -> Result<Reply, Memory>
        requires { length octets.now ≡ p3 }
        ensures answer { IfOk result (λ reply. answered self.new reply ≡ command.load self.old p1 p2 p3 octets.now) }
        ensures err { OnErr result (self.new ≡ self.old) }
    {
        if p1 != 0 && p1 != 0x80 {
            return Ok(Reply::refused(Refusal::WrongParameters));
        }
        if !self.is_awaited(p2) {
            return Ok(Reply::refused(Refusal::ConditionsNotMet));
        }
        if !self.has_room(octets.len()) {
            return Ok(self.drop_load(Refusal::NoRoom));
        }
        if p1 == 0 {
            self.take_block(octets)?;
            return Ok(Reply::done(ArrayVec::new()));
        }
        match self.loaded(octets)? {
            Some(file) => {
                self.end_load(file)?;
                Ok(Reply::done(ArrayVec::new()))
            }
            None => Ok(self.drop_load(Refusal::WrongData)),
        }
    }

    /// DELETE. GlobalPlatform Card Specification 2.1.1, 9.2.
    pub fn delete_object(&mut self, p1: u8, p2: u8, p3: u8, octets: &[u8]) -> Result<Reply, Memory>
        requires { length octets.now ≡ p3 }
        ensures answer { IfOk result (λ reply. answered self.new reply ≡ command.delete_object self.old p1 p2 p3 octets.now) }
        ensures err { OnErr result (self.new ≡ self.old) }
        ensures memory { IsOk result }
    {
        match deleted_aid(p1, p2, octets) {
            Ok(aid) => Ok(self.delete(p2, &aid)),
            Err(refusal) => Ok(Reply::refused(refusal)),
        }
    }

    /// SET STATUS. GlobalPlatform Card Specification 2.1.1, 9.10; that b8 of P2 alone counts is this card's
    /// own.
    pub fn set_status(&mut self, p1: u8, p2: u8, p3: u8, octets: &[u8]) -> Result<Reply, Memory>
        requires { length octets.now ≡ p3 }
        ensures answer { IfOk result (λ reply. answered self.new reply ≡ command.set_status self.old p1 p2 p3 octets.now) }
        ensures err { OnErr result (self.new ≡ self.old) }
        ensures memory { IsOk result }
    {
        match self.relocked(p1, p2, octets) {
            Ok(new) => {
                self.give_state(&new);
                Ok(Reply::done(ArrayVec::new()))
            }
            Err(refusal) => Ok(Reply::refused(refusal)),
        }
    }

    /// GET STATUS. GlobalPlatform Card Specification 2.1.1, 9.4.
    pub fn get_status(&mut self, p1: u8, p2: u8, p3: u8, octets: &[u8]) -> Result<Reply, Memory>
        requires { length octets.now ≡ p3 }
        ensures answer { IfOk result (λ reply. answered self.new reply ≡ command.get_status self.old p1 p2 p3 octets.now) }
        ensures err { OnErr result (self.new ≡ self.old) }
        ensures memory { IsOk result }
    {
        match self.status(p1, p2, octets) {
            Ok(out) => Ok(Reply::done(out)),
            Err(refusal) => Ok(Reply::refused(refusal)),
        }
    }

    /// PUT KEY: puts the keyset of the number P2. GlobalPlatform Card Specification 2.1.1, 9.8; its data
    /// field, and that a keyset once put stays as it is, are this card's own.
    #[tactic(auto, using(crate::proofs::Keysets::none_found))]
    pub fn put_key(&mut self, p1: u8, p2: u8, p3: u8, octets: &[u8]) -> Result<Reply, Memory>
        requires { length octets.now ≡ p3 }
        ensures answer { IfOk result (λ reply. answered self.new reply ≡ command.put_key self.old p1 p2 p3 octets.now) }
        ensures err { OnErr result (self.new ≡ self.old) }
    {
        if !(p1 == 0 && p2 >= KVN_FIRST && p2 <= KVN_LAST) {
            return Ok(Reply::refused(Refusal::WrongParameters));
        }
        let keyset = match keyset_of(octets) {
            Some(keyset) => keyset,
            None => return Ok(Reply::refused(Refusal::WrongData)),
        };
        if self.is_issued(p2) {
            return Ok(Reply::refused(Refusal::ConditionsNotMet));
        }
        match self.put_keyset(p2) {
            Some(before) => Ok(reply_to_same(are_same(before, &keyset))),
            None => {
                self.put(p2, keyset)?;
                Ok(Reply::done(ArrayVec::new()))
            }
        }
    }

    /// Gives the application with an AID its new state.
    fn give_state(&mut self, new: &NewState)
        ensures { self.new ≡ with_state self.old new.now }
    {
        set_state(&mut self.applications, new);
    }

    /// Puts a keyset.
    fn put(&mut self, kvn: u8, keyset: KeysetFacts) -> Result<(), Memory>
        requires above { 1 ≤ kvn }
        requires below { kvn ≤ 15 }
        requires new { is_issued self.old kvn ≡ false }
        requires free { has_kvn kvn self.old.put ≡ false }
        ensures ok { IfOk result (λ _. self.new ≡ record self.old { put = self.old.put ++ (kvn, keyset) ∷ [] }) }
        ensures err { OnErr result (self.new ≡ self.old) }
    {
        self.put.push(kvn, keyset)?;
        Ok(())
    }

    /// Whether there is a load file with this AID.
    fn has_load_file(&self, aid: &Aid) -> bool
        ensures { result ≡ has_load_file self.now aid.now }
    {
        self.load_files.iter().any(|file| file.aid.is(aid))
    }

    /// Whether there is an application with this AID.
    fn has_application(&self, aid: &Aid) -> bool
        ensures { result ≡ has_application self.now aid.now }
    {
        self.applications
            .iter()
            .any(|application| application.aid.is(aid))
    }

    /// Whether an application comes from the load file with this AID.
    fn is_in_use(&self, aid: &Aid) -> bool
        ensures { result ≡ is_in_use self.now aid.now }
    {
        self.applications
            .iter()
            .any(|application| application.load_file.is(aid))
    }

    /// Whether this is the AID of the load under way.
    fn is_loading(&self, aid: &Aid) -> bool
        ensures { result ≡ is_loading self.now aid.now }
    {
        match &self.load {
            Some(load) => load.aid.is(aid),
            None => false,
        }
    }

    /// Whether this is the AID of a load file, of an application, or of the load under way.
    fn is_known(&self, aid: &Aid) -> bool
        ensures { result ≡ is_known self.now aid.now }
    {
        self.has_load_file(aid) || self.has_application(aid) || self.is_loading(aid)
    }

    /// The load file that INSTALL [for load] is to begin.
    fn new_load_file(&self, octets: &[u8]) -> Result<Aid, Refusal>
        ensures { result ≡ command.new_load_file self.now octets.now }
    {
        let aid = match new_load_file(octets) {
            Some(aid) => aid,
            None => return Err(Refusal::WrongData),
        };
        if self.is_known(&aid) {
            return Err(Refusal::ConditionsNotMet);
        }
        if self.load_files.len() >= LOAD_FILES {
            return Err(Refusal::NoRoom);
        }
        Ok(aid)
    }

    /// INSTALL [for load].
    fn begin_load(&mut self, octets: &[u8]) -> Reply
        ensures { answered self.new result ≡ answer self.old (command.beginning_load self.old octets.now) }
    {
        match self.new_load_file(octets) {
            Ok(aid) => {
                self.load = Some(Load {
                    aid,
                    blocks: Blocks::new(self.alloc),
                    count: 0,
                });
                Reply::done(ArrayVec::new())
            }
            Err(refusal) => Reply::refused(refusal),
        }
    }

    /// The application that INSTALL [for install] is to register.
    fn new_application(&self, state: u8, octets: &[u8]) -> Result<Application, Refusal>
        ensures application { result ≡ command.new_application state self.now octets.now }
        ensures new { IfOk result (IsNew self.now) }
    {
        let application = match new_application(state, octets) {
            Some(application) => application,
            None => return Err(Refusal::WrongData),
        };
        if !self.has_load_file(&application.load_file) {
            return Err(Refusal::ReferenceNotFound);
        }
        if self.is_known(&application.aid) {
            return Err(Refusal::ConditionsNotMet);
        }
        if self.applications.len() >= APPLICATIONS {
            return Err(Refusal::NoRoom);
        }
        Ok(application)
    }

    /// INSTALL [for install], with the state that the application has then.
    fn register(&mut self, state: u8, octets: &[u8]) -> Result<Reply, Memory>
        ensures answer { IfOk result (λ reply. answered self.new reply ≡ answer self.old (command.registering state self.old octets.now)) }
        ensures err { OnErr result (self.new ≡ self.old) }
    {
        match self.new_application(state, octets) {
            Ok(application) => {
                self.applications.push(application)?;
                Ok(Reply::done(ArrayVec::new()))
            }
            Err(refusal) => Ok(Reply::refused(refusal)),
        }
    }

    /// The application that INSTALL [for make selectable] names, and its new state.
    fn selectable(&self, octets: &[u8]) -> Result<NewState, Refusal>
        ensures { result ≡ command.selectable self.now octets.now }
    {
        let aid = match installed(octets) {
            Some(aid) => aid,
            None => return Err(Refusal::WrongData),
        };
        match state_of(&self.applications, &aid) {
            Some(INSTALLED) => Ok(NewState {
                aid,
                state: SELECTABLE,
            }),
            Some(_) => Err(Refusal::ConditionsNotMet),
            None => Err(Refusal::ReferenceNotFound),
        }
    }

    /// INSTALL [for make selectable].
    fn make_selectable(&mut self, octets: &[u8]) -> Reply
        ensures { answered self.new result ≡ answer self.old (command.making_selectable self.old octets.now) }
    {
        match self.selectable(octets) {
            Ok(new) => {
                self.give_state(&new);
                Reply::done(ArrayVec::new())
            }
            Err(refusal) => Reply::refused(refusal),
        }
    }

    /// Whether the block with this number is the next one of the load under way.
    fn is_awaited(&self, number: u8) -> bool
        ensures { result ≡ command.is_awaited self.now number }
    {
        match &self.load {
            Some(load) => load.awaits(number),
            None => false,
        }
    }

    /// How many octets the load under way has.
    fn octets_under_way(&self) -> usize
        ensures { result ≡ under_way self.now }
    {
        match &self.load {
            Some(load) => load.blocks.len(),
            None => 0,
        }
    }

    /// Whether there is room for so many octets more.
    fn has_room(&self, len: usize) -> bool
        ensures { result ≡ nat_le (room_of self.now + len) 65536 }
    {
        let taken = total(&self.load_files).saturating_add(self.octets_under_way() as u64);
        taken.saturating_add(len as u64) <= u64::from(LOAD_FILES_ROOM)
    }

    /// Refuses a block, and drops the load under way.
    fn drop_load(&mut self, refusal: Refusal) -> Reply
        ensures { answered self.new result ≡ answer (without_load self.old) (Err refusal) }
    {
        self.load = None;
        Reply::refused(refusal)
    }

    /// Adds a block to the load under way.
    fn take_block(&mut self, block: &[u8]) -> Result<(), Memory>
        requires few { IfSome self.old.load (λ load. load.count < 256) }
        requires room { room_of self.old + length block.now ≤ 65536 }
        ensures ok { IfOk result (λ _. self.new ≡ command.with_block_taken self.old block.now) }
        ensures err { OnErr result (self.new ≡ self.old) }
    {
        match &mut self.load {
            Some(load) => load.add(block),
            None => Ok(()),
        }
    }

    /// Ends the load under way with its load file.
    fn end_load(&mut self, file: LoadFile) -> Result<(), Memory>
        requires loading { is_loading self.old file.aid ≡ true }
        requires room { total_of self.old.load_files + length file.octets ≤ 65536 }
        ensures ok { IfOk result (λ _. self.new ≡ command.with_load_file self.old file) }
        ensures err { OnErr result (self.new ≡ self.old) }
    {
        self.load_files.push(file)?;
        self.load = None;
        Ok(())
    }

    /// The load file that the load under way ends with, behind its last block; none, where its octets are
    /// no load file data block.
    #[tactic(auto, using(crate::proofs::SoundLemmas::same_refl))]
    fn loaded(&self, block: &[u8]) -> Result<Option<LoadFile>, Memory>
        ensures file { IfOk result (λ file. file ≡ option_and_then (command.load_file_of block.now) self.now.load) }
        ensures loading { IfOk result (λ file. IfSome file (λ file. is_loading self.now file.aid ≡ true)) }
        ensures short { IfOk result (λ file. IfSome file (λ file. length file.octets ≤ under_way self.now + length block.now)) }
    {
        let load = match &self.load {
            Some(load) => load,
            None => return Ok(None),
        };
        let octets = load.blocks.with_last(block)?;
        match data_block(&octets) {
            Some(octets) => {
                let octets = Octets::from_slice(self.alloc, octets)?;
                let aid = load.aid.copied();
                Ok(Some(LoadFile { aid, octets }))
            }
            None => Ok(None),
        }
    }

    /// DELETE of an AID.
    fn delete(&mut self, p2: u8, aid: &Aid) -> Reply
        ensures { answered self.new result ≡ answer self.old (command.deleting_aid self.old p2 aid.now) }
    {
        if self.has_application(aid) {
            self.remove_application(aid);
            return Reply::done(ArrayVec::new());
        }
        if !self.has_load_file(aid) {
            return Reply::refused(Refusal::ReferenceNotFound);
        }
        if p2 != 0x80 && self.is_in_use(aid) {
            return Reply::refused(Refusal::ConditionsNotMet);
        }
        self.remove_load_file(aid);
        Reply::done(ArrayVec::new())
    }

    /// Takes the application with this AID away.
    fn remove_application(&mut self, aid: &Aid)
        ensures { self.new ≡ without_application self.old aid.now }
    {
        self.applications
            .retain(|application| !application.aid.is(aid));
    }

    /// Takes the load file with this AID away, with the applications that come from it.
    fn remove_load_file(&mut self, aid: &Aid)
        ensures { self.new ≡ without_load_file self.old aid.now }
    {
        self.load_files.retain(|file| !file.aid.is(aid));
        self.applications
            .retain(|application| !application.load_file.is(aid));
    }

    /// The application that SET STATUS names, and its new state.
    fn relocked(&self, p1: u8, p2: u8, octets: &[u8]) -> Result<NewState, Refusal>
        ensures { result ≡ command.relocked self.now p1 p2 octets.now }
    {
        if p1 != 0x40 {
            return Err(Refusal::WrongParameters);
        }
        let aid = match Aid::read(octets) {
            Some(aid) => aid,
            None => return Err(Refusal::WrongData),
        };
        match state_of(&self.applications, &aid) {
            Some(state) => Ok(NewState {
                aid,
                state: with_lock(p2, state),
            }),
            None => Err(Refusal::ReferenceNotFound),
        }
    }

    /// What GET STATUS gives.
    fn status(&self, p1: u8, p2: u8, octets: &[u8]) -> Result<Out, Refusal>
        ensures { MatchResult result (λ out. command.status_of self.now p1 p2 octets.now ≡ Ok out.items) (λ refusal. command.status_of self.now p1 p2 octets.now ≡ Err refusal) }
    {
        if !((p1 == 0x80 || p1 == 0x40 || p1 == 0x20) && p2 == 0) {
            return Err(Refusal::WrongParameters);
        }
        let prefix = match tagged_value(octets) {
            Some(prefix) => prefix,
            None => return Err(Refusal::WrongData),
        };
        let out = self.entries(p1, prefix);
        if out.is_empty() {
            return Err(Refusal::ReferenceNotFound);
        }
        Ok(out)
    }

    /// The entries that P1 asks for, of AIDs that begin so.
    fn entries(&self, p1: u8, prefix: &[u8]) -> Out
        ensures { result.items ≡ fitting 256 (command.listed self.now p1 prefix.now) }
    {
        if p1 == 0x40 {
            of_applications(&self.applications, prefix)
        } else if p1 == 0x20 {
            of_load_files(&self.load_files, prefix)
        } else {
            ArrayVec::new()
        }
    }
}

/// The reply to PUT KEY of a number with which a keyset was put before: with the same data or with others.
fn reply_to_same(same: bool) -> Reply
    ensures word { result.sw ≡ (if same then 0x9000 else 0x6985) }
    ensures nothing { result.out.items ≡ [] }
{
    if same {
        Reply::done(ArrayVec::new())
    } else {
        Reply::refused(Refusal::ConditionsNotMet)
    }
}

/// The AID that DELETE names.
fn deleted_aid(p1: u8, p2: u8, octets: &[u8]) -> Result<Aid, Refusal>
    ensures { result ≡ command.deleted_aid p1 p2 octets.now }
{
    if !(p1 == 0 && (p2 == 0 || p2 == 0x80)) {
        return Err(Refusal::WrongParameters);
    }
    let value = match tagged_value(octets) {
        Some(value) => value,
        None => return Err(Refusal::WrongData),
    };
    match Aid::read(value) {
        Some(aid) => Ok(aid),
        None => Err(Refusal::WrongData),
    }
}

/// A state with b8 as in P2, and its other bits.
fn with_lock(p2: u8, state: u8) -> u8
    ensures { result ≡ command.with_lock p2 state }
{
    if p2 < 0x80 {
        state % 0x80
    } else {
        state % 0x80 + 0x80
    }
}

#[cfg(test)]
mod tests;
