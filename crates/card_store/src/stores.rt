//! The store of a card.

ghost use Rattle.std.specs.Prelude.{◌≡◌, ◌⊎◌, ℕ, ◌+◌, ◌<◌, ◌≤◌, true, false, is_some, List, [], ◌∷◌, length, Some, option_copied, IfOk, IfErr, IfSome, OnOk, OnErr};
ghost use Rattle.apdu_codec.specs.Reply.{answered};
ghost use Rattle.disk_model.specs.Disk.{Tells, DiskRun};
ghost use Rattle.gate_log.specs.Opening.{LIMIT};
ghost use Rattle.script_engine.specs.Step.{script_step};
ghost use Rattle.card_store.specs.declared.scripts.Script.{Script};
ghost use Rattle.card_store.specs.declared.store_errors.StoreErr.TheVariants as store_err;
ghost use Rattle.card_store.specs.Content.{Content, keyset_of, stored, counter_if, took, after_command};
ghost use Rattle.gate_log.specs.Reading.{parts_of};
ghost use Rattle.disk_model.specs.Disk.{image_now};
ghost use Rattle.card_store.specs.Parts.{store_head};
ghost use Rattle.card_store.specs.Replay.{Holds, IsAfterCommand, HoldsAfterCommand};
ghost use Rattle.card_store.specs.Store.{Shows, StandsFor, IsBeforeOrOpened, IsOpenedStore, StoreRefuses, IsLeftByRefusal, disk_in, error_in, CounterAnswer, HasRoom, IsWantOrFault, IfWritten, UnlessWritten, OnFault, IsNotFull, AddTicks, StoreCause, UnlessFault};

use crate::additions::{append_part, counter_need, has_room};
use crate::card_lines::CardLine;
use crate::issued_facts::IssuedFacts;
use crate::kept::Kept;
use crate::openings::{OpenedStore, open_anew, open_log};
use crate::parts::{command_batch, counter_batch};
use crate::store_errors::StoreErr;
use disk_model::{DiskCalls, Image, SimCalls};
use gate_log::{Batch, Log};
use ota_core::{CardFacts, Counter, KeysetFacts, Tar};
use script_engine::{CardState, Step};
use std::alloc::Global;
use std::marker::Model;

/// The store of a card on a disk: each counter that the card used up, with its TAR and script, and each command that was
/// run, durable before the next.
///
/// Contracts see its disk, the facts of the card, what it lends, the length of its log, and whether it is ready: a fault of
/// the disk, or an opening that is refused, ends that until `reopen` answers Ok.
#[derive(Drop)]
pub struct CardStore<D: DiskCalls> {
    alloc: Global,
    disk: D,
    facts: IssuedFacts,
    log: Log,
    /// The batch that says that a command was run.
    command: Batch,
    kept: Kept,
    ready: bool,
}

impl<D: DiskCalls> Model for CardStore<D> {
    ghost use Rattle.std.specs.Prelude.{◌≡◌, [], ◌∷◌};
    ghost use Rattle.card_store.specs.Content.{Content};
    ghost use Rattle.card_store.specs.Parts.{command_part};
    ghost use Rattle.card_store.specs.Store.{StoreValue, StandsFor, store_code};
    ghost use Rattle.card_store.specs.contracts.issued_facts.IssuedFacts as the_facts;
    ghost use Rattle.card_store.specs.contracts.kept.Kept as the_kept;

    ghost Value = { StoreValue D };

    ghost coded = { store_code D.code the_facts.the_row.coded the_kept.the_row.coded };

    ghost view = { λ s. record { disk = s.disk; facts = s.facts; shown = s.kept; length = s.log; ready = s.ready } };

    ghost invariant = { λ s. (s.command.parts ≡ command_part ∷ []) × (content : Content) × StandsFor D.told (record { disk = s.disk; facts = s.facts; shown = s.kept; length = s.log; ready = s.ready }) content };
}

impl<D: DiskCalls> CardStore<D> {
    /// Opens the store of a card with these facts, and replays it. A disk on which no store is made yet, or its making was
    /// stopped, gets an empty one.
    ///
    /// `Damaged` has the number, from 1, of the first part that is bad: it has neither form, it names a keyset that the card
    /// hasn't by then, its counter isn't higher than the one stored by then, it says that a command was run where none is
    /// left, or its batch is damaged. A refusal hands the disk back. A stop at any moment leaves what stood before, or what
    /// opens alike. It never answers `Full`.
    pub fn open(alloc: Global, disk: D, facts: &CardFacts) -> Result<CardStore<D>, (D, StoreErr)>
        ensures opened { Tells D.told disk → IfOk result (IsOpenedStore D.told (D.told.seen disk)) }
        ensures ready { IfOk result (λ store. (store.facts ≡ facts.now) × (store.ready ≡ true)) }
        ensures stands { IfOk result (λ store. (content : Content) × StandsFor D.told store content) }
        ensures refused { Tells D.told disk → IfErr result (λ refusal. StoreRefuses facts.now (parts_of store_head (D.told.seen disk)) refusal.1) }
        ensures left { Tells D.told disk → IfErr result (λ refusal. UnlessFault (error_in result) (IsLeftByRefusal (D.told.seen disk) (D.told.seen refusal.0))) }
        ensures moments { Tells D.told disk → DiskRun D.told disk (disk_in result) (IsBeforeOrOpened D.told disk) }
        ensures tells { D.told.tells (disk_in result) ≡ D.told.tells disk }
        ensures cause { StoreCause (D.counts disk) (D.counts (disk_in result)) (error_in result) }
        ensures not_full { IfErr result (λ refusal. IsNotFull refusal.1) }
    {
        let mut disk = disk;
        match open_anew(alloc, &mut disk, facts) {
            Ok(anew) => {
                let OpenedStore { log, kept } = anew.opened;
                Ok(CardStore {
                    alloc,
                    disk,
                    facts: anew.facts,
                    log,
                    command: anew.command,
                    kept,
                    ready: true,
                })
            }
            Err(error) => Err((disk, error)),
        }
    }

    /// Opens the store again on its disk, as `open` does. A refusal leaves what the store lends as it was, and the store isn't
    /// ready.
    pub fn reopen(&mut self) -> Result<(), StoreErr>
        ensures opened { Tells D.told self.old.disk → OnOk result (IsOpenedStore D.told (D.told.seen self.old.disk) self.new) }
        ensures ready { OnOk result (self.new.ready ≡ true) }
        ensures stands { OnOk result ((content : Content) × StandsFor D.told self.new content) }
        ensures refused { Tells D.told self.old.disk → IfErr result (StoreRefuses self.old.facts (parts_of store_head (D.told.seen self.old.disk))) }
        ensures left { Tells D.told self.old.disk → OnErr result (UnlessFault result (IsLeftByRefusal (D.told.seen self.old.disk) (D.told.seen self.new.disk))) }
        ensures same { OnErr result (self.new ≡ record self.old { disk = self.new.disk; ready = false }) }
        ensures facts { self.new.facts ≡ self.old.facts }
        ensures moments { Tells D.told self.old.disk → DiskRun D.told self.old.disk self.new.disk (IsBeforeOrOpened D.told self.old.disk) }
        ensures tells { D.told.tells self.new.disk ≡ D.told.tells self.old.disk }
        ensures cause { StoreCause (D.counts self.old.disk) (D.counts self.new.disk) result }
        ensures not_full { IfErr result IsNotFull }
    {
        self.ready = false;
        let opened = open_log(self.alloc, &mut self.disk, &self.facts)?;
        self.log = opened.log;
        self.kept = opened.kept;
        self.ready = true;
        Ok(())
    }

    /// Stores a counter of a keyset that the card has, higher than the one that is stored, with its TAR and its script of at
    /// most 34,168 octets, and begins the script: four device calls.
    ///
    /// A stop at any moment leaves the card without the counter, or with it and nothing run; after Ok, with it. `Memory`
    /// and `Full` come before the first device call, with nothing changed: `Full` exactly where the store would be longer
    /// than 16,777,216 octets with this counter and all commands of the script, whatever the TAR. After a fault of the disk
    /// the store lends what it lends after Ok, and is to be opened again.
    pub fn store_counter(
        &mut self,
        kvn: u8,
        counter: Counter,
        tar: Tar,
        body: &[u8],
    ) -> Result<(), StoreErr>
        requires ready { self.old.ready ≡ true }
        requires known { is_some (keyset_of self.old.facts self.old.shown.card kvn) ≡ true }
        requires above { (content : Content) → Shows content self.old.shown → stored self.old.facts content kvn < counter }
        requires fits { length body.now ≤ 34168 }
        ensures stored { (content : Content) → StandsFor D.told self.old content → OnOk result (StandsFor D.told self.new (took self.old.facts content kvn counter tar body.now 0)) }
        ensures lent { (content : Content) → Shows content self.old.shown → IfWritten result (Shows (took self.old.facts content kvn counter tar body.now 0) self.new.shown) }
        ensures moments { Tells D.told self.old.disk → (content : Content) → StandsFor D.told self.old content → DiskRun D.told self.old.disk self.new.disk (λ image. Holds self.old.facts content image ⊎ Holds self.old.facts (took self.old.facts content kvn counter tar body.now 0) image) }
        ensures answer { CounterAnswer self.old.length body.now result }
        ensures room { OnOk result (HasRoom self.new) }
        ensures length { OnOk result (self.new.length ≡ self.old.length + 19 + length body.now) }
        ensures ready { OnOk result (self.new.ready ≡ true) }
        ensures fault { OnFault result ((self.new.ready ≡ false) × (self.new.length ≡ self.old.length)) }
        ensures same { self.new ≡ record self.old { disk = self.new.disk; shown = self.new.shown; length = self.new.length; ready = self.new.ready } }
        ensures unchanged { UnlessWritten result (self.new ≡ self.old) }
        ensures clock { Tells D.told self.old.disk → AddTicks (D.told.clock self.old.disk) (D.told.clock self.new.disk) result }
        ensures tells { D.told.tells self.new.disk ≡ D.told.tells self.old.disk }
        ensures cause { StoreCause (D.counts self.old.disk) (D.counts self.new.disk) result }
    {
        let length = self.log.length();
        let need = counter_need(body);
        if !has_room(length, need) {
            return Err(StoreErr::Full { length, need });
        }
        let batch = counter_batch(self.alloc, kvn, counter, tar, body)?;
        let keyset = self.kept.named(&self.facts, kvn).unwrap();
        self.kept
            .store_counter(self.alloc, &self.facts, keyset, counter, tar, body)?;
        self.ready = false;
        append_part(&mut self.disk, &mut self.log, &batch)?;
        self.ready = true;
        Ok(())
    }

    /// Runs the next command of the script that was stored last, and makes it durable: four device calls. One is left, and
    /// the store has 10 octets of room, as `store_counter` leaves them for each command of its script.
    ///
    /// A stop at any moment leaves the card before the command or behind it; after Ok, behind it. `Memory` comes before the
    /// first device call, with nothing changed. After a fault of the disk the store lends what it lends after Ok, and is to
    /// be opened again. It never answers `Full`.
    pub fn do_command(&mut self) -> Result<Step, StoreErr>
        requires ready { self.old.ready ≡ true }
        requires left { is_some self.old.shown.script ≡ true }
        requires fits { self.old.length + 10 ≤ LIMIT }
        ensures ran { (content : Content) → StandsFor D.told self.old content → OnOk result (IsAfterCommand content (StandsFor D.told self.new)) }
        ensures lent { (content : Content) → Shows content self.old.shown → IfWritten result (IsAfterCommand content (λ next. Shows next self.new.shown)) }
        ensures moments { Tells D.told self.old.disk → (content : Content) → StandsFor D.told self.old content → DiskRun D.told self.old.disk self.new.disk (λ image. Holds self.old.facts content image ⊎ HoldsAfterCommand self.old.facts content image) }
        ensures step { (script : Script) → self.old.shown.script ≡ Some script → IfOk result (λ step. (answered self.new.shown.card step.reply, step.next) ≡ script_step self.old.shown.card script.part script.body script.next) }
        ensures short { IfOk result (λ step. length step.reply.out.items ≤ 256) }
        ensures room { HasRoom self.old → OnOk result (HasRoom self.new) }
        ensures ready { OnOk result (self.new.ready ≡ true) }
        ensures length { OnOk result (self.new.length ≡ self.old.length + 10) }
        ensures fault { OnFault result ((self.new.ready ≡ false) × (self.new.length ≡ self.old.length)) }
        ensures same { self.new ≡ record self.old { disk = self.new.disk; shown = self.new.shown; length = self.new.length; ready = self.new.ready } }
        ensures unchanged { UnlessWritten result (self.new ≡ self.old) }
        ensures clock { Tells D.told self.old.disk → AddTicks (D.told.clock self.old.disk) (D.told.clock self.new.disk) result }
        ensures tells { D.told.tells self.new.disk ≡ D.told.tells self.old.disk }
        ensures cause { StoreCause (D.counts self.old.disk) (D.counts self.new.disk) result }
        ensures err { IfErr result IsWantOrFault }
    {
        let step = self.kept.run_command()?;
        self.ready = false;
        append_part(&mut self.disk, &mut self.log, &self.command)?;
        self.ready = true;
        Ok(step)
    }

    /// The facts of the keyset with this key version number: one with which the card was issued, or one that was put, which
    /// begins at 0.
    pub fn keyset(&self, kvn: u8) -> Option<&KeysetFacts>
        ensures keyset { option_copied result ≡ keyset_of self.now.facts self.now.shown.card kvn }
        ensures range { is_some (keyset_of self.now.facts self.now.shown.card kvn) ≡ true → (1 ≤ kvn) × (kvn ≤ 15) }
    {
        self.kept.keyset(&self.facts, kvn)
    }

    /// The counter that is stored for the keyset with this key version number: the highest that was stored, or its base. None
    /// where the card hasn't the keyset.
    pub fn counter(&self, kvn: u8) -> Option<Counter>
        ensures { (content : Content) → Shows content self.now.shown → result ≡ counter_if self.now.facts content kvn }
    {
        match self.keyset(kvn) {
            Some(_) => Some(self.kept.counter(&self.facts, kvn)),
            None => None,
        }
    }

    /// The lines of the card's log, oldest first. The store stands for a card whose lines they are.
    pub fn lines(&self) -> &[CardLine]
        ensures lines { result.now ≡ self.now.shown.lines }
        ensures stands { (content : Content) × StandsFor D.told self.now content }
    {
        self.kept.lines()
    }

    /// The files and the registry of the card.
    pub fn state(&self) -> &CardState
        ensures { result.now ≡ self.now.shown.card }
    {
        self.kept.card()
    }

    /// Whether a command of the script that was stored last is left: not all were run, and none ended it.
    pub fn has_command(&self) -> bool
        ensures left { result ≡ is_some self.now.shown.script }
        ensures begins { IfSome self.now.shown.script (λ script. script.next < length script.body) }
    {
        self.kept.has_command()
    }

    /// The length of the store's log in octets.
    pub fn length(&self) -> u64
        ensures { result ≡ self.now.length }
    {
        self.log.length()
    }

    /// The disk.
    pub fn disk(&self) -> &D
        ensures { result.now ≡ self.now.disk }
    {
        &self.disk
    }

    /// Gives the disk.
    pub fn into_disk(self) -> D
        ensures { result ≡ self.disk }
    {
        self.disk
    }
}

impl<D: SimCalls> CardStore<D> {
    /// Makes the `call`-th device call from now, counted from 1, fail, and this image of the disk stand afterwards. Nothing
    /// else changes.
    pub fn arm(&mut self, call: u32, image: Image)
        ensures same { self.new ≡ record self.old { disk = self.new.disk } }
        ensures content { Tells D.told self.old.disk → D.told.seen self.new.disk ≡ D.told.seen self.old.disk }
        ensures moments { Tells D.told self.old.disk → DiskRun D.told self.old.disk self.new.disk (image_now D.told self.old.disk) }
        ensures clock { Tells D.told self.old.disk → D.told.clock self.new.disk ≡ D.told.clock self.old.disk }
        ensures tells { D.told.tells self.new.disk ≡ D.told.tells self.old.disk }
        ensures counts { D.counts self.new.disk ≡ D.counts self.old.disk }
    {
        self.disk.arm(call, image);
    }
}
