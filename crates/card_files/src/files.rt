//! The files of a card, and what is selected.

ghost use Rattle.std.specs.Prelude.{◌≡◌, ◌+◌, ◌*◌, ◌^◌, ◌<◌, ◌≤◌, ◌≢◌, ◌++◌, ◌==◌, if◌then◌else◌, length, slice_index, [], None, false, is_some, true, option_copied, OnErr, IfOk, IfSome, IsOk};
ghost use Rattle.apdu_codec.specs.Reply.{answered};
ghost use Rattle.card_files.specs.Path.{word_at, ids_of};
ghost use Rattle.card_files.specs.Replies.{Replies};
ghost use Rattle.card_files.specs.Commands as command;
ghost use Rattle.card_files.specs.Kind.{IsSized, deepest};
ghost use Rattle.card_files.specs.Sound.{IsNew, IsSound};
ghost use Rattle.card_files.specs.State.{room_of};
ghost use Rattle.file_records.specs.File.{size_in};
ghost use Rattle.std.specs.FinMap as map;
ghost use Rattle.file_records.specs.Made.{Gives, MakesAndGives};

use crate::fresh::fresh_tree;
use crate::kind::{Kind, NewFile};
use crate::limits::{FOLDERS_DEEP, MF, RECORDS};
use crate::path::Path;
use crate::tree::Tree;
use apdu_codec::{Refusal, Reply};
use arrayvec::ArrayVec;
use file_records::{Binary, Contents, File, Records};
use ota_core::Memory;
use std::alloc::Global;
use std::marker::Model;

/// The files of a card, the current folder and the current EF.
///
/// ETSI TS 102 221, 8.4.
#[derive(Drop)]
pub struct Files {
    tree: Tree,
    folder: Path,
    ef: Option<Path>,
    alloc: Global,
}

impl Model for Files {
    ghost use Rattle.file_records.specs.contracts.file.File as file;
    ghost use Rattle.card_files.specs.State.{State, state_code};
    ghost use Rattle.card_files.specs.Sound.{IsSound};

    ghost Value = { State };

    ghost coded = { state_code file.the_row.coded };

    ghost view = { λ files. record { files = files.tree; folder = files.folder; ef = files.ef } };

    ghost invariant = { λ files. IsSound (record { files = files.tree; folder = files.folder; ef = files.ef }) };
}

/// What a command that was done gives.
type Out = ArrayVec<u8, 256>;

impl Files {
    ghost use Rattle.card_files.specs.State.{with_selected, octets_at};
    ghost use Rattle.card_files.specs.Fresh.{fresh_state};

    /// The files of a new card, with the MF selected.
    pub fn fresh(alloc: Global) -> Result<Files, Memory>
        ensures files { IfOk result (λ files. files ≡ fresh_state) }
        ensures sound { IfOk result IsSound }
    {
        let tree = fresh_tree(alloc)?;
        Ok(Files {
            tree,
            folder: Path::mf(),
            ef: None,
            alloc,
        })
    }

    /// Selects the MF, and no EF.
    pub fn select_mf(&mut self)
        ensures selected { self.new ≡ record self.old { folder = []; ef = None } }
        ensures sound { IsSound self.new }
    {
        self.folder = Path::mf();
        self.ef = None;
    }

    /// The octets of the transparent EF at the end of a path from the MF.
    pub fn octets_of(&self, path: &[u16]) -> Option<&[u8]>
        ensures octets { option_copied result ≡ octets_at self.now.files path.now }
        ensures sound { IsSound self.now }
    {
        let tree = &self.tree;
        let path = match Path::of(path) {
            Some(path) => path,
            None => return None,
        };
        match tree.get(&path) {
            Some(file) => file.octets_held(),
            None => None,
        }
    }

    /// SELECT. ETSI TS 102 221, 11.1.1.
    pub fn select(&mut self, p1: u8, p2: u8, p3: u8, octets: &[u8]) -> Result<Reply, Memory>
        requires { length octets.now ≡ p3 }
        ensures answer { IfOk result (λ reply. answered self.new reply ≡ command.select self.old p1 p2 p3 octets.now) }
        ensures err { OnErr result (self.new ≡ self.old) }
        ensures memory { IsOk result }
    {
        Ok(reply_to(self.selecting(p1, p2, p3, octets)))
    }

    /// READ BINARY. ETSI TS 102 221, 11.1.3.
    pub fn read_binary(&mut self, p1: u8, p2: u8, p3: u8, octets: &[u8]) -> Result<Reply, Memory>
        requires { length octets.now ≡ 0 }
        ensures answer { IfOk result (λ reply. answered self.new reply ≡ command.read_binary self.old p1 p2 p3 octets.now) }
        ensures err { OnErr result (self.new ≡ self.old) }
        ensures memory { IsOk result }
    {
        Ok(reply_to(self.reading_binary(p1, p2, p3)))
    }

    /// UPDATE BINARY. ETSI TS 102 221, 11.1.4.
    pub fn update_binary(&mut self, p1: u8, p2: u8, p3: u8, octets: &[u8]) -> Result<Reply, Memory>
        requires { length octets.now ≡ p3 }
        ensures answer { IfOk result (λ reply. answered self.new reply ≡ command.update_binary self.old p1 p2 p3 octets.now) }
        ensures err { OnErr result (self.new ≡ self.old) }
        ensures memory { IsOk result }
    {
        Ok(reply_to(self.updating_binary(p1, p2, octets)))
    }

    /// READ RECORD. ETSI TS 102 221, 11.1.5.
    pub fn read_record(&mut self, p1: u8, p2: u8, p3: u8, octets: &[u8]) -> Result<Reply, Memory>
        requires { length octets.now ≡ 0 }
        ensures answer { IfOk result (λ reply. answered self.new reply ≡ command.read_record self.old p1 p2 p3 octets.now) }
        ensures err { OnErr result (self.new ≡ self.old) }
        ensures memory { IsOk result }
    {
        Ok(reply_to(self.reading_record(p1, p2, p3)))
    }

    /// UPDATE RECORD. ETSI TS 102 221, 11.1.6.
    pub fn update_record(&mut self, p1: u8, p2: u8, p3: u8, octets: &[u8]) -> Result<Reply, Memory>
        requires { length octets.now ≡ p3 }
        ensures answer { IfOk result (λ reply. answered self.new reply ≡ command.update_record self.old p1 p2 p3 octets.now) }
        ensures err { OnErr result (self.new ≡ self.old) }
        ensures memory { IsOk result }
    {
        Ok(reply_to(self.updating_record(p1, p2, octets)))
    }

    /// SEARCH RECORD. ETSI TS 102 221, 11.1.7.
    pub fn search_record(&mut self, p1: u8, p2: u8, p3: u8, octets: &[u8]) -> Result<Reply, Memory>
        requires { length octets.now ≡ p3 }
        ensures answer { IfOk result (λ reply. answered self.new reply ≡ command.search_record self.old p1 p2 p3 octets.now) }
        ensures err { OnErr result (self.new ≡ self.old) }
        ensures memory { IsOk result }
    {
        Ok(reply_to(self.searching_record(p1, p2, octets)))
    }

    /// INCREASE. ETSI TS 102 221, 11.1.8.
    pub fn increase(&mut self, p1: u8, p2: u8, p3: u8, octets: &[u8]) -> Result<Reply, Memory>
        requires { length octets.now ≡ p3 }
        ensures answer { IfOk result (λ reply. answered self.new reply ≡ command.increase self.old p1 p2 p3 octets.now) }
        ensures err { OnErr result (self.new ≡ self.old) }
        ensures memory { IsOk result }
    {
        Ok(reply_to(self.increasing(p1, p2, octets)))
    }

    /// DEACTIVATE FILE. ETSI TS 102 222, 6.10.
    pub fn deactivate(&mut self, p1: u8, p2: u8, p3: u8, octets: &[u8]) -> Result<Reply, Memory>
        requires { length octets.now ≡ p3 }
        ensures answer { IfOk result (λ reply. answered self.new reply ≡ command.deactivate self.old p1 p2 p3 octets.now) }
        ensures err { OnErr result (self.new ≡ self.old) }
        ensures memory { IsOk result }
    {
        Ok(reply_to(self.marking(false, p1, p2, octets)))
    }

    /// ACTIVATE FILE. ETSI TS 102 222, 6.11.
    pub fn activate(&mut self, p1: u8, p2: u8, p3: u8, octets: &[u8]) -> Result<Reply, Memory>
        requires { length octets.now ≡ p3 }
        ensures answer { IfOk result (λ reply. answered self.new reply ≡ command.activate self.old p1 p2 p3 octets.now) }
        ensures err { OnErr result (self.new ≡ self.old) }
        ensures memory { IsOk result }
    {
        Ok(reply_to(self.marking(true, p1, p2, octets)))
    }

    /// CREATE FILE. ETSI TS 102 222, 6.3; its data field is this card's own.
    pub fn create(&mut self, p1: u8, p2: u8, p3: u8, octets: &[u8]) -> Result<Reply, Memory>
        requires { length octets.now ≡ p3 }
        ensures answer { IfOk result (λ reply. answered self.new reply ≡ command.create self.old p1 p2 p3 octets.now) }
        ensures err { OnErr result (self.new ≡ self.old) }
    {
        match self.wanted(p1, p2, octets) {
            Ok(new) => {
                self.add(new)?;
                Ok(Reply::done(ArrayVec::new()))
            }
            Err(refusal) => Ok(Reply::refused(refusal)),
        }
    }

    /// DELETE FILE. ETSI TS 102 222, 6.4.
    pub fn delete(&mut self, p1: u8, p2: u8, p3: u8, octets: &[u8]) -> Result<Reply, Memory>
        requires { length octets.now ≡ p3 }
        ensures answer { IfOk result (λ reply. answered self.new reply ≡ command.delete self.old p1 p2 p3 octets.now) }
        ensures err { OnErr result (self.new ≡ self.old) }
        ensures memory { IsOk result }
    {
        Ok(reply_to(self.deleting(p1, p2, octets)))
    }

    /// The file that CREATE FILE is to make.
    fn wanted(&self, p1: u8, p2: u8, octets: &[u8]) -> Result<NewFile, Refusal>
        ensures wanted { result ≡ command.wanted self.now p1 p2 (length octets.now) octets.now }
        ensures new { IfOk result (λ new. IsNew self.now.files new.path (command.contents_of new.kind)) }
        ensures sized { IfOk result (λ new. IsSized new.kind) }
    {
        if !(p1 == 0 && p2 == 0) {
            return Err(Refusal::WrongParameters);
        }
        if octets.len() != 6 {
            return Err(Refusal::WrongLength);
        }
        if !self.tree.is_remote(&self.folder) {
            return Err(Refusal::NotRemote);
        }
        if self.is_taken(word(octets, 1)) {
            return Err(Refusal::WrongData);
        }
        let path = match self.folder.child(word(octets, 1)) {
            Some(path) => path,
            None => return Err(Refusal::WrongData),
        };
        let size = word(octets, 4);
        let kind = match kind_of(self.folder.depth(), octets[0], octets[3], size) {
            Some(kind) => kind,
            None => return Err(Refusal::WrongData),
        };
        if !self.tree.has_room(size) {
            return Err(Refusal::NoRoom);
        }
        Ok(NewFile { path, kind })
    }

    /// Whether a new file in the current folder can't have this identifier.
    fn is_taken(&self, id: u16) -> bool
        ensures { result ≡ command.is_taken self.now id }
    {
        id == MF
            || id == self.folder.id()
            || id == self.folder.above().id()
            || self.tree.file_in(&self.folder, id).is_some()
    }

    fn add(&mut self, new: NewFile) -> Result<(), Memory>
        requires new { IsNew self.old.files new.path (command.contents_of new.kind) }
        requires sized { IsSized new.kind }
        ensures ok { IfOk result (λ _. self.new ≡ command.with_new self.old new.path (command.contents_of new.kind)) }
        ensures err { OnErr result (self.new ≡ self.old) }
    {
        let contents = contents(self.alloc, new.kind)?;
        let file = File {
            remote: true,
            active: true,
            contents,
        };
        self.tree.insert(new.path.copied(), file)?;
        self.make_current(new.path);
        Ok(())
    }

    fn deleting(&mut self, p1: u8, p2: u8, octets: &[u8]) -> Result<Out, Refusal>
        ensures { MakesAndGives (λ out. out.items) self.old self.new result (command.deleting self.old p1 p2 (length octets.now) octets.now) }
    {
        if !(p1 == 0 && p2 == 0) {
            return Err(Refusal::WrongParameters);
        }
        if octets.len() != 2 {
            return Err(Refusal::WrongLength);
        }
        let path = match self.tree.file_in(&self.folder, word(octets, 0)) {
            Some(path) => path,
            None => return Err(Refusal::FileNotFound),
        };
        if !self.tree.all_remote(&path) {
            return Err(Refusal::NotRemote);
        }
        self.take_away(&path);
        Ok(ArrayVec::new())
    }

    /// Takes the file with this path away, with all below it.
    fn take_away(&mut self, path: &Path)
        requires { command.is_within path.now self.old.folder ≡ false }
        ensures { self.new ≡ command.without self.old path.now }
    {
        self.forget(path);
        self.tree.remove(path);
    }

    /// Where the current EF has this path or lies below it, none is current.
    fn forget(&mut self, path: &Path)
        ensures { self.new ≡ record self.old { ef = command.ef_without path.now self.old.ef } }
    {
        let gone = match &self.ef {
            Some(ef) => path.holds(ef),
            None => false,
        };
        if gone {
            self.ef = None;
        }
    }

    fn selecting(&mut self, p1: u8, p2: u8, p3: u8, octets: &[u8]) -> Result<Out, Refusal>
        requires { length octets.now ≡ p3 }
        ensures { MakesAndGives (λ out. out.items) self.old self.new result (command.selecting self.old p1 p2 p3 octets.now) }
    {
        if !((p1 == 0 || p1 == 8) && (p2 == 0 || p2 == 4 || p2 == 12)) {
            return Err(Refusal::WrongParameters);
        }
        if !(p3 == 2 || (p1 == 8 && (p3 == 4 || p3 == 6 || p3 == 8))) {
            return Err(Refusal::WrongLength);
        }
        let path = match self.named(p1, octets) {
            Some(path) => path,
            None => return Err(Refusal::FileNotFound),
        };
        self.make_current(path);
        Ok(ArrayVec::new())
    }

    /// The file that SELECT names.
    fn named(&self, p1: u8, octets: &[u8]) -> Option<Path>
        requires { 2 ≤ length octets.now }
        ensures there { IfSome result (λ path. is_some (map.get self.now.files path) ≡ true) }
        ensures named { result ≡ (if p1 == 0 then command.seen_from self.now (word_at octets.now 0) else command.at_path self.now.files [] (ids_of octets.now)) }
    {
        if p1 == 0 {
            self.seen(word(octets, 0))
        } else {
            self.tree.at_path(octets)
        }
    }

    /// The file of an identifier, seen from the current folder.
    fn seen(&self, id: u16) -> Option<Path>
        ensures seen { result ≡ command.seen_from self.now id }
        ensures there { IfSome result (λ path. is_some (map.get self.now.files path) ≡ true) }
    {
        let above = self.folder.above();
        if id == MF {
            return Some(Path::mf());
        }
        let child = self.tree.file_in(&self.folder, id);
        if child.is_some() {
            return child;
        }
        if id == above.id() {
            return Some(above);
        }
        if id == self.folder.id() {
            return None;
        }
        self.tree.folder_in(&above, id)
    }

    fn make_current(&mut self, path: Path)
        requires { is_some (map.get self.old.files path) ≡ true }
        ensures { self.new ≡ with_selected self.old path }
    {
        if self.tree.is_folder(&path) {
            self.folder = path;
            self.ef = None;
        } else {
            self.folder = path.above();
            self.ef = Some(path);
        }
    }

    /// The current EF.
    fn current(&self) -> Result<&File, Refusal>
        ensures { Gives (λ file. file.now) result (command.current self.now) }
    {
        let path = match &self.ef {
            Some(path) => path,
            None => return Err(Refusal::NoCurrentEf),
        };
        match self.tree.get(path) {
            Some(file) => Ok(file),
            None => Err(Refusal::NoCurrentEf),
        }
    }

    fn reading_binary(&self, p1: u8, p2: u8, p3: u8) -> Result<Out, Refusal>
        ensures { MakesAndGives (λ out. out.items) self.now self.now result (command.reading_binary self.now p1 p2 p3) }
    {
        if p1 >= 128 {
            return Err(Refusal::WrongParameters);
        }
        let file = self.current()?;
        let octets = file.read_binary(offset(p1, p2), p3)?;
        Ok(copied(octets))
    }

    fn updating_binary(&mut self, p1: u8, p2: u8, octets: &[u8]) -> Result<Out, Refusal>
        ensures { MakesAndGives (λ out. out.items) self.old self.new result (command.updating_binary self.old p1 p2 (length octets.now) octets.now) }
    {
        if p1 >= 128 {
            return Err(Refusal::WrongParameters);
        }
        if octets.is_empty() {
            return Err(Refusal::WrongLength);
        }
        let path = match &self.ef {
            Some(path) => path,
            None => return Err(Refusal::NoCurrentEf),
        };
        self.tree.write_binary(path, offset(p1, p2), octets)?;
        Ok(ArrayVec::new())
    }

    fn reading_record(&self, p1: u8, p2: u8, p3: u8) -> Result<Out, Refusal>
        ensures { MakesAndGives (λ out. out.items) self.now self.now result (command.reading_record self.now p1 p2 p3) }
    {
        if p2 != 4 {
            return Err(Refusal::WrongParameters);
        }
        let file = self.current()?;
        let octets = file.read_record(p1, p3)?;
        Ok(copied(octets))
    }

    fn updating_record(&mut self, p1: u8, p2: u8, octets: &[u8]) -> Result<Out, Refusal>
        ensures { MakesAndGives (λ out. out.items) self.old self.new result (command.updating_record self.old p1 p2 (length octets.now) octets.now) }
    {
        if p2 != 4 && !(p1 == 0 && p2 == 3) {
            return Err(Refusal::WrongParameters);
        }
        let path = match &self.ef {
            Some(path) => path,
            None => return Err(Refusal::NoCurrentEf),
        };
        if p2 == 4 {
            self.tree.write_record(path, p1, octets)?;
            return Ok(ArrayVec::new());
        }
        self.tree.push_record(path, octets)?;
        Ok(ArrayVec::new())
    }

    fn searching_record(&self, p1: u8, p2: u8, octets: &[u8]) -> Result<Out, Refusal>
        ensures { MakesAndGives (λ out. out.items) self.now self.now result (command.searching_record self.now p1 p2 (length octets.now) octets.now) }
    {
        if p2 != 4 {
            return Err(Refusal::WrongParameters);
        }
        if octets.is_empty() {
            return Err(Refusal::WrongLength);
        }
        let file = self.current()?;
        file.search_record(p1, octets)
    }

    fn increasing(&mut self, p1: u8, p2: u8, octets: &[u8]) -> Result<Out, Refusal>
        ensures { MakesAndGives (λ out. out.items) self.old self.new result (command.increasing self.old p1 p2 (length octets.now) octets.now) }
    {
        if !(p1 == 0 && p2 == 0) {
            return Err(Refusal::WrongParameters);
        }
        if octets.len() != 3 {
            return Err(Refusal::WrongLength);
        }
        let path = match &self.ef {
            Some(path) => path,
            None => return Err(Refusal::NoCurrentEf),
        };
        let sum = self.tree.increase(path, number(octets))?;
        Ok(joined(&sum, octets))
    }

    fn marking(&mut self, active: bool, p1: u8, p2: u8, octets: &[u8]) -> Result<Out, Refusal>
        ensures { MakesAndGives (λ out. out.items) self.old self.new result (command.marking active self.old p1 p2 (length octets.now) octets.now) }
    {
        if !(p1 == 0 && p2 == 0) {
            return Err(Refusal::WrongParameters);
        }
        if !(octets.is_empty() || octets.len() == 2) {
            return Err(Refusal::WrongLength);
        }
        let path = self.named_ef(octets)?;
        self.tree.mark(&path, active)?;
        Ok(ArrayVec::new())
    }

    /// The EF that ACTIVATE FILE and DEACTIVATE FILE name.
    fn named_ef(&self, octets: &[u8]) -> Result<Path, Refusal>
        requires { length octets.now ≢ 1 }
        ensures { result ≡ command.named_ef self.now (length octets.now) octets.now }
    {
        if octets.is_empty() {
            return match &self.ef {
                Some(path) => Ok(path.copied()),
                None => Err(Refusal::NoCurrentEf),
            };
        }
        match self.tree.ef_in(&self.folder, word(octets, 0)) {
            Some(path) => Ok(path),
            None => Err(Refusal::FileNotFound),
        }
    }
}

/// The reply to a command that ended so.
fn reply_to(outcome: Result<Out, Refusal>) -> Reply
    ensures { Replies outcome result }
{
    match outcome {
        Ok(out) => Reply::done(out),
        Err(refusal) => Reply::refused(refusal),
    }
}

/// The kind of a new file in a folder that is so deep.
fn kind_of(depth: usize, kind: u8, width: u8, size: u16) -> Option<Kind>
    requires { depth ≤ 3 }
    ensures kind { result ≡ command.kind_of depth kind width size }
    ensures sized { IfSome result IsSized }
    ensures deep { IfSome result (λ kind. depth < deepest kind) }
    ensures size { IfSome result (λ kind. size_in (command.contents_of kind) ≡ size) }
{
    if kind == 1 && width == 0 && size == 0 && depth < FOLDERS_DEEP {
        return Some(Kind::Folder);
    }
    if kind == 2 && width == 0 && size > 0 {
        return Some(Kind::Transparent(size));
    }
    if kind == 3 && fit(width, size) {
        return Some(Kind::Linear(width, (size / u16::from(width)) as u8));
    }
    if kind == 4 && fit(width, size) {
        return Some(Kind::Cyclic(width, (size / u16::from(width)) as u8));
    }
    None
}

/// Whether a record EF can have records of this length and this size.
fn fit(width: u8, size: u16) -> bool
    ensures { result ≡ command.fit width size }
{
    width > 0 && size > 0 && size % u16::from(width) == 0 && size / u16::from(width) <= RECORDS
}

/// What a new file holds.
fn contents(alloc: Global, kind: Kind) -> Result<Contents, Memory>
    requires { IsSized kind }
    ensures { IfOk result (λ contents. contents ≡ command.contents_of kind) }
{
    match kind {
        Kind::Folder => Ok(Contents::Folder),
        Kind::Transparent(size) => {
            let binary = Binary::filled(alloc, usize::from(size), 0xFF)?;
            Ok(Contents::Transparent(binary))
        }
        Kind::Linear(width, count) => {
            let records = Records::filled(alloc, width, count, 0xFF)?;
            Ok(Contents::Linear(records))
        }
        Kind::Cyclic(width, count) => {
            let records = Records::filled(alloc, width, count, 0)?;
            Ok(Contents::Cyclic(records))
        }
    }
}

/// The offset that P1 and P2 say.
fn offset(p1: u8, p2: u8) -> usize
    ensures value { result ≡ 256 * p1 + p2 }
    ensures fits { result < 2 ^ 16 }
{
    256 * usize::from(p1) + usize::from(p2)
}

/// Two octets as a number.
fn word(octets: &[u8], at: usize) -> u16
    requires { at + 1 < length octets.now }
    ensures { result ≡ word_at octets.now at }
{
    256 * u16::from(octets[at]) + u16::from(octets[at + 1])
}

/// Three octets as a number.
fn number(octets: &[u8]) -> u32
    requires { length octets.now ≡ 3 }
    ensures value { result ≡ 256 * word_at octets.now 0 + slice_index octets.now 2 }
    ensures fits { result < 2 ^ 24 }
{
    256 * u32::from(word(octets, 0)) + u32::from(octets[2])
}

fn copied(octets: &[u8]) -> Out
    requires { length octets.now ≤ 256 }
    ensures { result.items ≡ octets.now }
{
    let mut out = ArrayVec::new();
    let _ = out.try_extend_from_slice(octets);
    out
}

fn joined(sum: &ArrayVec<u8, 16>, octets: &[u8]) -> Out
    requires { length octets.now ≡ 3 }
    ensures { result.items ≡ sum.now.items ++ octets.now }
{
    let mut out = copied(sum.as_slice());
    let _ = out.try_extend_from_slice(octets);
    out
}

#[cfg(test)]
mod tests;
