//! The files of a card by their paths.

ghost use Rattle.std.specs.Prelude.{◌≡◌, [], ◌+◌, ◌^◌, ◌<◌, ◌≤◌, ◌&&◌, ℕ, List, true, nat_lt, nat_le, None, is_some, not, option_copied, option_map, unwrap_or, IfSome, IfNone, IfOk, OnErr};
ghost use Rattle.std.specs.BTreeMap.{values};
ghost use Rattle.std.specs.FinMap as map;
ghost use Rattle.file_records.specs.File.{size_of};
ghost use Rattle.card_files.specs.Path.{ids_of};
ghost use Rattle.card_files.specs.State.{total_of};
ghost use Rattle.file_records.specs.Made.{Makes, MakesAndGives};

use crate::limits::{FILES, FILES_ROOM};
use crate::path::Path;
use apdu_codec::Refusal;
use arrayvec::ArrayVec;
use file_records::{Contents, File};
use ota_core::Memory;
use std::alloc::Global;
use std::collections::BTreeMap;
use std::marker::Model;

/// The files of a card by their paths, seen as a finite map.
///
/// In the order of paths those below a file stand right behind it. How many files there are is kept by
/// the map, and what they take of the card's room beside it.
#[derive(Drop)]
pub(crate) struct Tree {
    files: BTreeMap<Path, File>,
    taken: u64,
}

impl Model for Tree {
    ghost use Rattle.std.specs.FinMap as map;
    ghost use Rattle.std.specs.Coded.{coded_ℕ, coded_list};
    ghost use Rattle.file_records.specs.contracts.file.File as file;
    ghost use Rattle.std.specs.Prelude.{◌≡◌, ◌≤◌};
    ghost use Rattle.std.specs.BTreeMap.{values};
    ghost use Rattle.card_files.specs.State.{Tree, total_of};

    ghost Value = { Tree };

    ghost coded = { map.code (coded_list coded_ℕ) file.the_row.coded };

    ghost view = { λ tree. map.from_entries tree.files.entries };

    ghost invariant = { λ tree. (tree.taken ≡ total_of (values tree.files)) × (tree.taken ≤ 32768) };
}

impl Tree {
    ghost use Rattle.file_records.specs.File.{binary_written, record_written, record_pushed, increased, marked};
    ghost use Rattle.card_files.specs.Commands as command;
    ghost use Rattle.card_files.specs.State.{room_of, is_remote_at, is_folder_at, is_ef_at, file_in, folder_in, ef_in, changed_at, changed_giving};

    /// The files of a map, whose octets have room on a card.
    pub(crate) fn of(files: BTreeMap<Path, File>) -> Tree
        requires { total_of (values files) ≤ 32768 }
        ensures { result ≡ map.from_entries files.entries }
    {
        let taken = total(&files);
        Tree { files, taken }
    }

    /// The file with this path.
    pub(crate) fn get(&self, path: &Path) -> Option<&File>
        ensures { option_copied result ≡ map.get self.now path.now }
    {
        self.files.get(path)
    }

    /// Puts a file beside the others.
    pub(crate) fn insert(&mut self, path: Path, file: File) -> Result<(), Memory>
        requires free { map.get self.old path ≡ None }
        requires room { room_of self.old + size_of file ≤ 32768 }
        ensures ok { IfOk result (λ _. self.new ≡ map.insert self.old path file) }
        ensures err { OnErr result (self.new ≡ self.old) }
    {
        let size = size(&file);
        self.files.insert(path, file)?;
        self.taken += size;
        Ok(())
    }

    /// Whether there is room for one more file of this size.
    pub(crate) fn has_room(&self, size: u16) -> bool
        ensures { result ≡ (nat_lt (map.len self.now) 256 && nat_le (room_of self.now + size) 32768) }
    {
        fit(self.files.len(), self.taken + u64::from(size))
    }

    /// Whether the path is that of a file that may be managed remotely.
    pub(crate) fn is_remote(&self, path: &Path) -> bool
        ensures { result ≡ is_remote_at self.now path.now }
    {
        match self.get(path) {
            Some(file) => file.remote,
            None => false,
        }
    }

    /// Whether each file with this path or below it may be managed remotely.
    pub(crate) fn all_remote(&self, path: &Path) -> bool
        ensures { result ≡ command.all_remote self.now path.now }
    {
        self.files
            .range(path..)
            .take_while(|(other, _)| path.holds(other))
            .all(|(_, file)| file.remote)
    }

    /// Takes the files with this path or below it away.
    pub(crate) fn remove(&mut self, path: &Path)
        ensures { self.new ≡ map.retain_keys self.old (λ other. not (command.is_within path.now other)) }
    {
        while let Some(within) = self.first_within(path) {
            self.take(&within);
        }
    }

    /// The path of the first file with this path or below it.
    fn first_within(&self, path: &Path) -> Option<Path>
        ensures found { IfSome result (λ within. command.is_within path.now within ≡ true) }
        ensures there { IfSome result (λ within. is_some (map.get self.now within) ≡ true) }
        ensures none { IfNone result ((other : List ℕ) → command.is_within path.now other ≡ true → map.get self.now other ≡ None) }
    {
        match self.files.range(path..).next() {
            Some((other, _)) if path.holds(other) => Some(other.copied()),
            _ => None,
        }
    }

    /// Takes the file with this path away, and none below it.
    fn take(&mut self, path: &Path)
        ensures { self.new ≡ map.remove self.old path.now }
    {
        let size = self.size_at(path);
        self.files.remove(path);
        self.taken -= size;
    }

    /// What the file with this path takes of the card's room.
    fn size_at(&self, path: &Path) -> u64
        ensures { result ≡ unwrap_or (option_map size_of (map.get self.now path.now)) 0 }
    {
        match self.get(path) {
            Some(file) => size(file),
            None => 0,
        }
    }

    /// Whether there is a file with this path.
    pub(crate) fn contains(&self, path: &Path) -> bool
        ensures { result ≡ is_some (map.get self.now path.now) }
    {
        self.get(path).is_some()
    }

    /// Whether the path is that of a folder.
    pub(crate) fn is_folder(&self, path: &Path) -> bool
        ensures { result ≡ is_folder_at self.now path.now }
    {
        match self.get(path) {
            Some(file) => file.is_folder(),
            None => false,
        }
    }

    /// Whether the path is that of an EF.
    pub(crate) fn is_ef(&self, path: &Path) -> bool
        ensures { result ≡ is_ef_at self.now path.now }
    {
        match self.get(path) {
            Some(file) => !file.is_folder(),
            None => false,
        }
    }

    /// The path of the file with this identifier in a folder.
    pub(crate) fn file_in(&self, folder: &Path, id: u16) -> Option<Path>
        ensures { result ≡ file_in self.now folder.now id }
    {
        match folder.child(id) {
            Some(path) if self.contains(&path) => Some(path),
            _ => None,
        }
    }

    /// The file at the end of a path from the MF, each a child of the one before.
    pub(crate) fn at_path(&self, octets: &[u8]) -> Option<Path>
        ensures { result ≡ command.at_path self.now [] (ids_of octets.now) }
    {
        let mut path = Path::mf();
        let mut rest = octets;
        while let [high, low, others @ ..] = rest {
            let id = 256 * u16::from(*high) + u16::from(*low);
            path = match self.file_in(&path, id) {
                Some(child) => child,
                None => return None,
            };
            rest = others;
        }
        Some(path)
    }

    /// The path of the DF with this identifier in a folder.
    pub(crate) fn folder_in(&self, folder: &Path, id: u16) -> Option<Path>
        ensures { result ≡ folder_in self.now folder.now id }
    {
        match folder.child(id) {
            Some(path) if self.is_folder(&path) => Some(path),
            _ => None,
        }
    }

    /// The path of the EF with this identifier in a folder.
    pub(crate) fn ef_in(&self, folder: &Path, id: u16) -> Option<Path>
        ensures { result ≡ ef_in self.now folder.now id }
    {
        match folder.child(id) {
            Some(path) if self.is_ef(&path) => Some(path),
            _ => None,
        }
    }

    /// UPDATE BINARY of the file with this path.
    pub(crate) fn write_binary(
        &mut self,
        path: &Path,
        offset: usize,
        new: &[u8],
    ) -> Result<(), Refusal>
        requires { offset < 2 ^ 16 }
        ensures { Makes self.old self.new result (changed_at self.old path.now (λ file. binary_written file offset new.now)) }
    {
        let file = match self.files.get_mut(path) {
            Some(file) => file,
            None => return Err(Refusal::NoCurrentEf),
        };
        file.write_binary(offset, new)
    }

    /// UPDATE RECORD of the linear EF with this path.
    pub(crate) fn write_record(
        &mut self,
        path: &Path,
        number: u8,
        new: &[u8],
    ) -> Result<(), Refusal>
        ensures { Makes self.old self.new result (changed_at self.old path.now (λ file. record_written file number new.now)) }
    {
        let file = match self.files.get_mut(path) {
            Some(file) => file,
            None => return Err(Refusal::NoCurrentEf),
        };
        file.write_record(number, new)
    }

    /// UPDATE RECORD of the cyclic EF with this path.
    pub(crate) fn push_record(&mut self, path: &Path, new: &[u8]) -> Result<(), Refusal>
        ensures { Makes self.old self.new result (changed_at self.old path.now (λ file. record_pushed file new.now)) }
    {
        let file = match self.files.get_mut(path) {
            Some(file) => file,
            None => return Err(Refusal::NoCurrentEf),
        };
        file.push_record(new)
    }

    /// ACTIVATE or DEACTIVATE of the file with this path.
    pub(crate) fn mark(&mut self, path: &Path, active: bool) -> Result<(), Refusal>
        ensures { Makes self.old self.new result (changed_at self.old path.now (marked active)) }
    {
        let file = match self.files.get_mut(path) {
            Some(file) => file,
            None => return Err(Refusal::NoCurrentEf),
        };
        file.mark(active)
    }

    /// INCREASE of the file with this path; it gives the octets of the sum.
    pub(crate) fn increase(&mut self, path: &Path, by: u32) -> Result<ArrayVec<u8, 16>, Refusal>
        requires { by < 2 ^ 24 }
        ensures { MakesAndGives (λ row. row.items) self.old self.new result (changed_giving self.old path.now (λ file. increased file by)) }
    {
        let file = match self.files.get_mut(path) {
            Some(file) => file,
            None => return Err(Refusal::NoCurrentEf),
        };
        file.increase(by)
    }
}

/// Whether so many files have a new one beside them, and their octets with its have room.
fn fit(count: usize, octets: u64) -> bool
    ensures { result ≡ (nat_lt count 256 && nat_le octets 32768) }
{
    count < FILES && octets <= u64::from(FILES_ROOM)
}

/// What a file takes of the card's room.
fn size(file: &File) -> u64
    ensures { result ≡ size_of file.now }
{
    match &file.contents {
        Contents::Folder => 0,
        Contents::Transparent(binary) => binary.as_slice().len() as u64,
        Contents::Linear(records) | Contents::Cyclic(records) => {
            u64::from(records.width()) * u64::from(records.count())
        }
    }
}

/// The octets that all EFs hold.
fn total(files: &BTreeMap<Path, File>) -> u64
    requires { total_of (values files.now) ≤ 32768 }
    ensures { result ≡ total_of (values files.now) }
{
    let mut total = 0;
    for file in files.values() {
        total += size(file);
    }
    total
}
