//! The files of a new card.

ghost use Rattle.std.specs.Prelude.{◌≡◌, ◌+◌, ◌*◌, ◌<◌, ◌≤◌, length, IfOk};
ghost use Rattle.std.specs.BTreeMap.{values};
ghost use Rattle.std.specs.FinMap as map;
ghost use Rattle.card_files.specs.Path.{ids_of};
ghost use Rattle.file_records.specs.File.{size_in};
ghost use Rattle.card_files.specs.State.{total_of};
ghost use Rattle.card_files.specs.Fresh.{with_new, rows_with, octets_with, fresh_files};

use crate::path::Path;
use crate::tree::Tree;
use file_records::{Binary, Contents, File, Records};
use ota_core::Memory;
use std::alloc::Global;
use std::collections::BTreeMap;

/// The files of a new card: the MF with three EFs, and DF TELECOM with two.
pub(crate) fn fresh_tree(alloc: Global) -> Result<Tree, Memory>
    ensures { IfOk result (λ tree. tree ≡ fresh_files) }
{
    let mut files = BTreeMap::new(alloc);
    add(&mut files, &[], true, Contents::Folder)?;
    add(&mut files, &[0x2F, 0xE2], false, octets(alloc, 10)?)?;
    add(&mut files, &[0x6F, 0xA1], true, octets(alloc, 64)?)?;
    add(&mut files, &[0x6F, 0xA0], true, counter(alloc, 3, 3)?)?;
    add(&mut files, &[0x7F, 0x10], true, Contents::Folder)?;
    add(
        &mut files,
        &[0x7F, 0x10, 0x6F, 0x3A],
        true,
        records(alloc, 28, 10)?,
    )?;
    add(
        &mut files,
        &[0x7F, 0x10, 0x6F, 0x42],
        true,
        records(alloc, 40, 2)?,
    )?;
    Ok(Tree::of(files))
}

/// Adds an active file, whose path these octets are.
#[tactic(auto, unfolding(crate::specs::Fresh::with_new))]
fn add(
    files: &mut BTreeMap<Path, File>,
    path: &[u8],
    remote: bool,
    contents: Contents,
) -> Result<(), Memory>
    requires { length path.now ≤ 8 }
    ensures room { IfOk result (λ _. total_of (values files.new) ≤ total_of (values files.old) + size_in contents) }
    ensures added { IfOk result (λ _. map.from_entries files.new.entries ≡ with_new (map.from_entries files.old.entries) (ids_of path.now) remote contents) }
{
    let file = File {
        remote,
        active: true,
        contents,
    };
    files.insert(Path::read(path), file)?;
    Ok(())
}

/// A transparent EF's octets.
#[tactic(auto, unfolding(crate::specs::Fresh::octets_with))]
fn octets(alloc: Global, size: usize) -> Result<Contents, Memory>
    ensures contents { IfOk result (λ contents. contents ≡ Contents.Transparent (octets_with size)) }
    ensures size { IfOk result (λ contents. size_in contents ≡ size) }
{
    let binary = Binary::filled(alloc, size, 0xFF)?;
    Ok(Contents::Transparent(binary))
}

/// A cyclic EF's records.
#[tactic(auto, unfolding(crate::specs::Fresh::rows_with))]
fn counter(alloc: Global, width: u8, count: u8) -> Result<Contents, Memory>
    requires { 0 < count }
    ensures contents { IfOk result (λ contents. contents ≡ Contents.Cyclic (rows_with width count 0)) }
    ensures size { IfOk result (λ contents. size_in contents ≡ width * count) }
{
    let records = Records::filled(alloc, width, count, 0)?;
    Ok(Contents::Cyclic(records))
}

/// A linear EF's records.
#[tactic(auto, unfolding(crate::specs::Fresh::rows_with))]
fn records(alloc: Global, width: u8, count: u8) -> Result<Contents, Memory>
    requires { 0 < count }
    ensures contents { IfOk result (λ contents. contents ≡ Contents.Linear (rows_with width count 255)) }
    ensures size { IfOk result (λ contents. size_in contents ≡ width * count) }
{
    let records = Records::filled(alloc, width, count, 0xFF)?;
    Ok(Contents::Linear(records))
}
