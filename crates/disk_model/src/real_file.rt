// The calls of a disk on a real file. A missing file has no octets.
ghost use Rattle.std.specs.Prelude.{◌≤◌, IfOk, length};

use std::fs::{OpenFile, OpenOptions};
use std::io;
use std::io::{ErrorKind, Read, Seek, SeekFrom, Write};
use std::rt::Files;

// how often a read that was interrupted is made again
const TRIES: usize = 1000;

pub(crate) fn file_len<R: Files>(rt: &R, path: &str) -> io::Result<u64> {
    match rt.metadata(path) {
        Ok(metadata) => Ok(metadata.len()),
        Err(error) if is_missing(&error) => Ok(0),
        Err(error) => Err(error),
    }
}

pub(crate) fn read_file<R: Files>(rt: &R, path: &str, at: u64, into: &mut [u8]) -> io::Result<usize>
    ensures { IfOk result (λ count. count ≤ length into.old) }
{
    let mut how = OpenOptions::new();
    how.read(true);
    match rt.open_file(&how, path) {
        Ok(mut file) => read_from(&mut file, at, into),
        Err(error) if is_missing(&error) => Ok(0),
        Err(error) => Err(error),
    }
}

pub(crate) fn read_from<F: Read + Seek>(file: &mut F, at: u64, into: &mut [u8]) -> io::Result<usize>
    ensures { IfOk result (λ count. count ≤ length into.old) }
{
    file.seek(SeekFrom::Start(at))?;
    read_up_to(file, into)
}

// Reads up to the end of the file, or as much as there is room for.
fn read_up_to<F: Read>(file: &mut F, into: &mut [u8]) -> io::Result<usize>
    ensures { IfOk result (λ count. count ≤ length into.old) }
{
    let mut count = 0;
    let mut tries = TRIES;
    while count < into.len() {
        match file.read(&mut into[count..]) {
            Ok(0) => break,
            Ok(more) => count += more,
            Err(error) if error.kind() == ErrorKind::Interrupted && tries > 0 => tries -= 1,
            Err(error) => return Err(error),
        }
    }
    Ok(count)
}

/// Opens the file, for reading too, and says whether it was created.
pub(crate) fn open_to_write<R: Files>(rt: &R, path: &str) -> io::Result<(R::File, bool)> {
    let mut how = OpenOptions::new();
    how.read(true).write(true);
    match rt.open_file(&how, path) {
        Ok(file) => Ok((file, false)),
        Err(error) if is_missing(&error) => {
            how.create(true);
            Ok((rt.open_file(&how, path)?, true))
        }
        Err(error) => Err(error),
    }
}

pub(crate) fn write_to<F: Write + Seek>(file: &mut F, at: u64, from: &[u8]) -> io::Result<()> {
    file.seek(SeekFrom::Start(at))?;
    file.write_all(from)
}

pub(crate) fn cut_file<R: Files>(rt: &R, path: &str, len: u64) -> io::Result<()> {
    let mut how = OpenOptions::new();
    how.write(true);
    match rt.open_file(&how, path) {
        Ok(file) => file.set_len(len),
        Err(error) if is_missing(&error) => Ok(()),
        Err(error) => Err(error),
    }
}

/// Brings the file's octets and its length to the disk, and says whether there is a file.
pub(crate) fn sync_file<R: Files>(rt: &R, path: &str) -> io::Result<bool> {
    let mut how = OpenOptions::new();
    how.read(true);
    match rt.open_file(&how, path) {
        Ok(file) => {
            file.sync_data()?;
            Ok(true)
        }
        Err(error) if is_missing(&error) => Ok(false),
        Err(error) => Err(error),
    }
}

/// Brings the names in the file's folder to the disk.
pub(crate) fn sync_folder<R: Files>(rt: &R, path: &str) -> io::Result<()> {
    let mut how = OpenOptions::new();
    how.read(true);
    rt.open_file(&how, folder_of(path))?.sync_all()
}

fn folder_of(path: &str) -> &str {
    match path.rsplit_once('/') {
        Some(("", _)) => "/",
        Some((folder, _)) => folder,
        None => ".",
    }
}

fn is_missing(error: &io::Error) -> bool {
    error.kind() == ErrorKind::NotFound
}
