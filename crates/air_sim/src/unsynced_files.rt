// The files of a machine, of which none is synced: what is tested over thousands of them needn't outlast a machine's stop.
ghost use Rattle.std.specs.Prelude.{◌≤◌, length};

use std::alloc::Allocator;
use std::fs::{Metadata, OpenFile, OpenOptions};
use std::io;
use std::io::{Read, Seek, SeekFrom, Write};
use std::rt::Files;

#[derive(Clone, Drop)]
pub struct UnsyncedFiles<R>(pub R);

/// An open file.
#[derive(Drop)]
pub struct UnsyncedFile<F>(F);

impl<R: Files> Files for UnsyncedFiles<R> {
    type File = UnsyncedFile<R::File>;

    type Dir = R::Dir;

    fn open_file(&self, how: &OpenOptions, path: &str) -> io::Result<UnsyncedFile<R::File>> {
        Ok(UnsyncedFile(self.0.open_file(how, path)?))
    }

    fn open_dir(&self, path: &str) -> io::Result<R::Dir> {
        self.0.open_dir(path)
    }

    fn metadata(&self, path: &str) -> io::Result<Metadata> {
        self.0.metadata(path)
    }

    fn symlink_metadata(&self, path: &str) -> io::Result<Metadata> {
        self.0.symlink_metadata(path)
    }

    fn copy(&self, from: &str, to: &str) -> io::Result<u64> {
        self.0.copy(from, to)
    }

    fn rename(&self, from: &str, to: &str) -> io::Result<()> {
        self.0.rename(from, to)
    }

    fn remove_file(&self, path: &str) -> io::Result<()> {
        self.0.remove_file(path)
    }

    fn create_dir(&self, path: &str) -> io::Result<()> {
        self.0.create_dir(path)
    }

    fn remove_dir(&self, path: &str) -> io::Result<()> {
        self.0.remove_dir(path)
    }

    fn remove_dir_all<B: Allocator>(&self, alloc: B, path: &str) -> io::Result<()> {
        self.0.remove_dir_all(alloc, path)
    }
}

impl<F: Read> Read for UnsyncedFile<F> {
    fn read(&mut self, buf: &mut [u8]) -> io::Result<usize> {
        self.0.read(buf)
    }
}

impl<F: Write> Write for UnsyncedFile<F> {
    fn write(&mut self, buf: &[u8]) -> io::Result<usize> {
        self.0.write(buf)
    }

    fn flush(&mut self) -> io::Result<()> {
        self.0.flush()
    }
}

impl<F: Seek> Seek for UnsyncedFile<F> {
    fn seek(&mut self, to: SeekFrom) -> io::Result<u64> {
        self.0.seek(to)
    }
}

impl<F: OpenFile> OpenFile for UnsyncedFile<F> {
    fn metadata(&self) -> io::Result<Metadata> {
        self.0.metadata()
    }

    fn set_len(&self, size: u64) -> io::Result<()> {
        self.0.set_len(size)
    }

    fn sync_all(&self) -> io::Result<()> {
        Ok(())
    }

    fn sync_data(&self) -> io::Result<()> {
        Ok(())
    }
}
