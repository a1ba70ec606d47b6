ghost use Rattle.std.specs.Prelude.{◌≤◌, IfOk, length};

use std::io::{ErrorKind, Read};
use std::rt::Files;
use std::{fs, io};

/// A file that is read. One that can't be opened fails at its first read.
#[derive(Drop)]
pub struct InputFile<F> {
    file: Option<F>,
}

impl<F: Read + Drop> InputFile<F> {
    pub fn open<R: Files<File = F>>(rt: &R, path: &str) -> InputFile<F> {
        InputFile {
            file: fs::open(rt, path).ok(),
        }
    }
}

impl<F: Read> Read for InputFile<F> {
    fn read(&mut self, buf: &mut [u8]) -> io::Result<usize> {
        match &mut self.file {
            Some(file) => file.read(buf),
            None => Err(io::Error::from(ErrorKind::NotFound)),
        }
    }
}
