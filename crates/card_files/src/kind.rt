//! Files that CREATE FILE makes.

use crate::path::Path;

/// The kind of a new file, and how large it is.
#[derive(Clone, Copy, Debug, PartialEq, Eq)]
pub enum Kind {
    /// A DF.
    Folder,
    /// A transparent EF of so many octets.
    Transparent(u16),
    /// A linear EF: the octets of a record, and the number of records.
    Linear(u8, u8),
    /// A cyclic EF: the octets of a record, and the number of records.
    Cyclic(u8, u8),
}

/// A file that CREATE FILE is to make.
#[derive(Drop)]
pub struct NewFile {
    /// Its path.
    pub path: Path,
    /// What it is to hold.
    pub kind: Kind,
}
