//! The contents of a file.

use crate::binary::Binary;
use crate::records::Records;

/// What a file holds. ETSI TS 102 221, 8.2.
#[derive(Drop)]
pub enum Contents {
    /// Other files: the MF, or a DF.
    Folder,
    /// A transparent EF.
    Transparent(Binary),
    /// A linear fixed EF.
    Linear(Records),
    /// A cyclic EF.
    Cyclic(Records),
}
