//! The versions of the format.

/// A version of the format in which entries are written. A journal begins in the first one or is taken over from it, and
/// goes on in the second.
#[derive(Clone, Copy, Debug, PartialEq, Eq)]
pub enum Version {
    /// Without moments and names: they are read as 0 and empty.
    First,
    /// With a moment in each entry, and the campaign's name in each reservation.
    Second,
}
