// What a stop may leave of writes that were not synced.

/// The image that a stop leaves.
#[derive(Clone, Copy, Debug, PartialEq, Eq)]
pub enum Image {
    /// What was not synced is lost.
    Old,
    /// What was not synced stands.
    New,
    /// Each octet that was written and not synced is FF. A cut stands.
    Torn,
}
