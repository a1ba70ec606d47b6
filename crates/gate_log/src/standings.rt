/// How far a log is read.
#[derive(Clone, Copy, Debug, PartialEq, Eq)]
pub(crate) enum Standing {
    /// More may follow.
    Going,
    /// Up to the closed gate that ends the log.
    Closed,
    /// Up to a batch that is damaged.
    Damaged,
}
