// What contracts and the rule see. No value of these types is made but a `Key`.
use crate::keeping::Kept;
use std::collections::LinkedList;
use std::snapshot::Snapshot;

/// What a lock is made for: the lane that was put in, as a value that contracts alone see, the pace, and how many seats
/// there are.
#[derive(Drop)]
pub struct Key<L> {
    pub put: Snapshot<L>,
    pub pace: u32,
    pub seats: u32,
}

/// The entries that one seat has added, under its number.
pub struct Part<E> {
    pub number: u32,
    pub added: LinkedList<E>,
}

/// What a lane shows: its entries and its end.
pub struct Sight<E, X> {
    pub entries: LinkedList<E>,
    pub ending: Option<X>,
}

/// Whether a seat waits for its turn with a ticket, or has the lane.
pub enum Stage {
    Resting,
    Waiting(u64),
    Holding(u64),
}

/// What a seat knows.
pub struct View<L, E, X> {
    /// The key of its lock; none where its view has gone over to another seat.
    pub key: Option<Key<L>>,
    /// Its ticket.
    pub stage: Stage,
    /// A list of entries for each number that it has. Its own number comes first.
    pub parts: LinkedList<Part<E>>,
    /// The least number that it may give away.
    pub next: u32,
    /// Behind the greatest number that it may give away.
    pub past: u32,
    /// What it has seen of the lane last.
    pub seen: Sight<E, X>,
    /// What seats that were joined into it had seen.
    pub also: LinkedList<Sight<E, X>>,
    /// The ends that it has set.
    pub ends: LinkedList<X>,
}

/// What a seat at the lock of a lane knows.
pub type Known<L> = View<L, <L as Kept>::Entry, <L as Kept>::End>;
