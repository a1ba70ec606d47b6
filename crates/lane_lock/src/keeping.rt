ghost use Rattle.std.specs.Prelude.{◌≡◌};
ghost use Rattle.lane_lock.specs.Meaning.{Meaning};

/// What can lie in the lock. All that it says is for contracts alone.
pub trait Kept: Drop + Send + Sync {
    /// What is fixed when the lane is opened.
    type Opening;
    /// What senders add.
    type Entry;
    /// Why nothing more is added to the lane.
    type End;

    /// The opening, the entries with the numbers of those who made them, the end, when the lane may lie in the lock,
    /// and which lane is later than which.
    ghost meaning: { Meaning Self Self.Opening Self.Entry Self.End };

    /// A lane is later than itself.
    ghost later_itself: { (a : Self) → meaning.later a a };

    /// What is later than a later lane is later.
    ghost later_chain: { (a b c : Self) → meaning.later a b → meaning.later b c → meaning.later a c };

    /// A later lane has the same opening.
    ghost later_opening: { (a b : Self) → meaning.later a b → meaning.opening b ≡ meaning.opening a };
}
