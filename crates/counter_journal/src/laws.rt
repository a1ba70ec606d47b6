//! What holds of each journal.

ghost use Rattle.std.specs.Prelude.{◌≡◌, ℕ, List, All};
ghost use Rattle.gate_log.specs.Reading.{parts_of};
ghost use Rattle.gate_log.specs.Opening.{OpensAlike};
ghost use Rattle.ota_core.specs.declared.entries.Entry.{Entry};
ghost use Rattle.counter_journal.specs.EntryRanges.{IsEntry, IsHistory};
ghost use Rattle.counter_journal.specs.Journal.{journal_head};
ghost use Rattle.counter_journal.specs.JournalOpening.{IsTakenOver};
ghost use Rattle.counter_journal.specs.JournalReading.{Holds, DamagedAt};
ghost use Rattle.counter_journal.specs.Standing.{StandsFor};

/// Octets hold one history: two lists of entries that the same octets hold are the same list. The numbers of each entry
/// fit their octets.
pub fn one_history()
    ensures { (lane lanes : ℕ) (a b : List Entry) (octets : List ℕ) → All IsEntry a → All IsEntry b → Holds lane lanes a octets → Holds lane lanes b octets → a ≡ b }
{}

/// A history that was written is read: octets that hold a history of the lane are damaged at no number. So an opening
/// never refuses them as damaged.
pub fn written_entries_are_read()
    ensures { (lane lanes : ℕ) (entries : List Entry) (octets : List ℕ) (number : ℕ) → IsHistory lane lanes entries → Holds lane lanes entries octets → ¬ DamagedAt lane lanes (parts_of (journal_head lane lanes) octets) number }
{}

/// An opening loses no history and makes none: what opens alike, and what a journal of the first version is taken over
/// to, stands for just the histories that the octets stood for.
pub fn openings_keep_the_history()
    ensures alike { (lane lanes : ℕ) (octets image : List ℕ) → OpensAlike (journal_head lane lanes) octets image → (entries : List Entry)
        → (StandsFor lane lanes entries octets → StandsFor lane lanes entries image) × (StandsFor lane lanes entries image → StandsFor lane lanes entries octets) }
    ensures taken { (lane lanes : ℕ) (octets image : List ℕ) → IsTakenOver lane lanes octets image → (entries : List Entry)
        → (StandsFor lane lanes entries octets → StandsFor lane lanes entries image) × (StandsFor lane lanes entries image → StandsFor lane lanes entries octets) }
{}
