//! Why a job has no reservation.
ghost use Rattle.std.specs.Prelude.{◌≡◌, reverse};
ghost use Rattle.ota_core.specs.History.{next_counter};
ghost use Rattle.reports.specs.Report.{note_of, open_note};
ghost use Rattle.reports.specs.Note.{note_text};

use crate::lane_books::LaneBook;
use ota_core::{KeysetId, KeysetState};

/// Why no reservation of the keyset stands.
#[derive(Clone, Copy)]
pub(crate) enum Note {
    /// The history has no Open of it.
    New,
    Closed,
    /// No counter of it is left.
    Exhausted,
    /// None of these: a counter may be reserved.
    Open,
}

/// The last counter of a keyset that may be reserved.
const LAST_COUNTER: u64 = 0xFF_FFFF_FFFE;

/// How the keyset stands for a job without a reservation.
pub(crate) fn unreserved_note(lane: &LaneBook<'_>, keyset: KeysetId) -> Note
    ensures { note_text result ≡ note_of keyset (reverse lane.now) }
{
    match lane.keyset_state(keyset) {
        KeysetState::New => Note::New,
        KeysetState::Closed => Note::Closed,
        KeysetState::Open => open_note(lane, keyset),
    }
}

fn open_note(lane: &LaneBook<'_>, keyset: KeysetId) -> Note
    ensures { note_text result ≡ open_note (next_counter keyset (reverse lane.now)) }
{
    match lane.last_counter(keyset) {
        Some(last) if last.0 >= LAST_COUNTER => Note::Exhausted,
        _ => Note::Open,
    }
}
