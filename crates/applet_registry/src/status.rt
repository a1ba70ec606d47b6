//! The entries that GET STATUS gives.

ghost use Rattle.std.specs.Prelude.{◌≡◌, ◌-◌, ◌≤◌, ◌++◌, nat_le, length, if◌then◌else◌};
ghost use Rattle.applet_registry.specs.Status.{entry_of, application_entries, load_file_entries, fitting};

use crate::aid::Aid;
use crate::application::{Application, LOADED};
use crate::limits::ANSWER_ROOM;
use crate::load_file::LoadFile;
use arrayvec::ArrayVec;

/// What a command gives.
pub(crate) type Out = ArrayVec<u8, 256>;

/// The entries of the applications whose AID begins so, as many as fit.
///
/// GlobalPlatform Card Specification 2.1.1, 9.4.3.
pub(crate) fn of_applications(applications: &[Application], prefix: &[u8]) -> Out
    ensures { result.items ≡ fitting 256 (application_entries prefix.now applications.now) }
{
    let mut out = ArrayVec::new();
    for application in applications {
        if application.aid.begins_with(prefix)
            && !add(
                &mut out,
                &application.aid,
                application.state,
                application.privileges,
            )
        {
            return out;
        }
    }
    out
}

/// The entries of the load files whose AID begins so, as many as fit.
///
/// GlobalPlatform Card Specification 2.1.1, 9.4.3.
pub(crate) fn of_load_files(files: &[LoadFile], prefix: &[u8]) -> Out
    ensures { result.items ≡ fitting 256 (load_file_entries prefix.now files.now) }
{
    let mut out = ArrayVec::new();
    for file in files {
        if file.aid.begins_with(prefix) && !add(&mut out, &file.aid, LOADED, 0) {
            return out;
        }
    }
    out
}

/// Adds an entry, if it fits whole.
fn add(out: &mut Out, aid: &Aid, state: u8, privileges: u8) -> bool
    ensures fits { result ≡ nat_le (length (entry_of aid.now state privileges)) (256 - length out.old.items) }
    ensures items { out.new.items ≡ (if result then out.old.items ++ entry_of aid.now state privileges else out.old.items) }
{
    let aid = aid.as_slice();
    if aid.len() + 3 > ANSWER_ROOM - out.len() {
        return false;
    }
    out.push(aid.len() as u8);
    let _ = out.try_extend_from_slice(aid);
    out.push(state);
    out.push(privileges);
    true
}
