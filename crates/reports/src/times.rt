ghost use Rattle.std.specs.Prelude.{◌≡◌, ◌<◌, ◌∷◌, [], ◌++◌, length, map, reverse, find, string_bytes, IfOk, OnOk, codes};
ghost use Rattle.std.specs.Option.{option_copied};
ghost use Rattle.std.specs.Fmt.{decimal};
ghost use Rattle.ota_core.specs.Questions.{last_reserved};
ghost use Rattle.reports.specs.Report.{entries_in};
ghost use Rattle.reports.specs.Times.{is_word_octet, printed, name_text, settled_text, no_times, times_header, times_columns, times_row, times_of};

use crate::lane_indexes::{LaneIndex, index_of, lane_indexes};
use ota_core::{Entry, History, Job, JobId, Memory, Reserved};
use std::alloc::Global;

/// When the jobs were reserved and settled, by the histories of the lanes in their order.
///
/// It has a line for its columns, `job,name,reserved,settled`, and then a line for each job, in order of the jobs: the
/// campaign's name, the moment of the job's last reservation, and the moment at which that was settled. A dash stands for
/// an empty name and for what isn't there. An octet of a name that is no ASCII letter, digit or underscore is shown as a
/// question mark. A moment is the number that the clock gave.
pub fn times_text(alloc: Global, jobs: &[Job], histories: &[History]) -> Result<String, Memory>
    requires { 0 < length histories.now }
    ensures { IfOk result (λ text. string_bytes text ≡ times_of jobs.now (map entries_in histories.now)) }
{
    let lanes = lane_indexes(alloc, histories)?;
    let mut text = String::from_str(alloc, times_header())?;
    for job in jobs {
        put_row(&mut text, index_of(&lanes, job.keyset), job.id)?;
    }
    Ok(text)
}

#[tactic(auto, unfolding(crate::specs::Times::times_header))]
fn times_header() -> &'static str
    ensures { result.now ≡ times_header }
{
    "job,name,reserved,settled\n"
}

fn put_row(text: &mut String, lane: &LaneIndex<'_>, job: JobId) -> Result<(), Memory>
    ensures { OnOk result (string_bytes text.new ≡ string_bytes text.old ++ times_row lane.now job) }
{
    let number = job.job;
    write!(text, "{number},")?;
    put_times(text, lane, job)?;
    text.push_str("\n")?;
    Ok(())
}

/// The columns behind the job's number.
fn put_times(text: &mut String, lane: &LaneIndex<'_>, job: JobId) -> Result<(), Memory>
    ensures { OnOk result (string_bytes text.new ≡ string_bytes text.old ++ times_columns (reverse lane.now) (last_reserved job (reverse lane.now))) }
{
    match lane.last_reserved(job) {
        None => Ok(text.push_str(no_times())?),
        Some(reserved) => put_reserved(text, &reserved, lane.settlement(reserved.place())),
    }
}

#[tactic(auto, unfolding(crate::specs::Times::no_times))]
fn no_times() -> &'static str
    ensures { result.now ≡ no_times }
{
    "-,-,-"
}

/// The columns of a reservation, by the entry that settles it.
fn put_reserved(
    text: &mut String,
    reserved: &Reserved<'_>,
    settled: Option<&Entry>,
) -> Result<(), Memory>
    ensures { OnOk result (string_bytes text.new ≡ string_bytes text.old ++ (name_text reserved.now.name ++ codes "," ++ decimal reserved.now.moment ++ codes "," ++ settled_text (option_copied settled.entry))) }
{
    let moment = reserved.moment;
    put_name(text, reserved.name.as_slice())?;
    write!(text, ",{moment},")?;
    put_settled(text, settled)
}

/// The moment of a settlement.
fn put_settled(text: &mut String, settled: Option<&Entry>) -> Result<(), Memory>
    ensures { OnOk result (string_bytes text.new ≡ string_bytes text.old ++ settled_text (option_copied settled.entry)) }
{
    match settled {
        None => text.push_str("-")?,
        Some(entry) => {
            let moment = entry.moment();
            write!(text, "{moment}")?;
        }
    }
    Ok(())
}

/// The name of a campaign.
fn put_name(text: &mut String, name: &[u8]) -> Result<(), Memory>
    ensures { OnOk result (string_bytes text.new ≡ string_bytes text.old ++ name_text name.now) }
{
    if name.is_empty() {
        text.push_str("-")?;
        return Ok(());
    }
    put_octets(text, name)
}

fn put_octets(text: &mut String, name: &[u8]) -> Result<(), Memory>
    ensures { OnOk result (string_bytes text.new ≡ string_bytes text.old ++ map printed name.now) }
{
    for octet in name {
        text.push(char::from(printed(*octet)))?;
    }
    Ok(())
}

/// An octet of a name as it is shown.
fn printed(octet: u8) -> u8
    ensures shown { result ≡ printed octet }
    ensures ascii { result < 128 }
{
    if is_word_octet(octet) { octet } else { b'?' }
}

fn is_word_octet(octet: u8) -> bool
    ensures shown { result ≡ is_word_octet octet }
{
    octet.is_ascii_alphanumeric() || octet == b'_'
}
