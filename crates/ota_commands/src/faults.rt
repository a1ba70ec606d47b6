ghost use Rattle.std.specs.Prelude.{◌≡◌, Some, IfOk, ◌++◌, codes};
ghost use Rattle.std.specs.Fmt.{decimal, DisplaysOnOk};
ghost use Rattle.reports.specs.Report.{counter_text};
ghost use Rattle.ota_commands.specs.Fault.{status_of};
ghost use Rattle.ota_commands.specs.Texts.{keyset_text, refusal_text};

use expanded_scripts::TemplateErr;
use ota_core::{Counter, KeysetId};
use plan_reader::{Column, Field, Table};
use std::fmt;

/// An input of a command.
#[derive(Clone, Copy, Debug, PartialEq, Eq)]
pub enum Which {
    Plan,
    Jobs,
}

impl fmt::Display for Which {
    ghost use Rattle.std.specs.Prelude.{Some};
    ghost use Rattle.ota_commands.specs.Texts.{which_word};

    ghost output = { λ which. Some (which_word which) };

    fn fmt<W: fmt::Write>(&self, f: &mut fmt::Formatter<W>) -> fmt::Result {
        match self {
            Which::Plan => f.write_str("plan"),
            Which::Jobs => f.write_str("jobs"),
        }
    }
}

/// Why a command ended without doing all its work. Lanes count from 0, rows and records from 1.
#[derive(Clone, Copy, Debug, PartialEq, Eq)]
pub enum Fault {
    /// The words aren't those of a command.
    Usage,
    /// The plan has no reading: the table, the place of its entry, and what is wrong there.
    PlanRefused(Table, u32, Field),
    /// The jobs have no reading: the row, and what is wrong there.
    JobsRefused(u32, Column),
    /// The input has more than 8,388,608 octets.
    InputTooLong(Which),
    /// The row differs from the job's reservation under this counter.
    JobDiffers(u32, Counter),
    /// The plan's facts of the keyset differ from those that it was opened with.
    KeysetDiffers(KeysetId),
    KeysetClosed(KeysetId),
    KeysetUnknown(KeysetId),
    /// The expanded script is none, for what is wrong first.
    ScriptRefused(TemplateErr),
    /// The input couldn't be read.
    SourceFault(Which),
    /// The output couldn't be written.
    SinkFault,
    /// The device of the lane failed.
    SiteFault(u32),
    /// What the lane's device holds is no journal that the command takes.
    NotAJournal(u32),
    /// The journal at this place is of another lane, or of another number of lanes: its own two numbers.
    WrongLane(u32, u16, u16),
    /// The journal of the lane is damaged in this record.
    Damaged(u32, u64),
    /// The journal of the lane has no room: its length, and what is needed, in octets.
    Full(u32, u64, u64),
    /// The journal of the lane isn't formatted.
    Unformatted(u32),
    /// Memory is wanting.
    Memory,
}

impl Fault {
    /// The exit status of a command that ends with it.
    pub fn status(&self) -> u8
        ensures { result ≡ status_of self.now }
    {
        match self {
            Fault::Usage => 10,
            Fault::PlanRefused(..) => 11,
            Fault::JobsRefused(..) => 12,
            Fault::InputTooLong(_) => 13,
            Fault::JobDiffers(..) => 14,
            Fault::KeysetDiffers(_) => 15,
            Fault::KeysetClosed(_) => 16,
            Fault::KeysetUnknown(_) => 17,
            Fault::ScriptRefused(_) => 18,
            Fault::SourceFault(_) => 20,
            Fault::SinkFault => 21,
            Fault::SiteFault(_) => 22,
            Fault::NotAJournal(_) | Fault::WrongLane(..) | Fault::Damaged(..) => 23,
            Fault::Full(..) => 24,
            Fault::Unformatted(_) => 25,
            Fault::Memory => 30,
        }
    }
}

impl fmt::Display for Fault {
    ghost use Rattle.std.specs.Prelude.{Some};
    ghost use Rattle.ota_commands.specs.Texts.{text_of};

    ghost output = { λ fault. Some (text_of fault) };

    fn fmt<W: fmt::Write>(&self, f: &mut fmt::Formatter<W>) -> fmt::Result {
        match self {
            Fault::Usage => f.write_str(
                "usage: ota format, reserve, send, report, close, cards, packet, drill",
            ),
            Fault::PlanRefused(table, row, field) => write!(
                f,
                "plan refused: {table} {row} {field}"
            ),
            Fault::JobsRefused(row, column) => write!(f, "jobs refused: row {row} {column}"),
            Fault::InputTooLong(which) => write!(f, "input too long: {which}"),
            Fault::JobDiffers(row, counter) => write_counter(f, *row, *counter),
            Fault::KeysetDiffers(keyset) => write_keyset(f, "differs", keyset),
            Fault::KeysetClosed(keyset) => write_keyset(f, "closed", keyset),
            Fault::KeysetUnknown(keyset) => write_keyset(f, "unknown", keyset),
            Fault::ScriptRefused(error) => write_refusal(f, *error),
            Fault::SourceFault(which) => write!(f, "read fault: {which}"),
            Fault::SinkFault => f.write_str("write fault"),
            Fault::SiteFault(lane) => write!(f, "site fault: lane {lane}"),
            Fault::NotAJournal(lane) => write!(f, "not a journal: lane {lane}"),
            Fault::WrongLane(place, lane, lanes) => write!(
                f,
                "wrong lane: place {place} holds {lane} of {lanes}"
            ),
            Fault::Damaged(lane, record) => write!(
                f,
                "damaged journal: lane {lane} record {record}"
            ),
            Fault::Full(lane, len, need) => write!(
                f,
                "journal full: lane {lane} length {len} need {need}"
            ),
            Fault::Unformatted(lane) => write!(f, "not formatted: lane {lane}"),
            Fault::Memory => f.write_str("out of memory"),
        }
    }
}

fn write_counter<W: fmt::Write>(
    f: &mut fmt::Formatter<W>,
    row: u32,
    counter: Counter,
) -> fmt::Result
    ensures { DisplaysOnOk W.write_str_gives f.old result (Some (codes "job differs: row " ++ decimal row ++ codes " counter " ++ counter_text counter)) f.new }
{
    let digits = ten_digits(counter)?;
    let text = str::from_utf8(&digits).map_err(|_| fmt::Error)?;
    write!(f, "job differs: row {row} counter {text}")
}

/// The ten digits of a counter.
#[tactic(auto, unfolding(reports::specs::Report::counter_text))]
fn ten_digits(counter: Counter) -> Result<[u8; 10], fmt::Error>
    ensures { IfOk result (λ digits. digits ≡ counter_text counter) }
{
    let mut digits = [0; 10];
    hex::encode_to_slice(&counter.0.to_be_bytes()[3..], &mut digits).map_err(|_| fmt::Error)?;
    Ok(digits)
}

fn write_keyset<W: fmt::Write>(
    f: &mut fmt::Formatter<W>,
    how: &str,
    keyset: &KeysetId,
) -> fmt::Result
    ensures { DisplaysOnOk W.write_str_gives f.old result (Some (keyset_text how.now keyset.now)) f.new }
{
    let card = keyset.card.0;
    let kvn = keyset.kvn;
    write!(f, "keyset {how}: card {card} kvn {kvn}")
}

/// Why a script is refused, with the place from 0 on. Want of memory is no refusal.
fn write_refusal<W: fmt::Write>(f: &mut fmt::Formatter<W>, error: TemplateErr) -> fmt::Result
    ensures { DisplaysOnOk W.write_str_gives f.old result (Some (refusal_text error)) f.new }
{
    match error {
        TemplateErr::Tag => f.write_str("script refused: tag"),
        TemplateErr::Length(place) => write!(f, "script refused: length {place}"),
        TemplateErr::Child(place) => write!(f, "script refused: child {place}"),
        TemplateErr::Command(place) => write!(f, "script refused: command {place}"),
        TemplateErr::Memory => f.write_str("script refused: out of memory"),
    }
}
