ghost use Rattle.std.specs.Prelude.{◌≡◌, ◌≤◌, length, OnOk};
ghost use Rattle.gate_log.specs.Answers.{heading_answer};
ghost use Rattle.gate_log.specs.Reading.{is_unformatted, is_half_made, is_log, heading_of};
ghost use Rattle.std.specs.Str.{bytes_eq};

use crate::log_errors::LogErr;

/// The mark in front of a log that is made.
const MARK: u8 = 0xA5;

/// What stands in front of a log's first gate.
#[derive(Clone, Copy, Debug, PartialEq, Eq)]
pub(crate) enum Heading {
    /// No log is made, or its making was stopped.
    Unformatted,
    /// Something else than a log of this kind.
    NotALog,
    /// A log of this kind whose head ends in these octets.
    OtherHead([u8; 4]),
    /// A log with this head.
    Formatted,
}

/// What octets have in front of a log's first gate, as a log with this head.
#[tactic(auto, unfolding(crate::specs::Reading::heading_of))]
pub(crate) fn heading_of(octets: &[u8], head: &[u8; 9]) -> Heading
    ensures { result ≡ heading_of head.now octets.now }
{
    if is_unformatted(octets, head) {
        return Heading::Unformatted;
    }
    if !is_log(octets, head) {
        return Heading::NotALog;
    }
    let rest = [octets[6], octets[7], octets[8], octets[9]];
    if !are_same(&rest, &head[5..]) {
        return Heading::OtherHead(rest);
    }
    Heading::Formatted
}

fn is_unformatted(octets: &[u8], head: &[u8; 9]) -> bool
    ensures { result ≡ is_unformatted head.now octets.now }
{
    octets.len() < 11 || octets[0] == 0 || is_half_made(octets, head)
}

/// A log of which only the mark isn't written yet.
fn is_half_made(octets: &[u8], head: &[u8; 9]) -> bool
    requires { 11 ≤ length octets.now }
    ensures { result ≡ is_half_made head.now octets.now }
{
    octets.len() == 11 && are_same(&octets[1..10], head) && octets[10] == 0 && octets[0] != MARK
}

fn is_log(octets: &[u8], head: &[u8; 9]) -> bool
    requires { 11 ≤ length octets.now }
    ensures { result ≡ is_log head.now octets.now }
{
    octets[0] == MARK && are_same(&octets[1..6], &head[..5])
}

fn are_same(one: &[u8], other: &[u8]) -> bool
    ensures { result ≡ bytes_eq one.now other.now }
{
    one == other
}

/// Whether the octets begin as a log with this head.
pub(crate) fn check_heading(octets: &[u8], head: &[u8; 9]) -> Result<(), LogErr>
    ensures answer { result ≡ heading_answer (heading_of head.now octets.now) }
    ensures long { OnOk result (11 ≤ length octets.now) }
{
    match heading_of(octets, head) {
        Heading::Unformatted => Err(LogErr::Unformatted),
        Heading::NotALog => Err(LogErr::NotALog),
        Heading::OtherHead(rest) => Err(LogErr::OtherHead(rest)),
        Heading::Formatted => Ok(()),
    }
}
