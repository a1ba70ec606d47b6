//! How the words of a command are read.

ghost use Rattle.std.specs.Prelude.{◌≡◌, ◌≤◌, IfOk, IfSome, option_map, map, string_bytes};
ghost use Rattle.command_words.specs.Options.{rows_in, has_flag};
ghost use Rattle.command_words.specs.Words.{said_of, said_in, said_by, words_of, command_on, command_for, required_number, usual_number, lanes_in};
ghost use Rattle.command_words.specs.Words.{reserving_in, sending_in, send_in, shown_in, close_in, command_in};

use crate::commands::{Command, Reserving, Sending, Shown};
use crate::kinds::{Kind, kind_of};
use crate::options::{given, has_flag, options_of, value_of};
use crate::places::{Paths, paths_in};
use crate::values::{name_or, number_from, number_or};
use clap::ArgMatches;
use ota_core::{CardId, KeysetId, Memory};
use std::alloc::Global;

/// The greatest number of a card.
const LAST_CARD: u64 = 999_999_999_999_999_999;

/// What the words of a command say.
#[derive(Debug, Drop)]
pub struct Words {
    pub command: Command,
    /// The number of lanes, 1 to 64.
    pub lanes: u16,
    pub paths: Paths,
}

/// What the words say, or None where they are no command's. `Err` is want of memory.
pub fn read_words(alloc: Global, words: &[String]) -> Result<Option<Words>, Memory>
    ensures said { IfOk result (λ read. option_map said_of read ≡ words_of (map string_bytes words.now)) }
    ensures some { IfOk result (λ read. IfSome read (λ said. 1 ≤ said.lanes)) }
    ensures few { IfOk result (λ read. IfSome read (λ said. said.lanes ≤ 64)) }
{
    match words {
        [] => Ok(None),
        [name, ..] => match kind_of(name.as_str()) {
            None => Ok(None),
            Some(kind) => read_options(alloc, kind, words),
        },
    }
}

/// The command that the words say for so many sites. `Err` is want of memory.
pub fn command_for(alloc: Global, words: &[String], sites: usize) -> Result<Option<Command>, Memory>
    ensures command { IfOk result (λ command. command ≡ command_for (map string_bytes words.now) sites) }
    ensures some { IfOk result (λ command. IfSome command (λ it. 1 ≤ sites)) }
    ensures few { IfOk result (λ command. IfSome command (λ it. sites ≤ 64)) }
{
    match read_words(alloc, words)? {
        None => Ok(None),
        Some(said) => Ok(command_on(said, sites)),
    }
}

fn command_on(said: Words, sites: usize) -> Option<Command>
    requires some { 1 ≤ said.lanes }
    requires few { said.lanes ≤ 64 }
    ensures command { result ≡ command_on sites (said_of said) }
    ensures some { IfSome result (λ it. 1 ≤ sites) }
    ensures few { IfSome result (λ it. sites ≤ 64) }
{
    if usize::from(said.lanes) == sites {
        Some(said.command)
    } else {
        None
    }
}

/// What the words of this command say.
fn read_options(alloc: Global, kind: Kind, words: &[String]) -> Result<Option<Words>, Memory>
    ensures said { IfOk result (λ read. option_map said_of read ≡ said_by (map string_bytes words.now) kind) }
    ensures some { IfOk result (λ read. IfSome read (λ said. 1 ≤ said.lanes)) }
    ensures few { IfOk result (λ read. IfSome read (λ said. said.lanes ≤ 64)) }
{
    let options = options_of(alloc, kind)?;
    match given(options, words)? {
        None => Ok(None),
        Some(matches) => said_in(alloc, kind, &matches),
    }
}

fn said_in(alloc: Global, kind: Kind, matches: &ArgMatches) -> Result<Option<Words>, Memory>
    ensures said { IfOk result (λ read. option_map said_of read ≡ said_in kind (rows_in matches.now)) }
    ensures some { IfOk result (λ read. IfSome read (λ said. 1 ≤ said.lanes)) }
    ensures few { IfOk result (λ read. IfSome read (λ said. said.lanes ≤ 64)) }
{
    match lanes_in(matches) {
        None => Ok(None),
        Some(lanes) => match paths_in(alloc, kind, matches)? {
            None => Ok(None),
            Some(paths) => match command_in(kind, matches) {
                None => Ok(None),
                Some(command) => Ok(Some(Words {
                    command,
                    lanes,
                    paths,
                })),
            },
        },
    }
}

/// The number of lanes.
pub(crate) fn lanes_in(matches: &ArgMatches) -> Option<u16>
    ensures lanes { result ≡ lanes_in (rows_in matches.now) }
    ensures some { IfSome result (λ lanes. 1 ≤ lanes) }
    ensures few { IfSome result (λ lanes. lanes ≤ 64) }
{
    match required_number(matches, "lanes", 1, 64) {
        None => None,
        Some(lanes) => Some(lanes as u16),
    }
}

/// The number that a required option says.
pub(crate) fn required_number(
    matches: &ArgMatches,
    name: &str,
    least: u64,
    greatest: u64,
) -> Option<u64>
    ensures number { result ≡ required_number least greatest name.now (rows_in matches.now) }
    ensures least { IfSome result (λ number. least ≤ number) }
    ensures greatest { IfSome result (λ number. number ≤ greatest) }
{
    match value_of(matches, name) {
        None => None,
        Some(digits) => number_from(least, greatest, digits),
    }
}

/// The number that an option says, or the usual one where it is missing.
fn usual_number(
    matches: &ArgMatches,
    name: &str,
    usual: u64,
    least: u64,
    greatest: u64,
) -> Option<u32>
    requires least { least ≤ usual }
    requires greatest { usual ≤ greatest }
    requires small { greatest ≤ 1000 }
    ensures { result ≡ usual_number usual least greatest name.now (rows_in matches.now) }
{
    match number_or(usual, least, greatest, value_of(matches, name)) {
        None => None,
        Some(number) => Some(number as u32),
    }
}

/// What the options say that this command is to do.
fn command_in(kind: Kind, matches: &ArgMatches) -> Option<Command>
    ensures { result ≡ command_in kind (rows_in matches.now) }
{
    match kind {
        Kind::Format => Some(Command::Format),
        Kind::Reserve => reserve_in(matches),
        Kind::Send => send_in(matches),
        Kind::Report => report_in(matches),
        Kind::Close => close_in(matches),
        Kind::Cards => Some(Command::Cards),
        Kind::Packet => Some(Command::Packet),
    }
}

fn reserve_in(matches: &ArgMatches) -> Option<Command>
    ensures { result ≡ option_map Command.Reserve (reserving_in (rows_in matches.now)) }
{
    match reserving_in(matches) {
        None => None,
        Some(reserving) => Some(Command::Reserve(reserving)),
    }
}

fn report_in(matches: &ArgMatches) -> Option<Command>
    ensures { result ≡ option_map Command.Report (shown_in (rows_in matches.now)) }
{
    match shown_in(matches) {
        None => None,
        Some(shown) => Some(Command::Report(shown)),
    }
}

fn send_in(matches: &ArgMatches) -> Option<Command>
    ensures { result ≡ send_in (rows_in matches.now) }
{
    match reserving_in(matches) {
        None => None,
        Some(reserving) => match sending_in(matches) {
            None => None,
            Some(sending) => Some(Command::Send(reserving, sending)),
        },
    }
}

fn reserving_in(matches: &ArgMatches) -> Option<Reserving>
    ensures { result ≡ reserving_in (rows_in matches.now) }
{
    match name_or(value_of(matches, "name")) {
        None => None,
        Some(name) => Some(Reserving {
            retry: has_flag(matches, "retry"),
            name,
        }),
    }
}

/// 4 senders, 2 resends, 4 polls and batches of one job, unless the options say otherwise.
fn sending_in(matches: &ArgMatches) -> Option<Sending>
    ensures { result ≡ sending_in (rows_in matches.now) }
{
    let senders = usual_number(matches, "senders", 4, 1, 64)?;
    let resends = usual_number(matches, "resends", 2, 0, 16)?;
    let polls = usual_number(matches, "polls", 4, 1, 1000)?;
    let batch = usual_number(matches, "batch", 1, 1, 16)?;
    Some(Sending {
        senders,
        batch,
        resends,
        polls,
        summary: has_flag(matches, "summary"),
    })
}

fn shown_in(matches: &ArgMatches) -> Option<Shown>
    ensures { result ≡ shown_in (rows_in matches.now) }
{
    match (has_flag(matches, "summary"), has_flag(matches, "times")) {
        (false, false) => Some(Shown::Lines),
        (true, false) => Some(Shown::Summary),
        (false, true) => Some(Shown::Times),
        (true, true) => None,
    }
}

fn close_in(matches: &ArgMatches) -> Option<Command>
    ensures { result ≡ close_in (rows_in matches.now) }
{
    let card = required_number(matches, "card", 0, LAST_CARD)?;
    let kvn = required_number(matches, "kvn", 1, 15)?;
    Some(Command::Close(KeysetId {
        card: CardId(card),
        kvn: kvn as u8,
    }))
}
