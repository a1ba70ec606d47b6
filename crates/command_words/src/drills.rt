//! The words of a drill.

ghost use Rattle.std.specs.Prelude.{◌≡◌, ◌≤◌, IfOk, IfSome, map, string_bytes};
ghost use Rattle.std.specs.Option.{option_and_then};
ghost use Rattle.command_words.specs.Drills.{IsInRange, drill_in, drill_of};
ghost use Rattle.command_words.specs.Options.{drill_app, rows_by, rows_in};

use crate::options::{drill_options, given};
use crate::reading::{lanes_in, required_number};
use clap::ArgMatches;
use ota_core::Memory;
use std::alloc::Global;

/// The greatest number of a generator.
const LAST_NUMBER: u64 = 999_999_999_999_999_999;

/// A campaign that is made of a number and run on cards in memory.
#[derive(Clone, Copy, Debug, PartialEq, Eq)]
pub struct Drill {
    /// The number that the campaign is made of, in at most 18 digits.
    pub number: u64,
    /// How many cards there are, 1 to 5,000.
    pub cards: u32,
    /// How many jobs there are, 0 to 40,000.
    pub count: u32,
    /// How many lanes there are, 1 to 64.
    pub lanes: u16,
    /// How many senders there are, 1 to 64.
    pub senders: u32,
}

/// The drill that the words say, or None where they are no drill's. `Err` is want of memory.
pub fn read_drill(alloc: Global, words: &[String]) -> Result<Option<Drill>, Memory>
    ensures said { IfOk result (λ read. read ≡ drill_of (map string_bytes words.now)) }
    ensures ranges { IfOk result (λ read. IfSome read IsInRange) }
{
    match words {
        [] => Ok(None),
        [name, ..] => {
            if name.as_str() == "drill" {
                read_options(alloc, words)
            } else {
                Ok(None)
            }
        }
    }
}

fn read_options(alloc: Global, words: &[String]) -> Result<Option<Drill>, Memory>
    ensures said { IfOk result (λ read. read ≡ option_and_then drill_in (rows_by drill_app (map string_bytes words.now))) }
    ensures ranges { IfOk result (λ read. IfSome read IsInRange) }
{
    let options = drill_options(alloc)?;
    match given(options, words)? {
        None => Ok(None),
        Some(matches) => Ok(drill_in(&matches)),
    }
}

fn drill_in(matches: &ArgMatches) -> Option<Drill>
    ensures said { result ≡ drill_in (rows_in matches.now) }
    ensures ranges { IfSome result IsInRange }
{
    let number = required_number(matches, "number", 0, LAST_NUMBER)?;
    let cards = required_number(matches, "cards", 1, 5_000)?;
    let count = required_number(matches, "count", 0, 40_000)?;
    let lanes = lanes_in(matches)?;
    let senders = required_number(matches, "senders", 1, 64)?;
    Some(Drill {
        number,
        cards: cards as u32,
        count: count as u32,
        lanes,
        senders: senders as u32,
    })
}
