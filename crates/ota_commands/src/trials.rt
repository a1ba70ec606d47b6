//! The words of `try`.

ghost use Rattle.std.specs.Prelude.{◌≡◌, true, Some, IfOk, IfSome, map, option_map, string_bytes};
ghost use Rattle.std.specs.List.{list_all};
ghost use Rattle.clap.specs.Words.{app_of};
ghost use Rattle.ota_commands.specs.Trials.{are_tried, both, is_expanded, is_named, is_no_dashes, is_tried, only_tried, options_of, part_named, script_of, trial_by, trial_of, try_app, IsParsed};

use clap::error::ErrorKind;
use clap::{Arg, ArgAction, ArgMatches, Command};
use hex::FromHexError;
use ota_core::{Memory, Octets};
use script_engine::Part;
use std::alloc::{AllocError, Global};

/// A script that is to be tried on a new card.
#[derive(Debug, Drop)]
pub struct Trial {
    /// The part of the card that runs it.
    pub part: Part,
    /// The octets of the script: an expanded one, or a compact one of 1 to 4,096 octets.
    pub script: Octets,
}

/// What the words ask for: `try` with `--part rfm` or `ram` and `--script` with hexadecimal digits, in any order, each
/// value as the next word or after `=`. None where they are no such words.
pub fn read_trial(alloc: Global, words: &[String]) -> Result<Option<Trial>, Memory>
    ensures trial { IfOk result (λ trial. trial ≡ trial_of (map string_bytes words.now)) }
    ensures tried { IfOk result (λ trial. IfSome trial (λ asked. is_tried asked.script ≡ true)) }
{
    if !are_tried(words) {
        return Ok(None);
    }
    match options(alloc, words)? {
        Some((part, script)) => trial_by(alloc, part, script),
        None => Ok(None),
    }
}

/// Whether the first word is the command's name, and none is `--`.
fn are_tried(words: &[String]) -> bool
    ensures { result ≡ are_tried (map string_bytes words.now) }
{
    is_named(words) && have_no_dashes(words)
}

fn is_named(words: &[String]) -> bool
    ensures { result ≡ is_named (map string_bytes words.now) }
{
    match words {
        [] => false,
        [name, ..] => name.as_str() == "try",
    }
}

/// Whether no word is `--`.
fn have_no_dashes(words: &[String]) -> bool
    ensures { result ≡ list_all (λ word. is_no_dashes (string_bytes word)) words.now }
{
    words.iter().all(|word| is_no_dashes(word))
}

fn is_no_dashes(word: &String) -> bool
    ensures { result ≡ is_no_dashes (string_bytes word.now) }
{
    word.as_str() != "--"
}

/// The texts behind the two options, where the words are these options.
fn options<'a>(alloc: Global, words: &'a [String]) -> Result<Option<(&'a str, &'a str)>, Memory>
    ensures { IfOk result (λ found. option_map (λ texts. (texts.0.now, texts.1.now)) found ≡ options_of (map string_bytes words.now)) }
{
    match parsed(alloc, words)? {
        Some(matches) => Ok(both(matches.get_str("part"), matches.get_str("script"))),
        None => Ok(None),
    }
}

/// What the options say, where the words are these options.
fn parsed<'a>(alloc: Global, words: &'a [String]) -> Result<Option<ArgMatches<'a>>, Memory>
    ensures { IfOk result (IsParsed (map string_bytes words.now)) }
{
    match command(alloc)?.try_get_matches_from(words) {
        Ok(matches) => Ok(Some(matches)),
        Err(error) => match error.kind() {
            ErrorKind::OutOfMemory => Err(Memory),
            _ => Ok(None),
        },
    }
}

/// The command's options.
fn command<'a>(alloc: Global) -> Result<Command<'a>, AllocError>
    ensures { IfOk result (λ command. app_of command ≡ try_app) }
{
    let part = Arg::new(alloc, "part")
        .long("part")
        .required(true)
        .action(ArgAction::Set);
    let script = Arg::new(alloc, "script")
        .long("script")
        .required(true)
        .action(ArgAction::Set);
    Command::new(alloc, "try")
        .disable_help_flag(true)
        .arg(part)?
        .arg(script)
}

fn both<'a>(first: Option<&'a str>, second: Option<&'a str>) -> Option<(&'a str, &'a str)>
    ensures { option_map (λ texts. (texts.0.now, texts.1.now)) result ≡ both (option_map (λ text. text.now) first.entry) (option_map (λ text. text.now) second.entry) }
{
    match (first, second) {
        (Some(first), Some(second)) => Some((first, second)),
        _ => None,
    }
}

/// What these two texts ask for.
fn trial_by(alloc: Global, part: &str, script: &str) -> Result<Option<Trial>, Memory>
    ensures trial { IfOk result (λ trial. trial ≡ trial_by (Some (part.now, script.now))) }
    ensures tried { IfOk result (λ trial. IfSome trial (λ asked. is_tried asked.script ≡ true)) }
{
    let part = match part_named(part) {
        Some(part) => part,
        None => return Ok(None),
    };
    match script_of(alloc, script)? {
        Some(script) => Ok(Some(Trial { part, script })),
        None => Ok(None),
    }
}

/// The part of the card that a text names.
fn part_named(name: &str) -> Option<Part>
    ensures { result ≡ part_named name.now }
{
    if name == "rfm" {
        Some(Part::Files)
    } else if name == "ram" {
        Some(Part::Applets)
    } else {
        None
    }
}

/// The script that hexadecimal digits say; none, where they are none, or say a compact script of no octets or more than
/// 4,096.
#[tactic(auto, unfolding(crate::specs::Trials::script_of))]
fn script_of(alloc: Global, digits: &str) -> Result<Option<Octets>, Memory>
    ensures script { IfOk result (λ script. script ≡ script_of digits.now) }
    ensures tried { IfOk result (λ script. IfSome script (λ tried. is_tried tried ≡ true)) }
{
    match hex::decode(alloc, digits.as_bytes()) {
        Ok(script) => only_tried(alloc, script.as_slice()),
        Err(FromHexError::OutOfMemory) => Err(Memory),
        Err(_) => Ok(None),
    }
}

fn only_tried(alloc: Global, script: &[u8]) -> Result<Option<Octets>, Memory>
    ensures script { IfOk result (λ tried. tried ≡ only_tried script.now) }
    ensures tried { IfOk result (λ script. IfSome script (λ tried. is_tried tried ≡ true)) }
{
    if !is_tried(script) {
        return Ok(None);
    }
    let script = Octets::from_slice(alloc, script)?;
    Ok(Some(script))
}

/// Whether it is an expanded script, or a compact one of 1 to 4,096 octets.
fn is_tried(script: &[u8]) -> bool
    ensures { result ≡ is_tried script.now }
{
    is_expanded(script) || (!script.is_empty() && script.len() <= 4096)
}

/// Whether a script is an expanded one: it begins with the tag AA (ETSI TS 101 220, 7.2).
pub fn is_expanded(script: &[u8]) -> bool
    ensures { result ≡ is_expanded script.now }
{
    match script {
        [] => false,
        [tag, ..] => *tag == 0xAA,
    }
}
