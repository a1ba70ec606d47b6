//! The options of the commands, and what was given for them.

ghost use Rattle.std.specs.Prelude.{◌≡◌, ◌++◌, ◌∷◌, [], IfOk, IsTrue, option_map, map, string_bytes, codes, true, false};
ghost use Rattle.clap.specs.Words.{app_of, rule_of, is_simple_and_free};
ghost use Rattle.command_words.specs.Options.{app, option, flag, place_options, input_options, reserving_options, resending_options, sending_options, report_options};
ghost use Rattle.command_words.specs.Options.{close_options, cards_options, campaign_options, app_for, drill_app, rows_in, rows_read, rows_by, value_of, has_flag, path_in};

use crate::kinds::Kind;
use crate::values::{has_no_end, is_value};
use clap::error::ErrorKind;
use clap::{Arg, ArgAction, ArgMatches, Command};
use ota_core::Memory;
use std::alloc::{AllocError, Global};

/// An option with a value.
fn option<'a>(alloc: Global, name: &'a str, required: bool) -> Arg<'a>
    ensures rule { rule_of result ≡ option name.now required }
    ensures own { result.global ≡ false }
{
    Arg::new(alloc, name)
        .long(name)
        .required(required)
        .action(ArgAction::Set)
}

/// An option without one.
fn flag<'a>(alloc: Global, name: &'a str) -> Arg<'a>
    ensures rule { rule_of result ≡ flag name.now }
    ensures own { result.global ≡ false }
{
    Arg::new(alloc, name).long(name).action(ArgAction::SetTrue)
}

/// A command without options, and without words that ask for help.
fn bare<'a>(alloc: Global, name: &'a str) -> Command<'a>
    ensures { app_of result ≡ app name.now [] }
{
    Command::new(alloc, name).disable_help_flag(true)
}

/// A command on a store.
fn on_store<'a>(alloc: Global, name: &'a str) -> Result<Command<'a>, AllocError>
    ensures { IfOk result (λ made. app_of made ≡ app name.now place_options) }
{
    bare(alloc, name)
        .arg(option(alloc, "lanes", true))?
        .arg(option(alloc, "store", true))
}

/// A command that reads a plan and jobs.
fn on_inputs<'a>(alloc: Global, name: &'a str) -> Result<Command<'a>, AllocError>
    ensures { IfOk result (λ made. app_of made ≡ app name.now input_options) }
{
    on_store(alloc, name)?
        .arg(option(alloc, "plan", true))?
        .arg(option(alloc, "jobs", true))
}

/// A command that reserves.
fn reserving<'a>(alloc: Global, name: &'a str) -> Result<Command<'a>, AllocError>
    ensures { IfOk result (λ made. app_of made ≡ app name.now reserving_options) }
{
    on_inputs(alloc, name)?
        .arg(flag(alloc, "retry"))?
        .arg(option(alloc, "name", false))
}

/// A command that sends, with how many senders there are, and how often each sends again and polls.
fn resending<'a>(alloc: Global, name: &'a str) -> Result<Command<'a>, AllocError>
    ensures { IfOk result (λ made. app_of made ≡ app name.now resending_options) }
{
    reserving(alloc, name)?
        .arg(option(alloc, "senders", false))?
        .arg(option(alloc, "resends", false))?
        .arg(option(alloc, "polls", false))
}

/// A command that sends.
fn sending<'a>(alloc: Global, name: &'a str) -> Result<Command<'a>, AllocError>
    ensures { IfOk result (λ made. app_of made ≡ app name.now sending_options) }
{
    resending(alloc, name)?
        .arg(option(alloc, "batch", false))?
        .arg(flag(alloc, "summary"))
}

fn reporting<'a>(alloc: Global, name: &'a str) -> Result<Command<'a>, AllocError>
    ensures { IfOk result (λ made. app_of made ≡ app name.now report_options) }
{
    on_inputs(alloc, name)?
        .arg(flag(alloc, "summary"))?
        .arg(flag(alloc, "times"))
}

fn closing<'a>(alloc: Global, name: &'a str) -> Result<Command<'a>, AllocError>
    ensures { IfOk result (λ made. app_of made ≡ app name.now close_options) }
{
    on_store(alloc, name)?
        .arg(option(alloc, "card", true))?
        .arg(option(alloc, "kvn", true))
}

fn on_cards<'a>(alloc: Global, name: &'a str) -> Result<Command<'a>, AllocError>
    ensures { IfOk result (λ made. app_of made ≡ app name.now cards_options) }
{
    on_store(alloc, name)?.arg(option(alloc, "plan", true))
}

/// A command with its options.
pub(crate) fn options_of<'a>(alloc: Global, kind: Kind) -> Result<Command<'a>, AllocError>
    ensures { IfOk result (λ made. app_of made ≡ app_for kind) }
{
    match kind {
        Kind::Format => on_store(alloc, "format"),
        Kind::Reserve => reserving(alloc, "reserve"),
        Kind::Send => sending(alloc, "send"),
        Kind::Report => reporting(alloc, "report"),
        Kind::Close => closing(alloc, "close"),
        Kind::Cards => on_cards(alloc, "cards"),
        Kind::Packet => on_inputs(alloc, "packet"),
    }
}

/// A drill, with what its campaign is made of.
fn campaign<'a>(alloc: Global, name: &'a str) -> Result<Command<'a>, AllocError>
    ensures { IfOk result (λ made. app_of made ≡ app name.now campaign_options) }
{
    bare(alloc, name)
        .arg(option(alloc, "number", true))?
        .arg(option(alloc, "cards", true))?
        .arg(option(alloc, "count", true))
}

/// A drill with its options.
pub(crate) fn drill_options<'a>(alloc: Global) -> Result<Command<'a>, AllocError>
    ensures { IfOk result (λ made. app_of made ≡ drill_app) }
{
    campaign(alloc, "drill")?
        .arg(option(alloc, "lanes", true))?
        .arg(option(alloc, "senders", true))
}

/// The values of the options, where the words are those of the command; the first word is its name.
#[tactic(auto, unfolding(crate::specs::Options::rows_by))]
pub(crate) fn given<'a>(
    options: Command<'a>,
    words: &'a [String],
) -> Result<Option<ArgMatches<'a>>, Memory>
    requires { is_simple_and_free (app_of options) ≡ true }
    ensures { IfOk result (λ matches. option_map rows_in matches ≡ rows_by (app_of options.entry) (map string_bytes words.now)) }
{
    if has_no_end(words) {
        parsed(options, words)
    } else {
        Ok(None)
    }
}

fn parsed<'a>(options: Command<'a>, words: &'a [String]) -> Result<Option<ArgMatches<'a>>, Memory>
    requires { is_simple_and_free (app_of options) ≡ true }
    ensures { IfOk result (λ matches. option_map rows_in matches ≡ rows_read (app_of options.entry) (map string_bytes words.now)) }
{
    match options.try_get_matches_from(words) {
        Ok(matches) => Ok(Some(matches)),
        Err(error) => match error.kind() {
            ErrorKind::OutOfMemory => Err(Memory),
            _ => Ok(None),
        },
    }
}

/// The value of an option.
pub(crate) fn value_of<'a>(matches: &ArgMatches<'a>, name: &str) -> Option<&'a str>
    ensures { option_map (λ text. text.now) result ≡ value_of name.now (rows_in matches.now) }
{
    matches.get_str(name)
}

/// Whether the option without a value is given.
pub(crate) fn has_flag(matches: &ArgMatches, name: &str) -> bool
    ensures { result ≡ has_flag name.now (rows_in matches.now) }
{
    match value_of(matches, name) {
        None => false,
        Some(text) => text == "true",
    }
}

/// The path that an option names.
pub(crate) fn path_in<'a>(matches: &ArgMatches<'a>, name: &str) -> Option<&'a str>
    ensures { option_map (λ path. path.now) result ≡ path_in name.now (rows_in matches.now) }
{
    match value_of(matches, name) {
        None => None,
        Some(path) => { if is_value(path) { Some(path) } else { None } }
    }
}
