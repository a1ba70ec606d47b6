//! The words of the commands.

ghost use Rattle.std.specs.Prelude.{◌≡◌, ◌&&◌, ◌≤◌, map, string_bytes, IfSome};
ghost use Rattle.std.specs.Option.{option_or};
ghost use Rattle.std.specs.Str.{bytes_eq};
ghost use Rattle.ota_commands.specs.Words.{has_front, is_option, has_paths, is_path, lanes_in, said_by, said_reading, words_of, command_of, command_for};

use plan_reader::number;

/// The greatest number of lanes.
const MOST_LANES: u64 = 64;

/// The greatest number of digits in a number.
const NUMBER_WIDTH: usize = 18;

/// A command that sends nothing.
#[derive(Clone, Copy, Debug, PartialEq, Eq)]
pub enum Command {
    /// Makes the journals.
    Format,
    /// Reserves a counter for each job.
    Reserve,
    /// Shows the messages of the jobs that are reserved and not settled.
    Packet,
}

/// What the words of a command say. Its paths are for the program alone.
#[derive(Clone, Copy, Debug, PartialEq, Eq)]
pub struct Words {
    pub command: Command,
    /// The number of lanes, 1 to 64.
    pub lanes: u16,
}

/// What the words say: `format --lanes N --store PATH`, or `reserve` or `packet` with
/// `--lanes N --store PATH --plan PATH --jobs PATH`, in that order. None where they are no such words.
pub fn read_words(words: &[String]) -> Option<Words>
    ensures said { result ≡ words_of (map string_bytes words.now) }
    ensures some { IfSome result (λ said. 1 ≤ said.lanes) }
    ensures few { IfSome result (λ said. said.lanes ≤ 64) }
{
    match words {
        [command, lanes, count, store, path] => {
            let has_front = has_front(command, "format", lanes);
            let has_store = is_option(store, "--store", path);
            said_by(Command::Format, are_both(has_front, has_store), count)
        }
        [
            command,
            lanes,
            count,
            store,
            store_path,
            plan,
            plan_path,
            jobs,
            jobs_path,
        ] => {
            let has_paths = has_paths(store, store_path, plan, plan_path, jobs, jobs_path);
            said_reading(command, lanes, has_paths, count)
        }
        _ => None,
    }
}

/// The command that the words say for so many sites.
pub fn command_for(words: &[String], sites: usize) -> Option<Command>
    ensures command { result ≡ command_for (map string_bytes words.now) sites }
    ensures some { IfSome result (λ command. 1 ≤ sites) }
    ensures few { IfSome result (λ command. sites ≤ 64) }
{
    match read_words(words) {
        None => None,
        Some(said) => command_of(said, sites),
    }
}

fn command_of(said: Words, sites: usize) -> Option<Command>
    requires some { 1 ≤ said.lanes }
    requires few { said.lanes ≤ 64 }
    ensures command { result ≡ command_of sites said }
    ensures some { IfSome result (λ command. 1 ≤ sites) }
    ensures few { IfSome result (λ command. sites ≤ 64) }
{
    if usize::from(said.lanes) == sites {
        Some(said.command)
    } else {
        None
    }
}

fn said_by(command: Command, are: bool, count: &String) -> Option<Words>
    ensures said { result ≡ said_by command are (string_bytes count.now) }
    ensures some { IfSome result (λ said. 1 ≤ said.lanes) }
    ensures few { IfSome result (λ said. said.lanes ≤ 64) }
{
    if !are {
        return None;
    }
    match lanes_in(count) {
        None => None,
        Some(lanes) => Some(Words { command, lanes }),
    }
}

/// The number of lanes that a word says.
fn lanes_in(digits: &String) -> Option<u16>
    ensures lanes { result ≡ lanes_in (string_bytes digits.now) }
    ensures some { IfSome result (λ lanes. 1 ≤ lanes) }
    ensures few { IfSome result (λ lanes. lanes ≤ 64) }
{
    match number(digits.as_bytes(), NUMBER_WIDTH, MOST_LANES) {
        None => None,
        Some(lanes) => { if lanes >= 1 { Some(lanes as u16) } else { None } }
    }
}

fn are_both(a: bool, b: bool) -> bool
    ensures { result ≡ (a && b) }
{
    a && b
}

/// What the words of a command say that reads a plan and jobs, where the paths are those.
fn said_reading(command: &String, lanes: &String, are: bool, count: &String) -> Option<Words>
    ensures said { result ≡ said_reading (string_bytes command.now) (string_bytes lanes.now) are (string_bytes count.now) }
    ensures some { IfSome result (λ said. 1 ≤ said.lanes) }
    ensures few { IfSome result (λ said. said.lanes ≤ 64) }
{
    let reserves = has_front(command, "reserve", lanes);
    let shows = has_front(command, "packet", lanes);
    first_said(
        said_by(Command::Reserve, are_both(reserves, are), count),
        said_by(Command::Packet, are_both(shows, are), count),
    )
}

fn first_said(first: Option<Words>, second: Option<Words>) -> Option<Words>
    ensures { result ≡ option_or first second }
{
    match first {
        None => second,
        Some(said) => Some(said),
    }
}

/// Whether these are the paths of a store, a plan and jobs, each behind its option.
#[tactic(auto, unfolding(crate::specs::Words::has_paths))]
fn has_paths(
    store: &String,
    store_path: &String,
    plan: &String,
    plan_path: &String,
    jobs: &String,
    jobs_path: &String,
) -> bool
    ensures { result ≡ has_paths (string_bytes store.now) (string_bytes store_path.now) (string_bytes plan.now) (string_bytes plan_path.now) (string_bytes jobs.now) (string_bytes jobs_path.now) }
{
    is_option(store, "--store", store_path)
        && is_option(plan, "--plan", plan_path)
        && is_option(jobs, "--jobs", jobs_path)
}

/// Whether these are the name of a command and the option of the number of lanes.
#[tactic(auto, unfolding(crate::specs::Words::has_front))]
fn has_front(command: &String, name: &str, lanes: &String) -> bool
    ensures { result ≡ has_front name.now (string_bytes command.now) (string_bytes lanes.now) }
{
    is_word(command, name) && is_word(lanes, "--lanes")
}

/// Whether this is the option of that name with a path.
#[tactic(auto, unfolding(crate::specs::Words::is_option))]
fn is_option(option: &String, name: &str, path: &String) -> bool
    ensures { result ≡ is_option (string_bytes option.now) name.now (string_bytes path.now) }
{
    is_word(option, name) && is_path(path)
}

fn is_word(word: &String, text: &str) -> bool
    ensures { result ≡ bytes_eq (string_bytes word.now) text.now }
{
    word.as_str() == text
}

/// Whether the word can be a path: it isn't empty and doesn't begin as an option does.
fn is_path(word: &String) -> bool
    ensures { result ≡ is_path (string_bytes word.now) }
{
    match word.as_bytes() {
        [] => false,
        [first, ..] => *first != b'-',
    }
}
