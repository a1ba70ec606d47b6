//! Where a command finds its files.

ghost use Rattle.std.specs.Prelude.{◌≡◌, IfOk, option_map, string_bytes};
ghost use Rattle.command_words.specs.Options.{rows_in, path_in};
ghost use Rattle.command_words.specs.Words.{found_places, places_of, places_in, has_plan, has_jobs, path_if};

use crate::kinds::Kind;
use crate::options::path_in;
use clap::ArgMatches;
use ota_core::Memory;
use std::alloc::Global;

/// Where a command finds its files. A path that it has no option for is empty.
#[derive(Debug, Drop)]
pub struct Paths {
    pub store: String,
    pub plan: String,
    pub jobs: String,
}

/// The paths that the words of a command name.
pub(crate) fn paths_in(
    alloc: Global,
    kind: Kind,
    matches: &ArgMatches,
) -> Result<Option<Paths>, Memory>
    ensures { IfOk result (λ paths. option_map places_of paths ≡ places_in kind (rows_in matches.now)) }
{
    match found_in(kind, matches) {
        None => Ok(None),
        Some(found) => Ok(Some(kept(alloc, found)?)),
    }
}

/// The paths as texts among the words.
#[derive(Clone, Copy, Debug)]
struct Found<'a> {
    store: &'a str,
    plan: &'a str,
    jobs: &'a str,
}

fn found_in<'a>(kind: Kind, matches: &ArgMatches<'a>) -> Option<Found<'a>>
    ensures { option_map found_places result ≡ places_in kind (rows_in matches.now) }
{
    let store = path_in(matches, "store")?;
    let plan = path_if(has_plan(kind), matches, "plan")?;
    let jobs = path_if(has_jobs(kind), matches, "jobs")?;
    Some(Found { store, plan, jobs })
}

fn kept(alloc: Global, found: Found) -> Result<Paths, Memory>
    ensures { IfOk result (λ paths. places_of paths ≡ found_places found.entry) }
{
    let store = String::from_str(alloc, found.store)?;
    let plan = String::from_str(alloc, found.plan)?;
    let jobs = String::from_str(alloc, found.jobs)?;
    Ok(Paths { store, plan, jobs })
}

/// The path that an option names, or none for a command that has no such option.
fn path_if<'a>(there: bool, matches: &ArgMatches<'a>, name: &str) -> Option<&'a str>
    ensures { option_map (λ path. path.now) result ≡ path_if there name.now (rows_in matches.now) }
{
    if there {
        path_in(matches, name)
    } else {
        Some("")
    }
}

fn has_plan(kind: Kind) -> bool
    ensures { result ≡ has_plan kind }
{
    match kind {
        Kind::Format | Kind::Close => false,
        _ => true,
    }
}

fn has_jobs(kind: Kind) -> bool
    ensures { result ≡ has_jobs kind }
{
    match kind {
        Kind::Format | Kind::Close | Kind::Cards => false,
        _ => true,
    }
}
