ghost use Rattle.std.specs.Prelude.{◌≡◌, ◌≤◌, None, Some, IfSome, IfOk, length, map, string_bytes, replicate};
ghost use Rattle.lane_session.specs.Sound.{AreSound, StaySound};
ghost use Rattle.ota_commands.specs.Words.{command_for};
ghost use Rattle.ota_commands.specs.Inputs.{IsReadWithin};
ghost use Rattle.ota_commands.specs.Fault.{status_of_end};
ghost use Rattle.ota_commands.specs.Command.{NoneEnded, IsCourse};
ghost use Rattle.ota_commands.specs.Answers.{seen_of, Comes, IsComplete, AllOpen};
ghost use Rattle.ota_commands.specs.declared.words.Command.TheVariants as commands;

use crate::faults::Fault;
use crate::formatting::format;
use crate::packets::packet;
use crate::reserving::reserve;
use crate::words::{Command, command_for};
use disk_model::DiskCalls;
use ota_core::Memory;
use ota_io::{Sink, Source};
use site_model::Site;
use std::alloc::Global;

/// How a command ended. The sites are those that were handed in, one a lane, in order.
#[derive(Debug, Drop)]
pub struct Ended<T> {
    /// The exit status: 0, or the fault's.
    pub status: u8,
    /// None exactly at status 0.
    pub fault: Option<Fault>,
    /// One place a site: the fault by which that lane stopped once all sites were opened. It is empty where memory was
    /// wanting for it, and then nothing else was done.
    pub ends: Vec<Option<Fault>>,
    pub sites: Vec<T>,
}

/// Carries out a command that sends nothing, on the sites of all lanes in order. Paths in its words are for the program
/// alone.
///
/// `format --lanes N --store PATH` makes the journals where none are made, and writes how many lanes there are. A site that
/// holds something else ends it.
///
/// `reserve --lanes N --store PATH --plan PATH --jobs PATH` reads the plan and the jobs, opens the journals, and ends with
/// nothing written where one is refused, or where they differ from the plan or the jobs. Else it adds an Open for each
/// keyset that a job names and the journals lack, lane by lane; then it reserves a counter for each job that has none, one
/// job after the other, each durably before the next; and writes the report. A lane that fails stops, and the others go on.
///
/// `packet`, with the same options, writes the messages of the jobs that are reserved and not settled, and adds nothing.
///
/// The jobs are read only where the plan was, and the sites are called only where both were. At most 8,388,609 octets of
/// each are read.
#[tactic(auto, using(crate::proofs::Untouched::takes_nothing))]
pub fn plain_command<S: Source, K: Sink, T: Site>(
    alloc: Global,
    words: &[String],
    plan: &mut S,
    jobs: &mut S,
    out: &mut K,
    sites: Vec<T>,
) -> Ended<T>
    ensures status { result.status ≡ status_of_end result.fault }
    ensures course { IsCourse T.told T.counts K.tells K.written K.faults S.tells S.left S.faults (command_for (map string_bytes words.now) (length sites.items))
        sites.items result.sites.items plan.old plan.new jobs.old jobs.new out.old out.new result.fault result.ends.items }
    ensures plan_reads { IsReadWithin S.tells S.left plan.old plan.new }
    ensures jobs_reads { IsReadWithin S.tells S.left jobs.old jobs.new }
    ensures sound { AreSound T.told sites.items → StaySound T.told sites.items result.sites.items }
    ensures formatted { AreSound T.told sites.items → command_for (map string_bytes words.now) (length sites.items) ≡ Some commands.Format → result.fault ≡ None → AllOpen T.told result.sites.items }
    ensures cause { IfSome result.fault (Comes T.told T.counts (seen_of S.tells S.left S.faults K.faults (command_for (map string_bytes words.now) (length sites.items))
        sites.items result.sites.items plan.old plan.new jobs.old jobs.new out.old out.new)) }
    ensures complete { IsComplete T.told T.counts (seen_of S.tells S.left S.faults K.faults (command_for (map string_bytes words.now) (length sites.items))
        sites.items result.sites.items plan.old plan.new jobs.old jobs.new out.old out.new) result.fault }
{
    let mut sites = sites;
    let mut ends = match no_ends(alloc, sites.len()) {
        Ok(ends) => ends,
        Err(_) => return end_with(Some(Fault::Memory), Vec::new(alloc), sites),
    };
    let command = command_for(words, sites.len());
    let fault = carry_out(alloc, command, plan, jobs, out, &mut sites, &mut ends);
    end_with(fault, ends, sites)
}

/// Carries out a command, where there is one.
fn carry_out<S: Source, K: Sink, T: DiskCalls>(
    alloc: Global,
    command: Option<Command>,
    plan: &mut S,
    jobs: &mut S,
    out: &mut K,
    sites: &mut [T],
    ends: &mut [Option<Fault>],
) -> Option<Fault>
    requires some { IfSome command (λ command. 1 ≤ length sites.old) }
    requires few { IfSome command (λ command. length sites.old ≤ 64) }
    requires not_ended { NoneEnded sites.old ends.old }
    ensures course { IsCourse T.told T.counts K.tells K.written K.faults S.tells S.left S.faults command sites.old sites.new plan.old plan.new jobs.old jobs.new out.old out.new result ends.new }
    ensures plan_reads { IsReadWithin S.tells S.left plan.old plan.new }
    ensures jobs_reads { IsReadWithin S.tells S.left jobs.old jobs.new }
    ensures sound { AreSound T.told sites.old → StaySound T.told sites.old sites.new }
    ensures formatted { AreSound T.told sites.old → command ≡ Some commands.Format → result ≡ None → AllOpen T.told sites.new }
    ensures cause { IfSome result (Comes T.told T.counts (seen_of S.tells S.left S.faults K.faults command sites.old sites.new plan.old plan.new jobs.old jobs.new out.old out.new)) }
    ensures complete { IsComplete T.told T.counts (seen_of S.tells S.left S.faults K.faults command sites.old sites.new plan.old plan.new jobs.old jobs.new out.old out.new) result }
{
    run(alloc, command, plan, jobs, out, sites, ends)
}

/// Runs a command, where there is one.
#[tactic(auto, using(crate::proofs::Untouched::takes_nothing))]
fn run<S: Source, K: Sink, T: DiskCalls>(
    alloc: Global,
    command: Option<Command>,
    plan: &mut S,
    jobs: &mut S,
    out: &mut K,
    sites: &mut [T],
    ends: &mut [Option<Fault>],
) -> Option<Fault>
    requires some { IfSome command (λ command. 1 ≤ length sites.old) }
    requires few { IfSome command (λ command. length sites.old ≤ 64) }
    requires not_ended { NoneEnded sites.old ends.old }
    ensures course { IsCourse T.told T.counts K.tells K.written K.faults S.tells S.left S.faults command sites.old sites.new plan.old plan.new jobs.old jobs.new out.old out.new result ends.new }
    ensures plan_reads { IsReadWithin S.tells S.left plan.old plan.new }
    ensures jobs_reads { IsReadWithin S.tells S.left jobs.old jobs.new }
{
    match command {
        None => Some(Fault::Usage),
        Some(Command::Format) => format(alloc, out, sites),
        Some(Command::Reserve) => reserve(alloc, plan, jobs, out, sites, ends),
        Some(Command::Packet) => packet(alloc, plan, jobs, out, sites),
    }
}

/// No end for each of so many sites.
fn no_ends(alloc: Global, sites: usize) -> Result<Vec<Option<Fault>>, Memory>
    ensures { IfOk result (λ ends. ends.items ≡ replicate sites None) }
{
    let mut ends = Vec::with_capacity(alloc, sites)?;
    for _site in 0..sites {
        ends.push(None)?;
    }
    Ok(ends)
}

fn end_with<T>(fault: Option<Fault>, ends: Vec<Option<Fault>>, sites: Vec<T>) -> Ended<T>
    ensures status { result.status ≡ status_of_end fault }
    ensures fault { result.fault ≡ fault }
    ensures ends { result.ends.items ≡ ends.items }
    ensures sites { result.sites.items ≡ sites.items }
{
    Ended {
        status: status_of_end(&fault),
        fault,
        ends,
        sites,
    }
}

pub(crate) fn status_of_end(fault: &Option<Fault>) -> u8
    ensures { result ≡ status_of_end fault.now }
{
    match fault {
        None => 0,
        Some(fault) => fault.status(),
    }
}
