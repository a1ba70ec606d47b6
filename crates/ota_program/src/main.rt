//! The command `ota`: files, standard output, standard error and the exit status round the commands.
#![tactic(auto)]

mod input_file;
mod lane_file;

use disk_model::FileDisk;
use input_file::InputFile;
use lane_file::lane_file;
use ota_commands::{Fault, dry_run, plain_command, read_words};
use ota_io::{StdSink, StdSource};
use site_model::BareSite;
use std::alloc::AllocError;
use std::process::ExitCode;
use std::{env, io};

fn main(rt: HostRuntime) -> ExitCode {
    match run(&rt) {
        Ok(None) => ExitCode::from(0),
        Ok(Some(fault)) => end_with(&rt, fault),
        Err(_) => end_with(&rt, Fault::Memory),
    }
}

/// Prints the fault and gives its status.
fn end_with(rt: &impl Eprint, fault: Fault) -> ExitCode {
    let _ = eprintln!(rt; "ota: {fault}");
    ExitCode::from(fault.status())
}

/// Carries out the command that the arguments name. Arguments that aren't text are no words.
fn run(rt: &HostRuntime) -> Result<Option<Fault>, AllocError> {
    let alloc = rt.alloc();
    let words = words(rt)?;
    if word(&words, 0) == "try" {
        let mut out = StdSink::new(io::writer(rt));
        return Ok(dry_run(alloc, &words, &mut out).fault);
    }
    let mut plan = StdSource::new(InputFile::open(rt, word(&words, 6)));
    let mut jobs = StdSource::new(InputFile::open(rt, word(&words, 8)));
    let mut out = StdSink::new(io::writer(rt));
    let sites = sites(rt, &words)?;
    let ended = plain_command(alloc, &words, &mut plan, &mut jobs, &mut out, sites);
    Ok(ended.fault)
}

/// The sites of the lanes in a store, or none where the words aren't those of a command.
fn sites(
    rt: &HostRuntime,
    words: &[String],
) -> Result<Vec<BareSite<FileDisk<HostRuntime>>>, AllocError> {
    let alloc = rt.alloc();
    let mut sites = Vec::new(alloc);
    let Some(said) = read_words(words) else {
        return Ok(sites);
    };
    for lane in 0..said.lanes {
        let path = lane_file(rt, word(words, 4), lane)?;
        let disk = FileDisk::new(rt.clone()?, path).keeping_open();
        sites.push(BareSite::new(alloc, disk))?;
    }
    Ok(sites)
}

fn words(rt: &HostRuntime) -> Result<Vec<String>, AllocError> {
    let mut words = Vec::new(rt.alloc());
    let Ok(arguments) = env::args(rt) else {
        return Ok(words);
    };
    for argument in arguments.skip(1) {
        words.push(argument)?;
    }
    Ok(words)
}

/// The word at that place from 0, or none where there are fewer.
fn word(words: &[String], at: usize) -> &str {
    match words.get(at) {
        Some(word) => word.as_str(),
        None => "",
    }
}
