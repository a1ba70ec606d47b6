ghost use Rattle.std.specs.Prelude.{◌≡◌, IfOk, IfErr};
ghost use Rattle.ota_commands.specs.Inputs.{input_of, IsReadWithin, text_reading, plan_reading, jobs_reading, Says, ReadFaultComes, AreRows};
ghost use Rattle.ota_commands.specs.Fault.{fault_of_plan, fault_of_jobs};

use crate::faults::{Fault, Which};
use ota_core::Job;
use ota_io::{ReadErr, Source, read_all};
use plan_reader::{JobsErr, Plan, PlanErr, read_jobs, read_plan};
use std::alloc::Global;

/// Reads the plan from its source.
pub fn plan_from<S: Source>(alloc: Global, source: &mut S) -> Result<Plan, Fault>
    ensures says { let input = input_of (S.tells source.old) (S.left source.old) (S.faults source.old) (S.faults source.new) in
        IfOk result (Says plan_reading input) }
    ensures fault { let input = input_of (S.tells source.old) (S.left source.old) (S.faults source.old) (S.faults source.new) in
        IfErr result (ReadFaultComes Which.Plan plan_reading input) }
    ensures reads { IsReadWithin S.tells S.left source.old source.new }
{
    let text = text_from(alloc, source, Which::Plan)?;
    match read_plan(alloc, &text) {
        Ok(plan) => Ok(plan),
        Err(error) => Err(plan_fault(error)),
    }
}

/// Reads the jobs on cards of the plan from their source.
pub fn jobs_from<S: Source>(alloc: Global, source: &mut S, plan: &Plan) -> Result<Vec<Job>, Fault>
    ensures says { let input = input_of (S.tells source.old) (S.left source.old) (S.faults source.old) (S.faults source.new) in
        IfOk result (λ jobs. Says (jobs_reading plan.now) input jobs.items) }
    ensures fault { let input = input_of (S.tells source.old) (S.left source.old) (S.faults source.old) (S.faults source.new) in
        IfErr result (ReadFaultComes Which.Jobs (jobs_reading plan.now) input) }
    ensures reads { IsReadWithin S.tells S.left source.old source.new }
    ensures rows { IfOk result (λ jobs. AreRows jobs.items) }
{
    let text = text_from(alloc, source, Which::Jobs)?;
    match read_jobs(alloc, &text, plan) {
        Ok(jobs) => Ok(jobs),
        Err(error) => Err(jobs_fault(error)),
    }
}

/// Reads the text of an input.
fn text_from<S: Source>(alloc: Global, source: &mut S, which: Which) -> Result<Vec<u8>, Fault>
    ensures says { let input = input_of (S.tells source.old) (S.left source.old) (S.faults source.old) (S.faults source.new) in
        IfOk result (λ text. Says (text_reading which) input text.items) }
    ensures fault { let input = input_of (S.tells source.old) (S.left source.old) (S.faults source.old) (S.faults source.new) in
        IfErr result (ReadFaultComes which (text_reading which) input) }
    ensures reads { IsReadWithin S.tells S.left source.old source.new }
{
    match read_all(alloc, source) {
        Ok(text) => Ok(text),
        Err(ReadErr::Fault) => Err(Fault::SourceFault(which)),
        Err(ReadErr::TooLong) => Err(Fault::InputTooLong(which)),
        Err(ReadErr::Memory) => Err(Fault::Memory),
    }
}

fn plan_fault(error: PlanErr) -> Fault
    ensures { result ≡ fault_of_plan error }
{
    match error {
        PlanErr::Refused(table, row, field) => Fault::PlanRefused(table, row, field),
        PlanErr::Memory => Fault::Memory,
    }
}

fn jobs_fault(error: JobsErr) -> Fault
    ensures { result ≡ fault_of_jobs error }
{
    match error {
        JobsErr::Refused(row, column) => Fault::JobsRefused(row, column),
        JobsErr::Memory => Fault::Memory,
    }
}
