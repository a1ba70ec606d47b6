ghost use Rattle.std.specs.Prelude.{◌≡◌, [], ◌∷◌, ◌++◌, OnOk, OnErr};

use ota_core::{Job, Memory};
use std::alloc::Global;
use std::marker::Model;

/// Jobs in order. Contracts see the list of them.
#[derive(Debug, Drop)]
pub struct JobList {
    jobs: Vec<Job>,
}

impl Model for JobList {
    ghost use Rattle.std.specs.Prelude.{List};
    ghost use Rattle.ota_core.specs.declared.jobs.Job.{Job};

    ghost Value = { List Job };

    ghost view = { λ l. l.jobs.items };
}

impl JobList {
    /// The empty list.
    pub fn new(alloc: Global) -> JobList
        ensures { result ≡ [] }
    {
        JobList {
            jobs: Vec::new(alloc),
        }
    }

    /// Adds a job at the end.
    pub fn push(&mut self, job: Job) -> Result<(), Memory>
        ensures ok { OnOk result (self.new ≡ self.old ++ job ∷ []) }
        ensures err { OnErr result (self.new ≡ self.old) }
    {
        self.jobs.push(job)?;
        Ok(())
    }

    /// The jobs in order.
    pub fn as_slice(&self) -> &[Job]
        ensures { result.now ≡ self.now }
    {
        self.jobs.as_slice()
    }

    /// The jobs in order, taken out.
    pub fn into_vec(self) -> Vec<Job>
        ensures { result.items ≡ self }
    {
        self.jobs
    }
}
