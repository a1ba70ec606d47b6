//! The jobs of a book.

ghost use Rattle.std.specs.Prelude.{◌≡◌, true, None, is_ok, OnOk};
ghost use Rattle.ota_core.specs.declared.jobs.JobId.{JobId};
ghost use Rattle.keyset_book.specs.Tables.{reserved_in, has_job_place, FillsJob};

use ota_core::{JobId, Memory, Reservation};
use std::alloc::Global;
use std::collections::BTreeMap;

/// Each job of a history, with its last reservation. A place may be made before it is filled.
#[derive(Drop)]
pub(crate) struct JobTable {
    places: BTreeMap<JobId, Option<Reservation>>,
}

impl JobTable {
    /// The empty table.
    pub(crate) fn new(alloc: Global) -> JobTable
        ensures { (job : JobId) → reserved_in result job ≡ None }
    {
        JobTable {
            places: BTreeMap::new(alloc),
        }
    }

    /// The job's last reservation.
    pub(crate) fn look(&self, job: JobId) -> Option<Reservation>
        ensures { result ≡ reserved_in self.now job }
    {
        match self.places.get(&job) {
            Some(reservation) => *reservation,
            None => None,
        }
    }

    /// Makes a place for the job, if there is none.
    pub(crate) fn make_place(&mut self, job: JobId) -> Result<(), Memory>
        ensures same { (other : JobId) → reserved_in self.new other ≡ reserved_in self.old other }
        ensures kept { (other : JobId) → has_job_place self.old other ≡ true → has_job_place self.new other ≡ true }
        ensures made { OnOk result (has_job_place self.new job ≡ true) }
        ensures there { has_job_place self.old job ≡ true → is_ok result ≡ true }
    {
        if self.places.contains_key(&job) {
            return Ok(());
        }
        self.places.insert(job, None)?;
        Ok(())
    }

    /// Fills the job's place. Where there is none, nothing is done.
    pub(crate) fn fill(&mut self, job: JobId, reservation: Reservation)
        ensures filled { has_job_place self.old job ≡ true → FillsJob self.old job reservation self.new }
        ensures kept { (other : JobId) → has_job_place self.old other ≡ true → has_job_place self.new other ≡ true }
    {
        if let Some(place) = self.places.get_mut(&job) {
            *place = Some(reservation);
        }
    }
}
