//! Reservations.

ghost use Rattle.std.specs.Prelude.{◌≡◌, ◌≤◌, ◌<◌, ◌+◌, ◌^◌, ℕ, List, Some, None, Err, false, All, length, reverse, IfOk, IfErr};
ghost use Rattle.std.specs.List.{count_by, list_any};
ghost use Rattle.std.specs.Result.{result_err};
ghost use Rattle.disk_model.specs.Disk.{Tells};
ghost use Rattle.ota_core.specs.Keyset.{is_same_keyset};
ghost use Rattle.ota_core.specs.Entry.{is_refusal_of};
ghost use Rattle.ota_core.specs.History.{last_reservation, next_counter};
ghost use Rattle.ota_core.specs.Questions.{state_of};
ghost use Rattle.ota_core.specs.declared.entries.Entry.{Entry};
ghost use Rattle.ota_core.specs.declared.entries.Entry.TheVariants.{Reserve};
ghost use Rattle.keyset_book.specs.Book.{StandsFor};
ghost use Rattle.lane_engine.specs.Adding.{moment_for, AddingAnswer, IsAddition, IsAddingRun, IsNoFault, LaneCause};
ghost use Rattle.lane_engine.specs.Course.{AddingCourse};
ghost use Rattle.lane_engine.specs.Kept.{KeptSince, IsLater};
ghost use Rattle.lane_engine.specs.Opening.{Opening};
ghost use Rattle.lane_engine.specs.Reserving.{IsJobOf, JobsDiffer, is_refusal, jobs_refusal, next_behind, refusal_behind, reserves_of, state_refusal, taken_refusal};

use crate::answers::LaneErr;
use crate::lanes::Lane;
use keyset_book::{Book, Settled};
use ota_core::questions::is_same_keyset;
use ota_core::{Counter, Entry, Job, JobId, KeysetId, KeysetState, Memory, Octets, Reservation};
use site_model::SiteCalls;

/// The last counter that may be reserved.
const LAST_COUNTER: u64 = 0xFF_FFFF_FFFE;

impl<T: SiteCalls> Lane<T> {
    /// Reserves a counter for each job durably, in one batch, all or none.
    ///
    /// There are 1 to 16 jobs with different numbers, on cards of this lane, with scripts of 1 to 4,096 octets. A job is
    /// reserved again only where its last reservation is refused.
    pub fn reserve(&mut self, by: u32, jobs: &[Job]) -> Result<(), LaneErr>
        requires some { 1 ≤ length jobs.now }
        requires few { length jobs.now ≤ 16 }
        requires differ { JobsDiffer jobs.now }
        requires of_lane { All (IsJobOf self.old.journal.lane self.old.journal.lanes) jobs.now }
        ensures answer { AddingAnswer self.old (jobs_refusal by (moment_for self.old) self.old.name (reverse self.old.journal.entries) jobs.now) (reserves_of by (moment_for self.old) self.old.name (reverse self.old.journal.entries) jobs.now) result }
        ensures added { IsAddition self.old self.new (reserves_of by (moment_for self.old) self.old.name (reverse self.old.journal.entries) jobs.now) result }
        ensures run { Tells T.told self.old.site → IsAddingRun T.told T.port T.lines self.old self.new (reserves_of by (moment_for self.old) self.old.name (reverse self.old.journal.entries) jobs.now) result }
        ensures course { Tells T.told self.old.site → AddingCourse T.told T.port T.lines self.old self.new (reserves_of by (moment_for self.old) self.old.name (reverse self.old.journal.entries) jobs.now) result }
        ensures cause { LaneCause (T.counts self.old.site) (T.counts self.new.site) result }
        ensures later { IsLater T.told T.counts T.port T.lines self.old self.new }
        ensures kept { (opening : Opening) → KeptSince T.told T.counts T.port T.lines opening self.old → KeptSince T.told T.counts T.port T.lines opening self.new }
    {
        if self.is_stale {
            return Err(LaneErr::Stale);
        }
        let batch = self.batch_for(by, jobs)?;
        self.append(batch)
    }

    /// The reservations of the jobs, where the history refuses none of them.
    pub(crate) fn batch_for(&self, by: u32, jobs: &[Job]) -> Result<Vec<Entry>, LaneErr>
        requires live { self.now.is_stale ≡ false }
        requires few { length jobs.now ≤ 16 }
        requires differ { JobsDiffer jobs.now }
        ensures batch { IfOk result (λ batch. batch.items ≡ reserves_of by (moment_for self.now) self.now.name (reverse self.now.journal.entries) jobs.now) }
        ensures free { IfOk result (λ batch. jobs_refusal by (moment_for self.now) self.now.name (reverse self.now.journal.entries) jobs.now ≡ None) }
        ensures refused { IfErr result (λ error. IsNoFault error × AddingAnswer self.now (jobs_refusal by (moment_for self.now) self.now.name (reverse self.now.journal.entries) jobs.now) (reserves_of by (moment_for self.now) self.now.name (reverse self.now.journal.entries) jobs.now) (Err error)) }
    {
        may_reserve_all(self.journal.book(), jobs)?;
        Ok(self.reserves(by, jobs)?)
    }

    /// The reservations of the jobs, each under the counter that comes next behind those before it.
    fn reserves(&self, by: u32, jobs: &[Job]) -> Result<Vec<Entry>, Memory>
        requires free { jobs_refusal by (moment_for self.now) self.now.name (reverse self.now.journal.entries) jobs.now ≡ None }
        requires few { length jobs.now ≤ 16 }
        ensures { IfOk result (λ batch. batch.items ≡ reserves_of by (moment_for self.now) self.now.name (reverse self.now.journal.entries) jobs.now) }
    {
        let mut batch = Vec::with_capacity(self.alloc, jobs.len())?;
        for (count, job) in jobs.iter().enumerate() {
            batch.push(self.reserve_of(by, &jobs[..count], job)?)?;
        }
        Ok(batch)
    }

    /// The reservation of a job behind those of the jobs before it.
    fn reserve_of(&self, by: u32, before: &[Job], job: &Job) -> Result<Entry, Memory>
        requires few { length before.now ≤ 16 }
        requires last { next_behind (reverse self.now.journal.entries) before.now job.now.keyset ≤ LAST_COUNTER }
        ensures { IfOk result (λ entry. entry ≡ Reserve by (moment_for self.now) job.now.keyset (next_behind (reverse self.now.journal.entries) before.now job.now.keyset) job.now.id job.now.tar self.now.name job.now.body) }
    {
        let name = Octets::from_slice(self.alloc, self.name.as_slice())?;
        let body = job.body.copy()?;
        Ok(Entry::Reserve {
            by,
            moment: self.moment_for(),
            keyset: job.keyset,
            counter: Counter(next_behind(self.journal.book(), before, job.keyset)),
            job: job.id,
            tar: job.tar,
            name,
            body,
        })
    }
}

/// Whether each job may be reserved, each behind those before it, or the first refusal. It wants no memory.
fn may_reserve_all(book: &Book, jobs: &[Job]) -> Result<(), LaneErr>
    requires few { length jobs.now ≤ 16 }
    requires differ { JobsDiffer jobs.now }
    ensures { (history : List Entry) → StandsFor book.now history → (by moment : ℕ) (name : List ℕ) → result_err result ≡ jobs_refusal by moment name (reverse history) jobs.now }
{
    for (count, job) in jobs.iter().enumerate() {
        may_reserve(book, &jobs[..count], job)?;
    }
    Ok(())
}

/// Whether a job may be reserved behind others, or the first refusal.
fn may_reserve(book: &Book, before: &[Job], job: &Job) -> Result<(), LaneErr>
    requires few { length before.now ≤ 16 }
    ensures { (history : List Entry) → StandsFor book.now history → result_err result ≡ refusal_behind (reverse history) before.now job.now }
{
    in_use(book, job.keyset)?;
    is_free(book, job.id)?;
    if next_behind(book, before, job.keyset) > LAST_COUNTER {
        return Err(LaneErr::Exhausted);
    }
    Ok(())
}

/// Whether the keyset is opened and not closed.
pub(crate) fn in_use(book: &Book, keyset: KeysetId) -> Result<(), LaneErr>
    ensures { (history : List Entry) → StandsFor book.now history → result_err result ≡ state_refusal (state_of keyset (reverse history)) }
{
    match book.keyset_state(keyset) {
        KeysetState::New => Err(LaneErr::UnknownKeyset),
        KeysetState::Closed => Err(LaneErr::Closed),
        KeysetState::Open => Ok(()),
    }
}

/// Whether the job has no reservation, or its last one is refused.
fn is_free(book: &Book, job: JobId) -> Result<(), LaneErr>
    ensures { (history : List Entry) → StandsFor book.now history → result_err result ≡ taken_refusal (reverse history) (last_reservation job (reverse history)) }
{
    match book.last_reservation(job) {
        None => Ok(()),
        Some(last) => is_refused(book, last),
    }
}

/// Whether the reserved counter is settled as refused, so that its job is free again.
fn is_refused(book: &Book, last: Reservation) -> Result<(), LaneErr>
    ensures { (history : List Entry) → StandsFor book.now history → result_err result ≡ taken_refusal (reverse history) (Some last) }
{
    if has_refusal(book, last) {
        return Ok(());
    }
    Err(LaneErr::AlreadyReserved(last.counter))
}

fn has_refusal(book: &Book, last: Reservation) -> bool
    ensures { (history : List Entry) → StandsFor book.now history → result ≡ list_any (is_refusal_of last) (reverse history) }
{
    is_refusal(book.settlement(last))
}

fn is_refusal(settled: Option<Settled>) -> bool
    ensures { result ≡ is_refusal settled }
{
    match settled {
        Some(Settled::Refused(_)) => true,
        _ => false,
    }
}

/// The counter of the keyset that comes next behind the reservations of these jobs.
fn next_behind(book: &Book, before: &[Job], keyset: KeysetId) -> u64
    requires few { length before.now ≤ 16 }
    ensures next { (history : List Entry) → StandsFor book.now history → result ≡ next_behind (reverse history) before.now keyset }
{
    last_counter(book, keyset) + 1 + of_keyset(before, keyset)
}

/// The last counter of the keyset that is used up, or 0.
fn last_counter(book: &Book, keyset: KeysetId) -> u64
    ensures last { (history : List Entry) → StandsFor book.now history → result + 1 ≡ next_counter keyset (reverse history) }
    ensures below { result < 2 ^ 40 }
{
    match book.last_counter(keyset) {
        Some(last) => last.0,
        None => 0,
    }
}

/// How many of the jobs are under the keyset.
fn of_keyset(jobs: &[Job], keyset: KeysetId) -> u64
    ensures count { result ≡ count_by (λ job. is_same_keyset job.keyset keyset) jobs.now }
    ensures few { result ≤ length jobs.now }
{
    jobs.iter()
        .filter(|job| is_same_keyset(job.keyset, keyset))
        .count() as u64
}
