//! How the keysets that rows name are opened.

ghost use Rattle.std.specs.Prelude.{◌≡◌, ◌⊎◌, ◌%◌, ◌<◌, [], None, option_map, reverse, length};
ghost use Rattle.std.specs.Option.{option_copied};
ghost use Rattle.disk_model.specs.Disk.{Tells};
ghost use Rattle.counter_journal.specs.JournalReading.{IsReady};
ghost use Rattle.ota_core.specs.Entry.{is_open_of};
ghost use Rattle.lane_session.specs.Rows.{card_of, facts_in, facts_of};
ghost use Rattle.lane_session.specs.Run.{UnlessFailed, IsLaneReady, IsPassed};
ghost use Rattle.lane_session.specs.Opens.{has_open, is_opened, AreWaiting, IsOpenStep, AreOpened, AreAllAdded};
ghost use Rattle.lane_session.specs.Lanes.{AreReady, ArePassed, AllOpened};
ghost use Rattle.lane_session.specs.Order.{IsOpenedInOrder, AllOpenedInOrder};

use crate::due::{is_unopened, open_for};
use crate::lanes::Lane;
use crate::rows::lane_of;
use disk_model::DiskCalls;
use gate_log::LogErr;
use ota_core::questions::is_same_keyset;
use ota_core::{CardFacts, CardId, Entry, History, Job, KeysetFacts, KeysetId};
use plan_reader::Plan;
use std::alloc::Global;

/// The most entries of a batch.
const MOST_OPENS: usize = 16;

impl Lane {
    /// Lets the Open of a keyset of this lane wait with those that are to be added, where one is due, and adds them where
    /// they are a whole batch. Gives those that wait then.
    pub(crate) fn open_keyset<T: DiskCalls>(
        &mut self,
        alloc: Global,
        site: &mut T,
        plan: &Plan,
        keyset: KeysetId,
        waiting: Vec<Entry>,
    ) -> Vec<Entry>
        requires waiting { self.old.end ≡ None → AreWaiting waiting.items self.old }
        requires of_lane { keyset.card.0 % self.old.journal.lanes ≡ self.old.journal.lane }
        requires ready { Tells T.told site.old → UnlessFailed self.old.end (IsReady T.told site.old self.old.journal) }
        ensures { IsOpenStep T.told T.counts plan.now site.old site.new self.old self.new waiting.items result.items keyset }
    {
        if self.end.is_some() {
            return waiting;
        }
        self.open_due(alloc, site, plan, keyset, waiting)
    }

    /// The same on a lane that goes on.
    fn open_due<T: DiskCalls>(
        &mut self,
        alloc: Global,
        site: &mut T,
        plan: &Plan,
        keyset: KeysetId,
        waiting: Vec<Entry>,
    ) -> Vec<Entry>
        requires goes_on { self.old.end ≡ None }
        requires waiting { AreWaiting waiting.items self.old }
        requires of_lane { keyset.card.0 % self.old.journal.lanes ≡ self.old.journal.lane }
        requires ready { Tells T.told site.old → IsReady T.told site.old self.old.journal }
        ensures { IsOpenStep T.told T.counts plan.now site.old site.new self.old self.new waiting.items result.items keyset }
    {
        let mut waiting = waiting;
        let facts = match facts_of(plan, keyset) {
            Some(facts) => facts,
            None => return waiting,
        };
        if is_opened(self.journal.history(), &waiting, keyset) {
            return waiting;
        }
        let entry = open_for(self.journal.history(), &waiting, keyset, facts);
        if waiting.push(entry).is_err() {
            self.end = Some(LogErr::Memory);
            return waiting;
        }
        if waiting.len() < MOST_OPENS {
            return waiting;
        }
        self.add(site, waiting);
        Vec::new(alloc)
    }
}

impl Lane {
    /// Opens the keysets that rows of this lane name and that its history lacks, in order of the first rows that name
    /// them, in batches of at most 16.
    pub(crate) fn open_keysets<T: DiskCalls>(
        &mut self,
        alloc: Global,
        site: &mut T,
        plan: &Plan,
        jobs: &[Job],
        number: usize,
        lanes: usize,
    )
        requires some { 0 < lanes }
        requires ready { IsLaneReady T.told T.counts number lanes site.old self.old }
        ensures passed { IsPassed T.told T.counts plan.now jobs.now number lanes site.old self.old site.new self.new }
        ensures opened { AreOpened plan.now jobs.now number lanes (length jobs.now) self.new [] }
        ensures order { IsOpenedInOrder plan.now number lanes jobs.now [] self.old self.new [] }
    {
        let mut waiting = Vec::new(alloc);
        for job in jobs {
            if lane_of(job, lanes) == number {
                waiting = self.open_keyset(alloc, site, plan, job.keyset, waiting);
            }
        }
        self.add_waiting(site, waiting);
    }

    /// Adds the Opens that wait.
    fn add_waiting<T: DiskCalls>(&mut self, site: &mut T, waiting: Vec<Entry>)
        requires waiting { self.old.end ≡ None → AreWaiting waiting.items self.old }
        requires ready { Tells T.told site.old → UnlessFailed self.old.end (IsReady T.told site.old self.old.journal) }
        ensures { AreAllAdded T.told T.counts site.old site.new self.old self.new waiting.items }
    {
        if self.end.is_some() || waiting.is_empty() {
            return;
        }
        self.add(site, waiting);
    }
}

/// Opens the keysets that rows name, lane by lane.
pub(crate) fn open_rows<T: DiskCalls>(
    alloc: Global,
    lanes: &mut [Lane],
    sites: &mut [T],
    plan: &Plan,
    jobs: &[Job],
)
    requires ready { AreReady T.told T.counts sites.old lanes.old }
    ensures passed { ArePassed T.told T.counts plan.now jobs.now sites.old lanes.old sites.new lanes.new }
    ensures opened { AllOpened plan.now jobs.now lanes.new }
    ensures order { AllOpenedInOrder plan.now jobs.now lanes.old lanes.new }
{
    let count = lanes.len();
    for number in 0..count {
        lanes[number].open_keysets(alloc, &mut sites[number], plan, jobs, number, count);
    }
}

/// Whether the keyset is opened by the history or by what waits to be added.
fn is_opened(history: &History, waiting: &[Entry], keyset: KeysetId) -> bool
    ensures { result ≡ is_opened (reverse history.now.entries) waiting.now keyset }
{
    !is_unopened(history, keyset) || has_open(waiting, keyset)
}

fn has_open(entries: &[Entry], keyset: KeysetId) -> bool
    ensures { result ≡ has_open keyset entries.now }
{
    entries.iter().any(|entry| is_open_of(entry, keyset))
}

fn is_open_of(entry: &Entry, keyset: KeysetId) -> bool
    ensures { result ≡ is_open_of keyset entry.now }
{
    match entry {
        Entry::Open { keyset: opened, .. } => is_same_keyset(*opened, keyset),
        _ => false,
    }
}

/// The facts that a plan has of a keyset.
pub fn facts_of(plan: &Plan, keyset: KeysetId) -> Option<&KeysetFacts>
    ensures { option_copied result ≡ facts_of plan.now keyset }
{
    match card_of(plan.cards.as_slice(), keyset.card) {
        None => None,
        Some(card) => facts_in(card.keysets.as_slice(), keyset.kvn),
    }
}

fn card_of(cards: &[CardFacts], number: CardId) -> Option<&CardFacts>
    ensures { option_copied result ≡ card_of number.0 cards.now }
{
    cards.iter().find(|card| card.card.0 == number.0)
}

fn facts_in(keysets: &[(u8, KeysetFacts)], kvn: u8) -> Option<&KeysetFacts>
    ensures { option_copied result ≡ facts_in kvn keysets.now }
{
    match keysets.iter().find(|keyset| keyset.0 == kvn) {
        None => None,
        Some(keyset) => Some(&keyset.1),
    }
}
