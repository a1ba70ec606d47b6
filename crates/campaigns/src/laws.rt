//! What holds where reservations for rows are added to the lanes.

ghost use Rattle.std.specs.Prelude.{List, IsTrue, length};
ghost use Rattle.ota_core.specs.History.{EachJobLiveOnce};
ghost use Rattle.ota_core.specs.declared.entries.Entry.{Entry};
ghost use Rattle.ota_core.specs.declared.jobs.Job.{Job};
ghost use Rattle.plan_reader.specs.Jobs.{are_distinct};
ghost use Rattle.campaigns.specs.Rows.{NoneDiffers};
ghost use Rattle.campaigns.specs.Growing.{AreGrown};

/// Each job stays live at most once over all lanes together, also where reservations for rows are added, refused jobs again
/// among them: where it was so before, no two rows have one job number, and no row differs from what a lane holds.
pub fn each_job_stays_live_once()
    ensures { (jobs : List Job) (befores afters : List (List Entry)) → IsTrue (are_distinct jobs) → NoneDiffers jobs befores → AreGrown jobs (length befores) 0 befores afters
        → EachJobLiveOnce befores → EachJobLiveOnce afters }
{}
