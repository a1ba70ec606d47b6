//! What holds of each session.

ghost use Rattle.std.specs.Prelude.{◌≡◌, ◌++◌, ℕ, List, IsTrue, length};
ghost use Rattle.ota_core.specs.History.{EachJobLiveOnce};
ghost use Rattle.ota_core.specs.declared.entries.Entry.{Entry};
ghost use Rattle.ota_core.specs.declared.jobs.Job.{Job};
ghost use Rattle.plan_reader.specs.Jobs.{are_distinct};
ghost use Rattle.plan_reader.specs.declared.plans.Plan.{Plan};
ghost use Rattle.counter_journal.specs.EntryRanges.{IsHistory};
ghost use Rattle.lane_session.specs.Rows.{NoneDiffers};
ghost use Rattle.lane_session.specs.Run.{AreAdded};
ghost use Rattle.lane_session.specs.Live.{IsGrown, AreGrown};

/// A history of a lane that grew by what a session may add is a history of that lane: legal, and of its cards alone.
pub fn grown_histories_are_legal()
    ensures { (plan : Plan) (jobs : List Job) (lane lanes : ℕ) (before added : List Entry) → IsHistory lane lanes before → AreAdded plan jobs lane lanes before added → IsGrown plan jobs lane lanes before (before ++ added) }
{}

/// Each job stays live at most once over all lanes together: where it was so before, no two rows have one job number, and
/// no row differs from what a lane holds.
pub fn each_job_stays_live_once()
    ensures { (plan : Plan) (jobs : List Job) (befores afters : List (List Entry)) → IsTrue (are_distinct jobs) → NoneDiffers jobs befores → AreGrown plan jobs (length befores) 0 befores afters
        → EachJobLiveOnce befores → EachJobLiveOnce afters }
{}
