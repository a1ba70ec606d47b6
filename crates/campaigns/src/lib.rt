//! What is to be done of a campaign: the work list of its jobs, and the generator of campaigns for drills.
#![tactic(auto)]

mod batches;
mod differences;
mod drill;
mod laws;
mod remaining;
mod work_lists;

pub use differences::{job_difference, keyset_difference};
pub use drill::{drill_jobs, drill_plan};
pub use laws::each_job_stays_live_once;
pub use work_lists::work_list;

#[cfg(test)]
mod difference_tests;
#[cfg(test)]
mod tests;
