use crate::job_lists::JobList;

/// A piece of work: jobs of one lane, in order, which are reserved together.
#[derive(Debug, Drop)]
pub struct Work {
    /// The lane, from 0.
    pub lane: u32,
    pub jobs: JobList,
}
