use crate::application::Tar;
use crate::keysets::KeysetId;
use crate::octet_string::Octets;

/// The number of a job, with that of its campaign.
#[derive(Clone, Copy, Debug, PartialEq, Eq, PartialOrd, Ord)]
pub struct JobId {
    pub campaign: u32,
    pub job: u32,
}

/// A script that is to run once, on one card, under one of its keysets.
#[derive(Debug, Drop)]
pub struct Job {
    pub id: JobId,
    pub keyset: KeysetId,
    /// The application that the script is for.
    pub tar: Tar,
    /// The script's octets.
    pub body: Octets,
}
