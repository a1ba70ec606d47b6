//! One command of a script.

use apdu_codec::Reply;

/// What one command of a script was answered.
#[derive(Drop)]
pub struct Step {
    /// The answer.
    pub reply: Reply,
    /// The place in the script, from 0, where the next command begins; none, where the script has ended.
    pub next: Option<u32>,
}
