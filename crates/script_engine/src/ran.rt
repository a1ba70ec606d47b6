//! A whole script.

use apdu_codec::Reply;

/// What a script was answered.
#[derive(Drop)]
pub struct Ran {
    /// How many commands were executed.
    pub count: u32,
    /// The answer to the last one; 9000 with no data, where there was none.
    pub reply: Reply,
}
