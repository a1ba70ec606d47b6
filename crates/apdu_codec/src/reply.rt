//! What a command is answered.

ghost use Rattle.std.specs.Prelude.{◌≡◌, ◌≤◌, [], length};
ghost use Rattle.apdu_codec.specs.Refusal.{status_word_of};

use crate::refusal::{DONE, Refusal};
use arrayvec::ArrayVec;

/// The answer to a command.
///
/// ETSI TS 102 221, 10.2.
#[derive(Clone, Debug, PartialEq, Eq, Drop)]
pub struct Reply {
    /// The status word.
    pub sw: u16,
    /// The data that the command gives.
    pub out: ArrayVec<u8, 256>,
}

impl Reply {
    /// The answer to a command that was done and gives these octets.
    pub fn done(out: ArrayVec<u8, 256>) -> Reply
        ensures word { result.sw ≡ 0x9000 }
        ensures octets { result.out ≡ out }
        ensures short { length result.out.items ≤ 256 }
    {
        Reply { sw: DONE, out }
    }

    /// The answer to a command that was refused.
    pub fn refused(refusal: Refusal) -> Reply
        ensures word { result.sw ≡ status_word_of refusal }
        ensures nothing { result.out.items ≡ [] }
    {
        Reply {
            sw: refusal.status_word(),
            out: ArrayVec::new(),
        }
    }
}

#[cfg(test)]
mod tests {
    use super::*;

    #[test]
    fn refused_gives_nothing(rt: HostRuntime) {
        let reply = Reply::refused(Refusal::GreatestReached);
        assert_eq!(rt; reply.sw, 0x9850);
        assert!(rt; reply.out.is_empty());
        let mut octets = ArrayVec::new();
        octets.push(7);
        let reply = Reply::done(octets);
        assert_eq!(rt; reply.sw, 0x9000);
        assert_eq!(rt; reply.out.as_slice(), [7].as_slice());
    }
}
