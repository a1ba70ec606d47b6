// Where octets are read from.
ghost use Rattle.std.specs.Prelude.{◌≡◌, ◌<◌, ◌≤◌, ◌++◌, [], Bool, List, ℕ, IsTrue, IfOk, OnErr, length, take};
ghost use Rattle.ota_io.specs.Calls.{HasCause};

use crate::Failed;

/// A source of octets.
pub trait Source {
    /// Whether it tells its octets.
    ghost tells: { Self → Bool };

    /// The octets that are left.
    ghost left: { Self → List ℕ };

    /// How often it failed, a number of 64 bits.
    ghost faults: { Self → ℕ };

    /// Reads octets into the front of `into`, and says how many: none into room for some only at the end.
    fn read(&mut self, into: &mut [u8]) -> Result<usize, Failed>
        ensures count { IfOk result (λ count. count ≤ length into.old) }

        // Where it tells.
        ensures octets { IsTrue (tells self.old) → IfOk result (λ count. left self.old ≡ take count into.new ++ left self.new) }
        ensures end { IsTrue (tells self.old) → 0 < length into.old → IfOk result (λ count. count ≡ 0 → left self.old ≡ []) }
        ensures failed { IsTrue (tells self.old) → OnErr result (left self.new ≡ left self.old) }

        ensures tells { tells self.new ≡ tells self.old }
        ensures cause { HasCause (faults self.old) (faults self.new) result };
}
