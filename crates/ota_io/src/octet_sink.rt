// Where octets are written to.
ghost use Rattle.std.specs.Prelude.{◌≡◌, ◌<◌, ◌≤◌, ◌++◌, Bool, List, ℕ, IsTrue, IfOk, OnErr, length, take};
ghost use Rattle.ota_io.specs.Calls.{HasCause};

use crate::Failed;

/// A sink of octets.
pub trait Sink {
    /// Whether it tells its octets.
    ghost tells: { Self → Bool };

    /// The octets written.
    ghost written: { Self → List ℕ };

    /// How often it failed, a number of 64 bits.
    ghost faults: { Self → ℕ };

    /// Writes octets of the front of `from`, and says how many: at least one, unless `from` is empty.
    fn write(&mut self, from: &[u8]) -> Result<usize, Failed>
        ensures count { IfOk result (λ count. count ≤ length from.now) }
        ensures progress { 0 < length from.now → IfOk result (λ count. 0 < count) }

        // Where it tells.
        ensures octets { IsTrue (tells self.old) → IfOk result (λ count. written self.new ≡ written self.old ++ take count from.now) }
        ensures failed { IsTrue (tells self.old) → OnErr result (written self.new ≡ written self.old) }

        ensures tells { tells self.new ≡ tells self.old }
        ensures cause { HasCause (faults self.old) (faults self.new) result };
}
