// Moments: what a clock gives.
ghost use Rattle.std.specs.Prelude.{◌≡◌};

use std::rt;

/// A clock. A moment is the number that the clock gave; nothing is claimed of it.
pub trait Clock: Sync {
    /// The moment now.
    fn now(&self) -> u64;
}

/// A clock that stands still: it always gives 0.
#[derive(Clone, Copy, Debug)]
pub struct StillClock;

impl Clock for StillClock {
    fn now(&self) -> u64
        ensures { result ≡ 0 }
    {
        0
    }
}

/// The machine's clock: whole seconds since the beginning of 1970 (UTC), or 0 where the machine tells none.
#[derive(Drop)]
pub struct SystemClock<R> {
    rt: R,
}

impl<R> SystemClock<R> {
    /// The clock of this runtime.
    pub fn new(rt: R) -> SystemClock<R> {
        SystemClock { rt }
    }
}

impl<R: rt::Clock + Sync> Clock for SystemClock<R> {
    fn now(&self) -> u64 {
        match self.rt.since_1970() {
            Ok(passed) => passed.as_secs(),
            Err(_) => 0,
        }
    }
}
