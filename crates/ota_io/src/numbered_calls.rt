// The calls of a source or a sink in memory, numbered from 1.
ghost use Rattle.std.specs.Prelude.{◌≡◌, ◌↔◌, IsTrue, Contains};
ghost use Rattle.ota_io.specs.Calls.{next};

#[derive(Drop)]
pub(crate) struct NumberedCalls {
    pub made: u64,
    pub failing: Vec<u64>,
    pub faults: u64,
}

impl NumberedCalls {
    pub fn new(failing: Vec<u64>) -> Self
        ensures made { result.made ≡ 0 }
        ensures failing { result.failing.items ≡ failing.items }
        ensures faults { result.faults ≡ 0 }
    {
        NumberedCalls {
            made: 0,
            failing,
            faults: 0,
        }
    }

    /// Counts a call, and says whether it is one of those that fail.
    pub fn is_next_listed(&mut self) -> bool
        ensures listed { IsTrue result ↔ Contains self.old.failing.items (next self.old.made) }
        ensures after { self.new ≡ record self.old { made = next self.old.made } }
    {
        self.made = self.made.saturating_add(1);
        self.failing.contains(&self.made)
    }

    pub fn count_fault(&mut self)
        ensures { self.new ≡ record self.old { faults = next self.old.faults } }
    {
        self.faults = self.faults.saturating_add(1);
    }
}
