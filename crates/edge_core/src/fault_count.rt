// A count of faults.
ghost use Rattle.std.specs.Prelude.{◌≡◌};
ghost use Rattle.edge_core.specs.Faults.{Cause, counted};
ghost use Rattle.edge_core.specs.Handles.{fault_count};

/// How often an object has failed: a count that never falls, and stands still at 2^64 - 1.
#[derive(Clone, Copy, Debug, PartialEq, Eq)]
pub struct FaultCount {
    count: u64,
}

impl FaultCount {
    /// A count of 0.
    pub fn new() -> FaultCount
        ensures { fault_count result ≡ 0 }
    {
        FaultCount { count: 0 }
    }

    /// Counts a call, where it failed.
    pub fn note(&mut self, failed: bool)
        ensures count { fault_count self.new ≡ counted (fault_count self.old) failed }
        ensures cause { Cause (fault_count self.old) (fault_count self.new) failed }
    {
        if failed {
            self.count = self.count.saturating_add(1);
        }
    }

    /// How many faults were counted.
    pub fn count(&self) -> u64
        ensures { result ≡ fault_count self.now }
    {
        self.count
    }
}
