// The calls of an object in memory.
ghost use Rattle.std.specs.Prelude.{◌≡◌, ◌≤◌, ◌<◌};
ghost use Rattle.edge_core.specs.Faults.{Cause};

use std::alloc::Global;

// How many calls were made, how many of them failed, and the numbers of those that are to fail, counted from 0.
// No more calls failed than were made, so the count of faults stands at its end only after 2^64 - 1 calls.
#[derive(Drop)]
pub(crate) struct Calls {
    fails: Vec<u64>,
    made: u64,
    faults: u64,
    ghost within: { faults ≤ made },
}

impl Calls {
    ghost use Rattle.edge_core.specs.Calls.{due, calls_made, calls_failed, IsFresh, Plans, Counts};

    pub(crate) fn new(alloc: Global) -> Calls
        ensures { IsFresh result }
    {
        Calls {
            fails: Vec::new(alloc),
            made: 0,
            faults: 0,
        }
    }

    pub(crate) fn set_fails(&mut self, fails: Vec<u64>)
        ensures { Plans self.old self.new fails.items }
    {
        self.fails = fails;
    }

    // The number of the next call.
    pub(crate) fn number(&self) -> u64
        ensures { result ≡ calls_made self.now }
    {
        self.made
    }

    // How many calls failed.
    pub(crate) fn faults(&self) -> u64
        ensures { result ≡ calls_failed self.now }
    {
        self.faults
    }

    // Whether the next call is to fail.
    pub(crate) fn is_due(&self) -> bool
        ensures { result ≡ due self.now }
    {
        self.fails.contains(&self.made)
    }

    // Counts a call.
    pub(crate) fn count(&mut self, failed: bool)
        ensures counts { Counts self.old self.new failed }
        ensures cause { Cause (calls_failed self.old) (calls_failed self.new) failed }
    {
        self.made = self.made.saturating_add(1);
        if failed {
            self.faults = self.faults.saturating_add(1);
        }
    }

    // Counts a call that fails where it is to fail.
    pub(crate) fn next(&mut self) -> bool
        ensures due { result ≡ due self.old }
        ensures counts { Counts self.old self.new result }
        ensures cause { Cause (calls_failed self.old) (calls_failed self.new) result }
    {
        let due = self.is_due();
        self.count(due);
        due
    }
}
