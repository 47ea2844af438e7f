//! Counts of calls, and of faults.

ghost use Rattle.std.specs.Prelude.{◌≡◌, ◌≤◌, ◌<◌};
ghost use Rattle.fs_outside.specs.Outside.{Rose};

use crate::Failed;

/// Counts a fault.
pub(crate) fn fault(faults: &mut u64) -> Failed
    ensures rose { Rose faults.old faults.new }
    ensures later { faults.old ≤ faults.new }
{
    *faults = faults.saturating_add(1);
    Failed
}

/// The calls on an object in memory, counted from 1: those that the list names fail, and none moves more than `most`
/// octets.
#[derive(Drop)]
pub(crate) struct Tally {
    failing: Vec<u64>,
    calls: u64,
    pub faults: u64,
    pub most: usize,
    pub ghost some: { 0 < most },
}

impl Tally {
    ghost use Rattle.fs_outside.specs.Tallies.{OneMore, fails, narrowed, no_calls, tallied};

    /// None so far.
    pub fn new(failing: Vec<u64>) -> Tally
        ensures { tallied result ≡ no_calls failing.items }
    {
        Tally {
            failing,
            calls: 0,
            faults: 0,
            most: usize::MAX,
        }
    }

    /// From now on no call moves more than `count` octets.
    pub fn narrow(&mut self, count: usize)
        requires { 1 ≤ count }
        ensures { tallied self.new ≡ narrowed count (tallied self.old) }
    {
        self.most = self.most.min(count);
    }

    /// So many calls were made.
    pub fn calls(&self) -> u64
        ensures { result ≡ (tallied self.now).calls }
    {
        self.calls
    }

    /// Counts a call, and answers whether the list names it.
    pub fn is_listed(&mut self) -> bool
        ensures listed { result ≡ fails (tallied self.old) }
        ensures counts { OneMore (tallied self.old) (tallied self.new) }
        ensures faults { (tallied self.new).faults ≡ (tallied self.old).faults }
    {
        self.calls = self.calls.saturating_add(1);
        let listed = self.failing.contains(&self.calls);
        listed
    }
}
