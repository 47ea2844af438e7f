//! How many cases there were, and how many of them differ.

use crate::fault::Fault;
use crate::octets::Octets;

/// How many cases were tried, and in how many of them what came wasn't what was expected.
#[derive(Clone, Copy, Drop)]
pub struct Tally {
    cases: u64,
    differ: u64,
}

impl Tally {
    /// No case.
    pub fn new() -> Tally {
        Tally {
            cases: 0,
            differ: 0,
        }
    }

    /// Counts a case, and answers whether it differs.
    pub fn differs(&mut self, is_right: bool) -> bool {
        self.cases = self.cases.saturating_add(1);
        if !is_right {
            self.differ = self.differ.saturating_add(1);
        }
        !is_right
    }

    /// Prints the two counts.
    pub fn finish(&self, rt: &HostRuntime, name: &str) -> Result<(), Fault> {
        let mut line = Octets::new(rt.alloc());
        line.word(name);
        line.word(": ");
        line.show(&self.cases);
        line.word(" cases, ");
        line.show(&self.differ);
        line.word(" differ");
        line.print(rt)
    }
}
