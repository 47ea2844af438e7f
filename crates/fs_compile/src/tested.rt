//! The rules that a search tests, one by one.

ghost use Rattle.std.specs.Prelude.{◌≡◌, ◌≤◌, length};
ghost use Rattle.fs_compile.specs.Search.{Scanned, tests_of};

use fs_base::Steps;
use fs_ranges::{Facts, Fast};
use std::sync::ledger::Ledger;

/// Rules, and the fields of the packet that they are tested on.
#[derive(Clone, Copy, Drop)]
pub(crate) struct Tested<'a> {
    pub(crate) rules: &'a [Fast],
    pub(crate) facts: &'a Facts<'a>,
}

impl<'a> Tested<'a> {
    /// The first rule that matches of those from `from` on before `to`. As many steps as rules up to that one.
    #[inline(always)]
    pub(crate) fn scan<L: Ledger>(
        &self,
        from: usize,
        to: usize,
        steps: &mut Steps<L>,
    ) -> Option<usize>
        requires { to ≤ length self.now.rules.now }
        ensures { Scanned (tests_of self.now) from to to steps.old steps.new result }
    {
        for number in from..to {
            if self.rules[number].test_facts(self.facts, steps) {
                return Some(number);
            }
        }
        None
    }
}
