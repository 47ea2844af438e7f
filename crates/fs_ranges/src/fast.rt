//! A rule compiled for packets.

ghost use Rattle.std.specs.{Prelude.{◌≡◌, ◌+◌, ◌≤◌, ◌&&◌, true, IfOk, OnOk, ℕ}, List.{list_all}};
ghost use Rattle.fs_nlri.specs.{Component.{parts_of}, Parts.{Ruled}, Sound.{AreSound}};
ghost use Rattle.fs_packet.specs.Matching.{is_match};
ghost use Rattle.fs_ranges.specs.{Limits.{allows, allows_port}, Facts.{Facts, IsSmall, front_of, key_of, number_of}};
ghost use Rattle.fs_ranges.specs.Fast.{AreFree, AreTestsOf, IsPut, StandsFor, facts_hold, fast_holds, holds_of_facts};
ghost use Rattle.fs_ranges.specs.{Ranges.{ranges_hold}, Tests.{passes}, declared.field.Field.TheVariants.{Zero}};

use crate::components::test_of;
use crate::facts::Facts;
use crate::field::Field;
use crate::limits::Limit;
use crate::ranges::{PLACES, Ranges};
use crate::tests::Test;
use fs_base::{Family, Memory, Steps};
use fs_nlri::{Component, Rule};
use fs_packet::View;
use std::alloc::Global;
use std::sync::ledger::Ledger;

/// A rule in the form in which it is tested fastest: its first four ranges stand within it, and its other tests behind.
#[derive(Drop)]
pub struct Fast {
    family: Family,
    ranges: Ranges,
    tests: Vec<Test>,
}

impl Fast {
    /// Compiles the rule.
    pub fn of(alloc: Global, rule: &Rule) -> Result<Fast, Memory>
        ensures { IfOk result (StandsFor rule.now) }
    {
        let (ranges, tests) = tests_of(alloc, rule.components())?;
        Ok(Fast {
            family: rule.family(),
            ranges,
            tests,
        })
    }

    /// Whether the rule that it stands for matches the packet (RFC 8955 section 4.2); counts one step.
    pub fn test<L: Ledger>(&self, view: &View<'_>, steps: &mut Steps<L>) -> bool
        ensures holds { result ≡ fast_holds view.now self.now }
        ensures small { IsSmall view.now }
        ensures matches { (rule : Ruled) → StandsFor rule self.now → result ≡ is_match rule view.now }
        ensures step { steps.new ≡ steps.old + 1 }
    {
        self.test_facts(&Facts::of(view, view.destination()), steps)
    }

    /// The same over the packet's fields, so that they are read once for all rules.
    #[inline(always)]
    pub fn test_facts<L: Ledger>(&self, facts: &Facts<'_>, steps: &mut Steps<L>) -> bool
        ensures holds { result ≡ facts_hold facts.now self.now }
        ensures step { steps.new ≡ steps.old + 1 }
    {
        steps.take();
        self.holds(facts)
    }

    /// Within which numbers the field is of each packet that the rule matches.
    pub fn limit(&self, field: Field) -> Limit<'_>
        ensures { (facts : Facts) → facts_hold facts self.now ≡ true → allows result (key_of facts field) ≡ true }
    {
        if field.is_front() {
            front_limit_of(&self.tests)
        } else {
            self.number_limit(field)
        }
    }

    /// The field on which sources of the rule's family are told apart.
    pub fn source_field(&self) -> Field {
        match self.family {
            Family::V4 => Field::SourceAddress,
            Family::V6 => Field::SourceFront,
        }
    }

    /// Within which numbers either port is of each packet that the rule matches.
    pub fn ports_limit(&self) -> Limit<'_>
        ensures { (facts : Facts) → facts_hold facts self.now ≡ true → allows_port result facts ≡ true }
    {
        ports_limit_of(&self.tests)
    }

    fn number_limit(&self, field: Field) -> Limit<'_>
        ensures { (facts : Facts) → facts_hold facts self.now ≡ true → allows result (number_of facts field) ≡ true }
    {
        // a range of the field may be no more than the hull of a list's
        match limit_of(&self.tests, field) {
            Limit::Any => self.ranges.limit(field),
            limit => limit,
        }
    }

    #[inline(always)]
    fn holds(&self, facts: &Facts<'_>) -> bool
        ensures { result ≡ holds_of_facts facts.now self.now }
    {
        self.ranges.hold(facts)
            && self.family == facts.view.family()
            && tests_pass(&self.tests, facts)
    }
}

/// Most rules have none of these or one: what asks for them stands apart, so that ranges are tested in place.
#[inline(always)]
fn tests_pass(tests: &[Test], facts: &Facts<'_>) -> bool
    ensures { result ≡ list_all (passes facts.now) tests.now }
{
    match tests {
        [] => true,
        [test] => one_passes(test, facts),
        _ => all_pass(tests, facts),
    }
}

#[inline(never)]
fn one_passes(test: &Test, facts: &Facts<'_>) -> bool
    ensures { result ≡ passes facts.now test.now }
{
    test.passes(facts)
}

#[inline(never)]
fn all_pass(tests: &[Test], facts: &Facts<'_>) -> bool
    ensures { result ≡ list_all (passes facts.now) tests.now }
{
    for test in tests {
        if !test.passes(facts) {
            return false;
        }
    }
    true
}

/// Within which numbers the field is of each packet that passes the tests.
fn limit_of(tests: &[Test], field: Field) -> Limit<'_>
    ensures { (facts : Facts)
        → list_all (passes facts) tests.now ≡ true
        → allows result (number_of facts field) ≡ true }
{
    for test in tests {
        if let Some(limit) = test.limit(field) {
            return limit;
        }
    }
    Limit::Any
}

/// Within which numbers the front of the source is of each packet that passes the tests.
fn front_limit_of(tests: &[Test]) -> Limit<'_>
    ensures { (facts : Facts)
        → list_all (passes facts) tests.now ≡ true
        → allows result (front_of facts.view.source) ≡ true }
{
    for test in tests {
        if let Some(limit) = test.front_limit() {
            return limit;
        }
    }
    Limit::Any
}

/// Within which numbers either port is of each packet that passes the tests.
fn ports_limit_of(tests: &[Test]) -> Limit<'_>
    ensures { (facts : Facts) → list_all (passes facts) tests.now ≡ true → allows_port result facts ≡ true }
{
    for test in tests {
        if let Some(limit) = test.ports_limit() {
            return limit;
        }
    }
    Limit::Any
}

/// The tests of the components: the first ranges, and what doesn't stand among them.
fn tests_of(alloc: Global, components: &[Component]) -> Result<(Ranges, Vec<Test>), Memory>
    requires { AreSound (parts_of components.now) }
    ensures { IfOk result (λ made. AreTestsOf (parts_of components.now) made.0 made.1.items) }
{
    let mut ranges = Ranges::free();
    let mut used = 0;
    let mut tests = Vec::new(alloc);
    for component in components {
        let test = test_of(alloc, component)?;
        used = place(&mut ranges, used, &mut tests, test)?;
    }
    tests.shrink_to_fit();
    Ok((ranges, tests))
}

/// Puts the test among the ranges, if it's one and a place is free, else behind the others, with its hull among the ranges.
/// Answers how many places are taken.
fn place(
    ranges: &mut Ranges,
    used: usize,
    tests: &mut Vec<Test>,
    test: Test,
) -> Result<usize, Memory>
    requires { AreFree used ranges.old }
    ensures placed { IfOk result (λ next. IsPut test ranges.old tests.old.items ranges.new tests.new.items) }
    ensures free { IfOk result (λ next. AreFree next ranges.new) }
{
    if used < PLACES
        && let Some(range) = test.range()
    {
        ranges.put(range);
        return Ok(used + 1);
    }
    make_room(tests)?;
    let next = place_hull(ranges, used, &test);
    tests.push(test)?;
    Ok(next)
}

/// The place that no hull takes.
const LAST: usize = PLACES - 1;

/// Puts the hull of the test among the ranges, unless only one place is free: most packets that don't pass the test fail
/// there. Answers how many places are taken.
fn place_hull(ranges: &mut Ranges, used: usize, test: &Test) -> usize
    requires { AreFree used ranges.old }
    ensures same { (facts : Facts)
        → number_of facts Zero ≡ 0
        → (ranges_hold facts ranges.new && passes facts test.now)
        ≡ (ranges_hold facts ranges.old && passes facts test.now) }
    ensures free { AreFree result ranges.new }
{
    if used < LAST
        && let Some(range) = test.hull()
    {
        ranges.put(range);
        return used + 1;
    }
    used
}

/// Makes room for the first test alone: most rules that have one have no other.
fn make_room(tests: &mut Vec<Test>) -> Result<(), Memory>
    ensures { tests.new.items ≡ tests.old.items }
{
    if tests.is_empty() {
        tests.reserve_exact(1)?;
    }
    Ok(())
}
