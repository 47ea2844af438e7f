//! Rules made ready to be compared with many others.

ghost use Rattle.std.specs.{Prelude.{◌≡◌, IfOk}, List.{list_all, list_any}};
ghost use Rattle.fs_nlri.specs.{Component.{parts_of}, Sound.{AreSound}};
ghost use Rattle.fs_rules.specs.Lent.{all_admitted, shown_lent};
ghost use Rattle.fs_shadow.specs.{Extents.{AreMeasuresOf, is_probed, measure_lies_in}, Outlines.{AreOutlinesOf, IsOutlineOf, key_of, outline_takes_all}};

use crate::extents::Measure;
use fs_base::{Family, Memory};
use fs_nlri::Component;
use fs_rules::LentRule;
use std::alloc::Global;

/// An admitted rule.
#[derive(Drop)]
pub(crate) struct Outline {
    /// Whether later rules are evaluated too.
    goes_on: bool,
    family: Family,
    pub(crate) measures: Vec<Measure>,
}

impl Outline {
    fn of(alloc: Global, admitted: &LentRule<'_>) -> Result<Outline, Memory>
        ensures { IfOk result (IsOutlineOf (shown_lent admitted.now)) }
    {
        Ok(Outline {
            goes_on: admitted.actions.actions().more(),
            family: admitted.rule.family(),
            measures: measures_of(alloc, admitted.rule.components())?,
        })
    }

    /// Whether this rule takes all packets of a later one.
    pub(crate) fn takes_all(&self, later: &Outline) -> bool
        ensures { result ≡ outline_takes_all self.now later.now }
    {
        !self.goes_on
            && self.family == later.family
            && each_holds_one(&self.measures, &later.measures)
    }

    /// The greatest number that one of its components takes in alone, so that it is one of each rule whose packets this
    /// rule takes; or 0.
    pub(crate) fn key(&self) -> u64
        ensures { result ≡ key_of self.now.measures.items }
    {
        let mut key = 0;
        for measure in &self.measures {
            key = key.max(measure.key());
        }
        key
    }

    /// Whether a number is known of each component that takes in numbers.
    pub(crate) fn is_probed(&self) -> bool
        ensures { result ≡ list_all is_probed self.now.measures.items }
    {
        for measure in &self.measures {
            if !measure.is_probed() {
                return false;
            }
        }
        true
    }
}

/// The outline of each rule.
pub(crate) fn outlines_of(alloc: Global, list: &[LentRule<'_>]) -> Result<Vec<Outline>, Memory>
    ensures { IfOk result (λ outlines. AreOutlinesOf (all_admitted list.now) outlines.items) }
{
    let mut outlines = Vec::with_capacity(alloc, list.len())?;
    for admitted in list {
        outlines.push(Outline::of(alloc, admitted)?)?;
    }
    Ok(outlines)
}

fn measures_of(alloc: Global, components: &[Component]) -> Result<Vec<Measure>, Memory>
    requires { AreSound (parts_of components.now) }
    ensures { IfOk result (λ measures. AreMeasuresOf (parts_of components.now) measures.items) }
{
    let mut measures = Vec::with_capacity(alloc, components.len())?;
    for component in components {
        measures.push(Measure::of(alloc, component)?)?;
    }
    Ok(measures)
}

/// Whether in each of the components one of the others lies.
fn each_holds_one(measures: &[Measure], others: &[Measure]) -> bool
    ensures { result ≡ list_all (λ outer. list_any (λ inner. measure_lies_in inner outer) others.now) measures.now }
{
    for measure in measures {
        if !holds_one(measure, others) {
            return false;
        }
    }
    true
}

/// Whether one of the others lies in the component.
fn holds_one(measure: &Measure, others: &[Measure]) -> bool
    ensures { result ≡ list_any (λ inner. measure_lies_in inner measure.now) others.now }
{
    for other in others {
        if other.lies_in(measure) {
            return true;
        }
    }
    false
}
