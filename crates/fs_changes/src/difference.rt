//! The lines that lead from some rules to others.

ghost use Rattle.std.specs.{Prelude.{◌≡◌, ◌++◌, ◌+◌, ◌<◌, ◌^◌, OnOk, length}, String.{string_bytes}, declared.cmp.Ordering.TheVariants.{Equal}};
ghost use Rattle.fs_actions.specs.Same.{same_actions};
ghost use Rattle.fs_order.specs.Comparison.{rule_cmp};
ghost use Rattle.fs_changes.specs.{Changes.{act_of, acts_of, changes, lines_text}, Steps.{StepsOn, Tells}};

use crate::lines::append_line;
use fs_base::Memory;
use fs_order::compare;
use fs_rules::SharedFlow;
use std::cmp::Ordering;

/// What is said of the first rules of two lists: that of the new one comes, that of the old one goes, or both are the
/// same and nothing is said.
#[derive(Clone, Copy, Drop)]
pub(crate) enum Step {
    Come,
    Gone,
    Stays,
}

/// Whether the actions are the same.
fn have_same_actions(old: &SharedFlow, new: &SharedFlow) -> bool
    ensures { result ≡ same_actions old.now.actions new.now.actions }
{
    let before = old.route();
    let now = new.route();
    before.actions.are(now.actions.actions())
}

/// How the rules are ordered.
fn compare_rules(old: &SharedFlow, new: &SharedFlow) -> Ordering
    ensures { result ≡ rule_cmp old.now.rule new.now.rule }
{
    compare(&old.route().rule, &new.route().rule)
}

/// What is said of one rule with old and with new actions.
fn kept(old: &SharedFlow, new: &SharedFlow) -> Step
    requires { rule_cmp old.now.rule new.now.rule ≡ Equal }
    ensures { Tells result (act_of old.now) (act_of new.now) }
{
    if have_same_actions(old, new) {
        Step::Stays
    } else {
        Step::Gone
    }
}

/// What is said of the first rules of an old and of a new list.
fn compared(old: &SharedFlow, new: &SharedFlow) -> Step
    ensures { Tells result (act_of old.now) (act_of new.now) }
{
    match compare_rules(old, new) {
        Ordering::Less => Step::Gone,
        Ordering::Greater => Step::Come,
        Ordering::Equal => kept(old, new),
    }
}

/// What is said next, where an old and a new list have rules left.
fn next_step(old: &[SharedFlow], new: &[SharedFlow]) -> Option<Step>
    ensures { StepsOn result (acts_of old.now) (acts_of new.now) }
{
    match (old.first(), new.first()) {
        (None, None) => None,
        (None, Some(_)) => Some(Step::Come),
        (Some(_), None) => Some(Step::Gone),
        (Some(o), Some(n)) => Some(compared(o, n)),
    }
}

/// Appends the lines that lead from the old rules to the new ones, before which stand so many that both lists have.
pub(crate) fn append_difference(
    moment: u64,
    before: usize,
    old: &[SharedFlow],
    new: &[SharedFlow],
    text: &mut String,
) -> Result<(), Memory>
    requires { before + length new.now + 1 < 2 ^ 64 }
    ensures { OnOk result (string_bytes text.new
        ≡ string_bytes text.old ++ lines_text moment (changes before (acts_of old.now) (acts_of new.now))) }
{
    let mut place = before;
    let mut left = old;
    let mut right = new;
    'steps: while let Some(step) = next_step(left, right) {
        match step {
            Step::Come => {
                append_line(moment, " + ", place, &right[0], text)?;
                right = &right[1..];
                place += 1;
            }
            Step::Gone => {
                append_line(moment, " - ", place, &left[0], text)?;
                left = &left[1..];
            }
            Step::Stays => {
                left = &left[1..];
                right = &right[1..];
                place += 1;
            }
        }
    }
    Ok(())
}
