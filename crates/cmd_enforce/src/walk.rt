//! The rules that a packet walks.

ghost use Rattle.std.specs.{Prelude.{◌≡◌, ◌≤◌, ◌<◌, ◌+◌, List, length, vec_capacity}, List.{list_any}};
ghost use Rattle.fs_actions.specs.Community.{is_discard};
ghost use Rattle.fs_compile.specs.Reach.{reaching};
ghost use Rattle.cmd_enforce.specs.{Judge.{AdmittedRules, rules_for}, Matcher.{IsReady, StandsFor, WalksWith}};
ghost use Rattle.fs_line.specs.Walked.{actions_walked, entries};
ghost use Rattle.fs_rules.specs.{Lent.{Listed}, Walk.{walk_of}};

use fs_base::Steps;
use fs_compile::Compiled;
use fs_line::{Walked, discards};
use fs_packet::View;
use fs_rules::SharedActions;
use std::marker::Brand;
use std::sync::ledger::{Blank, Ledger};

/// Whether some rule that the packet walks drops it. The rules walked stand in `walked` afterwards, which has room for
/// all of a family, so that no memory is taken.
pub fn drops<'r>(rules: &'r Compiled, view: &View<'_>, walked: &mut Vec<Walked<'r>>) -> bool
    requires { IsReady rules.now (vec_capacity walked.old) }
    ensures room { vec_capacity walked.new ≡ vec_capacity walked.old }
    ensures drops { (admitted : AdmittedRules)
        → StandsFor admitted rules.now
        → result ≡ list_any is_discard (actions_walked (walk_of view.now (rules_for view.now.family admitted))) }
{
    walk_packet(rules, view, walked);
    discards(walked)
}

/// Puts the rules of its family that the packet walks into `walked`, in place of what stands there.
#[inline(always)]
pub(crate) fn walk_packet<'r>(rules: &'r Compiled, view: &View<'_>, walked: &mut Vec<Walked<'r>>)
    requires { IsReady rules.now (vec_capacity walked.old) }
    ensures room { vec_capacity walked.new ≡ vec_capacity walked.old }
    ensures walk { (admitted : AdmittedRules)
        → StandsFor admitted rules.now
        → entries walked.new.items ≡ walk_of view.now (rules_for view.now.family admitted) }
{
    walk_family::<Brand>(Blank::new(1), rules, view, walked);
}

#[inline(always)]
fn walk_family<'r, L: Ledger>(
    blank: Blank,
    rules: &'r Compiled,
    view: &View<'_>,
    walked: &mut Vec<Walked<'r>>,
)
    requires name { blank.name ≡ L.name }
    requires parts { blank.parts ≡ L.parts }
    requires some { 0 < L.parts }
    requires ready { IsReady rules.now (vec_capacity walked.old) }
    ensures room { vec_capacity walked.new ≡ vec_capacity walked.old }
    ensures walk { (admitted : AdmittedRules)
        → StandsFor admitted rules.now
        → entries walked.new.items ≡ walk_of view.now (rules_for view.now.family admitted) }
{
    let mut steps = Steps::<L>::new(blank);
    let actions = rules.actions(view.family());
    walk(rules, actions, view, walked, &mut steps);
}

/// Puts the rules that the packet walks into `walked`, in place of what stands there: the matching ones in order, up to
/// and with the first whose terminal bit is clear (RFC 8955 section 7.3). It takes at most as many steps as the family
/// has rules that reach the packet.
#[inline(always)]
fn walk<'r, L: Ledger>(
    compiled: &Compiled,
    rules: &'r [SharedActions],
    view: &View<'_>,
    walked: &mut Vec<Walked<'r>>,
    steps: &mut Steps<L>,
)
    requires sound { (list : List Listed) × WalksWith view.now list compiled.now rules.now }
    requires room { length rules.now ≤ vec_capacity walked.old }
    ensures room { vec_capacity walked.new ≡ vec_capacity walked.old }
    ensures walk { (list : List Listed)
        → WalksWith view.now list compiled.now rules.now
        → entries walked.new.items ≡ walk_of view.now list }
    ensures steps { (list : List Listed)
        → WalksWith view.now list compiled.now rules.now
        → steps.new ≤ steps.old + reaching view.now list }
{
    walked.clear();
    let mut matches = compiled.matches(view);
    'rules: while let Some(found) = matches.next(steps) {
        let actions = rules[found].actions();
        walked.push_reserved(Walked {
            number: found + 1,
            actions,
        });
        if !actions.more() {
            return;
        }
    }
}
