//! What the rules that a packet has walked say of it together.

ghost use Rattle.std.specs.{Prelude.{◌≡◌}, List.{list_any}};
ghost use Rattle.fs_actions.specs.{Actions.{first_of}, Community.{has_flag, is_discard, mark_of, redirect_of}};
ghost use Rattle.fs_line.specs.Walked.{actions_walked, entries};

use fs_actions::{Actions, Redirect};

/// A rule that a packet has walked: its number in the order of its family's rules, from 1, and its actions.
#[derive(Clone, Copy, Drop)]
pub struct Walked<'t> {
    pub number: usize,
    pub actions: &'t Actions,
}

/// Whether some rule drops the packet.
pub fn discards(walked: &[Walked<'_>]) -> bool
    ensures { result ≡ list_any is_discard (actions_walked (entries walked.now)) }
{
    for rule in walked {
        if rule.actions.discards() {
            return true;
        }
    }
    false
}

/// Whether some rule has the packet sampled.
pub(crate) fn samples(walked: &[Walked<'_>]) -> bool
    ensures { result ≡ list_any (has_flag 2) (actions_walked (entries walked.now)) }
{
    for rule in walked {
        if rule.actions.sample() {
            return true;
        }
    }
    false
}

/// The first marking.
#[tactic(auto, using(crate::proofs::Walks::said_there, crate::proofs::Walks::not_said_there))]
pub(crate) fn first_mark(walked: &[Walked<'_>]) -> Option<u8>
    ensures { result ≡ first_of mark_of (actions_walked (entries walked.now)) }
{
    for rule in walked {
        if let Some(mark) = rule.actions.mark() {
            return Some(mark);
        }
    }
    None
}

/// The first redirect.
#[tactic(auto, using(crate::proofs::Walks::said_there, crate::proofs::Walks::not_said_there))]
pub(crate) fn first_redirect(walked: &[Walked<'_>]) -> Option<Redirect>
    ensures { result ≡ first_of redirect_of (actions_walked (entries walked.now)) }
{
    for rule in walked {
        if let Some(redirect) = rule.actions.redirect() {
            return Some(redirect);
        }
    }
    None
}
