//! The actions of a route, and the communities that say them.

ghost use Rattle.std.specs.Prelude.{◌≡◌, ◌↔◌, ℕ, None, Some, IsTrue, ◌∷◌, false, true, List, [], ◌++◌, IfOk, IsErrOf, OnErr, OnOk, length, nat_lt};
ghost use Rattle.std.specs.Prelude.{slice_get, filter_map};
ghost use Rattle.std.specs.{List.{concat, last_or, list_any, Sorted.{IsStrictlySortedBy}}, Cmp.Lexicographic.{slice_cmp}, Ordering.{nat_cmp}};
ghost use Rattle.fs_actions.specs.Community.{IsAction, has_flag, is_discard, limit_of, mark_of, redirect_of};
ghost use Rattle.fs_actions.specs.Actions.{IsAbove, IsActions, actions_of, are_communities, first_of, with_action};

use crate::community::{Action, Rate, Redirect};
use fs_base::Memory;
use std::alloc::Global;
use std::cmp::Ordering;
use std::marker::Model;

/// Why communities can't be read as actions.
#[derive(Clone, Copy, Debug, PartialEq, Eq, Drop)]
pub enum ActionFault {
    /// The length isn't a positive multiple of eight octets.
    BadLength,
    /// The machine refused memory.
    Memory,
}

impl From<Memory> for ActionFault {
    ghost use Rattle.fs_actions.specs.declared.actions.ActionFault.TheVariants.{Memory};

    ghost from_gives = { λ e r. r ≡ Memory };

    fn from(_error: Memory) -> ActionFault {
        ActionFault::Memory
    }
}

/// The actions of a route: listed communities in normal form, by rising octets and each once.
#[derive(Debug, Drop)]
pub struct Actions {
    list: Vec<Action>,
}

impl Model for Actions {
    ghost Value = { List (List ℕ) };

    ghost view = { λ a. a.list.items };

    ghost invariant = { λ a. IsActions a.list.items };
}

impl PartialEq for Actions {
    ghost use Rattle.std.specs.Cmp.{partial_equiv_from_equiv};
    ghost use Rattle.fs_actions.specs.Same.{same_actions, same_actions_law};

    ghost eq = { same_actions };

    ghost laws = { partial_equiv_from_equiv same_actions_law };

    fn eq(&self, other: &Actions) -> bool {
        self.list == other.list
    }
}

impl Eq for Actions {
    ghost use Rattle.fs_actions.specs.Same.{same_actions_law};

    ghost laws = { same_actions_law };
}

impl Actions {
    /// No actions.
    pub fn none(alloc: Global) -> Actions
        ensures { result ≡ [] }
    {
        Actions {
            list: Vec::new(alloc),
        }
    }

    /// The actions in order.
    pub fn as_slice(&self) -> &[Action]
        ensures value { result.now ≡ self.now }
        ensures actions { IsActions self.now }
    {
        &self.list
    }

    /// Whether the action can stand behind these: its octets are above those of the last one.
    pub fn goes_behind(&self, action: &Action) -> bool
        ensures { IsTrue result ↔ IsAbove (last_or None self.now) action.now }
    {
        match self.list.last() {
            Some(last) => is_below(last, action),
            None => true,
        }
    }

    /// Puts an action that can stand there behind these. After want of memory the list is as it was.
    pub fn push(&mut self, action: Action) -> Result<(), Memory>
        requires action { IsAction action }
        requires above { IsAbove (last_or None self.old) action }
        ensures ok { OnOk result (self.new ≡ self.old ++ action ∷ []) }
        ensures err { OnErr result (self.new ≡ self.old) }
    {
        self.list.push(action)?;
        Ok(())
    }

    /// An equal list.
    pub fn copy(&self) -> Result<Actions, Memory>
        ensures { IfOk result (λ copy. copy ≡ self.now) }
    {
        Ok(Actions {
            list: Vec::from_slice(*self.list.allocator(), &self.list)?,
        })
    }

    /// Appends the communities' octets to `out`, eight for each. After a refusal `out` is as it was.
    /// Read back, they give the same list, if there are any.
    pub fn to_communities(&self, out: &mut Vec<u8>) -> Result<(), Memory>
        ensures ok { OnOk result (out.new.items ≡ out.old.items ++ concat self.now) }
        ensures err { OnErr result (out.new.items ≡ out.old.items) }
        ensures whole { are_communities (concat self.now) ≡ nat_lt 0 (length self.now) }
        ensures read_back { actions_of (concat self.now) ≡ self.now }
    {
        let start = out.len();
        for action in &self.list {
            match out.extend_from_slice(action.octets()) {
                Ok(()) => {}
                Err(error) => {
                    out.truncate(start);
                    return Err(error.into());
                }
            }
        }
        Ok(())
    }

    /// Whether a packet is dropped: some rate lets nothing pass.
    pub fn discards(&self) -> bool
        ensures { result ≡ list_any is_discard self.now }
    {
        self.list.iter().any(|action| action.discards())
    }

    /// Whether later rules are evaluated too: the T bit of some traffic-action (RFC 8955 section 7.3).
    pub fn more(&self) -> bool
        ensures { result ≡ list_any (has_flag 1) self.now }
    {
        self.list.iter().any(|action| action.has_flag(1))
    }

    /// Whether packets are sampled: the S bit of some traffic-action (RFC 8955 section 7.3).
    pub fn sample(&self) -> bool
        ensures { result ≡ list_any (has_flag 2) self.now }
    {
        self.list.iter().any(|action| action.has_flag(2))
    }

    /// The DSCP value of the first traffic-marking, 0 to 63, or None where there is none.
    pub fn mark(&self) -> Option<u8>
        ensures { result ≡ first_of mark_of self.now }
    {
        for action in &self.list {
            if let Some(mark) = action.mark() {
                return Some(mark);
            }
        }
        None
    }

    /// The route target of the first redirect, or None where there is none.
    pub fn redirect(&self) -> Option<Redirect>
        ensures { result ≡ first_of redirect_of self.now }
    {
        for action in &self.list {
            if let Some(redirect) = action.redirect() {
                return Some(redirect);
            }
        }
        None
    }

    /// The rate with number `n`, from 0, of those that don't discard, in list order; None past the last.
    pub fn rate(&self, n: usize) -> Option<Rate>
        ensures { result ≡ slice_get (filter_map limit_of self.now) n }
    {
        let mut left = n;
        for action in &self.list {
            if let Some(rate) = action.limit() {
                if left == 0 {
                    return Some(rate);
                }
                left -= 1;
            }
        }
        None
    }
}

/// Whether the octets of one action are below those of another.
fn is_below(one: &Action, other: &Action) -> bool
    ensures { IsTrue result ↔ IsAbove (Some one.now) other.now }
{
    match one.cmp(other) {
        Ordering::Less => true,
        Ordering::Equal | Ordering::Greater => false,
    }
}

/// The actions of a field of extended communities of eight octets each. Communities that aren't listed are
/// skipped. Answers BadLength exactly where the length isn't a positive multiple of eight.
pub fn from_communities(alloc: Global, octets: &[u8]) -> Result<Actions, ActionFault>
    ensures whole { IfOk result (λ _. are_communities octets.now ≡ true) }
    ensures actions { IfOk result (λ actions. actions ≡ actions_of octets.now) }
    ensures bad_length { IsErrOf result ActionFault.BadLength ↔ (are_communities octets.now ≡ false) }
{
    if octets.is_empty() || octets.len() % 8 != 0 {
        return Err(ActionFault::BadLength);
    }
    let (communities, _) = octets.as_chunks::<8>();
    let mut list = with_room(alloc, communities.len())?;
    for community in communities {
        let Some(action) = Action::of(community) else {
            continue;
        };
        insert(&mut list, action)?;
    }
    list.shrink_to_fit();
    Ok(Actions { list })
}

/// An empty list with room for so many actions.
fn with_room(alloc: Global, count: usize) -> Result<Vec<Action>, Memory>
    ensures { IfOk result (λ list. list.items ≡ []) }
{
    Ok(Vec::with_capacity(alloc, count)?)
}

/// Puts an action into a list that rises strictly, in its place. An action that is there stays alone.
fn insert(list: &mut Vec<Action>, action: Action) -> Result<(), Memory>
    requires rising { IsStrictlySortedBy (slice_cmp nat_cmp) list.old.items }
    ensures ok { OnOk result (list.new.items ≡ with_action action list.old.items) }
    ensures err { OnErr result (list.new.items ≡ list.old.items) }
{
    match list.binary_search(&action) {
        Ok(_) => Ok(()),
        Err(place) => {
            list.insert(place, action)?;
            Ok(())
        }
    }
}
