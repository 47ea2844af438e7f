//! The rules that match a packet, one after the other.

ghost use Rattle.std.specs.Prelude.{◌≡◌, ◌≤◌, ◌+◌, ◌<◌, IfSome, List, length};
ghost use Rattle.fs_packet.specs.Fields.{Viewed};
ghost use Rattle.fs_rules.specs.Lent.{Listed};
ghost use Rattle.fs_ranges.specs.Facts.{AreFacts};
ghost use Rattle.fs_compile.specs.{Matcher.{next_from}, Matches.{AreMatchesOf, behind}, Reach.{reaching, reaching_behind, reaching_from}};
ghost use Rattle.fs_buckets.specs.Addresses.{number_of};

use crate::index::Index;
use crate::search::Cursor;
use fs_base::Steps;
use fs_packet::View;
use fs_ranges::Facts;
use std::marker::Model;
use std::sync::ledger::Ledger;

/// The rules of a packet's family that match it, in order. The fields that are numbers are read once, and each search
/// goes on where the last one ended.
#[derive(Drop)]
pub struct Matches<'a> {
    index: &'a Index,
    facts: Facts<'a>,
    place: Cursor,
}

impl<'a> Model for Matches<'a> {
    ghost use Rattle.std.specs.Prelude.{◌≡◌};
    ghost use Rattle.fs_compile.specs.{Matches.{Matching}, Search.{Starts}};
    ghost use Rattle.fs_buckets.specs.Addresses.{number_of};

    ghost Value = { Matching };

    ghost view = { λ a. record { index = a.index.now; facts = a.facts; from = a.place.from } };

    ghost invariant = { λ a.
        Starts a.index.now.buckets a.place × (a.place.address ≡ number_of a.facts.view.destination) };
}

impl<'a> Matches<'a> {
    /// From the first rule on.
    #[inline(always)]
    pub(crate) fn of(index: &'a Index, view: &'a View<'a>) -> Matches<'a>
        ensures index { result.index ≡ index.now }
        ensures facts { AreFacts view.now result.facts }
        ensures from { result.from ≡ 0 }
    {
        let destination = view.destination();
        // the search before the facts, so that none of these has to wait on the stack for its end
        let place = index.start(destination);
        Matches {
            index,
            facts: Facts::of(view, destination),
            place,
        }
    }

    /// From the rule behind that of number `n` on.
    pub(crate) fn behind(index: &'a Index, view: &'a View<'a>, n: usize) -> Matches<'a>
        requires { n < length index.now.rules }
        ensures index { result.index ≡ index.now }
        ensures facts { AreFacts view.now result.facts }
        ensures from { result.from ≡ n + 1 }
    {
        let destination = view.destination();
        Matches {
            index,
            facts: Facts::of(view, destination),
            place: index.behind(destination, n),
        }
    }

    /// The number, from 0, of the next rule that matches. It tests the rules whose destination covers the packet's, or
    /// that have none (of IPv6 none with offset 0), from where the last search ended up to the rule found, a step for
    /// each at most: a walk tests none twice. Takes no memory.
    #[inline(always)]
    pub fn next<L: Ledger>(&mut self, steps: &mut Steps<L>) -> Option<usize>
        ensures next { (view : Viewed) (rules : List Listed)
            → AreMatchesOf view rules self.old
            → result ≡ next_from self.old.from view rules }
        ensures inside { (view : Viewed) (rules : List Listed)
            → AreMatchesOf view rules self.old
            → IfSome result (λ n. (self.old.from ≤ n) × (n < length rules)) }
        ensures behind { self.new ≡ behind result self.old }
        ensures later { steps.old ≤ steps.new }
        ensures steps { (view : Viewed) (rules : List Listed)
            → AreMatchesOf view rules self.old
            → steps.new ≤ steps.old + reaching view rules }
        ensures walk { (view : Viewed) (rules : List Listed)
            → AreMatchesOf view rules self.old
            → steps.new + reaching_behind result view rules ≤ steps.old + reaching_from self.old.from view rules }
    {
        let hit = self.index.search(&self.facts, self.place, steps)?;
        self.place.bucket = hit.bucket;
        self.place.from = hit.number + 1;
        Some(hit.number)
    }
}
