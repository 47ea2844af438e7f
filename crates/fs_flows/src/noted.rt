//! Where the rules that the table admits may have changed.

ghost use Rattle.std.specs.Prelude.{◌≡◌, true, Some};
ghost use Rattle.fs_nlri.specs.{Parts.{Ruled}, Rule.{IsRule, destination_prefix}};
ghost use Rattle.fs_flows.specs.Changes.{IsOwn, is_to};

use fs_base::{Family, Memory, Prefix};
use fs_nlri::Rule;
use fs_validate::destination;
use std::alloc::Global;
use std::marker::Model;

/// More places than this are not told apart.
const MOST: usize = 16;

/// A place among the admitted rules: those of a family with this destination, or without one.
#[derive(Clone, Copy, Debug, PartialEq, Eq, Drop)]
pub struct Change {
    pub family: Family,
    pub destination: Option<Prefix>,
}

impl Change {
    /// The place at which a rule stands.
    pub fn of(rule: &Rule) -> Change
        ensures place { is_to result.family result.destination rule.now ≡ true }
        ensures own { IsOwn result }
    {
        Change {
            family: rule.family(),
            destination: destination(rule),
        }
    }

    /// The place at which the rules with this destination stand.
    pub(crate) fn at(destination: Prefix) -> Change
        ensures place { (rule : Ruled)
            → IsRule rule
            → destination_prefix rule ≡ Some destination
            → is_to result.family result.destination rule ≡ true }
        ensures own { IsOwn result }
    {
        Change {
            family: destination.family,
            destination: Some(destination),
        }
    }
}

/// The places at which the admitted rules may have changed, as long as they are few. Behind more changes than there is
/// room for any rule may have.
#[derive(Drop)]
pub struct Changes {
    places: Vec<Change>,
    all: bool,
}

impl Model for Changes {
    ghost use Rattle.std.specs.List.{AllByRecursion};
    ghost use Rattle.fs_flows.specs.Changes.{IsOwn, Noted};

    ghost Value = { Noted };

    ghost view = { λ a. record { places = a.places.items; all = a.all } };

    ghost invariant = { λ a. AllByRecursion IsOwn a.places.items };
}

impl Changes {
    ghost use Rattle.std.specs.{Prelude.{◌≡◌, true, false, []}, List.{AllByRecursion}};
    ghost use Rattle.fs_nlri.specs.Parts.{Ruled};
    ghost use Rattle.fs_flows.specs.{Changes.{Covers, AdmitsElsewhere, IsOwn, StaysNoted, is_noted, is_to}, Table.{Held}};

    /// No change, and no room.
    pub fn new(alloc: Global) -> Changes
        ensures { result ≡ record { places = []; all = false } }
    {
        Changes {
            places: Vec::new(alloc),
            all: false,
        }
    }

    /// Takes room for the places, once.
    pub fn make_room(&mut self) -> Result<(), Memory>
        ensures { self.new ≡ self.old }
    {
        if self.places.capacity() == 0 {
            self.places.reserve_exact(MOST)?;
        }
        Ok(())
    }

    /// Notes a change at the place. Takes no memory.
    pub fn note(&mut self, change: Change)
        requires { IsOwn change }
        ensures covers { (base old new : Held)
            → Covers base self.old old
            → AdmitsElsewhere (is_to change.family change.destination) old new
            → Covers base self.new new }
        ensures stays { StaysNoted self.old self.new }
        ensures noted { (rule : Ruled)
            → is_to change.family change.destination rule ≡ true
            → is_noted self.new rule ≡ true }
    {
        if self.places.len() < self.places.capacity() {
            self.places.push_reserved(change);
        } else {
            self.all = true;
        }
    }

    /// Notes that any rule may have changed.
    pub fn note_all(&mut self)
        ensures { (base new : Held) → Covers base self.new new }
    {
        self.all = true;
    }

    /// Forgets the changes.
    pub fn clear(&mut self)
        ensures { self.new ≡ record { places = []; all = false } }
    {
        self.places.clear();
        self.all = false;
    }

    /// Whether any rule may have changed.
    pub fn are_all(&self) -> bool
        ensures { result ≡ self.now.all }
    {
        self.all
    }

    /// The places, where not all may have changed. One may stand there more than once.
    pub fn places(&self) -> &[Change]
        ensures places { result.now ≡ self.now.places }
        ensures own { AllByRecursion IsOwn self.now.places }
    {
        self.places.as_slice()
    }
}
