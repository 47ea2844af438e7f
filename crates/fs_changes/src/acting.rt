//! The rules that act, kept up with a table.

ghost use Rattle.std.specs.{Prelude.{◌≡◌, ◌++◌, OnOk, OnErr, IfOk}, String.{string_bytes}};
ghost use Rattle.fs_rules.specs.{Changes.{Covers}, Table.{Held}};
ghost use Rattle.fs_changes.specs.Changes.{acting_in, none_act, told};

use crate::putting::follow_family;
use fs_base::{Family, Memory};
use fs_rules::{Changes, SharedFlow, Table};
use std::alloc::Global;
use std::marker::Model;
use std::mem::replace;

/// The rules of both families that act, in order. It shares them with the table, and copies none.
#[derive(Drop)]
pub struct Acting {
    v4: Vec<SharedFlow>,
    v6: Vec<SharedFlow>,
}

impl Model for Acting {
    ghost use Rattle.fs_base.specs.declared.prefix.Family.{TheVariants.{V4, V6}};
    ghost use Rattle.fs_changes.specs.{Changes.{ActingRules}, Places.{AreInOrder}};

    ghost Value = { ActingRules };

    ghost view = { λ a. record { v4 = a.v4.items; v6 = a.v6.items } };

    ghost invariant = { λ a. AreInOrder V4 a.v4.items × AreInOrder V6 a.v6.items };
}

impl Acting {
    /// No rule acts, as of a table that holds nothing.
    pub fn new(alloc: Global) -> Acting
        ensures { result ≡ none_act }
    {
        Acting {
            v4: Vec::new(alloc),
            v6: Vec::new(alloc),
        }
    }

    /// Follows a table of which nothing has changed since the last time but what was noted: from here the rules act
    /// that it admits now. Appends the lines of what that changes, each with the moment, in nanoseconds: first of IPv4,
    /// then of IPv6, in the order of rules, each with its place, from 1, as the list stands when the line is applied.
    /// Where a rule has other actions its line `-` and its line `+` follow one another. Where nothing changed there is
    /// none.
    ///
    /// # Errors
    ///
    /// `Memory` where the machine refused memory. The text is as before then, and no rule acts, so that the table can't
    /// be followed any further.
    pub fn follow(
        &mut self,
        table: &Table<'_>,
        changes: &Changes,
        moment: u64,
        text: &mut String,
    ) -> Result<(), Memory>
        requires { (base : Held) × (self.old ≡ acting_in base) × Covers base changes.now table.now }
        ensures stands { OnOk result (self.new ≡ acting_in table.now) }
        ensures told { OnOk result (string_bytes text.new
            ≡ string_bytes text.old ++ told moment self.old self.new) }
        ensures emptied { OnErr result (self.new ≡ none_act) }
        ensures untold { OnErr result (string_bytes text.new ≡ string_bytes text.old) }
    {
        let mut lines = String::new(*text.allocator());
        let acting = replace(self, Acting::new(*text.allocator()));
        let acting = acting.followed(table, changes, moment, &mut lines)?;
        text.push_str(&lines)?;
        *self = acting;
        Ok(())
    }

    /// The rules that act after the changes, whose lines are appended.
    fn followed(
        self,
        table: &Table<'_>,
        changes: &Changes,
        moment: u64,
        text: &mut String,
    ) -> Result<Acting, Memory>
        requires { (base : Held) × (self ≡ acting_in base) × Covers base changes.now table.now }
        ensures stands { IfOk result (λ acting. acting ≡ acting_in table.now) }
        ensures told { IfOk result (λ acting. string_bytes text.new
            ≡ string_bytes text.old ++ told moment self acting) }
    {
        let mut v4 = self.v4;
        let mut v6 = self.v6;
        follow_family(Family::V4, &mut v4, table, changes, moment, text)?;
        follow_family(Family::V6, &mut v6, table, changes, moment, text)?;
        Ok(Acting { v4, v6 })
    }
}
