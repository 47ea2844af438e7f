//! The rules of a family, put anew where they changed, with the lines of that.

ghost use Rattle.std.specs.{Prelude.{◌≡◌, ◌++◌, OnOk}, String.{string_bytes}};
ghost use Rattle.fs_rules.specs.{Changes.{Covers}, Table.{Held, admitted}};
ghost use Rattle.fs_buckets.specs.Destinations.{target_of};
ghost use Rattle.fs_changes.specs.{Changes.{acts_of, changes, lines_text}, Places.{AreInOrder, AreInPlaces, Puts}};

use crate::difference::append_difference;
use crate::noted::next_noted;
use crate::places::stretch;
use fs_base::{Family, Memory, Prefix};
use fs_buckets::put_between;
use fs_rules::{Changes, SharedFlow, Table};

/// Puts the rules in the place of those of the destination, or of those without one, and appends the lines of that.
fn put_at(
    moment: u64,
    destination: Option<Prefix>,
    news: Vec<SharedFlow>,
    rules: &mut Vec<SharedFlow>,
    text: &mut String,
) -> Result<(), Memory>
    requires { AreInPlaces (target_of destination) rules.old.items }
    ensures { OnOk result (Puts moment (target_of destination)
        news.items
        rules.old.items
        rules.new.items
        (string_bytes text.old)
        (string_bytes text.new)) }
{
    let (from, to) = stretch(rules, destination);
    append_difference(moment, from, &rules[from..to], &news, text)?;
    put_between(rules, from, to, news)
}

/// Puts the rules in the place of all, and appends the lines of that.
fn put_all(
    moment: u64,
    news: Vec<SharedFlow>,
    rules: &mut Vec<SharedFlow>,
    text: &mut String,
) -> Result<(), Memory>
    ensures put { OnOk result (rules.new.items ≡ news.items) }
    ensures told { OnOk result (string_bytes text.new
        ≡ string_bytes text.old
        ++ lines_text moment (changes 0 (acts_of rules.old.items) (acts_of news.items))) }
{
    append_difference(moment, 0, rules, &news, text)?;
    *rules = news;
    Ok(())
}

/// Follows the rules that the table admits of the family.
pub(crate) fn follow_family(
    family: Family,
    rules: &mut Vec<SharedFlow>,
    table: &Table<'_>,
    noted: &Changes,
    moment: u64,
    text: &mut String,
) -> Result<(), Memory>
    requires order { AreInOrder family rules.old.items }
    requires base { (base : Held)
        × (rules.old.items ≡ admitted family base)
        × Covers base noted.now table.now }
    ensures stands { OnOk result (rules.new.items ≡ admitted family table.now) }
    ensures order { OnOk result (AreInOrder family rules.new.items) }
    ensures told { OnOk result (string_bytes text.new
        ≡ string_bytes text.old
        ++ lines_text moment (changes 0 (acts_of rules.old.items) (acts_of rules.new.items))) }
{
    if noted.are_all() {
        return put_all(moment, table.shared(family)?, rules, text);
    }
    let mut last = None;
    'places: while let Some(destination) = next_noted(noted.places(), family, last) {
        let news = table.shared_to(family, destination)?;
        put_at(moment, destination, news, rules, text)?;
        last = Some(destination);
    }
    Ok(())
}
