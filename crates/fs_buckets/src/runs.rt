//! Runs of rules with one destination, and the destinations that hold them.

ghost use Rattle.std.specs.Prelude.{◌≡◌, ◌<◌, ◌≤◌, ◌+◌, ◌-◌, ◌++◌, ◌∷◌, ◌^◌, [], ℕ, List, Option, Some, None, OnOk, IfOk, IsTrue, get_or, length};
ghost use Rattle.fs_base.specs.Bits.{width_of};
ghost use Rattle.fs_buckets.specs.{Addresses.{numbers_in, nodes_in, width_in}, Destinations.{spans_of, AreAll, AreNarrow}};
ghost use Rattle.fs_buckets.specs.Housed.{Adds, Keeps, Mends, AreSound};
ghost use Rattle.fs_buckets.specs.Runs.{AreNodes, ArePlain, EndsWith, Joined, Opened, RunsOf};
ghost use Rattle.fs_rules.specs.Lent.{all_admitted};

use crate::addresses::Addresses;
use crate::buckets::Buckets;
use crate::nodes::{Node, Nodes};
use fs_base::{Family, Memory};
use fs_rules::LentRule;
use std::alloc::Global;

/// Runs of rules with one destination, in the order of rules: by their first and last addresses and by the numbers at
/// which they start, with the run of each rule.
#[derive(Drop)]
pub(crate) struct Runs {
    pub(crate) firsts: Vec<u128>,
    pub(crate) lasts: Addresses,
    pub(crate) starts: Vec<u32>,
    pub(crate) homes: Vec<u32>,
}

impl Runs {
    /// No runs, with room for those of so many rules.
    fn with_room(alloc: Global, family: Family, room: usize) -> Result<Runs, Memory>
        ensures runs { IfOk result (λ runs. (spans : List (Option (ℕ × ℕ))) → RunsOf spans runs) }
        ensures none { IfOk result (λ runs. runs.homes.items ≡ []) }
        ensures width { IfOk result (λ runs. width_in runs.lasts ≡ width_of family) }
    {
        Ok(Runs {
            firsts: Vec::with_capacity(alloc, room)?,
            lasts: Addresses::with_room(alloc, family, room)?,
            starts: Vec::with_capacity(alloc, room)?,
            homes: Vec::with_capacity(alloc, room)?,
        })
    }
}

/// The runs of the rules that have a destination. They stand before those that have none.
pub(crate) fn runs_of(alloc: Global, family: Family, list: &[LentRule<'_>]) -> Result<Runs, Memory>
    requires few { length list.now < 2 ^ 32 }
    requires narrow { AreNarrow (width_of family) (spans_of (all_admitted list.now)) }
    ensures runs { IfOk result (RunsOf (spans_of (all_admitted list.now))) }
    ensures few { IfOk result (λ runs. length runs.homes.items ≤ length list.now) }
    ensures rest { IfOk result (λ runs.
        get_or (spans_of (all_admitted list.now)) (length runs.homes.items) None ≡ None) }
{
    let mut runs = Runs::with_room(alloc, family, list.len())?;
    add_each(&mut runs, list)?;
    Ok(runs)
}

/// The runs of the rules of these buckets, with those of the list in the place of the rules from the number `from` on
/// before `to`.
pub(crate) fn mended_runs(
    alloc: Global,
    family: Family,
    old: &Buckets,
    from: usize,
    to: usize,
    list: &[LentRule<'_>],
) -> Result<Runs, Memory>
    requires sound { AreSound old.now (length old.now.homes.items) }
    requires bounds { (from ≤ to) × (to ≤ length old.now.homes.items) }
    requires fits { from + length list.now + length old.now.homes.items < 2 ^ 32 + to }
    requires each { AreAll (spans_of (all_admitted list.now)) }
    requires some { (spans : List (Option (ℕ × ℕ)))
        × Mends old.now from to (spans_of (all_admitted list.now)) spans
        × AreNarrow (width_of family) spans }
    ensures runs { IfOk result (λ runs.
        (spans : List (Option (ℕ × ℕ)))
        → Mends old.now from to (spans_of (all_admitted list.now)) spans
        → RunsOf spans runs) }
    ensures count { IfOk result (λ runs.
        length runs.homes.items + to ≡ from + length list.now + length old.now.homes.items) }
{
    let room = old.homes.len() - (to - from) + list.len();
    let mut runs = Runs::with_room(alloc, family, room)?;
    keep_runs(&mut runs, old, 0, from)?;
    add_each(&mut runs, list)?;
    keep_runs(&mut runs, old, to, old.homes.len())?;
    Ok(runs)
}

/// Adds the rules of these buckets from one number on before another.
fn keep_runs(runs: &mut Runs, old: &Buckets, from: usize, to: usize) -> Result<(), Memory>
    requires sound { AreSound old.now (length old.now.homes.items) }
    requires bounds { (from ≤ to) × (to ≤ length old.now.homes.items) }
    requires fits { length runs.old.homes.items + to < 2 ^ 32 + from }
    requires some { (spans : List (Option (ℕ × ℕ)))
        × RunsOf spans runs.old
        × Keeps old.now from to (length runs.old.homes.items) spans
        × AreNarrow (width_in runs.old.lasts) spans }
    ensures runs { OnOk result ((spans : List (Option (ℕ × ℕ)))
        → RunsOf spans runs.old
        → Keeps old.now from to (length runs.old.homes.items) spans
        → RunsOf spans runs.new) }
    ensures count { OnOk result (length runs.new.homes.items + from ≡ length runs.old.homes.items + to) }
    ensures width { width_in runs.new.lasts ≡ width_in runs.old.lasts }
{
    for number in from..to {
        let bucket = old.homes[number] as usize;
        add(runs, old.nodes.at(bucket).first, old.lasts.at(bucket))?;
    }
    Ok(())
}

/// Adds the rules that have a destination. They stand before those that have none.
fn add_each(runs: &mut Runs, list: &[LentRule<'_>]) -> Result<(), Memory>
    requires fits { length runs.old.homes.items + length list.now < 2 ^ 32 }
    requires some { (spans : List (Option (ℕ × ℕ)))
        × RunsOf spans runs.old
        × Adds (spans_of (all_admitted list.now)) (length runs.old.homes.items) spans
        × AreNarrow (width_in runs.old.lasts) spans }
    ensures runs { OnOk result ((spans : List (Option (ℕ × ℕ)))
        → RunsOf spans runs.old
        → Adds (spans_of (all_admitted list.now)) (length runs.old.homes.items) spans
        → RunsOf spans runs.new) }
    ensures more { OnOk result (length runs.old.homes.items ≤ length runs.new.homes.items) }
    ensures few { OnOk result (length runs.new.homes.items ≤ length runs.old.homes.items + length list.now) }
    ensures rest { OnOk result (get_or
        (spans_of (all_admitted list.now))
        (length runs.new.homes.items - length runs.old.homes.items)
        None
        ≡ None) }
    ensures width { width_in runs.new.lasts ≡ width_in runs.old.lasts }
{
    for admitted in list {
        let Some(destination) = admitted.rule.destination() else {
            return Ok(());
        };
        add(runs, destination.bits, destination.last())?;
    }
    Ok(())
}

/// Adds a rule with a destination of these addresses.
#[inline(always)]
fn add(runs: &mut Runs, first: u128, last: u128) -> Result<(), Memory>
    requires sizes { length runs.old.firsts.items ≡ length (numbers_in runs.old.lasts) }
    requires few { length (numbers_in runs.old.lasts) ≤ length runs.old.homes.items }
    requires fits { length runs.old.homes.items + 1 < 2 ^ 32 }
    requires width { last < 2 ^ width_in runs.old.lasts }
    ensures runs { OnOk result ((spans : List (Option (ℕ × ℕ)))
        → RunsOf spans runs.old
        → get_or spans (length runs.old.homes.items) None ≡ Some (first, last)
        → RunsOf spans runs.new) }
    ensures one { OnOk result (length runs.new.homes.items ≡ length runs.old.homes.items + 1) }
    ensures width { width_in runs.new.lasts ≡ width_in runs.old.lasts }
{
    if ends_with(runs, first, last) {
        join(runs)
    } else {
        open(runs, first, last)
    }
}

/// Whether the last run has these addresses.
#[inline(always)]
fn ends_with(runs: &Runs, first: u128, last: u128) -> bool
    requires sizes { length runs.now.firsts.items ≡ length (numbers_in runs.now.lasts) }
    ensures { IsTrue result → EndsWith runs.now first last }
{
    let count = runs.firsts.len();
    count > 0 && runs.firsts[count - 1] == first && runs.lasts.at(count - 1) == last
}

/// Adds a rule to the last run.
#[inline(always)]
fn join(runs: &mut Runs) -> Result<(), Memory>
    requires some { 0 < length (numbers_in runs.old.lasts) }
    requires few { length (numbers_in runs.old.lasts) ≤ length runs.old.homes.items }
    requires fits { length runs.old.homes.items + 1 < 2 ^ 32 }
    ensures same { OnOk result (Joined runs.old runs.new) }
    ensures width { width_in runs.new.lasts ≡ width_in runs.old.lasts }
{
    let run = runs.lasts.len() - 1;
    runs.homes.push(run as u32)?;
    Ok(())
}

/// Adds a rule with a run of its own.
#[inline(always)]
fn open(runs: &mut Runs, first: u128, last: u128) -> Result<(), Memory>
    requires few { length (numbers_in runs.old.lasts) ≤ length runs.old.homes.items }
    requires fits { length runs.old.homes.items + 1 < 2 ^ 32 }
    requires width { last < 2 ^ width_in runs.old.lasts }
    ensures opened { OnOk result (Opened runs.old first last runs.new) }
    ensures width { width_in runs.new.lasts ≡ width_in runs.old.lasts }
{
    let run = runs.lasts.len() as u32;
    let start = runs.homes.len() as u32;
    runs.firsts.push(first)?;
    runs.lasts.push(last)?;
    runs.starts.push(start)?;
    runs.homes.push(run)?;
    Ok(())
}

/// The parents of runs by their first addresses: the next that begins no later, or how many there are.
pub(crate) fn parents_of(alloc: Global, firsts: &[u128]) -> Result<Vec<u32>, Memory>
    requires { length firsts.now < 2 ^ 32 }
    ensures size { IfOk result (λ parents. length parents.items ≡ length firsts.now) }
    ensures plain { IfOk result (λ parents. ArePlain firsts.now parents.items 0) }
{
    let mut parents = vec![in alloc; 0u32; firsts.len()]?;
    fill_parents(firsts, &mut parents);
    Ok(parents)
}

fn fill_parents(firsts: &[u128], parents: &mut [u32])
    requires size { length parents.old ≡ length firsts.now }
    requires fits { length firsts.now < 2 ^ 32 }
    ensures size { length parents.new ≡ length firsts.now }
    ensures plain { ArePlain firsts.now parents.new 0 }
{
    let mut run = firsts.len();
    while run > 0 {
        run -= 1;
        parents[run] = parent_of(firsts, parents, run) as u32;
    }
}

/// The next run that begins no later, or how many there are.
fn parent_of(firsts: &[u128], parents: &[u32], run: usize) -> usize
    requires size { length parents.now ≡ length firsts.now }
    requires inside { run < length firsts.now }
    requires plain { ArePlain firsts.now parents.now (run + 1) }
    ensures after { run < result }
    ensures within { result ≤ length firsts.now }
    ensures least { (j : ℕ) → run < j → j < result → get_or firsts.now run 0 < get_or firsts.now j 0 }
{
    let mut parent = run + 1;
    while parent < firsts.len() && firsts[run] < firsts[parent] {
        parent = parents[parent] as usize;
    }
    parent
}

/// The nodes of runs with these parents.
pub(crate) fn nodes_of(
    alloc: Global,
    family: Family,
    runs: &Runs,
    parents: &[u32],
) -> Result<Nodes, Memory>
    requires firsts { length runs.now.firsts.items ≡ length parents.now }
    requires starts { length runs.now.starts.items ≡ length parents.now }
    requires fits { length runs.now.homes.items < 2 ^ 32 }
    requires few { length parents.now < 2 ^ 32 }
    requires width { (i : ℕ)
        → i < length runs.now.firsts.items
        → get_or runs.now.firsts.items i 0 < 2 ^ width_of family }
    ensures { IfOk result (λ nodes.
        AreNodes
        runs.now.firsts.items
        runs.now.starts.items
        parents.now
        (length runs.now.homes.items)
        (nodes_in nodes)) }
{
    let mut nodes = Nodes::with_room(alloc, family, parents.len() + 1)?;
    for run in 0..parents.len() {
        nodes.push(Node {
            first: runs.firsts[run],
            start: runs.starts[run],
            parent: parents[run],
        })?;
    }
    nodes.push(Node {
        first: 0,
        start: runs.homes.len() as u32,
        parent: parents.len() as u32,
    })?;
    Ok(nodes)
}
