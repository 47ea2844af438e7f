//! The flow routes of one destination, or those without one, in blocks.

ghost use Rattle.std.specs.Prelude.{◌≡◌, ◌≤◌, ◌+◌, ◌<◌, ◌==◌, ◌↔◌, nat_le, not, true, false, [], ◌∷◌, OnOk, OnErr, IfOk, map, filter, length};
ghost use Rattle.std.specs.List.{list_any, AllByRecursion};
ghost use Rattle.fs_flows.specs.Table.{is_key};
ghost use Rattle.fs_flows.specs.Group.{put_kept, rejudged, retested_to, has_key, AreSorted, AreJudged, AreRightTo, routes_of, is_other_key};
ghost use Rattle.fs_flows.specs.Group.{is_of_other};
ghost use Rattle.fs_flows.specs.Blocks.{flat, AreCut, IsCut, block_of, keep_blocks, CanCut, cut_list};

use crate::block::Block;
use crate::kept::Kept;
use fs_base::{Config, Memory, Prefix, Steps};
use fs_nlri::Rule;
use fs_unicast::Unicast;
use fs_validate::{Basis, basis_of};
use std::alloc::Global;
use std::marker::Model;
use std::sync::ledger::Ledger;
use std::{mem, slice};

/// A group of as many routes is kept in blocks that are cut in two.
const MANY: usize = 256;

/// A block is cut in two when it has come to a multiple of as many routes.
const FULL: usize = 512;

/// A group with a block of as many routes is one of many.
const LARGE: usize = 16;

/// The number of the block in which the rule has its place: the last that begins with it or with an earlier one, or
/// else the first.
fn block_of(blocks: &[Block], rule: &Rule) -> usize
    requires cut { IsCut blocks.now }
    ensures place { result ≡ block_of rule.now blocks.now }
    ensures inside { 0 < length blocks.now → result < length blocks.now }
{
    match blocks {
        [_, later @ ..] => later.partition_point(|block| block.begins_by(rule)),
        [] => 0,
    }
}

/// Whether no block has a route.
fn are_empty(blocks: &[Block]) -> bool
    requires { IsCut blocks.now }
    ensures { result ≡ (length (flat blocks.now) == 0) }
{
    match blocks {
        [] => true,
        [block] => block.is_empty(),
        _ => false,
    }
}

/// Cuts the block in two at the place. Where memory is refused nothing changes.
fn cut_at(blocks: &mut Vec<Block>, number: usize, place: usize) -> Result<(), Memory>
    requires number { number < length blocks.old.items }
    requires place { CanCut number place blocks.old.items }
    ensures ok { OnOk result (blocks.new.items ≡ cut_list number place blocks.old.items) }
    ensures err { OnErr result (blocks.new.items ≡ blocks.old.items) }
{
    let empty = Block::new(*blocks.allocator());
    blocks.insert(number + 1, empty)?;
    match blocks[number].split_off(place) {
        Ok(back) => {
            blocks[number + 1] = back;
            Ok(())
        }
        Err(memory) => {
            blocks.remove(number + 1);
            Err(memory)
        }
    }
}

/// Cuts the block in two between its rules, where it is full and has more than one. Where memory is refused it stays
/// whole.
fn cut(blocks: &mut Vec<Block>, number: usize)
    requires number { number < length blocks.old.items }
    requires cut { IsCut blocks.old.items }
    requires sorted { AreSorted (routes_of (flat blocks.old.items)) }
    ensures same { flat blocks.new.items ≡ flat blocks.old.items }
    ensures cut { IsCut blocks.new.items }
{
    if blocks[number].len() % FULL != 0 {
        return;
    }
    let place = blocks[number].border();
    if place > 0 {
        let _ = cut_at(blocks, number, place);
    }
}

/// Keeps the route in its place, instead of one of its key, and tells whether there was none. Where memory is refused
/// nothing changes.
fn put_among(blocks: &mut Vec<Block>, k: Kept) -> Result<bool, Memory>
    requires cut { IsCut blocks.old.items }
    requires sorted { AreSorted (routes_of (flat blocks.old.items)) }
    ensures ok { OnOk result (flat blocks.new.items ≡ put_kept k (flat blocks.old.items)) }
    ensures fresh { IfOk result (λ is_new. is_new ≡ not (has_key k.route.rule k.route.peer (flat blocks.old.items))) }
    ensures err { OnErr result (flat blocks.new.items ≡ flat blocks.old.items) }
    ensures cut { IsCut blocks.new.items }
{
    if blocks.is_empty() {
        return begin(blocks, k);
    }
    let number = block_of(blocks, &k.route().rule);
    let is_new = blocks[number].put(k)?;
    cut(blocks, number);
    Ok(is_new)
}

/// Keeps the route in a first block.
fn begin(blocks: &mut Vec<Block>, k: Kept) -> Result<bool, Memory>
    requires { blocks.old.items ≡ [] }
    ensures ok { OnOk result (blocks.new.items ≡ (k ∷ []) ∷ []) }
    ensures new { IfOk result (λ is_new. is_new ≡ true) }
    ensures err { OnErr result (blocks.new.items ≡ []) }
{
    let mut block = Block::new(*blocks.allocator());
    block.put(k)?;
    blocks.push(block)?;
    Ok(true)
}

/// Takes the route of the key away, and tells whether there was one.
fn take_among(blocks: &mut Vec<Block>, rule: &Rule, peer: u16) -> bool
    requires cut { IsCut blocks.old.items }
    requires sorted { AreSorted (routes_of (flat blocks.old.items)) }
    ensures taken { flat blocks.new.items ≡ filter (is_other_key rule.now peer) (flat blocks.old.items) }
    ensures held { result ≡ list_any (λ k. is_key rule.now peer k.route) (flat blocks.old.items) }
    ensures cut { IsCut blocks.new.items }
{
    if blocks.is_empty() {
        return false;
    }
    let number = block_of(blocks, rule);
    let block = &mut blocks[number];
    let held = block.take(rule, peer);
    if block.is_empty() {
        blocks.remove(number);
    }
    held
}

/// Takes out of each block what the peer gave.
fn forget_each(blocks: &mut Vec<Block>, peer: u16)
    ensures { blocks.new.items ≡ keep_blocks (is_of_other peer) blocks.old.items }
{
    blocks.retain_mut(|block| {
        block.forget(peer);
        !block.is_empty()
    });
}

/// Validates each route anew, all to the destination of this basis, and tells whether a validity is another than
/// before.
fn retest_each(blocks: &mut [Block], config: &Config, basis: &Basis<'_>) -> bool
    ensures retested { blocks.new
        ≡ map (map (rejudged config.now basis.now)) blocks.old }
    ensures told { (result ≡ false)
        ↔ AllByRecursion (AreJudged config.now basis.now) blocks.old }
{
    let mut changed = false;
    for block in blocks.iter_mut() {
        changed |= block.retest(config, basis);
    }
    changed
}

/// Whether one of the blocks is one of many routes.
fn have_many(blocks: &[Block]) -> bool
    ensures { result ≡ list_any (λ block. nat_le 16 (length block)) blocks.now }
{
    blocks.iter().any(|block| block.len() >= LARGE)
}

/// A block as the only one of a list. Where memory is refused nothing changes.
fn list_of(block: &mut Block) -> Result<Vec<Block>, Memory>
    ensures ok { IfOk result (λ blocks. blocks.items ≡ block.old ∷ []) }
    ensures err { OnErr result (block.new ≡ block.old) }
{
    let alloc = block.allocator();
    let mut blocks = Vec::new(alloc);
    blocks.push(Block::new(alloc))?;
    mem::swap(&mut blocks[0], block);
    Ok(blocks)
}

/// The flow routes of one destination, or those without one, in the order of rules and then by peer. A few are kept
/// in one block, as those of most groups are, and many in blocks that are cut only between rules.
#[derive(Drop)]
pub struct Group {
    blocks: Blocks,
}

#[derive(Drop)]
enum Blocks {
    One(Block),
    Many(Vec<Block>),
}

impl Model for Group {
    ghost use Rattle.std.specs.Prelude.{List};
    ghost use Rattle.fs_flows.specs.{Kept.{Kept}, Parts.{routes_in, AreWell}};

    ghost Value = { List Kept };

    ghost view = { λ a. routes_in a.blocks };

    ghost invariant = { λ a. AreWell a.blocks };
}

impl Group {
    pub(crate) fn new(alloc: Global) -> Group
        ensures { result ≡ [] }
    {
        Group {
            blocks: Blocks::One(Block::new(alloc)),
        }
    }

    pub(crate) fn allocator(&self) -> Global {
        match &self.blocks {
            Blocks::One(block) => block.allocator(),
            Blocks::Many(blocks) => *blocks.allocator(),
        }
    }

    /// The routes in blocks, one behind the other.
    pub fn blocks(&self) -> &[Block]
        ensures routes { flat result.now ≡ self.now }
        ensures cut { AreCut result.now }
    {
        match &self.blocks {
            Blocks::One(block) => slice::from_ref(block),
            Blocks::Many(blocks) => blocks.as_slice(),
        }
    }

    pub(crate) fn is_empty(&self) -> bool
        ensures { result ≡ (length self.now == 0) }
    {
        match &self.blocks {
            Blocks::One(block) => block.is_empty(),
            Blocks::Many(blocks) => are_empty(blocks),
        }
    }

    /// Whether there are many routes. Mostly the first block tells.
    pub(crate) fn has_many(&self) -> bool
        ensures { result ≡ true → 16 ≤ length self.now }
    {
        match &self.blocks {
            Blocks::One(block) => block.len() >= LARGE,
            Blocks::Many(blocks) => have_many(blocks),
        }
    }

    /// Keeps many routes in a list of blocks.
    fn widen(&mut self) -> Result<(), Memory>
        ensures { self.new ≡ self.old }
    {
        if let Blocks::One(block) = &mut self.blocks {
            if block.len() >= MANY {
                let blocks = list_of(block)?;
                self.blocks = Blocks::Many(blocks);
            }
        }
        Ok(())
    }

    /// Keeps the route in its place, instead of one of its key, and tells whether there was none. Where memory is
    /// refused nothing changes.
    pub(crate) fn put(&mut self, k: Kept) -> Result<bool, Memory>
        requires { AreSorted (routes_of self.old) }
        ensures ok { OnOk result (self.new ≡ put_kept k self.old) }
        ensures fresh { IfOk result (λ is_new. is_new ≡ not (has_key k.route.rule k.route.peer self.old)) }
        ensures err { OnErr result (self.new ≡ self.old) }
    {
        self.widen()?;
        match &mut self.blocks {
            Blocks::One(block) => block.put(k),
            Blocks::Many(blocks) => put_among(blocks, k),
        }
    }

    /// Takes the route of the key away, and tells whether there was one.
    pub(crate) fn take(&mut self, rule: &Rule, peer: u16) -> bool
        requires { AreSorted (routes_of self.old) }
        ensures taken { self.new ≡ filter (is_other_key rule.now peer) self.old }
        ensures held { result ≡ list_any (λ k. is_key rule.now peer k.route) self.old }
    {
        match &mut self.blocks {
            Blocks::One(block) => block.take(rule, peer),
            Blocks::Many(blocks) => take_among(blocks, rule, peer),
        }
    }

    /// Takes away what the peer gave.
    pub(crate) fn forget(&mut self, peer: u16)
        ensures { self.new ≡ filter (is_of_other peer) self.old }
    {
        match &mut self.blocks {
            Blocks::One(block) => block.forget(peer),
            Blocks::Many(blocks) => forget_each(blocks, peer),
        }
    }

    /// Validates each route anew, all to the destination, and tells whether a validity is another than before. The
    /// unicast routes are looked up once. At most one step, and none without a route.
    pub(crate) fn retest<L: Ledger>(
        &mut self,
        destination: &Prefix,
        unicast: &Unicast,
        config: &Config,
        steps: &mut Steps<L>,
    ) -> bool
        ensures retested { self.new ≡ map (retested_to unicast.now config.now destination.now) self.old }
        ensures told { (result ≡ false) ↔ AreRightTo unicast.now config.now destination.now self.old }
        ensures later { steps.old ≤ steps.new }
        ensures step { steps.new ≤ steps.old + 1 }
        ensures steps { steps.new ≤ steps.old + length self.old }
    {
        if self.is_empty() {
            return false;
        }
        let basis = basis_of(unicast, config, destination, steps);
        self.rejudge(config, &basis)
    }

    /// Validates each route anew, all to the destination of this basis, and tells whether a validity is another than
    /// before.
    fn rejudge(&mut self, config: &Config, basis: &Basis<'_>) -> bool
        ensures retested { self.new
            ≡ map (rejudged config.now basis.now) self.old }
        ensures told { (result ≡ false)
            ↔ AreJudged config.now basis.now self.old }
    {
        match &mut self.blocks {
            Blocks::One(block) => block.retest(config, basis),
            Blocks::Many(blocks) => retest_each(blocks, config, basis),
        }
    }
}
