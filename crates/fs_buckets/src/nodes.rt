//! The nodes of the destinations of a family's rules.

ghost use Rattle.std.specs.Prelude.{◌≡◌, ◌<◌, ◌≤◌, ◌^◌, ◌++◌, ◌∷◌, [], IfOk, IsTrue, OnOk, length};
ghost use Rattle.fs_base.specs.Bits.{width_of};
ghost use Rattle.fs_buckets.specs.{Addresses.{node_width, nodes_in}, Buckets.{AreAbove, AreChanged, AreOpened, beside, moved, node_at, parent_beside}};

use fs_base::{Family, Memory};
use std::alloc::Global;

/// A destination that rules have: its first address, the number of the first of these rules, and the next destination
/// that begins no later, which holds this one if any does.
#[derive(Clone, Copy, Drop)]
pub struct Node<K> {
    pub first: K,
    pub start: u32,
    pub parent: u32,
}

/// Nodes with addresses in the width of their family.
#[derive(Drop)]
pub enum Nodes {
    V4(Vec<Node<u32>>),
    V6(Vec<Node<u128>>),
}

impl Nodes {
    /// No nodes, with room for so many.
    pub(crate) fn with_room(alloc: Global, family: Family, room: usize) -> Result<Nodes, Memory>
        ensures none { IfOk result (λ nodes. nodes_in nodes ≡ []) }
        ensures width { IfOk result (λ nodes. node_width nodes ≡ width_of family) }
    {
        match family {
            Family::V4 => Ok(Nodes::V4(Vec::with_capacity(alloc, room)?)),
            Family::V6 => Ok(Nodes::V6(Vec::with_capacity(alloc, room)?)),
        }
    }

    /// The node at a place.
    #[inline(always)]
    pub fn at(&self, place: usize) -> Node<u128>
        requires { place < length (nodes_in self.now) }
        ensures { result ≡ node_at (nodes_in self.now) place }
    {
        match self {
            Nodes::V4(items) => widened(items[place]),
            Nodes::V6(items) => items[place],
        }
    }

    /// Adds a node, whose address has the width of the others.
    #[inline(always)]
    pub(crate) fn push(&mut self, node: Node<u128>) -> Result<(), Memory>
        requires { node.first < 2 ^ node_width self.old }
        ensures ok { OnOk result (nodes_in self.new ≡ nodes_in self.old ++ node ∷ []) }
        ensures width { node_width self.new ≡ node_width self.old }
    {
        match self {
            Nodes::V4(items) => items.push(Node {
                first: node.first as u32,
                start: node.start,
                parent: node.parent,
            })?,
            Nodes::V6(items) => items.push(node)?,
        }
        Ok(())
    }

    /// Whether the address has the width of theirs.
    pub(crate) fn fits(&self, address: u128) -> bool
        ensures { IsTrue result → address < 2 ^ node_width self.now }
    {
        match self {
            Nodes::V4(_) => address < 1 << 32,
            Nodes::V6(_) => true,
        }
    }

    /// Puts a node at a place, whose address has the width of the others. Of the nodes before it those from `low` on lie
    /// within it.
    pub(crate) fn open(&mut self, place: usize, low: usize, node: Node<u128>) -> Result<(), Memory>
        requires within { place ≤ length (nodes_in self.old) }
        requires few { place < 2 ^ 32 }
        requires width { node.first < 2 ^ node_width self.old }
        ensures { OnOk result (AreOpened place low node (nodes_in self.old) (nodes_in self.new)) }
    {
        match self {
            Nodes::V4(items) => {
                let narrow = Node {
                    first: node.first as u32,
                    start: node.start,
                    parent: node.parent,
                };
                open_node(items, place, low, narrow)
            }
            Nodes::V6(items) => open_node(items, place, low, node),
        }
    }

    /// Moves the starts of the nodes from a place on by so many numbers down and so many up.
    pub(crate) fn shift(&mut self, from: usize, down: u32, up: u32)
        requires { AreAbove from down up (nodes_in self.old) }
        ensures { AreChanged from (length (nodes_in self.old)) (λ _. moved down up) (nodes_in self.old) (nodes_in self.new) }
    {
        match self {
            Nodes::V4(items) => shift_starts(items, from, down, up),
            Nodes::V6(items) => shift_starts(items, from, down, up),
        }
    }
}

fn shift_starts<K: Copy>(nodes: &mut [Node<K>], from: usize, down: u32, up: u32)
    requires { AreAbove from down up nodes.old }
    ensures { AreChanged from (length nodes.old) (λ _. moved down up) nodes.old nodes.new }
{
    for place in from..nodes.len() {
        nodes[place].start = nodes[place].start - down + up;
    }
}

fn open_node<K: Copy + Drop>(
    nodes: &mut Vec<Node<K>>,
    place: usize,
    low: usize,
    node: Node<K>,
) -> Result<(), Memory>
    requires within { place ≤ length nodes.old.items }
    requires few { place < 2 ^ 32 }
    ensures { OnOk result (AreOpened place low node nodes.old.items nodes.new.items) }
{
    name_parents(nodes, place, low);
    nodes.insert(place, node)?;
    Ok(())
}

/// Names the parents of the nodes anew where another is put at a place.
fn name_parents<K: Copy>(nodes: &mut [Node<K>], place: usize, low: usize)
    requires { place < 2 ^ 32 }
    ensures { AreChanged 0 (length nodes.old) (beside place low) nodes.old nodes.new }
{
    for number in 0..nodes.len() {
        nodes[number].parent = parent_beside(nodes[number].parent, number, place, low);
    }
}

/// The parent of the node of a number where another node is put at a place.
#[inline(always)]
fn parent_beside(parent: u32, number: usize, place: usize, low: usize) -> u32
    requires { place < 2 ^ 32 }
    ensures { result ≡ parent_beside place low number parent }
{
    if (parent as usize) < place {
        parent
    } else if number < low || place <= number {
        parent.wrapping_add(1)
    } else {
        place as u32
    }
}

fn widened(node: Node<u32>) -> Node<u128>
    ensures { result ≡ node }
{
    Node {
        first: node.first.into(),
        start: node.start,
        parent: node.parent,
    }
}
