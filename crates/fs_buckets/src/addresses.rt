//! Lists of addresses, in the width of their family.

ghost use Rattle.std.specs.{Prelude.{◌≡◌, ◌<◌, ◌≤◌, ◌+◌, ◌^◌, ◌++◌, ◌∷◌, [], ℕ, IsTrue, IfOk, OnOk, get_or, length}, List.{insert}};
ghost use Rattle.fs_base.specs.Bits.{width_of};
ghost use Rattle.fs_buckets.specs.{Addresses.{numbers_in, width_in, number_of}, Between.{IsBetween, IsPlaceOf}, Buckets.{AreRising}};

use crate::marks::Marks;
use fs_base::{Address, Family, Memory};
use std::alloc::Global;

/// Addresses of a family, in host order.
#[derive(Drop)]
pub enum Addresses {
    V4(Vec<u32>),
    V6(Vec<u128>),
}

impl Addresses {
    /// No addresses, with room for so many.
    pub(crate) fn with_room(alloc: Global, family: Family, room: usize) -> Result<Addresses, Memory>
        ensures none { IfOk result (λ addresses. numbers_in addresses ≡ []) }
        ensures width { IfOk result (λ addresses. width_in addresses ≡ width_of family) }
    {
        match family {
            Family::V4 => Ok(Addresses::V4(Vec::with_capacity(alloc, room)?)),
            Family::V6 => Ok(Addresses::V6(Vec::with_capacity(alloc, room)?)),
        }
    }

    /// How many there are.
    #[inline(always)]
    pub fn len(&self) -> usize
        ensures { result ≡ length (numbers_in self.now) }
    {
        match self {
            Addresses::V4(items) => items.len(),
            Addresses::V6(items) => items.len(),
        }
    }

    /// The address at a place.
    #[inline(always)]
    pub fn at(&self, place: usize) -> u128
        requires { place < length (numbers_in self.now) }
        ensures { result ≡ get_or (numbers_in self.now) place 0 }
    {
        match self {
            Addresses::V4(items) => items[place].into(),
            Addresses::V6(items) => items[place],
        }
    }

    /// Adds an address, which has the width of the others.
    #[inline(always)]
    pub(crate) fn push(&mut self, address: u128) -> Result<(), Memory>
        requires { address < 2 ^ width_in self.old }
        ensures ok { OnOk result (numbers_in self.new ≡ numbers_in self.old ++ address ∷ []) }
        ensures width { width_in self.new ≡ width_in self.old }
    {
        match self {
            Addresses::V4(items) => items.push(address as u32)?,
            Addresses::V6(items) => items.push(address)?,
        }
        Ok(())
    }

    /// Whether the address has the width of the others.
    pub(crate) fn fits(&self, address: u128) -> bool
        ensures { IsTrue result → address < 2 ^ width_in self.now }
    {
        match self {
            Addresses::V4(_) => address < 1 << 32,
            Addresses::V6(_) => true,
        }
    }

    /// Puts an address, which has the width of the others, at a place.
    pub(crate) fn insert(&mut self, place: usize, address: u128) -> Result<(), Memory>
        requires within { place ≤ length (numbers_in self.old) }
        requires width { address < 2 ^ width_in self.old }
        ensures { OnOk result (numbers_in self.new ≡ insert (numbers_in self.old) place address) }
    {
        match self {
            Addresses::V4(items) => items.insert(place, address as u32)?,
            Addresses::V6(items) => items.insert(place, address)?,
        }
        Ok(())
    }

    /// The first 64 bits of one of IPv6, all of one of IPv4.
    #[inline(always)]
    pub(crate) fn front(&self, place: usize) -> u64
        requires { place < length (numbers_in self.now) }
    {
        match self {
            Addresses::V4(items) => items[place].into(),
            Addresses::V6(items) => (items[place] >> 64) as u64,
        }
    }

    /// The place of the first that isn't below the address, or how many there are.
    pub(crate) fn find(&self, address: u128) -> usize
        requires { AreRising (numbers_in self.now) }
        ensures { IsPlaceOf (numbers_in self.now) address (length (numbers_in self.now)) result }
    {
        match self {
            Addresses::V4(items) => find_narrow(items, address),
            Addresses::V6(items) => find_wide(items, 0, items.len(), address),
        }
    }

    /// The place of the first that isn't below the address, or how many there are; these marks are likely to tell
    /// between which places that is.
    #[inline(always)]
    pub fn find_marked(&self, marks: &Marks, address: Address) -> usize
        requires { AreRising (numbers_in self.now) }
        ensures { IsPlaceOf (numbers_in self.now) (number_of address) (length (numbers_in self.now)) result }
    {
        match (self, address) {
            (Addresses::V4(items), Address::V4(address)) => {
                let (from, to) = self.around(marks, address.into(), address.into());
                find_in_width(items, from, to, address)
            }
            (Addresses::V6(items), Address::V6(address)) => {
                let (from, to) = self.around(marks, (address >> 64) as u64, address);
                find_wide(items, from, to, address)
            }
            (Addresses::V4(_), Address::V6(address)) => self.find(address),
            (Addresses::V6(_), Address::V4(address)) => self.find(address.into()),
        }
    }

    /// Between which places the first stands that isn't below the address, of these first bits: those of the marks, where
    /// they are right, or all.
    #[inline(always)]
    fn around(&self, marks: &Marks, front: u64, address: u128) -> (usize, usize)
        requires { AreRising (numbers_in self.now) }
        ensures { IsBetween (numbers_in self.now) address result.0 result.1 }
    {
        let (from, to) = marks.guess(front, self.len());
        if from <= to
            && to <= self.len()
            && self.are_below(from, address)
            && self.are_from(to, address)
        {
            (from, to)
        } else {
            (0, self.len())
        }
    }

    /// Whether all before the place are below the address.
    #[inline(always)]
    #[tactic(auto, using(crate::proofs::Finding::rises))]
    fn are_below(&self, place: usize, address: u128) -> bool
        requires rising { AreRising (numbers_in self.now) }
        requires within { place ≤ length (numbers_in self.now) }
        ensures { IsTrue result → (b : ℕ) → b < place → get_or (numbers_in self.now) b 0 < address }
    {
        place == 0 || self.at(place - 1) < address
    }

    /// Whether none from the place on is below the address.
    #[inline(always)]
    #[tactic(auto, using(crate::proofs::Finding::rises))]
    fn are_from(&self, place: usize, address: u128) -> bool
        requires { AreRising (numbers_in self.now) }
        ensures { IsTrue result
            → (b : ℕ)
            → place ≤ b
            → b < length (numbers_in self.now)
            → address ≤ get_or (numbers_in self.now) b 0 }
    {
        place >= self.len() || address <= self.at(place)
    }
}

fn find_narrow(items: &[u32], address: u128) -> usize
    requires { AreRising items.now }
    ensures { IsPlaceOf items.now address (length items.now) result }
{
    match u32::try_from(address) {
        Ok(address) => find_in_width(items, 0, items.len(), address),
        Err(_) => find_widened(items, address),
    }
}

/// Among so many addresses the place is counted: a jump that nobody can foretell costs more than they do.
const FEW: usize = 16;

/// The place among addresses of IPv4 of one of them, which lies from one place on up to another. It is compared in its
/// own 32 bits, and halves without a jump.
fn find_in_width(items: &[u32], from: usize, to: usize, address: u32) -> usize
    requires rising { AreRising items.now }
    requires between { IsBetween items.now address from to }
    ensures { IsPlaceOf items.now address (length items.now) result }
{
    let mut place = from;
    let mut size = to - from;
    'halves: while size > FEW {
        let half = size / 2;
        place += half * (items[place + half - 1] < address) as usize;
        size -= half;
    }
    count_below(items, place, place + size, address)
}

/// The place of the first that isn't below the address, which lies from one place on up to another.
fn count_below(items: &[u32], from: usize, to: usize, address: u32) -> usize
    requires rising { AreRising items.now }
    requires between { IsBetween items.now address from to }
    requires few { to ≤ from + 16 }
    ensures { IsPlaceOf items.now address (length items.now) result }
{
    // in the width of the addresses, so that several are compared at once
    let mut count = 0u32;
    for number in from..to {
        count += (items[number] < address) as u32;
    }
    from + count as usize
}

/// The place among addresses of IPv4 of a number that may have more bits.
fn find_widened(items: &[u32], address: u128) -> usize
    requires { AreRising items.now }
    ensures within { result ≤ length items.now }
    ensures below { (b : ℕ) → b < result → get_or items.now b 0 < address }
    ensures from { (b : ℕ) → result ≤ b → b < length items.now → address ≤ get_or items.now b 0 }
{
    items.partition_point(|item| u128::from(*item) < address)
}

/// The place among addresses of IPv6 of one of them, which lies from one place on up to another.
fn find_wide(items: &[u128], from: usize, to: usize, address: u128) -> usize
    requires rising { AreRising items.now }
    requires between { IsBetween items.now address from to }
    ensures { IsPlaceOf items.now address (length items.now) result }
{
    let mut place = from;
    let mut size = to - from;
    'halves: while size > 0 {
        let half = (size + 1) / 2;
        place += half * (items[place + half - 1] < address) as usize;
        size /= 2;
    }
    place
}
