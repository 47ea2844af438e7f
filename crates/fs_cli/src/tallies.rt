//! What is counted of a tape: its items, their moments, and what is counted of each peer.

ghost use Rattle.std.specs.Prelude.{◌≡◌, ◌+◌, ◌*◌, ◌-◌, ◌<◌, ◌≤◌, ◌^◌, ◌==◌, ℕ, List, length, if◌then◌else◌};
ghost use Rattle.fs_tape.specs.{Header.{longest_payload}, Tape.{item_from}};
ghost use Rattle.fs_cli.specs.TapeCheck.{IsSmall, peer_of_item, span_with, tally_at, tally_with};

use fs_base::Memory;
use fs_tape::TapeItem;
use std::alloc::Global;
use std::marker::Model;

/// How many numbers there are for peers.
const NUMBERS: usize = 65536;

/// What is counted of a peer: its items, the octets that it sent, and whether it is up.
#[derive(Clone, Copy, Drop)]
pub(crate) struct Tally {
    pub(crate) items: u64,
    pub(crate) octets: u128,
    pub(crate) up: bool,
}

/// Of which peer an item is.
fn peer_of(item: TapeItem) -> u16
    ensures { (into : List ℕ) → result ≡ peer_of_item (item_from item into) }
{
    match item {
        TapeItem::Up(peer) => peer,
        TapeItem::Octets(peer, _) => peer,
        TapeItem::Lost(peer) => peer,
    }
}

/// An item more of a peer.
fn tally_with(item: TapeItem, tally: Tally) -> Tally
    requires items { tally.items < 2 ^ 64 - 1 }
    requires octets { tally.octets ≤ 65536 * tally.items }
    requires fits { IsSmall item }
    ensures counts { (into : List ℕ) → longest_payload ≤ length into → result ≡ tally_with (item_from item into) tally }
    ensures items { result.items ≡ tally.items + 1 }
    ensures octets { result.octets ≤ 65536 * result.items }
{
    let items = tally.items + 1;
    match item {
        TapeItem::Up(_) => Tally {
            items,
            octets: tally.octets,
            up: true,
        },
        TapeItem::Octets(_, count) => Tally {
            items,
            octets: tally.octets + count as u128,
            up: tally.up,
        },
        TapeItem::Lost(_) => Tally {
            items,
            octets: tally.octets,
            up: false,
        },
    }
}

/// What is counted of the peer of this number.
fn tally_at(by_number: &Vec<Tally>, number: u16) -> Tally
    requires { length by_number.now.items ≡ 65536 }
    ensures { result ≡ tally_at by_number.now.items number }
{
    by_number[usize::from(number)]
}

/// From now on this is counted of the peer.
fn set(by_number: &mut Vec<Tally>, peer: u16, tally: Tally)
    requires { length by_number.old.items ≡ 65536 }
    ensures size { length by_number.new.items ≡ 65536 }
    ensures set { (number : ℕ) → tally_at by_number.new.items number
        ≡ (if number == peer then tally else tally_at by_number.old.items number) }
{
    by_number[usize::from(peer)] = tally;
}

/// The first moment and the last one, with one more.
fn span_with(span: Option<(u64, u64)>, moment: u64) -> Option<(u64, u64)>
    ensures { result ≡ span_with span moment }
{
    match span {
        None => Some((moment, moment)),
        Some((first, _)) => Some((first, moment)),
    }
}

/// What is counted of the items of a tape so far: how many there are, the first moment and the last one, and what is
/// counted of each peer.
#[derive(Drop)]
pub(crate) struct Counts {
    items: u64,
    span: Option<(u64, u64)>,
    by_number: Vec<Tally>,
}

impl Model for Counts {
    ghost use Rattle.std.specs.Prelude.{◌≡◌, ℕ, length};
    ghost use Rattle.fs_cli.specs.TapeCheck.{CountsState, IsWithin, tally_at};

    ghost Value = { CountsState };

    ghost view = { λ c. record { items = c.items; span = c.span; by_number = c.by_number.items } };

    ghost invariant = { λ c. (length c.by_number.items ≡ 65536)
        × ((number : ℕ) → IsWithin c.items (tally_at c.by_number.items number)) };
}

impl Counts {
    ghost use Rattle.std.specs.Prelude.{◌≡◌, ◌+◌, ◌<◌, ◌≤◌, ◌-◌, ◌^◌, ◌++◌, ◌∷◌, [], List, length, IfOk};
    ghost use Rattle.fs_tape.specs.{Header.{longest_payload}, Tape.{Timed, item_from, timed}};
    ghost use Rattle.fs_cli.specs.TapeCheck.{CountsOf, IsSmall, tally_at};

    /// Nothing is counted. Takes all memory that is needed; no other call takes any.
    pub(crate) fn new(alloc: Global) -> Result<Counts, Memory>
        ensures { IfOk result (λ counts. CountsOf counts []) }
    {
        let nothing = Tally {
            items: 0,
            octets: 0,
            up: false,
        };
        Ok(Counts {
            items: 0,
            span: None,
            by_number: vec![in alloc; nothing; NUMBERS]?,
        })
    }

    /// How many items there are.
    pub(crate) fn items(&self) -> u64
        ensures { result ≡ self.now.items }
    {
        self.items
    }

    /// The first moment and the last one.
    pub(crate) fn span(&self) -> Option<(u64, u64)>
        ensures { result ≡ self.now.span }
    {
        self.span
    }

    /// What is counted of the peer of this number.
    pub(crate) fn of(&self, number: u16) -> Tally
        ensures { result ≡ tally_at self.now.by_number number }
    {
        tally_at(&self.by_number, number)
    }

    /// An item more, of this moment; its octets stand at the front of the buffer.
    pub(crate) fn with_item(self, item: TapeItem, moment: u64, buffer: &[u8]) -> Counts
        requires few { self.items < 2 ^ 64 - 1 }
        requires room { longest_payload ≤ length buffer.now }
        requires fits { IsSmall item }
        ensures items { result.items ≡ self.items + 1 }
        ensures counts { (gone : List Timed)
            → CountsOf self gone
            → CountsOf result (gone ++ timed moment (item_from item buffer.now) ∷ []) }
    {
        let Counts {
            items,
            span,
            mut by_number,
        } = self;
        let peer = peer_of(item);
        let tally = tally_with(item, tally_at(&by_number, peer));
        set(&mut by_number, peer, tally);
        Counts {
            items: items + 1,
            span: span_with(span, moment),
            by_number,
        }
    }
}
