//! Which connection speaks for which peer.

ghost use Rattle.std.specs.{Prelude.{◌≡◌, ◌++◌, ◌∷◌, [], OnOk, not, ◌&&◌, ◌==◌}, List.{list_any}, Option.{option_copied}};
ghost use Rattle.fs_message.specs.Write.{as_field};
ghost use Rattle.fs_recorder.specs.Seats.{are_told_apart, first_peer, free_by, free_peer, free_peer_of, is_free, is_same, is_seated, seat_for};
ghost use Rattle.fs_recorder.specs.Seats.{seat_of, without};

use fs_base::{Address, Memory, Peer};
use fs_message::as_in_two;

/// A connection that speaks for a peer, and the time in milliseconds when it was taken.
#[derive(Clone, Copy, Debug, PartialEq, Eq, Drop)]
pub struct Seat {
    pub line: u64,
    pub peer: u16,
    pub since: u64,
}

/// One seat more.
///
/// # Errors
///
/// `Memory` where the machine refused memory.
pub(crate) fn add(seats: &mut Vec<Seat>, seat: Seat) -> Result<(), Memory>
    ensures { OnOk result (seats.new.items ≡ seats.old.items ++ seat ∷ []) }
{
    seats.push(seat)?;
    Ok(())
}

/// The seat of this line goes.
pub(crate) fn remove(seats: &mut Vec<Seat>, line: u64)
    ensures { seats.new.items ≡ without line seats.old.items }
{
    seats.retain(|seat| seat.line != line);
}

/// The seat of this line.
pub(crate) fn seat_of(seats: &[Seat], line: u64) -> Option<Seat>
    ensures { result ≡ seat_of line seats.now }
{
    of_line(seats, line).copied()
}

fn of_line(seats: &[Seat], line: u64) -> Option<&Seat>
    ensures { option_copied result ≡ seat_of line seats.now }
{
    seats.iter().find(|seat| seat.line == line)
}

/// The seat of this peer.
pub(crate) fn seat_for(seats: &[Seat], peer: u16) -> Option<Seat>
    ensures { result ≡ seat_for peer seats.now }
{
    of_peer(seats, peer).copied()
}

fn of_peer(seats: &[Seat], peer: u16) -> Option<&Seat>
    ensures { option_copied result ≡ seat_for peer seats.now }
{
    seats.iter().find(|seat| seat.peer == peer)
}

fn is_seated(seats: &[Seat], peer: u16) -> bool
    ensures { result ≡ is_seated peer seats.now }
{
    seats.iter().any(|seat| seat.peer == peer)
}

fn is_same(address: Address, other: Address) -> bool
    ensures { result ≡ is_same address other }
{
    match (address, other) {
        (Address::V4(address), Address::V4(other)) => address == other,
        (Address::V6(address), Address::V6(other)) => address == other,
        _ => false,
    }
}

fn is_free(peer: &Peer, seats: &[Seat], from: Address) -> bool
    ensures { result ≡ is_free from seats.now peer.now }
{
    is_same(peer.address, from) && !is_seated(seats, peer.number)
}

/// The first of these peers that has this address and no seat.
fn free_peer(peers: &[Peer], seats: &[Seat], from: Address) -> Option<Peer>
    ensures { result ≡ free_peer from seats.now peers.now }
{
    free(peers, seats, from).copied()
}

fn free<'p>(peers: &'p [Peer], seats: &[Seat], from: Address) -> Option<&'p Peer>
    ensures { option_copied result ≡ free_peer from seats.now peers.entry.now }
{
    peers.iter().find(|peer| is_free(peer, seats, from))
}

fn free_peer_of(peers: &[Peer], seats: &[Seat], from: Address, number: u16) -> Option<Peer>
    ensures { result ≡ free_peer_of from number seats.now peers.now }
{
    free_of(peers, seats, from, number).copied()
}

fn free_of<'p>(peers: &'p [Peer], seats: &[Seat], from: Address, number: u16) -> Option<&'p Peer>
    ensures { option_copied result ≡ free_peer_of from number seats.now peers.entry.now }
{
    peers.iter().find(|peer| is_free(peer, seats, from) && as_in_two(peer.asn) == number)
}

/// The first of these peers that has this address, no seat and, where an AS was told as OPEN's own field has it, that AS; or
/// else the first that has the address and no seat.
pub(crate) fn free_by(
    peers: &[Peer],
    seats: &[Seat],
    from: Address,
    told: Option<u16>,
) -> Option<Peer>
    ensures { result ≡ free_by from told seats.now peers.now }
{
    let named = match told {
        Some(number) => free_peer_of(peers, seats, from, number),
        None => None,
    };
    match named {
        Some(peer) => Some(peer),
        None => free_peer(peers, seats, from),
    }
}

/// Whether the peers that have this address and no seat are told apart by their ASes as OPEN's own field has them.
pub(crate) fn are_told_apart(peers: &[Peer], seats: &[Seat], from: Address) -> bool
    ensures { result ≡ are_told_apart from seats.now peers.now }
{
    match free_peer(peers, seats, from) {
        Some(first) => has_other(peers, seats, from, as_in_two(first.asn)),
        None => false,
    }
}

fn has_other(peers: &[Peer], seats: &[Seat], from: Address, number: u16) -> bool
    ensures { result ≡ list_any (λ peer. is_free from seats.now peer && not (as_field peer.asn == number)) peers.now }
{
    peers.iter().any(|peer| is_free(peer, seats, from) && as_in_two(peer.asn) != number)
}

/// The first of these peers that has this address.
pub(crate) fn first_peer(peers: &[Peer], from: Address) -> Option<Peer>
    ensures { result ≡ first_peer from peers.now }
{
    first(peers, from).copied()
}

fn first(peers: &[Peer], from: Address) -> Option<&Peer>
    ensures { option_copied result ≡ first_peer from peers.now }
{
    peers.iter().find(|peer| is_same(peer.address, from))
}
