//! The lines of peers.

ghost use Rattle.std.specs.Prelude.{◌≡◌, ◌++◌, IfOk, OnOk};
ghost use Rattle.fs_desk.specs.Desk.{standing_at_desk};
ghost use Rattle.fs_reports.specs.Peers.{codes_text, desk_peers, numbers_of, standing_text, peer_line, peers_text};

use fs_base::{Memory, Peer};
use fs_desk::Desk;
use fs_line::{append, append_decimal};
use fs_speaker::{Closed, Standing, State};
use std::alloc::Global;

/// Appends the lines of the configured peers, by their numbers.
pub(crate) fn append_peers(desk: &Desk<'_>, text: &mut Vec<u8>) -> Result<(), Memory>
    ensures { OnOk result (text.new.items ≡ text.old.items ++ desk_peers desk.now) }
{
    let numbers = peer_numbers(*text.allocator(), desk.config().peers.as_slice())?;
    append_each(desk, &numbers, text)
}

/// Appends the line of each of these peers.
fn append_each(desk: &Desk<'_>, numbers: &[u16], text: &mut Vec<u8>) -> Result<(), Memory>
    ensures { OnOk result (text.new.items ≡ text.old.items ++ peers_text numbers.now (standing_at_desk desk.now)) }
{
    for number in numbers {
        append_peer(*number, desk.state(*number), text)?;
    }
    Ok(())
}

/// The numbers of the peers, each once, by size.
///
/// # Errors
///
/// `Memory` where the machine refused memory.
pub fn peer_numbers(alloc: Global, peers: &[Peer]) -> Result<Vec<u16>, Memory>
    ensures { IfOk result (λ numbers. numbers.items ≡ numbers_of peers.now) }
{
    let mut numbers = Vec::with_capacity(alloc, peers.len())?;
    for peer in peers {
        numbers.push(peer.number)?;
    }
    numbers.sort_unstable();
    numbers.dedup();
    Ok(numbers)
}

/// Appends the line of a peer: its number and how it stands with it.
fn append_peer(number: u16, standing: Standing, text: &mut Vec<u8>) -> Result<(), Memory>
    ensures { OnOk result (text.new.items ≡ text.old.items ++ peer_line number standing) }
{
    append(b"peer ", text)?;
    append_decimal(number, text)?;
    append(b" ", text)?;
    append_standing(standing, text)?;
    append(b"\n", text)
}

/// Appends how it stands with a peer.
fn append_standing(standing: Standing, text: &mut Vec<u8>) -> Result<(), Memory>
    ensures { OnOk result (text.new.items ≡ text.old.items ++ standing_text standing) }
{
    match standing {
        Standing::Down => append(b"down", text),
        Standing::Live(State::WaitOpen) => append(b"wait-open", text),
        Standing::Live(State::WaitKeep) => append(b"wait-keepalive", text),
        Standing::Live(State::Established) => append(b"established", text),
        Standing::Live(State::Closed) => append(b"closed", text),
        Standing::Ended(Closed::Fault { code, subcode }) => append_codes(
            b"closed ", code, subcode, text,
        ),
        Standing::Ended(Closed::Notified { code, subcode }) => append_codes(
            b"notified ",
            code,
            subcode,
            text,
        ),
        Standing::Ended(Closed::NoFamily | Closed::Memory) => append(b"closed", text),
    }
}

/// Appends a word and the two codes of a NOTIFICATION (RFC 4271 section 4.5).
///
/// # Errors
///
/// `Memory` where the machine refused memory.
pub fn append_codes(word: &[u8], code: u8, subcode: u8, text: &mut Vec<u8>) -> Result<(), Memory>
    ensures { OnOk result (text.new.items ≡ text.old.items ++ codes_text word.now code subcode) }
{
    append(word, text)?;
    append_decimal(code, text)?;
    append(b"/", text)?;
    append_decimal(subcode, text)
}
