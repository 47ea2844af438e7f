//! What every announcing end does: it says its OPEN and the UPDATEs of its rules, and counts the octets that it hears.

ghost use Rattle.std.specs.Prelude.{◌≡◌, ◌≢◌, ◌≤◌, ◌+◌, Bool, None, true, false, IfOk, OnOk};
ghost use Rattle.fs_speaker.specs.Announcer.{SaysText, StartsWith, is_established, next_text};
ghost use Rattle.fs_peering.specs.Teller.{ahead_of, is_settled};

use fs_base::Memory;
use fs_speaker::{Announcer, Closed, State};

/// Says the OPEN (RFC 4271 section 4.2), unless it was said.
///
/// # Errors
///
/// `Memory` where the machine refused memory, or the end has closed.
#[tactic(auto, using(crate::proofs::Linking::starts_own, crate::proofs::Ahead::starts_ahead))]
pub fn start(announcer: &mut Announcer<'_>, out: &mut Vec<u8>) -> Result<(), Memory>
    ensures open { OnOk result (announcer.old.line.closed ≡ None) }
    ensures starts { OnOk result
        (StartsWith announcer.old.started announcer.old announcer.new out.old.items out.new.items) }
    ensures ahead { (started : Bool) → ahead_of announcer.new started ≤ ahead_of announcer.old started }
    ensures own { (announcer.new.config ≡ announcer.old.config) × (announcer.new.peer ≡ announcer.old.peer) }
{
    match announcer.start(out) {
        Ok(()) => Ok(()),
        Err(_) => Err(Memory),
    }
}

/// Says the UPDATE of the next rule, and answers whether there was one: not before the session is established.
///
/// # Errors
///
/// `Memory` where the machine refused memory.
pub fn say(announcer: &mut Announcer<'_>, out: &mut Vec<u8>) -> Result<bool, Memory>
    requires { announcer.old.line.closed ≡ None }
    ensures says { IfOk result (λ had.
        SaysText (next_text announcer.old) had announcer.old announcer.new out.old.items out.new.items) }
{
    match announcer.next_message(out) {
        Ok(had) => Ok(had),
        Err(_) => Err(Memory),
    }
}

/// An end that has closed takes no more.
///
/// # Errors
///
/// `Memory` where the machine refused memory, since nothing more is said of the end then.
pub fn closes(why: Closed) -> Result<(), Memory>
    ensures { OnOk result (why ≢ Closed.Memory) }
{
    match why {
        Closed::Memory => Err(Memory),
        Closed::Fault { .. } | Closed::Notified { .. } | Closed::NoFamily => Ok(()),
    }
}

/// Whether a session is established.
pub fn is_established(state: State) -> bool
    ensures { result ≡ is_established state }
{
    match state {
        State::Established => true,
        State::WaitOpen | State::WaitKeep | State::Closed => false,
    }
}

/// Whether the end is established, or has closed.
pub fn is_settled(announcer: &Announcer<'_>) -> bool
    ensures { result ≡ is_settled announcer.now.line }
{
    announcer.closed().is_some() || is_established(announcer.state())
}

/// The count of octets, with so many more.
///
/// # Errors
///
/// `Memory` where the count doesn't fit: no machine holds so many.
pub fn sum(count: u64, more: usize) -> Result<u64, Memory>
    ensures { IfOk result (λ both. both ≡ count + more) }
{
    count.checked_add(more as u64).ok_or(Memory)
}

/// The count of octets that an end heard up to where it was ready, with so many more.
///
/// # Errors
///
/// `Memory` where the count doesn't fit: no machine holds so many.
pub(crate) fn count_on(count: u64, more: usize, was_ready: bool) -> Result<u64, Memory>
    ensures added { IfOk result (λ both. was_ready ≡ false → both ≡ count + more) }
    ensures kept { IfOk result (λ both. was_ready ≡ true → both ≡ count) }
{
    if was_ready {
        Ok(count)
    } else {
        sum(count, more)
    }
}
