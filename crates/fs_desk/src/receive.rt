//! What a piece of a peer's octets does to its session, to the replies and to the table.

ghost use Rattle.std.specs.Prelude.{◌≡◌, ◌≤◌, ◌<◌, true, false, None, IfOk, IfSome, IsSome, OnOk, OnErr, length};
ghost use Rattle.fs_rules.specs.Table.{held_count, without_peer};
ghost use Rattle.fs_desk.specs.Idle.{IdlesMessage, IdlesPiece, IdlesUpdate};
ghost use Rattle.fs_desk.specs.Receive.{ComesOpen, Extends, PieceComes, RepliesMessage, TakesMessage, TakesPiece, TakesUpdate, wants_memory};
ghost use Rattle.fs_desk.specs.Watched.{Tells};

use crate::apply::apply;
use crate::limit::is_over;
use crate::watched::Watched;
use fs_attrs::Update;
use fs_base::{Memory, Steps};
use fs_speaker::{Closed, Session};
use std::sync::ledger::{Blank, Ledger};

/// Feeds the peer's session with the piece, and the table with the updates that come of it. The replies are appended to
/// `replies`; after `Memory` those up to there stay.
pub(crate) fn receive<L: Ledger>(
    blank: Blank,
    session: &mut Session<'_>,
    watched: &mut Watched<'_>,
    peer: u16,
    piece: &[u8],
    replies: &mut Vec<u8>,
) -> Result<(), Memory>
    requires name { blank.name ≡ L.name }
    requires parts { blank.parts ≡ L.parts }
    requires some { 0 < L.parts }
    ensures taken { OnOk result (TakesPiece peer session.old session.new watched.old.table watched.new.table
        piece.now replies.old.items replies.new.items) }
    ensures handed { OnOk result
        (PieceComes session.old session.new piece.now replies.old.items replies.new.items) }
    ensures told { OnOk result (Tells watched.old watched.new) }
    ensures grows { Extends replies.old.items replies.new.items }
    ensures idle { OnOk result (IdlesPiece peer session.old session.new watched.old watched.new piece.now) }
    ensures closed { IsSome session.old.closed
        → (session.new ≡ session.old) × (watched.new ≡ watched.old)
        × (replies.new.items ≡ replies.old.items) }
{
    if session.closed().is_some() {
        return Ok(());
    }
    let mut steps = Steps::<L>::new(blank);
    let mut rest = piece;
    'messages: while let Some(count) = take_message(
        session, watched, peer, rest, replies, &mut steps,
    )? {
        rest = &rest[count..];
    }
    Ok(())
}

/// Feeds the open session with the piece up to the end of one message, and the table with the update that the message
/// brings. Answers how many octets were taken, or None where none are left or the session has closed.
fn take_message<L: Ledger>(
    session: &mut Session<'_>,
    watched: &mut Watched<'_>,
    peer: u16,
    piece: &[u8],
    replies: &mut Vec<u8>,
    steps: &mut Steps<L>,
) -> Result<Option<usize>, Memory>
    ensures some { IfOk result (λ taken. IfSome taken (λ count. (count ≤ length piece.now) × (0 < count))) }
    ensures taken { IfOk result (TakesMessage peer session.old session.new watched.old.table watched.new.table piece.now) }
    ensures replied { IfOk result
        (RepliesMessage peer session.old session.new watched.old.table replies.old.items replies.new.items piece.now) }
    ensures handed { IfOk result
        (ComesOpen session.old session.new piece.now replies.old.items replies.new.items) }
    ensures told { OnOk result (Tells watched.old watched.new) }
    ensures grows { Extends replies.old.items replies.new.items }
    ensures idle { IfOk result (IdlesMessage peer session.old session.new watched.old watched.new piece.now) }
{
    if piece.is_empty() {
        return Ok(None);
    }
    match session.feed(piece, replies) {
        Ok((count, None)) => Ok(Some(count)),
        Ok((count, Some(update))) => {
            let is_open = take_update(session, watched, peer, update, replies, steps)?;
            if !is_open {
                return Ok(None);
            }
            Ok(Some(count))
        }
        Err(why) => {
            drop_routes(watched, peer, why, steps)?;
            Ok(None)
        }
    }
}

/// Applies the update that an open session has taken. Where the peer then holds more than it may, it is lost, and its
/// session closes with a NOTIFICATION Cease (RFC 4486, section 4). Answers whether the session is still open.
fn take_update<L: Ledger>(
    session: &mut Session<'_>,
    watched: &mut Watched<'_>,
    peer: u16,
    update: Update,
    replies: &mut Vec<u8>,
    steps: &mut Steps<L>,
) -> Result<bool, Memory>
    requires { session.old.closed ≡ None }
    ensures taken { IfOk result
        (TakesUpdate peer update session.old session.new watched.old.table watched.new.table
        replies.old.items replies.new.items) }
    ensures told { OnOk result (Tells watched.old watched.new) }
    ensures err { OnErr result (replies.new.items ≡ replies.old.items) }
    ensures idle { IfOk result (IdlesUpdate peer update watched.old watched.new) }
{
    apply(watched, peer, update, steps)?;
    if !is_over(session.max_routes(), watched.table.held_by(peer)) {
        return Ok(true);
    }
    drop_routes(watched, peer, TOO_MANY_ROUTES, steps)?;
    match session.cease(MAXIMUM_REACHED, replies) {
        Ok(()) => Ok(false),
        Err(why) => {
            prove!(wants_memory(why));
            Err(Memory)
        }
    }
}

/// The subcode of a Cease where the maximum number of prefixes is reached (RFC 4486, section 4).
const MAXIMUM_REACHED: u8 = 1;

const TOO_MANY_ROUTES: Closed = Closed::Fault {
    code: 6,
    subcode: MAXIMUM_REACHED,
};

/// The peer's session has closed: takes all that the peer holds out of the table. Where it closed for want of memory
/// the table stays, and `Memory` is answered.
pub(crate) fn drop_routes<L: Ledger>(
    watched: &mut Watched<'_>,
    peer: u16,
    why: Closed,
    steps: &mut Steps<L>,
) -> Result<(), Memory>
    ensures octets { OnOk result (wants_memory why ≡ false) }
    ensures err { OnErr result (wants_memory why ≡ true) }
    ensures told { OnOk result (Tells watched.old watched.new) }
    ensures lost { OnOk result (watched.new.table ≡ without_peer peer watched.old.table) }
    ensures idle { held_count peer watched.old.table ≡ 0 → watched.new.changes ≡ watched.old.changes }
{
    if wants_memory(why) {
        return Err(Memory);
    }
    let changes = &mut watched.changes;
    watched.table.lose_telling(peer, changes, steps);
    Ok(())
}

/// Whether it was want of memory that closed a session.
fn wants_memory(why: Closed) -> bool
    ensures { result ≡ wants_memory why }
{
    match why {
        Closed::Memory => true,
        Closed::Fault { .. } | Closed::Notified { .. } | Closed::NoFamily => false,
    }
}
