//! What the clock does to a peer's session, to the replies and to the table.

ghost use Rattle.std.specs.Prelude.{◌≡◌, ◌<◌, IsSome, OnOk, OnErr};
ghost use Rattle.fs_desk.specs.{HoldTimer.{TicksSession}, Idle.{KeepsAll}, Watched.{Tells}};

use crate::receive::drop_routes;
use crate::watched::Watched;
use fs_base::{Memory, Steps};
use fs_speaker::Session;
use std::sync::ledger::{Blank, Ledger};

/// The clock at the peer's session, at a moment in milliseconds. Where its hold time has expired the session closes,
/// and the peer holds nothing any more. What the session says is appended to `replies`; after `Memory` they are as
/// before.
pub(crate) fn tick_session<L: Ledger>(
    blank: Blank,
    session: &mut Session<'_>,
    watched: &mut Watched<'_>,
    peer: u16,
    moment: u64,
    replies: &mut Vec<u8>,
) -> Result<(), Memory>
    requires name { blank.name ≡ L.name }
    requires parts { blank.parts ≡ L.parts }
    requires some { 0 < L.parts }
    ensures ticked { OnOk result
        (TicksSession peer moment session.old session.new watched.old.table watched.new.table
        replies.old.items replies.new.items) }
    ensures told { OnOk result (Tells watched.old watched.new) }
    ensures err { OnErr result (replies.new.items ≡ replies.old.items) }
    ensures idle { KeepsAll peer session.new watched.old → watched.new.changes ≡ watched.old.changes }
    ensures ended { IsSome session.old.closed → watched.new ≡ watched.old }
{
    if session.closed().is_some() {
        return Ok(());
    }
    match session.tick(moment, replies) {
        Ok(()) => Ok(()),
        Err(why) => {
            let mut steps = Steps::<L>::new(blank);
            drop_routes(watched, peer, why, &mut steps)
        }
    }
}
