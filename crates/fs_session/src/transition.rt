//! The table of states: what one message does at either end (RFC 4271, section 8.2.2).

ghost use Rattle.std.specs.Prelude.{◌≡◌, ◌+◌, length, IsTrue};
ghost use Rattle.fs_message.specs.{Header.{allows}, Deframer.{frame_of}, Notice.{notice_of}};
ghost use Rattle.fs_session.specs.{declared.state.State.TheVariants.{Established}, Side.{machine_of}};
ghost use Rattle.fs_session.specs.Transition.{transition_by, at_wait_open, at_wait_keep, at_established, opened, notified, IsTransition};

use crate::side::{Role, Side};
use crate::state::{Closed, State};
use fs_attrs::{Update, read_update};
use fs_message::{
    Frame, KEEPALIVE, MessageFault, NOTIFICATION, Notice, OPEN, Open, ROUTE_REFRESH, UPDATE,
};
use std::alloc::Global;

/// Where an open session stands: its state, whether AS numbers have four octets (RFC 6793), and the hold time that
/// was agreed in seconds; 0 is none, and before OPEN none is agreed.
#[derive(Clone, Copy, Debug, PartialEq, Eq, Drop)]
pub struct Phase {
    pub state: State,
    pub four: bool,
    pub hold: u16,
}

/// The codes of a message that the state doesn't take: Finite State Machine Error (RFC 4271, section 6.6).
const NOT_TAKEN: Closed = Closed::Fault {
    code: 5,
    subcode: 0,
};

/// What a message does: where the session stands next and the update that it gave, or how the session closes.
pub(crate) fn transition(
    alloc: Global,
    side: &Side<'_>,
    now: &Phase,
    frame: &Frame<'_>,
) -> Result<(Phase, Option<Update>), Closed>
    requires { IsTrue (allows frame.now.kind (19 + length frame.now.body.now)) }
    ensures { IsTransition result (transition_by (machine_of side.now) now.now (frame_of frame.now)) }
{
    if frame.kind == NOTIFICATION {
        return Err(notice_in(frame));
    }
    match now.state {
        State::WaitOpen => in_wait_open(side, frame),
        State::WaitKeep => in_wait_keep(now, frame),
        State::Established => in_established(alloc, side, now, frame),
        State::Closed => Err(NOT_TAKEN),
    }
}

fn notice_in(frame: &Frame<'_>) -> Closed
    requires kind { frame.now.kind ≡ 3 }
    requires sized { IsTrue (allows frame.now.kind (19 + length frame.now.body.now)) }
    ensures { result ≡ notified (notice_of frame.now.body.now) }
{
    let notice = Notice::read(frame.body);
    Closed::Notified {
        code: notice.code,
        subcode: notice.subcode,
    }
}

/// OPEN is awaited.
fn in_wait_open(side: &Side<'_>, frame: &Frame<'_>) -> Result<(Phase, Option<Update>), Closed>
    requires { IsTrue (allows frame.now.kind (19 + length frame.now.body.now)) }
    ensures { IsTransition result (at_wait_open (machine_of side.now) (frame_of frame.now)) }
{
    if frame.kind != OPEN {
        return Err(NOT_TAKEN);
    }
    at_open(side, Open::read(frame.body, side.expected()))
}

/// An OPEN was read, or has a fault. One without a fault may lack a family that this end needs.
fn at_open(
    side: &Side<'_>,
    read: Result<Open, MessageFault>,
) -> Result<(Phase, Option<Update>), Closed>
    ensures { result ≡ opened (machine_of side.now) read }
{
    match read {
        Ok(found) if side.lacks(&found) => Err(Closed::NoFamily),
        Ok(found) => Ok((
            Phase {
                state: State::WaitKeep,
                four: found.four,
                hold: side.offer().min(found.hold_time),
            },
            None,
        )),
        Err(fault) => Err(Closed::from(fault)),
    }
}

/// KEEPALIVE is awaited.
fn in_wait_keep(now: &Phase, frame: &Frame<'_>) -> Result<(Phase, Option<Update>), Closed>
    ensures { IsTransition result (at_wait_keep now.now.four now.now.hold (frame_of frame.now)) }
{
    if frame.kind != KEEPALIVE {
        return Err(NOT_TAKEN);
    }
    Ok((
        Phase {
            state: State::Established,
            ..*now
        },
        None,
    ))
}

/// UPDATE, KEEPALIVE and ROUTE-REFRESH are taken; the receiving end alone reads an UPDATE, and the others are without
/// effect.
fn in_established(
    alloc: Global,
    side: &Side<'_>,
    now: &Phase,
    frame: &Frame<'_>,
) -> Result<(Phase, Option<Update>), Closed>
    requires { now.now.state ≡ Established }
    ensures { IsTransition result
        (at_established (machine_of side.now) now.now.four now.now.hold (frame_of frame.now)) }
{
    match (frame.kind, side.role) {
        (UPDATE, Role::Receiver) => {
            let update = read_update(alloc, frame.body, &side.terms(now.four))?;
            Ok((*now, Some(update)))
        }
        (UPDATE | KEEPALIVE | ROUTE_REFRESH, _) => Ok((*now, None)),
        _ => Err(NOT_TAKEN),
    }
}
