//! The states of a session, and how it closes.

use fs_attrs::{Update, UpdateFault};
use fs_base::Memory;
use fs_message::MessageFault;

/// The state of a session (RFC 4271, section 8.2.2): OpenSent, OpenConfirm, Established, and closed.
#[derive(Clone, Copy, Debug, PartialEq, Eq, Drop)]
pub enum State {
    /// The peer's OPEN is awaited.
    WaitOpen,
    /// The peer's KEEPALIVE is awaited.
    WaitKeep,
    /// UPDATEs are taken.
    Established,
    /// Nothing more is taken.
    Closed,
}

/// How a session closed.
#[derive(Clone, Copy, Debug, PartialEq, Eq, Drop)]
pub enum Closed {
    /// The peer's octets have a fault, with the codes of the NOTIFICATION that answers it.
    Fault { code: u8, subcode: u8 },
    /// The peer sent a NOTIFICATION.
    Notified { code: u8, subcode: u8 },
    /// The peer's OPEN lacks the family of a rule to send.
    NoFamily,
    /// The machine refused memory.
    Memory,
}

/// What an end answers to a piece: how many octets it took, and the update where the message was one; or how it closed.
pub type Fed = Result<(usize, Option<Update>), Closed>;

/// How it stands with a peer.
#[derive(Clone, Copy, Debug, PartialEq, Eq, Drop)]
pub enum Standing {
    /// The peer isn't up.
    Down,
    /// It is up, and its session is open.
    Live(State),
    /// It is up, and its session has closed.
    Ended(Closed),
}

impl From<Memory> for Closed {
    ghost use Rattle.std.specs.Prelude.{◌≡◌};
    ghost use Rattle.fs_session.specs.declared.state.Closed.TheVariants.{Memory};

    ghost from_gives = { λ e r. r ≡ Memory };

    fn from(_error: fs_base::Memory) -> Closed {
        Closed::Memory
    }
}

impl From<MessageFault> for Closed {
    ghost use Rattle.std.specs.Prelude.{◌≡◌};
    ghost use Rattle.fs_session.specs.Transition.{faulted};

    ghost from_gives = { λ fault closed. closed ≡ faulted fault };

    fn from(fault: MessageFault) -> Closed {
        Closed::Fault {
            code: fault.code,
            subcode: fault.subcode,
        }
    }
}

/// The codes of an UPDATE's faults (RFC 4271, section 6.3).
impl From<UpdateFault> for Closed {
    ghost use Rattle.std.specs.Prelude.{◌≡◌};
    ghost use Rattle.fs_session.specs.Transition.{closing_of};

    ghost from_gives = { λ fault closed. closed ≡ closing_of fault };

    fn from(fault: UpdateFault) -> Closed {
        match fault {
            UpdateFault::List => Closed::Fault {
                code: 3,
                subcode: 1,
            },
            UpdateFault::Network => Closed::Fault {
                code: 3,
                subcode: 10,
            },
            UpdateFault::Optional(_) => Closed::Fault {
                code: 3,
                subcode: 9,
            },
            UpdateFault::Memory => Closed::Memory,
        }
    }
}
