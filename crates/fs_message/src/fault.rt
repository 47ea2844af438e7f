//! The faults of messages.

/// A fault of a message, by the codes of the NOTIFICATION that reports it (RFC 4271, section 4.5).
#[derive(Clone, Copy, Debug, PartialEq, Eq, Drop)]
pub struct MessageFault {
    pub code: u8,
    pub subcode: u8,
}

/// Message Header Error, Connection Not Synchronized (RFC 4271, section 6.1).
pub(crate) const NOT_SYNCHRONIZED: (u8, u8) = (1, 1);

/// Message Header Error, Bad Message Length.
pub(crate) const BAD_LENGTH: (u8, u8) = (1, 2);

/// Message Header Error, Bad Message Type.
pub(crate) const BAD_TYPE: (u8, u8) = (1, 3);

/// OPEN Message Error, Unsupported Version Number (RFC 4271, section 6.2).
pub(crate) const BAD_VERSION: (u8, u8) = (2, 1);

/// OPEN Message Error, Bad Peer AS.
pub(crate) const BAD_PEER_AS: (u8, u8) = (2, 2);

/// OPEN Message Error, Bad BGP Identifier.
pub(crate) const BAD_IDENTIFIER: (u8, u8) = (2, 3);

/// OPEN Message Error, Unsupported Optional Parameter; malformed parameters too.
pub(crate) const BAD_PARAMETERS: (u8, u8) = (2, 4);

/// OPEN Message Error, Unacceptable Hold Time.
pub(crate) const BAD_HOLD_TIME: (u8, u8) = (2, 6);

impl MessageFault {
    ghost use Rattle.std.specs.Prelude.{◌≡◌};
    ghost use Rattle.fs_message.specs.Header.{fault};

    /// The fault with this code and subcode.
    pub(crate) fn of(codes: (u8, u8)) -> MessageFault
        ensures { result ≡ fault codes.0 codes.1 }
    {
        MessageFault {
            code: codes.0,
            subcode: codes.1,
        }
    }
}
