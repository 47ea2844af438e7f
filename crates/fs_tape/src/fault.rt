//! What is wrong with a tape.

use fs_input::Fault;

/// What is wrong with a tape.
#[derive(Clone, Copy, Debug, PartialEq, Eq, Drop)]
pub enum TapeReason {
    /// Its first eight octets are no version's magic.
    Magic,
    /// A record's kind is none of 1, 2 and 3.
    Kind,
    /// The configuration names no peer of a record's number.
    Peer,
    /// A record's length is above 65536, or isn't 0 where the kind has no payload.
    Length,
    /// The tape ends within its magic or a record.
    Cut,
    /// A record's moment is below that of the record before it.
    Moment,
}

/// Why a tape gives no further item. The place of a wrong field is that of its first octet on the tape, from 0; for
/// `Magic` that of the first octet up to which the octets begin no version's magic, for `Cut` the tape's length.
pub type TapeFault = Fault<TapeReason>;
