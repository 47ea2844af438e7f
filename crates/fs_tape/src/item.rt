//! The items of a tape, and the kinds of its records.

/// An item of a tape.
#[derive(Clone, Copy, Debug, PartialEq, Eq, Drop)]
pub enum TapeItem {
    /// The session with this peer came up.
    Up(u16),
    /// This peer sent so many octets; they stand at the front of the buffer that was handed in.
    Octets(u16, usize),
    /// The session with this peer was lost.
    Lost(u16),
}

/// The kind of a record.
#[derive(Clone, Copy, Debug, PartialEq, Eq, Drop)]
pub(crate) enum Kind {
    Up,
    Received,
    Lost,
}
