//! What a record tells of a peer.

/// A message or a change of state of a configured peer. `moment`, in nanoseconds since the start of 1970, is the
/// greatest time of the records of configured peers up to and with this one. `wide` tells that AS numbers have four
/// octets.
#[derive(Clone, Copy, Debug, PartialEq, Eq, Drop)]
pub struct Heard {
    pub peer: u16,
    pub moment: u64,
    pub wide: bool,
    pub what: What,
}

/// What was heard.
#[derive(Clone, Copy, Debug, PartialEq, Eq, Drop)]
pub enum What {
    /// A BGP message of so many octets; they stand at the front of the buffer that was handed in.
    Message(usize),
    /// The session's state changed; the numbers are those of RFC 6396 section 4.4.1, 6 is Established.
    Change { old: u16, new: u16 },
}
