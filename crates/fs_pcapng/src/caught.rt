//! Captured packets.

use fs_base::Link;

/// A captured packet. `taken` octets of it were captured, of `original`; they stand at the front of the buffer that was
/// handed in. `time` is in nanoseconds since the start of 1970, 0 of a simple packet; `moment` is the greatest time of
/// the packets up to and with this one.
#[derive(Clone, Copy, Debug, PartialEq, Eq, Drop)]
pub struct NgCaught {
    pub time: u64,
    pub moment: u64,
    pub taken: usize,
    pub original: u32,
}

/// A packet and the link type of its interface.
#[derive(Clone, Copy, Debug, PartialEq, Eq, Drop)]
pub(crate) struct Seen {
    pub(crate) caught: NgCaught,
    pub(crate) link: Option<Link>,
}
