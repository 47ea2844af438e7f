//! Captured packets.

use fs_base::Link;

/// A captured packet, of which `taken` octets were captured; they stand at the front of the buffer that was handed in.
/// `link` is the link type of its capture or interface, None where that isn't one of the six that are read.
/// `time` is in nanoseconds since the start of 1970; `moment` is the greatest time of the packets up to and with this one.
#[derive(Clone, Copy, Debug, PartialEq, Eq, Drop)]
pub struct Caught {
    pub link: Option<Link>,
    pub time: u64,
    pub moment: u64,
    pub taken: usize,
}
