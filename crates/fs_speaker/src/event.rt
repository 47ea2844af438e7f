//! What may happen between two joined ends.

/// One event between the receiving end 0 and the announcing end 1. Moments are in milliseconds.
#[derive(Clone, Copy, Debug, PartialEq, Eq, Drop)]
pub enum Event {
    /// The announcing end says its next message.
    Send,
    /// The first `count` octets in flight to an end arrive there; all of them where fewer are.
    Deliver { to: u8, count: usize, moment: u64 },
    /// The clock at an end.
    Tick { end: u8, moment: u64 },
    /// What is in flight is gone, and nothing more arrives.
    Cut,
}
