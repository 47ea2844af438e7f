//! Laws of two joined ends, over every list of events.

ghost use Rattle.fs_speaker.specs.JointLaws.{TakesDelivered, TakesFront, ClosesOnlySo, ClosesWhereDue, TakesNone};

/// The updates that the receiving end took are exactly those of the session of the octets that were delivered to it
/// while it was open.
pub fn takes_what_was_delivered()
    ensures { TakesDelivered }
{}

/// Whatever happens, what the receiving end has taken is a front of the announcing end's updates, one for each of its
/// rules and in their order, where these can arrive at all.
pub fn takes_a_front()
    ensures { TakesFront }
{}

/// Where the rules can arrive, an end closes only for the time, at a tick that finds its hold time expired (RFC 4271,
/// section 6.5), or by the other's NOTIFICATION; and at each such tick of an open end it closes for the time.
pub fn closes_only_so()
    ensures only { ClosesOnlySo }
    ensures due { ClosesWhereDue }
{}

/// With the identifier 0.0.0.0 nothing is taken, and the receiving end may also close by refusing it (RFC 4271,
/// section 6.2).
pub fn takes_none_unnamed()
    ensures { TakesNone }
{}
