//! Laws of the definitions.

ghost use Rattle.fs_peering.specs.KeeperLaws.{KeepsEqual, SendsAll};
ghost use Rattle.fs_peering.specs.Laws.{ClosesUnnamed, ExpiresLate, NeverExpires, OpeningIsSession, SendsFront};

use fs_speaker::{takes_a_front, takes_none_unnamed};

/// An end of a session closes for its hold time only where it agreed on one, and where of the moments at which it heard
/// the clock a later one lies so far above an earlier one (RFC 4271, section 6.5).
#[tactic(auto, using(crate::proofs::Moments::expires_late))]
pub fn expires_late()
    ensures { ExpiresLate }
{}

/// No octets close a session with Hold Timer Expired (RFC 4271, section 6.5): only the clock does.
pub fn never_expires()
    ensures { NeverExpires }
{}

/// What octets come to up to the message that establishes a session is what the session of all of them comes to there.
#[tactic(auto, using(crate::proofs::Tied::opening_is_session))]
pub fn opens_the_session()
    ensures { OpeningIsSession }
{}

/// Of two joined ends, given what may be sent, the receiving one takes a front of the announcing one's updates, whatever
/// happens between them and whatever the identifier is.
pub fn sends_a_front()
    ensures { SendsFront }
{
    takes_a_front();
    takes_none_unnamed();
}

/// Of two joined ends of which the announcing one has the identifier 0.0.0.0 the receiving one closes only by refusing it
/// (RFC 4271, section 6.2), and the announcing one only by that NOTIFICATION.
#[tactic(auto, using(crate::proofs::Refusing::closes_unnamed))]
pub fn closes_unnamed()
    ensures { ClosesUnnamed }
{}

/// Where a kept connection was told rules, what was said through it leaves the receiving end exactly those, whatever
/// happened: each with its actions and their path, and no other. They are the rules that were accepted last.
pub fn keeps_equal()
    ensures { KeepsEqual }
{}

/// What counts as said through a kept connection is what was sent on its line, in its order, where no line was dialled
/// twice.
#[tactic(auto, using(crate::proofs::SentOnLine::sends_all))]
pub fn sends_all()
    ensures { SendsAll }
{}
