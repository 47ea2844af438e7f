//! Laws of the definitions.

ghost use Rattle.fs_tape.specs.Laws.{FrontReads, MomentsRise, ReadsBack};

/// A tape gives these items and is done exactly where its octets are their text in one of the versions and lie below
/// the limit: each of a peer that is configured, with a payload of at most 65536 octets, and with a moment that doesn't
/// lie below the one before it; in the first version it is 0.
pub fn reads_back()
    ensures { ReadsBack }
{}

/// The items that a tape of the second version is still to give have moments that don't lie below the last one.
pub fn moments_rise()
    ensures { MomentsRise }
{}

/// A front of a tape that is done gives a front of its items, and ends done, or cut at its length.
pub fn front_reads()
    ensures { FrontReads }
{}
