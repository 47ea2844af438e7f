//! Laws of the definitions.

ghost use Rattle.fs_mrt.specs.Laws.{HeardFits, ReadsBack};

/// What is heard in a dump is of a configured peer each time, at a moment below 2^64 that doesn't lie below the one
/// before. A message has at most 65536 octets.
pub fn heard_fits()
    ensures { HeardFits }
{}

/// What is heard in a dump that is done is what its records tell, whose text is the dump: exactly the octets of records,
/// one behind the other, that lie below the limit (RFC 6396 sections 2, 3 and 4.4).
pub fn reads_back()
    ensures { ReadsBack }
{}
