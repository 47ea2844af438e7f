//! Laws of the definitions.

ghost use Rattle.fs_pcap.specs.Laws.{ReadsBack};

/// A capture gives these packets and is done exactly where its octets are their text, in either order of octets, behind
/// a header of one of the six link types, and lie below the limit: with at most 262144 octets captured of each packet,
/// and whatever stands in the header's octets that aren't read.
pub fn reads_back()
    ensures { ReadsBack }
{}
