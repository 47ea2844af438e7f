//! What it means for packets that a rule contains another.

ghost use Rattle.fs_ranges.specs.Facts.{IsSmall};
ghost use Rattle.fs_shadow.specs.Laws.{ConfirmedNeverWalks, ContainedMatches, CoveredNeverWalks};

use fs_packet::View;

/// A rule matches each packet that a rule matches which it contains.
pub fn contained_matches()
    ensures { ContainedMatches }
{}

/// A rule that the report names is in the walk of no packet.
pub fn covered_never_walks()
    ensures { CoveredNeverWalks }
{}

/// A rule that `confirm` finds contained in an earlier one, whose terminal bit is clear, is in the walk of no packet.
pub fn confirmed_never_walks()
    ensures { ConfirmedNeverWalks }
{}

/// The fields of each packet are as small as these laws ask.
pub fn packets_are_small(view: &View<'_>)
    ensures { IsSmall view.now }
{
    view.destination();
    view.source();
    view.protocol();
    view.icmp_type();
    view.icmp_code();
    view.source_port();
    view.destination_port();
    view.flow_label();
    view.length();
    view.dscp();
}
