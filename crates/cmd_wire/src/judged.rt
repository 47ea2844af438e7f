//! What a rules file changes that is read again and again.

ghost use Rattle.std.specs.Prelude.{◌≡◌, IfOk};
ghost use Rattle.cmd_wire.specs.{Holding.{content_of}, Judged.{AreJudged, IsJudged, MayBeKept, held_in, judged_as, refused}};

use crate::shelf::{Holding, Shelf};
use fs_base::{Config, Memory};
use fs_conf::{RulesFault, judge_rules, names_the_rules_fault};
use fs_speaker::Sending;
use std::alloc::Global;

/// What a reading changes.
#[derive(Drop)]
pub(crate) enum Judged {
    /// These rules are to be kept.
    Accepted(Sending),
    /// The file isn't accepted, for this reason.
    Refused(String),
}

/// Judges what a file counts as holding, as a rules file beside the configuration.
///
/// # Errors
///
/// `Memory` where the machine refused memory.
pub(crate) fn judge(alloc: Global, shelf: &Shelf, config: &Config) -> Result<Judged, Memory>
    ensures judged { IfOk result (λ judged. IsJudged config.now (held_in shelf.now) (judged_as judged)) }
    ensures kept { IfOk result (λ judged. MayBeKept config.now (judged_as judged)) }
{
    match shelf.settled() {
        Some(holding) => judge_holding(alloc, holding, config),
        None => refuse(alloc, "Absent"),
    }
}

/// Judges what was read.
fn judge_holding(alloc: Global, holding: &Holding, config: &Config) -> Result<Judged, Memory>
    ensures judged { IfOk result (λ judged. IsJudged config.now (content_of holding.now) (judged_as judged)) }
{
    match holding {
        Holding::Whole(octets) => judge_octets(alloc, octets, config),
        Holding::Absent => refuse(alloc, "Absent"),
        Holding::Unread => refuse(alloc, "Unread"),
        Holding::TooLong => refuse(alloc, "TooLong"),
    }
}

/// The file isn't accepted, for this reason.
fn refuse(alloc: Global, reason: &str) -> Result<Judged, Memory>
    ensures { IfOk result (λ judged. judged_as judged ≡ refused reason.now) }
{
    Ok(Judged::Refused(String::from_str(alloc, reason)?))
}

/// Judges the octets of a rules file.
fn judge_octets(alloc: Global, octets: &[u8], config: &Config) -> Result<Judged, Memory>
    ensures judged { IfOk result (λ judged. AreJudged config.now octets.now (judged_as judged)) }
{
    names_the_rules_fault();
    match judge_rules(alloc, octets, config) {
        Ok(rules) => Ok(Judged::Accepted(rules)),
        Err(RulesFault::Memory) => Err(Memory),
        Err(fault) => Ok(Judged::Refused(format!(in alloc; "{fault}")?)),
    }
}
