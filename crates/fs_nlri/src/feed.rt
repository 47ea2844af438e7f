//! Frames that come in pieces.

ghost use Rattle.std.specs.Prelude.{◌≤◌, ◌++◌, length, OnOk, IfOk, IfErr};
ghost use Rattle.fs_nlri.specs.{Fault.{IsOpen}, Feed.{Appends, Stops, left_over}};

use crate::fault::{NlriFault, Reason};
use crate::frame::decode;
use crate::rule::Rule;
use fs_base::{Family, Memory};
use std::alloc::Global;
use std::marker::Model;

/// Reads frame after frame from pieces of octets, however they are cut. A fault stays: each later call answers
/// it again.
#[derive(Drop)]
pub struct Feed {
    family: Family,
    held: Vec<u8>,
    fault: Option<NlriFault>,
}

impl Model for Feed {
    ghost use Rattle.fs_nlri.specs.Feed.{Fed, fed};

    ghost Value = { Fed };

    ghost view = { λ feed. fed feed.family feed.held.items feed.fault };
}

impl Feed {
    ghost use Rattle.std.specs.Prelude.{◌≡◌, [], None, Ok, OnOk, IfErr};
    ghost use Rattle.fs_nlri.specs.Feed.{fed, Takes, FailsWith, ends_as};

    /// A feed that has taken nothing. It is always made: its first octets take the first memory.
    pub fn new(alloc: Global, family: Family) -> Result<Feed, Memory>
        ensures { result ≡ Ok (fed family [] None) }
    {
        Ok(Feed {
            family,
            held: Vec::new(alloc),
            fault: None,
        })
    }

    /// Takes the piece and appends to `out` the rules of the frames that are whole. At a fault, of the octets or
    /// for want of memory, the rules before it are appended, and each later call answers the same fault and takes
    /// nothing. A frame that hasn't ended is no fault here.
    pub fn feed(&mut self, piece: &[u8], out: &mut Vec<Rule>) -> Result<(), NlriFault>
        ensures ok { OnOk result (Takes self.old self.new piece.now out.old.items out.new.items) }
        ensures err { IfErr result (FailsWith self.old self.new piece.now out.old.items out.new.items self.old.fault) }
    {
        if let Some(fault) = self.fault {
            return Err(fault);
        }
        let taken = take_piece(self.family, &mut self.held, piece, out);
        if let Err(fault) = taken {
            self.fault = Some(fault);
        }
        taken
    }

    /// The fault that stays; or, where a frame has begun and hasn't ended, `Reason::Length` with the count of its
    /// octets that were taken. Changes nothing.
    pub fn end(&self) -> Result<(), NlriFault>
        ensures { result ≡ ends_as self.now.fault self.now.held }
    {
        if let Some(fault) = self.fault {
            return Err(fault);
        }
        if self.held.is_empty() {
            return Ok(());
        }
        Err(NlriFault::Bad {
            reason: Reason::Length,
            place: self.held.len(),
        })
    }
}

/// Decodes the frames of `held` and the piece, and keeps in `held` what is less than a frame.
fn take_piece(
    family: Family,
    held: &mut Vec<u8>,
    piece: &[u8],
    out: &mut Vec<Rule>,
) -> Result<(), NlriFault>
    ensures ok { OnOk result (Appends family (held.old.items ++ piece.now) held.new.items out.old.items out.new.items) }
    ensures partial { OnOk result (IsOpen held.new.items) }
    ensures err { IfErr result (Stops family (held.old.items ++ piece.now) out.old.items out.new.items) }
{
    held.extend_from_slice(piece)?;
    let left = decode_frames(*held.allocator(), family, held, out)?;
    let taken = held.len() - left;
    held.rotate_left(taken);
    held.truncate(left);
    Ok(())
}

/// Appends the rules of the frames at the front, and answers how many octets are left behind them: less than a
/// frame.
fn decode_frames(
    alloc: Global,
    family: Family,
    octets: &[u8],
    out: &mut Vec<Rule>,
) -> Result<usize, NlriFault>
    ensures within { IfOk result (λ left. left ≤ length octets.now) }
    ensures ok { IfOk result (λ left.
        Appends family octets.now (left_over left octets.now) out.old.items out.new.items) }
    ensures partial { IfOk result (λ left. IsOpen (left_over left octets.now)) }
    ensures err { IfErr result (Stops family octets.now out.old.items out.new.items) }
{
    let mut rest = octets;
    'frames: loop {
        match decode(alloc, family, rest) {
            Ok((rule, count)) => {
                out.push(rule)?;
                rest = &rest[count..];
            }
            Err(
                NlriFault::Bad {
                    reason: Reason::Length,
                    ..
                },
            ) => return Ok(rest.len()),
            Err(fault) => return Err(fault),
        }
    }
}
