//! Messages out of a stream that comes in pieces (RFC 4271, section 4.1).

ghost use Rattle.std.specs.Prelude.{◌≡◌, ℕ, ◌+◌, ◌-◌, ◌<◌, ◌≤◌, ◌++◌, [], min, length, take, drop, IsTrue, true, false, IfOk, IfSome, OnOk, option_map};

use crate::MessageFault;
use crate::header::{HEADER, LONGEST, fault_of};
use byteorder::{BigEndian, ByteOrder};
use fs_base::Memory;
use std::alloc::Global;
use std::marker::Model;

/// A message of the stream, lent by the [`Deframer`] that holds it: its type, and the octets behind its
/// header.
#[derive(Clone, Copy, Debug, PartialEq, Eq, Drop)]
pub struct Frame<'a> {
    pub kind: u8,
    pub body: &'a [u8],
}

/// Cuts a stream into messages, however its octets come in pieces. It keeps the octets of one message.
#[derive(Drop)]
pub struct Deframer {
    held: Vec<u8>,
    count: usize,
    stands: bool,
    fault: Option<MessageFault>,
}

impl Model for Deframer {
    ghost use Rattle.std.specs.Prelude.{take};
    ghost use Rattle.fs_message.specs.Deframer.{Framing, framing, IsRoom};

    ghost Value = { Framing };

    ghost view = { λ d. framing (take d.count d.held.items) d.stands d.fault };

    ghost invariant = { λ d. IsRoom d.held.items d.count d.stands d.fault };
}

impl Deframer {
    ghost use Rattle.fs_message.specs.{Header.{allows}, Deframer.{framing, pending, standing_message, Feeds, stands_after, fault_after, frame_of}};

    /// A deframer before the first message. It takes the 4096 octets of the longest message here, and no
    /// memory later.
    pub fn new(alloc: Global) -> Result<Deframer, Memory>
        ensures { IfOk result (λ made. made ≡ framing [] false None) }
    {
        let held = vec![in alloc; 0u8; LONGEST]?;
        Ok(Deframer {
            held,
            count: 0,
            stands: false,
            fault: None,
        })
    }

    /// Takes octets of a piece: to the end of the message begun, where that lies in the piece, else all of
    /// them. The answer is how many, and whether a message stands; of a piece that isn't empty it is at
    /// least one. A fault of the header is answered as soon as its field is whole, and the same again by
    /// each later call, which takes nothing.
    pub fn feed(&mut self, piece: &[u8]) -> Result<(usize, bool), MessageFault>
        ensures again { IfSome self.old.fault (λ fault. (result ≡ Err fault) × (self.new ≡ self.old)) }
        ensures fault { self.new.fault ≡ fault_after result }
        ensures stands { self.new.stands ≡ stands_after result }
        ensures some { IfOk result (λ fed. (fed.0 ≤ length piece.now) × (0 < length piece.now → 0 < fed.0)) }
        ensures exact { self.old.fault ≡ None → Feeds (pending self.old) piece.now self.new.begun result }
    {
        take_piece(
            &mut self.held,
            &mut self.count,
            &mut self.stands,
            &mut self.fault,
            piece,
        )
    }

    /// The message that stands, until the next `feed`.
    pub fn message(&self) -> Option<Frame<'_>>
        ensures exact { option_map frame_of result ≡ standing_message self.now }
        ensures sized { IfSome result (λ frame. IsTrue (allows frame.kind (19 + length frame.body.now))) }
    {
        if !self.stands {
            return None;
        }
        Some(message_in(&self.held, self.count))
    }
}

ghost use Rattle.fs_message.specs.Deframer.{Feeds, IsBegun, IsWhole, IsFraming, stands_after, fault_after, Repeats, FeedsFrom, frame_of};
ghost use Rattle.fs_message.specs.{Stream.{Message, message_of}, Header.{allows}};

/// The message in the first `count` octets of `held`.
fn message_in(held: &[u8], count: usize) -> Frame<'_>
    requires within { count ≤ length held.now }
    requires whole { IsWhole (take count held.now) }
    ensures exact { frame_of result ≡ message_of (take count held.now) }
    ensures sized { IsTrue (allows result.kind (19 + length result.body.now)) }
{
    Frame {
        kind: held[18],
        body: &held[HEADER..count],
    }
}

/// The fields of a [`Deframer`] with a piece fed to it.
fn take_piece(
    held: &mut Vec<u8>,
    count: &mut usize,
    stands: &mut bool,
    fault: &mut Option<MessageFault>,
    piece: &[u8],
) -> Result<(usize, bool), MessageFault>
    requires room { length held.old.items ≡ 4096 }
    requires within { count.old ≤ 4096 }
    requires kept { IsFraming (take count.old held.old.items) stands.old fault.old }
    ensures room { length held.new.items ≡ 4096 }
    ensures within { count.new ≤ 4096 }
    ensures kept { IsFraming (take count.new held.new.items) stands.new fault.new }
    ensures again { Repeats fault.old result held.old.items held.new.items count.old count.new }
    ensures fault { fault.new ≡ fault_after result }
    ensures stands { stands.new ≡ stands_after result }
    ensures some { IfOk result (λ fed. (fed.0 ≤ length piece.now) × (0 < length piece.now → 0 < fed.0)) }
    ensures exact { FeedsFrom fault.old stands.old (take count.old held.old.items) piece.now
        (take count.new held.new.items) result }
{
    if let Some(fault) = *fault {
        return Err(fault);
    }
    if *stands {
        *count = 0;
    }
    let fed = go_on(held, count, piece);
    *stands = ends_message(&fed);
    *fault = fed.err();
    fed
}

fn ends_message(fed: &Result<(usize, bool), MessageFault>) -> bool
    ensures { result ≡ stands_after fed.now }
{
    match fed {
        Ok((_, stands)) => *stands,
        Err(_) => false,
    }
}

/// Goes on with the message whose first `count` octets are `held`. The header is judged anew at each piece.
fn go_on(held: &mut [u8], count: &mut usize, piece: &[u8]) -> Result<(usize, bool), MessageFault>
    requires room { length held.old ≡ 4096 }
    requires within { count.old ≤ 4096 }
    requires begun { IsBegun (take count.old held.old) }
    ensures within { count.new ≤ 4096 }
    ensures kept { IsFraming (take count.new held.new) (stands_after result) (fault_after result) }
    ensures some { IfOk result (λ fed. (fed.0 ≤ length piece.now) × (0 < length piece.now → 0 < fed.0)) }
    ensures exact { Feeds (take count.old held.old) piece.now (take count.new held.new) result }
{
    let headed = append(held, count, piece, HEADER);
    if let Some(fault) = fault_of(&held[..HEADER.min(*count)]) {
        return Err(fault);
    }
    if *count < HEADER {
        return Ok((headed, false));
    }
    let size = BigEndian::read_u16(&held[16..]) as usize;
    let bodied = append(held, count, &piece[headed..], size);
    Ok((headed + bodied, size <= *count))
}

/// Copies octets of the piece behind the first `count`, up to `goal` of them in all, and answers how many.
fn append(held: &mut [u8], count: &mut usize, piece: &[u8], goal: usize) -> usize
    requires room { goal ≤ length held.old }
    requires within { count.old ≤ length held.old }
    ensures taken { result ≡ min (goal - count.old) (length piece.now) }
    ensures count { count.new ≡ count.old + result }
    ensures held { take count.new held.new ≡ take count.old held.old ++ take result piece.now }
{
    let taken = goal.saturating_sub(*count).min(piece.len());
    held[*count..*count + taken].copy_from_slice(&piece[..taken]);
    *count += taken;
    taken
}
