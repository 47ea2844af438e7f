//! Two ends in memory.

ghost use Rattle.std.specs.Prelude.{◌≡◌, ◌≤◌, [], IfOk, IsTrue, false, not, length, min, take, drop};
ghost use Rattle.fs_outside.specs.Cabled.{end_of, source_of};

use crate::calm_files::copy_behind;
use crate::text::Text;
use crate::{Memory, Opening};
use std::alloc::Global;

/// Where the octets of an end come from.
#[derive(Clone, Copy, Debug, PartialEq, Eq, Drop)]
pub(crate) enum Origin {
    /// The end isn't open.
    Nothing,
    /// From what it is to receive.
    Own,
    /// From what is written through the other end.
    Other,
}

/// An end in memory: it gave the first `taken` octets of where its octets come from.
#[derive(Drop)]
pub(crate) struct MemEnd {
    pub to_receive: Vec<u8>,
    pub origin: Origin,
    pub taken: usize,
    pub written: Text,
}

impl MemEnd {
    fn new(alloc: Global, room: usize) -> Result<MemEnd, Memory>
        ensures to_receive { IfOk result (λ end. end.to_receive.items ≡ []) }
        ensures origin { IfOk result (λ end. end.origin ≡ Origin.Nothing) }
        ensures taken { IfOk result (λ end. end.taken ≡ 0) }
        ensures written { IfOk result (λ end. end.written.octets.items ≡ []) }
        ensures room { IfOk result (λ end. end.written.room ≡ room) }
    {
        Ok(MemEnd {
            to_receive: Vec::new(alloc),
            origin: Origin::Nothing,
            taken: 0,
            written: Text::new(alloc, room)?,
        })
    }

    /// Takes octets from there on, behind the first `taken`.
    fn begin(&mut self, origin: Origin, taken: usize)
        ensures to_receive { self.new.to_receive ≡ self.old.to_receive }
        ensures origin { self.new.origin ≡ origin }
        ensures taken { self.new.taken ≡ taken }
        ensures written { self.new.written ≡ self.old.written }
    {
        self.origin = origin;
        self.taken = taken;
    }

    /// Shuts the end; it is to receive these octets.
    fn give(&mut self, octets: Vec<u8>)
        ensures to_receive { self.new.to_receive ≡ octets }
        ensures origin { self.new.origin ≡ Origin.Nothing }
        ensures taken { self.new.taken ≡ 0 }
        ensures written { self.new.written ≡ self.old.written }
    {
        self.to_receive = octets;
        self.origin = Origin::Nothing;
        self.taken = 0;
    }

    /// Gives octets of what is left, at most so many, into the front of `into`, and answers how many.
    fn read(&mut self, others: &[u8], most: usize, into: &mut [u8]) -> usize
        ensures count { result ≡ min (length (end_of self.old others.now).left) (min (length into.new) most) }
        ensures copied { take result into.new ≡ take result (end_of self.old others.now).left }
        ensures left { (end_of self.new others.now).left ≡ drop result (end_of self.old others.now).left }
        ensures within { self.old.taken ≤ length (source_of self.old.origin self.old.to_receive.items others.now)
            → self.new.taken ≤ length (source_of self.new.origin self.new.to_receive.items others.now) }
        ensures to_receive { self.new.to_receive ≡ self.old.to_receive }
        ensures origin { self.new.origin ≡ self.old.origin }
        ensures written { self.new.written ≡ self.old.written }
    {
        let count = match self.origin {
            Origin::Nothing => copy_behind(&[], self.taken, most, into),
            Origin::Own => copy_behind(&self.to_receive, self.taken, most, into),
            Origin::Other => copy_behind(others, self.taken, most, into),
        };
        self.taken += count;
        count
    }
}

/// Two ends, each with the same room for what is written through it.
#[derive(Drop)]
pub(crate) struct Cable {
    pub first: MemEnd,
    pub second: MemEnd,
    pub ghost same_room: { second.written.room ≡ first.written.room },
    pub ghost first_taken: { first.taken
        ≤ length (source_of first.origin first.to_receive.items second.written.octets.items) },
    pub ghost second_taken: { second.taken
        ≤ length (source_of second.origin second.to_receive.items first.written.octets.items) },
}

impl Cable {
    ghost use Rattle.fs_outside.specs.{Wire.{TakesIn, end_at, opened, other_than}, MemoryWires.{ends_of, fresh_end, new_ends, passes, room_of, with_end}};

    /// Ends that aren't open.
    pub fn new(alloc: Global, room: usize) -> Result<Cable, Memory>
        ensures ends { IfOk result (λ cable. ends_of cable ≡ new_ends) }
        ensures room { IfOk result (λ cable. room_of cable ≡ room) }
    {
        Ok(Cable {
            first: MemEnd::new(alloc, room)?,
            second: MemEnd::new(alloc, room)?,
        })
    }

    /// The end is to receive these octets; it isn't open then.
    pub fn give(&mut self, end: u8, octets: Vec<u8>)
        requires { end ≤ 1 }
        ensures ends { ends_of self.new ≡ with_end end (fresh_end octets.items) (ends_of self.old) }
        ensures room { room_of self.new ≡ room_of self.old }
    {
        if end == 0 {
            self.first.give(octets);
        } else {
            self.second.give(octets);
        }
    }

    /// Opens an end, or joins both.
    pub fn open(&mut self, how: Opening<'_>)
        ensures ends { ends_of self.new ≡ opened how.entry (ends_of self.old) }
        ensures room { room_of self.new ≡ room_of self.old }
    {
        match how {
            Opening::Listen(_) => self.first.begin(Origin::Own, 0),
            Opening::Dial(_) => self.second.begin(Origin::Own, 0),
            Opening::Both => {
                self.first
                    .begin(Origin::Other, self.second.written.octets.len());
                self.second
                    .begin(Origin::Other, self.first.written.octets.len());
            }
        }
    }

    /// Gives octets of what the end has left, at most so many, into the front of `into`, and answers how many.
    pub fn read(&mut self, end: u8, most: usize, into: &mut [u8]) -> usize
        requires { end ≤ 1 }
        ensures count { result ≡ min (length (end_at end (ends_of self.old)).left) (min (length into.new) most) }
        ensures copied { take result into.new ≡ take result (end_at end (ends_of self.old)).left }
        ensures left { (end_at end (ends_of self.new)).left ≡ drop result (end_at end (ends_of self.old)).left }
        ensures receives { (end_at end (ends_of self.new)).to_receive ≡ (end_at end (ends_of self.old)).to_receive }
        ensures wrote { (end_at end (ends_of self.new)).written ≡ (end_at end (ends_of self.old)).written }
        ensures tied { (end_at end (ends_of self.new)).joined ≡ (end_at end (ends_of self.old)).joined }
        ensures other { other_than end (ends_of self.new) ≡ other_than end (ends_of self.old) }
        ensures room { room_of self.new ≡ room_of self.old }
    {
        if end == 0 {
            self.first.read(&self.second.written.octets, most, into)
        } else {
            self.second.read(&self.first.written.octets, most, into)
        }
    }

    /// Writes all of `piece` through the end, or nothing where that would go past the room; answers whether it did.
    pub fn write(&mut self, end: u8, piece: &[u8]) -> bool
        requires { end ≤ 1 }
        ensures fits { result ≡ not (passes (room_of self.old) (ends_of self.old) end (length piece.now)) }
        ensures taken { IsTrue result → TakesIn end piece.now (ends_of self.old) (ends_of self.new) }
        ensures stays { result ≡ false → ends_of self.new ≡ ends_of self.old }
        ensures room { room_of self.new ≡ room_of self.old }
    {
        if end == 0 {
            self.first.written.append(piece)
        } else {
            self.second.written.append(piece)
        }
    }

    /// What was written through the end.
    pub fn written(&self, end: u8) -> &[u8]
        requires { end ≤ 1 }
        ensures { result.now ≡ (end_at end (ends_of self.now)).written }
    {
        if end == 0 {
            &self.first.written.octets
        } else {
            &self.second.written.octets
        }
    }
}
