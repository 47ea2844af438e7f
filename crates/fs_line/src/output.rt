//! The buffer through which lines leave.

ghost use Rattle.std.specs.Prelude.{◌≡◌, ◌+◌, ◌≤◌, [], ◌<◌, ◌++◌, decimal, length, take, IfOk, IfSome, IsOk, OnErr, OnOk};
ghost use Rattle.fs_base.specs.{Outside.{HasCause}, Sink.{Grew, GrewPart}};
ghost use Rattle.fs_line.specs.Output.{Sends};

use fs_base::{Failed, Memory, Sink, write_all};
use itoa::{Buffer, Integer};
use std::alloc::Global;
use std::marker::Model;

/// How many octets an `Output` keeps back.
pub(crate) const CAPACITY: usize = 65536;

/// The longest number that is printed: 40 digits.
pub(crate) const LONGEST_NUMBER: usize = 40;

/// Text on its way to a sink. Small pieces are kept back, in a buffer that is made once, and leave together.
///
/// Contracts see the octets that are kept back.
#[derive(Drop)]
pub struct Output {
    /// `CAPACITY` octets, of which the first `count` are kept back.
    buffer: Vec<u8>,
    count: usize,
    /// The least of the ten numbers that only the last digit tells apart from the last line's.
    first: u64,
    /// Their digits before the last: so many of these.
    digits: [u8; 8],
    front: usize,
}

impl Model for Output {
    ghost use Rattle.std.specs.Prelude.{◌≡◌, ℕ, ◌≤◌, List, length, take};
    ghost use Rattle.fs_line.specs.Output.{IsDecade};

    ghost Value = { List ℕ };

    ghost view = { λ a. take a.count a.buffer.items };

    ghost invariant = { λ a. (length a.buffer.items ≡ 65536) × (a.count ≤ 65536) × IsDecade a.first a.digits a.front };
}

impl Output {
    /// An output with nothing pending. Takes the 65536 octets of its buffer; no other call takes memory.
    pub fn new(alloc: Global) -> Result<Output, Memory>
        ensures { IfOk result (λ output. output ≡ []) }
    {
        Ok(Output {
            buffer: vec![in alloc; 0u8; CAPACITY]?,
            count: 0,
            first: 0,
            digits: [0; 8],
            front: 0,
        })
    }

    /// Sends a piece after what is pending. A piece that fits is kept back; otherwise what is pending is
    /// written out first, and a piece as large as the buffer is then written as it is.
    ///
    /// Answers Failed where the sink fails. A part of what was to go may then be written, and nothing is
    /// pending.
    pub fn put<S: Sink>(&mut self, sink: &mut S, piece: &[u8]) -> Result<(), Failed>
        ensures sends { Sends S.Sink sink.old sink.new self.old self.new piece.now result }

        // The sink isn't called for a piece that fits.
        ensures kept_back { length self.old + length piece.now ≤ CAPACITY
            → IsOk result × (self.new ≡ self.old ++ piece.now) × (sink.new ≡ sink.old) }
    {
        if piece.len() <= self.room() {
            self.keep_back(piece);
            return Ok(());
        }
        self.flush(sink)?;
        if piece.len() < CAPACITY {
            self.keep_back(piece);
            Ok(())
        } else {
            write_all(sink, piece)
        }
    }

    /// Writes out what is pending. Answers Failed where the sink fails; a part of it may then be written.
    /// Nothing is pending afterwards. Where nothing was, the sink is untouched.
    pub fn flush<S: Sink>(&mut self, sink: &mut S) -> Result<(), Failed>
        ensures ok { OnOk result (Grew (S.written sink.old) (S.written sink.new) self.old) }
        ensures err { OnErr result (GrewPart (S.written sink.old) (S.written sink.new) self.old) }
        ensures empty { self.new ≡ [] }
        ensures idle { length self.old ≡ 0 → IsOk result × (sink.new ≡ sink.old) }
        ensures cause { HasCause (S.faults sink.old) (S.faults sink.new) result }
    {
        if self.count == 0 {
            return Ok(());
        }
        let outcome = write_all(sink, &self.buffer[..self.count]);
        self.count = 0;
        outcome
    }

    /// Writes out what is pending, unless the buffer takes so many more octets.
    pub(crate) fn make_room<S: Sink>(&mut self, sink: &mut S, octets: usize) -> Result<(), Failed>
        requires { octets ≤ CAPACITY }
        ensures sends { Sends S.Sink sink.old sink.new self.old self.new [] result }
        ensures room { OnOk result (length self.new + octets ≤ CAPACITY) }
        ensures kept_back { length self.old + octets ≤ CAPACITY
            → IsOk result × (self.new ≡ self.old) × (sink.new ≡ sink.old) }
    {
        if octets <= self.room() {
            return Ok(());
        }
        self.flush(sink)
    }

    /// How many more octets the buffer takes.
    fn room(&self) -> usize
        ensures { result + length self.now ≡ CAPACITY }
    {
        CAPACITY - self.count
    }

    /// Adds a piece that fits to the octets that are kept back.
    #[inline(always)]
    pub(crate) fn keep_back(&mut self, piece: &[u8])
        requires { length self.old + length piece.now ≤ CAPACITY }
        ensures { self.new ≡ self.old ++ piece.now }
    {
        let end = self.count + piece.len();
        self.buffer[self.count..end].copy_from_slice(piece);
        self.count = end;
    }

    /// Adds a word that fits to the octets that are kept back.
    #[inline(always)]
    pub(crate) fn keep_word<const N: usize>(&mut self, word: [u8; N])
        requires { length self.old + N ≤ CAPACITY }
        ensures { self.new ≡ self.old ++ word.entry }
    {
        self.keep_back(&word);
    }

    /// Keeps only the first so many of the octets that are kept back.
    #[inline(always)]
    fn truncate(&mut self, count: usize)
        requires { count ≤ length self.old }
        ensures { self.new ≡ take count self.old }
    {
        self.count = count;
    }

    /// Adds a number in decimal to the octets that are kept back.
    #[inline(always)]
    pub(crate) fn keep_decimal<N: Integer>(&mut self, number: N)
        requires { length self.old + LONGEST_NUMBER ≤ CAPACITY }
        ensures text { self.new ≡ self.old ++ N.text number }
        ensures short { length self.new ≤ length self.old + LONGEST_NUMBER }
    {
        let mut buffer = Buffer::new();
        self.keep_digits(buffer.format(number).as_bytes());
    }

    /// Adds the digits of a number to the octets that are kept back.
    #[inline(always)]
    fn keep_digits(&mut self, digits: &[u8])
        requires { length self.old + length digits.now ≤ CAPACITY }
        ensures { self.new ≡ self.old ++ digits.now }
    {
        let end = self.count + digits.len();
        copy_digits(digits, &mut self.buffer[self.count..end]);
        self.count = end;
    }

    /// Adds a line's number in decimal to the octets that are kept back. Of lines in turn most differ in the last digit
    /// alone.
    #[inline(always)]
    pub(crate) fn keep_number(&mut self, number: u64)
        requires { length self.old + LONGEST_NUMBER ≤ CAPACITY }
        ensures text { self.new ≡ self.old ++ decimal number }
        ensures short { length self.new ≤ length self.old + LONGEST_NUMBER }
    {
        let Some(digit) = last_digit(self.first, number) else {
            return self.keep_next(number);
        };
        let end = self.count + self.front;
        let digits = self.digits;
        self.keep_back(&digits);
        self.truncate(end);
        self.keep_word([b'0' + digit]);
    }

    /// Adds a number in decimal, and makes it one of the ten.
    #[inline(never)]
    fn keep_next(&mut self, number: u64)
        requires { length self.old + LONGEST_NUMBER ≤ CAPACITY }
        ensures text { self.new ≡ self.old ++ decimal number }
        ensures short { length self.new ≤ length self.old + LONGEST_NUMBER }
    {
        let mut buffer = Buffer::new();
        let digits = buffer.format(number).as_bytes();
        self.keep_digits(digits);
        self.turn(number, digits);
    }

    /// Makes a number one of the ten, unless it's too long.
    fn turn(&mut self, number: u64, text: &[u8])
        requires { text.now ≡ decimal number }
        ensures { self.new ≡ self.old }
    {
        let front = text.len() - 1;
        if front < 8 {
            self.first = number - number % 10;
            self.digits = front_of(text, front);
            self.front = front;
        }
    }
}

/// The last digit of a number, where that is the one or one of the nine behind it.
#[inline(always)]
fn last_digit(first: u64, number: u64) -> Option<u8>
    ensures { IfSome result (λ digit. (digit < 10) × (number ≡ first + digit)) }
{
    match number.checked_sub(first) {
        Some(digit) if digit < 10 => Some(digit as u8),
        _ => None,
    }
}

/// The first octets of a text, fewer than eight, in a place of eight.
fn front_of(text: &[u8], count: usize) -> [u8; 8]
    requires held { count ≤ length text.now }
    requires few { count < 8 }
    ensures { take count result ≡ take count text.now }
{
    let mut front = [0u8; 8];
    copy_digits(&text[..count], &mut front[..count]);
    front
}

/// Copies a piece that is mostly short, without a call of the system's up to 8 octets.
#[inline(always)]
fn copy_digits(piece: &[u8], into: &mut [u8])
    requires { length into.old ≡ length piece.now }
    ensures { into.new ≡ piece.now }
{
    match piece.len() {
        1 => copy_ends(1, piece, into),
        2 | 3 => copy_ends(2, piece, into),
        4..=8 => copy_ends(4, piece, into),
        _ => into.copy_from_slice(piece),
    }
}

/// Copies the first and the last `size` octets of a piece, which are all of it.
#[inline(always)]
fn copy_ends(size: usize, piece: &[u8], into: &mut [u8])
    requires room { length into.old ≡ length piece.now }
    requires least { size ≤ length piece.now }
    requires most { length piece.now ≤ size + size }
    ensures { into.new ≡ piece.now }
{
    let last = piece.len() - size;
    into[..size].copy_from_slice(&piece[..size]);
    into[last..].copy_from_slice(&piece[last..]);
}
