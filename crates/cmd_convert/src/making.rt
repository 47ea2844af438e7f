//! What the records of a dump make of a tape.

ghost use Rattle.std.specs.Prelude.{◌≡◌, ◌≤◌, ◌⊎◌, ℕ, Bool, Some, None, [], IfOk, IsTrue, OnOk, length};
ghost use Rattle.fs_base.specs.Outside.{Rose};
ghost use Rattle.cmd_stages.specs.Writing.{Finishes};
ghost use Rattle.fs_line.specs.Output.{Sends};
ghost use Rattle.fs_mrt.specs.{Dump.{IsWithin, spoken_from}, Record.{change, message, spoken}};
ghost use Rattle.fs_tape.specs.{Laws.{item_text_at}, Magic.{magic_of}, Tape.{received}, declared.magic.Version.TheVariants.{Two}};
ghost use Rattle.cmd_convert.specs.{Greeting.{greeting}, Lives.{lives_of, no_lives, with_life}};
ghost use Rattle.cmd_convert.specs.Making.{asn_of, is_established, is_taken, made, opening, text_at, ended};

use crate::greeting::{narrow_greeting, wide_greeting};
use crate::lives::{Lives, has_width};
use crate::records::{LOST, RECEIVED, Stamp, UP, write_magic, write_record};
use cmd_stages::Refusal;
use fs_base::{Config, Failed, Memory, Sink};
use fs_line::Output;
use fs_message::{NOTIFICATION, UPDATE};
use fs_mrt::{Heard, What};
use std::alloc::Global;
use std::marker::Model;

/// The place of a message's type.
const KIND_PLACE: usize = 18;

/// The state of a session that is Established (RFC 6396 section 4.4.1).
const ESTABLISHED: u16 = 6;

/// A tape that is written while a dump is read: the configuration, the lives of the peers, and the output of records.
#[derive(Drop)]
pub(crate) struct Making<'a> {
    config: &'a Config,
    lives: Lives,
    output: Output,
}

impl<'a> Model for Making<'a> {
    ghost use Rattle.cmd_convert.specs.Making.{MakingState};

    ghost Value = { MakingState };

    ghost view = { λ a. record { config = a.config.now; lives = a.lives; pending = a.output } };
}

impl<'a> Making<'a> {
    /// A tape of which nothing is written. Takes all memory that is needed; no other call takes any.
    pub(crate) fn new(alloc: Global, config: &'a Config) -> Result<Making<'a>, Memory>
        ensures config { IfOk result (λ making. making.config ≡ config.entry.now) }
        ensures lives { IfOk result (λ making. (peer : ℕ) → lives_of making.lives peer ≡ None) }
        ensures pending { IfOk result (λ making. making.pending ≡ []) }
    {
        Ok(Making {
            config,
            lives: Lives::new(alloc)?,
            output: Output::new(alloc)?,
        })
    }

    /// The configuration.
    pub(crate) fn config(&self) -> &'a Config
        ensures { result.now ≡ self.now.config }
    {
        self.config
    }

    /// Writes what the tape begins with. It leaves unless the first record of the dump is at hand.
    pub(crate) fn begin<S: Sink>(&mut self, at_hand: bool, sink: &mut S) -> Result<(), Failed>
        ensures config { self.new.config ≡ self.old.config }
        ensures lives { self.new.lives ≡ self.old.lives }
        ensures sends { Sends S.Sink sink.old sink.new self.old.pending self.new.pending (magic_of Two) result }
        ensures none_held { OnOk result (IsTrue at_hand ⊎ (self.new.pending ≡ [])) }
    {
        write_magic(&mut self.output, sink)?;
        self.leave(at_hand, sink)
    }

    /// Writes out the records that are pending, unless the dump's next record is at hand: where the input is waited
    /// for, nothing is held back.
    fn leave<S: Sink>(&mut self, at_hand: bool, sink: &mut S) -> Result<(), Failed>
        ensures config { self.new.config ≡ self.old.config }
        ensures lives { self.new.lives ≡ self.old.lives }
        ensures sends { Sends S.Sink sink.old sink.new self.old.pending self.new.pending [] result }
        ensures none_held { IsTrue at_hand ⊎ (self.new.pending ≡ []) }
    {
        if at_hand {
            return Ok(());
        }
        self.output.flush(sink)
    }

    /// Writes what is made of a record that was heard; a message stands at the front of the buffer. It leaves with all
    /// that is pending, unless the dump's next record is at hand.
    pub(crate) fn write_heard<S: Sink>(
        &mut self,
        at_hand: bool,
        heard: Heard,
        buffer: &[u8],
        sink: &mut S,
    ) -> Result<(), Failed>
        requires within { IsWithin heard.what }
        requires room { 65536 ≤ length buffer.now }
        ensures config { self.new.config ≡ self.old.config }
        ensures lives { OnOk result ((other : ℕ) → lives_of self.new.lives other
            ≡ with_life heard.peer
            (made self.old.config (spoken_from heard buffer.now) (lives_of self.old.lives heard.peer)).1
            (lives_of self.old.lives) other) }
        ensures sends { Sends S.Sink sink.old sink.new self.old.pending self.new.pending
            (text_at heard.moment
            (made self.old.config (spoken_from heard buffer.now) (lives_of self.old.lives heard.peer)).0) result }
        ensures none_held { OnOk result (IsTrue at_hand ⊎ (self.new.pending ≡ [])) }
    {
        self.write_said(heard, buffer, sink)?;
        self.leave(at_hand, sink)
    }

    /// Writes what is made of a message, which stands at the front of the buffer, or of a change of state.
    fn write_said<S: Sink>(
        &mut self,
        heard: Heard,
        buffer: &[u8],
        sink: &mut S,
    ) -> Result<(), Failed>
        requires within { IsWithin heard.what }
        requires room { 65536 ≤ length buffer.now }
        ensures config { self.new.config ≡ self.old.config }
        ensures lives { OnOk result ((other : ℕ) → lives_of self.new.lives other
            ≡ with_life heard.peer
            (made self.old.config (spoken_from heard buffer.now) (lives_of self.old.lives heard.peer)).1
            (lives_of self.old.lives) other) }
        ensures sends { Sends S.Sink sink.old sink.new self.old.pending self.new.pending
            (text_at heard.moment
            (made self.old.config (spoken_from heard buffer.now) (lives_of self.old.lives heard.peer)).0) result }
    {
        let stamp = Stamp {
            peer: heard.peer,
            moment: heard.moment,
        };
        match heard.what {
            What::Message(count) => {
                self.write_message(stamp, heard.wide, &buffer[..count], sink)
            }
            What::Change { old, new } => self.write_change(stamp, old, new, sink),
        }
    }

    /// Writes what is made of a message, whose AS numbers have this width.
    fn write_message<S: Sink>(
        &mut self,
        stamp: Stamp,
        wide: bool,
        octets: &[u8],
        sink: &mut S,
    ) -> Result<(), Failed>
        requires room { length octets.now ≤ 65536 }
        ensures config { self.new.config ≡ self.old.config }
        ensures lives { OnOk result ((other : ℕ) → lives_of self.new.lives other
            ≡ with_life stamp.peer
            (made self.old.config (spoken stamp.peer stamp.moment wide (message octets.now))
            (lives_of self.old.lives stamp.peer)).1
            (lives_of self.old.lives) other) }
        ensures sends { Sends S.Sink sink.old sink.new self.old.pending self.new.pending
            (text_at stamp.moment
            (made self.old.config (spoken stamp.peer stamp.moment wide (message octets.now))
            (lives_of self.old.lives stamp.peer)).0) result }
    {
        if !is_taken(octets) {
            return Ok(());
        }
        if has_width(self.lives.of(stamp.peer), wide) {
            return write_record(&mut self.output, sink, RECEIVED, stamp, octets);
        }
        self.open(stamp, wide, sink)?;
        write_record(&mut self.output, sink, RECEIVED, stamp, octets)
    }

    /// Writes what is made of a change of state.
    fn write_change<S: Sink>(
        &mut self,
        stamp: Stamp,
        old: u16,
        new: u16,
        sink: &mut S,
    ) -> Result<(), Failed>
        ensures config { self.new.config ≡ self.old.config }
        ensures lives { OnOk result ((wide : Bool) → (other : ℕ) → lives_of self.new.lives other
            ≡ with_life stamp.peer
            (made self.old.config (spoken stamp.peer stamp.moment wide (change old new))
            (lives_of self.old.lives stamp.peer)).1
            (lives_of self.old.lives) other) }
        ensures sends { (wide : Bool) → Sends S.Sink sink.old sink.new self.old.pending self.new.pending
            (text_at stamp.moment
            (made self.old.config (spoken stamp.peer stamp.moment wide (change old new))
            (lives_of self.old.lives stamp.peer)).0) result }
    {
        if old == ESTABLISHED || new == ESTABLISHED {
            return self.lose(stamp, sink);
        }
        Ok(())
    }

    /// The peer begins a life in the middle of its session, whose AS numbers have this width. One that it has ends.
    fn open<S: Sink>(&mut self, stamp: Stamp, wide: bool, sink: &mut S) -> Result<(), Failed>
        ensures config { self.new.config ≡ self.old.config }
        ensures lives { OnOk result ((other : ℕ) → lives_of self.new.lives other
            ≡ with_life stamp.peer (Some wide) (lives_of self.old.lives) other) }
        ensures sends { Sends S.Sink sink.old sink.new self.old.pending self.new.pending
            (text_at stamp.moment
            (opening stamp.peer (asn_of self.old.config stamp.peer) wide (lives_of self.old.lives stamp.peer))) result }
    {
        let asn = asn_of(self.config, stamp.peer);
        self.lose(stamp, sink)?;
        self.lives.set(stamp.peer, Some(wide));
        write_record(&mut self.output, sink, UP, stamp, &[])?;
        write_greeting(&mut self.output, sink, stamp, asn, wide)
    }

    /// The peer's life ends, if it has one.
    fn lose<S: Sink>(&mut self, stamp: Stamp, sink: &mut S) -> Result<(), Failed>
        ensures config { self.new.config ≡ self.old.config }
        ensures lives { (other : ℕ) → lives_of self.new.lives other
            ≡ with_life stamp.peer None (lives_of self.old.lives) other }
        ensures sends { Sends S.Sink sink.old sink.new self.old.pending self.new.pending
            (text_at stamp.moment (ended stamp.peer (lives_of self.old.lives stamp.peer))) result }
    {
        let life = self.lives.of(stamp.peer);
        self.lives.set(stamp.peer, None);
        match life {
            Some(_) => write_record(&mut self.output, sink, LOST, stamp, &[]),
            None => Ok(()),
        }
    }

    /// Writes out the records that are pending, and hands on how converting ended.
    pub(crate) fn finish<S: Sink>(
        &mut self,
        converted: Result<(), Refusal>,
        sink: &mut S,
    ) -> Result<(), Refusal>
        ensures later { S.faults sink.old ≤ S.faults sink.new }
        ensures finishes { Finishes self.old.pending (Rose (S.faults sink.old) (S.faults sink.new))
            (S.written sink.old) (S.written sink.new) converted result }
    {
        self.output.flush(sink)?;
        converted
    }
}

/// Whether a message makes an item: an UPDATE or a NOTIFICATION does.
fn is_taken(octets: &[u8]) -> bool
    ensures { result ≡ is_taken octets.now }
{
    match octets.get(KIND_PLACE) {
        Some(kind) => *kind == UPDATE || *kind == NOTIFICATION,
        None => false,
    }
}

/// The AS of a configured peer.
fn asn_of(config: &Config, number: u16) -> u32
    ensures { result ≡ asn_of config.now number }
{
    match config.peer(number) {
        Some(peer) => peer.asn,
        None => 0,
    }
}

/// Writes the messages that a life in the middle of a session begins with.
fn write_greeting<S: Sink>(
    output: &mut Output,
    sink: &mut S,
    stamp: Stamp,
    asn: u32,
    wide: bool,
) -> Result<(), Failed>
    ensures { Sends S.Sink sink.old sink.new output.old output.new
        (item_text_at Two stamp.moment (received stamp.peer (greeting asn wide))) result }
{
    if wide {
        write_record(output, sink, RECEIVED, stamp, &wide_greeting(asn))
    } else {
        write_record(output, sink, RECEIVED, stamp, &narrow_greeting(asn))
    }
}
