//! The real outside: files of the system, and a writer for the program's lines.
ghost use Rattle.std.specs.{Prelude.{◌≡◌, ◌≤◌, IfOk}, Io.{ReadsAtMost}};
ghost use Rattle.fs_outside.specs.Outside.{HasCause};

use crate::blocks::Blocks;
use crate::tally::fault;
use crate::{Failed, Files, Sink};
use std::alloc::Global;
use std::io::{ErrorKind, Read, Write};
use std::{fs, io, rt};

/// The three slots, which of them may wait in a read, and the faults so far.
#[derive(Drop)]
struct Slots<F: Read + Drop> {
    readers: [Option<Blocks<F>>; 3],
    waits: [bool; 3],
    faults: u64,
}

impl<F: Read + Drop> Slots<F> {
    /// Puts the outcome of an opening into a slot.
    fn put(&mut self, slot: u8, opened: io::Result<F>, alloc: Global) -> Result<bool, Failed>
        requires { slot ≤ 2 }
        ensures cause { HasCause self.old.faults self.new.faults result }
        ensures answered { IfOk result (λ _. self.new.faults ≡ self.old.faults) }
    {
        let place = slot as usize;
        self.readers[place] = None;
        match opened {
            Ok(file) => match Blocks::new(alloc, file) {
                Ok(reader) => {
                    self.readers[place] = Some(reader);
                    Ok(true)
                }
                Err(_) => Err(fault(&mut self.faults)),
            },
            Err(error) if error.kind() == ErrorKind::NotFound => Ok(false),
            Err(_) => Err(fault(&mut self.faults)),
        }
    }

    /// Reads from a slot. One that isn't open is at its end.
    #[inline(always)]
    fn read(&mut self, slot: u8, into: &mut [u8]) -> Result<usize, Failed>
        requires { slot ≤ 2 }
        ensures cause { HasCause self.old.faults self.new.faults result }
        ensures bound { ReadsAtMost result into.new }
    {
        let Some(reader) = &mut self.readers[slot as usize] else {
            return Ok(0);
        };
        if reader.fill(into) {
            return Ok(into.len());
        }
        match reader.read(into) {
            Ok(count) => Ok(count),
            Err(Failed) => Err(fault(&mut self.faults)),
        }
    }

    /// What the block of a slot still holds.
    #[inline(always)]
    fn at_hand(&self, slot: u8) -> &[u8]
        requires { slot ≤ 2 }
    {
        match &self.readers[slot as usize] {
            Some(reader) => reader.at_hand(),
            None => &[],
        }
    }
}

/// The files of the system. Memory refused for a slot's block counts as a fault.
#[derive(Drop)]
pub struct RealFiles<'a, R: rt::Files> {
    runtime: &'a R,
    alloc: Global,
    slots: Slots<R::File>,
}

impl<'a, R: rt::Files> RealFiles<'a, R> {
    ghost use Rattle.fs_outside.specs.Real.{real_files_faults};

    /// No slot is open, and no call has failed.
    pub fn new(alloc: Global, runtime: &'a R) -> RealFiles<'a, R>
        ensures faults { real_files_faults result ≡ 0 }
    {
        let slots = Slots {
            readers: [None, None, None],
            waits: [true; 3],
            faults: 0,
        };
        RealFiles {
            runtime,
            alloc,
            slots,
        }
    }
}

impl<'a, R: rt::Files> Files for RealFiles<'a, R> {
    ghost use Rattle.std.specs.Prelude.{false, None, []};
    ghost use Rattle.fs_outside.specs.Real.{real_files_faults};

    ghost tells = { false };

    ghost holds = { λ files name. None };

    ghost left = { λ files slot. [] };

    ghost opened = { λ files. None };

    ghost faults = { real_files_faults };

    fn open_file(&mut self, slot: u8, name: &str) -> Result<bool, Failed> {
        self.slots.waits[slot as usize] = !is_file(self.runtime, name);
        let opened = fs::open(self.runtime, name);
        self.slots.put(slot, opened, self.alloc)
    }

    #[inline(always)]
    fn read(&mut self, slot: u8, into: &mut [u8]) -> Result<usize, Failed> {
        self.slots.read(slot, into)
    }

    #[inline(always)]
    fn waits(&self, slot: u8) -> bool {
        self.slots.waits[slot as usize]
    }

    #[inline(always)]
    fn at_hand(&self, slot: u8) -> &[u8] {
        self.slots.at_hand(slot)
    }
}

/// Whether the name is that of a file whose octets are all there.
fn is_file<R: rt::Files>(runtime: &R, name: &str) -> bool {
    match fs::metadata(runtime, name) {
        Ok(shown) => shown.is_file(),
        Err(_) => false,
    }
}

/// A writer that each piece goes through at once.
#[derive(Drop)]
pub struct RealOut<W: Write + Drop> {
    writer: W,
    faults: u64,
}

impl<W: Write + Drop> RealOut<W> {
    ghost use Rattle.fs_outside.specs.Real.{real_out_faults};

    /// A sink that writes to `writer`, of which no write has failed.
    pub fn new(writer: W) -> RealOut<W>
        ensures faults { real_out_faults result ≡ 0 }
    {
        RealOut { writer, faults: 0 }
    }
}

impl<W: Write + Drop> Sink for RealOut<W> {
    ghost use Rattle.std.specs.Prelude.{None};
    ghost use Rattle.fs_outside.specs.Real.{real_out_faults};

    ghost written = { λ out. None };

    ghost faults = { real_out_faults };

    fn write(&mut self, piece: &[u8]) -> Result<usize, Failed> {
        match self.writer.write(piece) {
            Ok(count) if 0 < count || piece.is_empty() => Ok(count),
            _ => Err(fault(&mut self.faults)),
        }
    }
}
