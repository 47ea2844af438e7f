//! Files in memory, of which some calls can be made to fail.

ghost use Rattle.std.specs.{Prelude.{true, ◌≡◌, ◌↔◌, ◌≤◌, IsTrue, IsSome, IfOk, min, length}, Io.{ReadsAtMost}};
ghost use Rattle.fs_outside.specs.Files.{ReadTakes, one_opening, opened_content};
ghost use Rattle.fs_outside.specs.MemoryFiles.{Adds, LeavesRest, NoFiles, mem_files_shown, mem_files_tally};
ghost use Rattle.fs_outside.specs.{Sink.{Grew}, Tallies.{Counts, fails, narrowed, no_calls}};

use crate::tally::{Tally, fault};
use crate::{CalmFiles, Failed, Files, Memory};
use std::alloc::Global;

/// Files in memory. Calls of `open_file` and `read` are counted together from 1, and those that a list names fail. They
/// tell their openings as `CalmFiles` does. Nothing of them is at hand, so that each read is one of the outside; of
/// `CalmFiles` all is that a slot has left.
#[derive(Drop)]
pub struct MemFiles {
    files: CalmFiles,
    tally: Tally,
}

impl MemFiles {
    /// No files. The calls of these numbers will fail.
    pub fn new(alloc: Global, failing: Vec<u64>) -> MemFiles
        ensures shown { NoFiles (mem_files_shown result) }
        ensures tally { mem_files_tally result ≡ no_calls failing.items }
    {
        MemFiles {
            files: CalmFiles::new(alloc),
            tally: Tally::new(failing),
        }
    }

    /// From now on no read gives more than `count` octets.
    pub fn narrow(&mut self, count: usize)
        requires { 1 ≤ count }
        ensures tally { mem_files_tally self.new ≡ narrowed count (mem_files_tally self.old) }
        ensures shown { mem_files_shown self.new ≡ mem_files_shown self.old }
    {
        self.tally.narrow(count);
    }

    /// Adds a file. If there is one of that name already, that one stays the one to be opened.
    ///
    /// # Errors
    ///
    /// `Memory`: the files are as before.
    pub fn add(&mut self, name: &str, content: Vec<u8>) -> Result<(), Memory>
        ensures adds { Adds name.now content.items result (mem_files_shown self.old) (mem_files_shown self.new) }
        ensures tally { mem_files_tally self.new ≡ mem_files_tally self.old }
    {
        self.files.add(name, content)
    }
}

impl Files for MemFiles {
    ghost tells = { true };

    ghost holds = { λ files. (mem_files_shown files).holds };

    ghost left = { λ files. (mem_files_shown files).left };

    ghost opened = { λ files. (mem_files_shown files).opened };

    ghost faults = { λ files. (mem_files_tally files).faults };

    fn open_file(&mut self, slot: u8, name: &str) -> Result<bool, Failed>
        requires { slot ≤ 2 }
        ensures answered { IfOk result (λ _. (mem_files_tally self.new).faults ≡ (mem_files_tally self.old).faults) }
        ensures found { IfOk result (λ found. IsTrue found ↔ IsSome ((mem_files_shown self.old).holds name.now)) }
        ensures left { (mem_files_shown self.new).left slot
            ≡ opened_content result ((mem_files_shown self.old).holds name.now) }
        ensures opened { Grew (mem_files_shown self.old).opened (mem_files_shown self.new).opened (one_opening slot name.now) }
        ensures others { LeavesRest slot (mem_files_shown self.old) (mem_files_shown self.new) }
        ensures counts { Counts (fails (mem_files_tally self.old)) (mem_files_tally self.old) (mem_files_tally self.new) result }
    {
        if self.tally.is_listed() {
            self.files.shut(slot, name);
            return Err(fault(&mut self.tally.faults));
        }
        Ok(self.files.open(slot, name))
    }

    fn read(&mut self, slot: u8, into: &mut [u8]) -> Result<usize, Failed>
        requires { slot ≤ 2 }
        ensures bound { ReadsAtMost result into.new }
        ensures left { ReadTakes ((mem_files_shown self.old).left slot) ((mem_files_shown self.new).left slot) result into.new }
        ensures opened { (mem_files_shown self.new).opened ≡ (mem_files_shown self.old).opened }
        ensures others { LeavesRest slot (mem_files_shown self.old) (mem_files_shown self.new) }
        ensures counts { Counts (fails (mem_files_tally self.old)) (mem_files_tally self.old) (mem_files_tally self.new) result }
        ensures count { IfOk result
            (λ n. n
            ≡ min (length ((mem_files_shown self.old).left slot)) (min (length into.new) (mem_files_tally self.old).most)) }
    {
        if self.tally.is_listed() {
            return Err(fault(&mut self.tally.faults));
        }
        Ok(self.files.read_most(slot, self.tally.most, into))
    }
}
