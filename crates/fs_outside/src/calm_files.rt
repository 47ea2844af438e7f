//! Files in memory, of which no call fails.

ghost use Rattle.std.specs.Prelude.{true, ◌≡◌, ◌↔◌, ◌≤◌, ◌<◌, ◌+◌, ◌^◌, [], IsTrue, IsSome, min, unwrap_or, drop, take, length};
ghost use Rattle.fs_outside.specs.{Files.{one_opening}, MemoryFiles.{Adds, LeavesRest, NoFiles, calm_files_shown, place_of}, Sink.{Grew}};

use crate::openings::Openings;
use crate::{Failed, Files, Memory};
use std::alloc::Global;

/// A file in memory.
#[derive(Drop)]
struct HeldFile {
    name: String,
    content: Vec<u8>,
}

/// What a slot reads: the place of a file, and how many octets of it were taken.
#[derive(Clone, Copy, Drop)]
struct Slot {
    place: Option<usize>,
    taken: usize,
}

impl Slot {
    /// A slot at its end.
    const SHUT: Slot = Slot {
        place: None,
        taken: 0,
    };
}

/// Files in memory of which no call fails. They tell their openings, up to the first for which the machine refuses the
/// memory to note it.
#[derive(Drop)]
pub struct CalmFiles {
    files: Vec<HeldFile>,
    slots: [Slot; 3],
    openings: Openings,
}

fn place_of(files: &[HeldFile], name: &str) -> Option<usize>
    ensures { result ≡ place_of files.now name.now }
{
    files.iter().position(|file| file.name.as_str() == name)
}

/// Copies what `content` has behind its first `taken` octets into the front of `into`, as far as it has room, and at
/// most so many octets.
pub(crate) fn copy_behind(content: &[u8], taken: usize, most: usize, into: &mut [u8]) -> usize
    ensures count { result ≡ min (length (drop taken content.now)) (min (length into.old) most) }
    ensures copied { take result into.new ≡ take result (drop taken content.now) }
    ensures fits { taken + result < 2 ^ 64 }
{
    if content.len() <= taken {
        return 0;
    }
    let rest = &content[taken..];
    let count = rest.len().min(into.len()).min(most);
    into[..count].copy_from_slice(&rest[..count]);
    count
}

impl CalmFiles {
    /// No files.
    pub fn new(alloc: Global) -> CalmFiles
        ensures { NoFiles (calm_files_shown result) }
    {
        CalmFiles {
            files: Vec::new(alloc),
            slots: [Slot::SHUT; 3],
            openings: Openings::new(alloc),
        }
    }

    /// Adds a file. If there is one of that name already, that one stays the one to be opened.
    ///
    /// # Errors
    ///
    /// `Memory`: the files are as before.
    pub fn add(&mut self, name: &str, content: Vec<u8>) -> Result<(), Memory>
        ensures adds { Adds name.now content.items result (calm_files_shown self.old) (calm_files_shown self.new) }
    {
        let name = String::from_str(*self.files.allocator(), name)?;
        self.files.push(HeldFile { name, content })?;
        Ok(())
    }

    /// Notes an opening; opens the file at its front, and answers whether it is there.
    pub(crate) fn open(&mut self, slot: u8, name: &str) -> bool
        requires { slot ≤ 2 }
        ensures found { IsTrue result ↔ IsSome ((calm_files_shown self.old).holds name.now) }
        ensures left { (calm_files_shown self.new).left slot ≡ unwrap_or ((calm_files_shown self.old).holds name.now) [] }
        ensures opened { Grew (calm_files_shown self.old).opened (calm_files_shown self.new).opened (one_opening slot name.now) }
        ensures others { LeavesRest slot (calm_files_shown self.old) (calm_files_shown self.new) }
    {
        let place = place_of(&self.files, name);
        self.slots[slot as usize] = Slot { place, taken: 0 };
        self.openings.note(slot, name);
        place.is_some()
    }

    /// Notes an opening, and leaves the slot at its end.
    pub(crate) fn shut(&mut self, slot: u8, name: &str)
        requires { slot ≤ 2 }
        ensures left { (calm_files_shown self.new).left slot ≡ [] }
        ensures opened { Grew (calm_files_shown self.old).opened (calm_files_shown self.new).opened (one_opening slot name.now) }
        ensures others { LeavesRest slot (calm_files_shown self.old) (calm_files_shown self.new) }
    {
        self.slots[slot as usize] = Slot::SHUT;
        self.openings.note(slot, name);
    }

    /// Reads what a slot has left into the front of `into`, as far as it has room, and at most so many octets.
    pub(crate) fn read_most(&mut self, slot: u8, most: usize, into: &mut [u8]) -> usize
        requires { slot ≤ 2 }
        ensures count { result ≡ min (length ((calm_files_shown self.old).left slot)) (min (length into.old) most) }
        ensures copied { take result into.new ≡ take result ((calm_files_shown self.old).left slot) }
        ensures left { (calm_files_shown self.new).left slot ≡ drop result ((calm_files_shown self.old).left slot) }
        ensures opened { (calm_files_shown self.new).opened ≡ (calm_files_shown self.old).opened }
        ensures others { LeavesRest slot (calm_files_shown self.old) (calm_files_shown self.new) }
    {
        let Slot { place, taken } = self.slots[slot as usize];
        let Some(place) = place else {
            return 0;
        };
        let Some(file) = self.files.get(place) else {
            return 0;
        };
        let count = copy_behind(&file.content, taken, most, into);
        self.slots[slot as usize] = Slot {
            place: Some(place),
            taken: taken + count,
        };
        count
    }

    /// What a slot has left.
    fn rest(&self, slot: u8) -> &[u8]
        requires { slot ≤ 2 }
        ensures { result.now ≡ (calm_files_shown self.now).left slot }
    {
        let Slot { place, taken } = self.slots[slot as usize];
        let Some(place) = place else {
            return &[];
        };
        match self.files.get(place) {
            Some(file) if taken < file.content.len() => &file.content[taken..],
            _ => &[],
        }
    }
}

impl Files for CalmFiles {
    ghost tells = { true };

    ghost holds = { λ files. (calm_files_shown files).holds };

    ghost left = { λ files. (calm_files_shown files).left };

    ghost opened = { λ files. (calm_files_shown files).opened };

    ghost faults = { λ files. 0 };

    fn open_file(&mut self, slot: u8, name: &str) -> Result<bool, Failed> {
        Ok(self.open(slot, name))
    }

    fn read(&mut self, slot: u8, into: &mut [u8]) -> Result<usize, Failed> {
        Ok(self.read_most(slot, usize::MAX, into))
    }

    fn at_hand(&self, slot: u8) -> &[u8] {
        self.rest(slot)
    }
}
