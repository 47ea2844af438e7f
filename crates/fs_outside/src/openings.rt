//! The openings of files in memory.

ghost use Rattle.std.specs.Prelude.{◌≡◌, ◌++◌, [], Some, IsTrue, map};
ghost use Rattle.fs_outside.specs.{Files.{one_opening}, Noted.{opening_of}, Sink.{Grew}};

use std::alloc::Global;
use std::marker::Model;

/// An opening: of which name, in which slot.
#[derive(Drop)]
struct NotedOpening {
    slot: u8,
    name: String,
}

/// The openings so far, in order. Once the machine refused the memory to note one, none is told any more.
#[derive(Drop)]
pub(crate) struct Openings {
    noted: Vec<NotedOpening>,
    tells: bool,
}

impl Model for Openings {
    ghost use Rattle.std.specs.Prelude.{List, Option, Some, None, if◌then◌else◌, map};
    ghost use Rattle.fs_outside.specs.{Files.{Opened}, Noted.{opening_of}};

    ghost Value = { Option (List Opened) };

    ghost view = { λ a. if a.tells then Some (map opening_of a.noted.items) else None };
}

/// Appends an opening; answers whether the machine had the memory for it.
fn append(noted: &mut Vec<NotedOpening>, slot: u8, name: &str) -> bool
    ensures { IsTrue result
        → map opening_of noted.new.items ≡ map opening_of noted.old.items ++ one_opening slot name.now }
{
    let Ok(name) = String::from_str(*noted.allocator(), name) else {
        return false;
    };
    noted.push(NotedOpening { slot, name }).is_ok()
}

impl Openings {
    /// None so far.
    pub fn new(alloc: Global) -> Openings
        ensures { result ≡ Some [] }
    {
        Openings {
            noted: Vec::new(alloc),
            tells: true,
        }
    }

    /// Notes an opening.
    pub fn note(&mut self, slot: u8, name: &str)
        ensures { Grew self.old self.new (one_opening slot name.now) }
    {
        self.tells = self.tells && append(&mut self.noted, slot, name);
    }
}
