//! Files of which one has another content when it is opened again.

use fs_base::{Failed, Files};

/// Files that don't tell what they hold: from its second opening on, the file of one name is that of another.
#[derive(Drop)]
pub struct TurningFiles<'t, F: Files + Drop> {
    files: F,
    name: &'t str,
    other: &'t str,
    was_opened: bool,
}

impl<'t, F: Files + Drop> TurningFiles<'t, F> {
    /// Nothing was opened yet.
    pub fn new(files: F, name: &'t str, other: &'t str) -> TurningFiles<'t, F> {
        TurningFiles {
            files,
            name,
            other,
            was_opened: false,
        }
    }
}

impl<'t, F: Files + Drop> Files for TurningFiles<'t, F> {
    ghost use Rattle.std.specs.Prelude.{false, None, []};

    ghost tells = { false };

    ghost holds = { λ files name. None };

    ghost left = { λ files slot. [] };

    ghost opened = { λ files. None };

    ghost faults = { λ turning. F.faults turning.files };

    fn open_file(&mut self, slot: u8, name: &str) -> Result<bool, Failed> {
        if name != self.name {
            return self.files.open_file(slot, name);
        }
        let found = if self.was_opened { self.other } else { name };
        self.was_opened = true;
        self.files.open_file(slot, found)
    }

    fn read(&mut self, slot: u8, into: &mut [u8]) -> Result<usize, Failed> {
        self.files.read(slot, into)
    }
}
