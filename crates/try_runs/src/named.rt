//! The files that case files define: those of the runs, and what they are made of.

use crate::fault::Fault;
use crate::octets::Octets;
use std::alloc::Global;
use std::collections::BTreeMap;

/// The octets of each file, by name. One file is open, to which octets are appended.
#[derive(Drop)]
pub struct NamedFiles {
    alloc: Global,
    held: BTreeMap<String, Octets>,
    open: String,
}

impl NamedFiles {
    pub fn new(alloc: Global) -> NamedFiles {
        NamedFiles {
            alloc,
            held: BTreeMap::new(alloc),
            open: String::new(alloc),
        }
    }

    /// Opens an empty file of this name. What had the name before is forgotten.
    pub fn begin(&mut self, name: &str) -> Result<(), Fault> {
        self.open.clear();
        self.open.push_str(name)?;
        let key = String::from_str(self.alloc, name)?;
        match self.held.insert(key, Octets::new(self.alloc)) {
            Ok(_) => Ok(()),
            Err(_) => Err(Fault::Memory),
        }
    }

    /// The octets of this name.
    pub fn content(&self, name: &str) -> Option<&[u8]> {
        match self.held.get(name) {
            Some(octets) => Some(octets.as_slice()),
            None => None,
        }
    }

    /// The open file.
    fn open(&mut self) -> Result<&mut Octets, Fault> {
        self.held.get_mut(self.open.as_str()).ok_or(Fault::NoName)
    }

    /// Appends octets to the open file.
    pub fn append(&mut self, made: &Octets) -> Result<(), Fault> {
        made.check()?;
        let open = self.open()?;
        open.append(made.as_slice());
        open.check()
    }

    /// Writes octets over those of the open file from this place on.
    pub fn put(&mut self, place: usize, made: &Octets) -> Result<(), Fault> {
        made.check()?;
        let open = self.open()?;
        open.put(place, made.as_slice());
        open.check()
    }

    /// The octets of a field: names of files, and hexadecimal, with spaces between them.
    pub fn octets(&self, field: &str) -> Octets {
        let mut made = Octets::new(self.alloc);
        self.append_octets(field, &mut made);
        made
    }

    /// Appends the octets of a field.
    pub fn append_octets(&self, field: &str, made: &mut Octets) {
        for word in field.split(' ') {
            match self.content(word) {
                Some(content) => made.append(content),
                None => made.hexadecimal(word),
            }
        }
    }

    /// The first octets of a file.
    pub fn append_front(&self, count: usize, name: &str, made: &mut Octets) {
        match self.content(name) {
            Some(content) if count <= content.len() => made.append(&content[..count]),
            Some(_) => made.fail(Fault::TooLarge),
            None => made.fail(Fault::NoName),
        }
    }

    /// The words with spaces between them; of one that begins with `@` the hexadecimal digits of the file, of one that
    /// begins with `$` what the file has.
    pub fn append_words(&self, words: &str, made: &mut Octets) {
        let mut begun = false;
        for word in words.split(' ') {
            if begun {
                made.word(" ");
            }
            begun = true;
            self.append_word(word, made);
        }
    }

    fn append_word(&self, word: &str, made: &mut Octets) {
        let (is_hexadecimal, name) = match (word.strip_prefix("@"), word.strip_prefix("$")) {
            (Some(name), _) => (true, name),
            (None, Some(name)) => (false, name),
            (None, None) => return made.word(word),
        };
        match self.content(name) {
            Some(content) if is_hexadecimal => made.digits_of(content),
            Some(content) => made.append(content),
            None => made.fail(Fault::NoName),
        }
    }
}
