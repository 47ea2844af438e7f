//! Octets that are made piece by piece.

use crate::fault::Fault;
use hex::FromHexError;
use std::alloc::Global;
use std::{fmt, str};

/// Octets that are made piece by piece. They remember the first fault on the way, so that the calls that append answer
/// no `Result`, and what makes something has one end.
#[derive(Drop)]
pub struct Octets {
    alloc: Global,
    held: Vec<u8>,
    fault: Option<Fault>,
}

/// Where a length is to be written, in how many octets, and from where on it counts.
#[derive(Clone, Copy, Drop)]
pub struct Length {
    pub place: usize,
    pub width: usize,
    pub from: usize,
}

impl Octets {
    /// Nothing yet.
    pub fn new(alloc: Global) -> Octets {
        Octets {
            alloc,
            held: Vec::new(alloc),
            fault: None,
        }
    }

    pub fn fail(&mut self, fault: Fault) {
        if self.fault.is_none() {
            self.fault = Some(fault);
        }
    }

    /// The first fault on the way.
    pub fn check(&self) -> Result<(), Fault> {
        match self.fault {
            Some(fault) => Err(fault),
            None => Ok(()),
        }
    }

    pub fn as_slice(&self) -> &[u8] {
        self.held.as_slice()
    }

    pub fn len(&self) -> usize {
        self.held.len()
    }

    pub fn append(&mut self, piece: &[u8]) {
        if self.held.extend_from_slice(piece).is_err() {
            self.fail(Fault::Memory);
        }
    }

    pub fn word(&mut self, word: &str) {
        self.append(word.as_bytes());
    }

    /// A number in so many octets, the highest first.
    pub fn number(&mut self, number: u64, width: usize) {
        let octets = number.to_be_bytes();
        let (high, low) = octets.split_at(8usize.saturating_sub(width));
        self.append(low);
        if high.iter().any(|octet| *octet != 0) {
            self.fail(Fault::TooLarge);
        }
    }

    /// A value as `Debug` prints it: a number in decimal digits.
    pub fn show<T: fmt::Debug>(&mut self, value: &T) {
        match format!(in self.alloc; "{value:?}") {
            Ok(text) => self.word(text.as_str()),
            Err(_) => self.fail(Fault::Memory),
        }
    }

    /// Octets as `Debug` prints them, as text where they are one.
    pub fn show_octets(&mut self, octets: &[u8]) {
        match str::from_utf8(octets) {
            Ok(text) => self.show(&text),
            Err(_) => self.show(&octets),
        }
    }

    /// Octets in hexadecimal.
    pub fn digits_of(&mut self, octets: &[u8]) {
        match hex::encode(self.alloc, octets) {
            Ok(digits) => self.word(digits.as_str()),
            Err(_) => self.fail(Fault::Memory),
        }
    }

    /// The octets of hexadecimal digits.
    pub fn hexadecimal(&mut self, digits: &str) {
        match hex::decode(self.alloc, digits.as_bytes()) {
            Ok(octets) => self.append(&octets),
            Err(FromHexError::OutOfMemory) => self.fail(Fault::Memory),
            Err(_) => self.fail(Fault::NoHexadecimal),
        }
    }

    /// The octets of a text in which `\n` stands for the end of a line, and `\` before another character for that one.
    pub fn text(&mut self, escaped: &[u8]) {
        if !escaped.contains(&b'\\') {
            return self.append(escaped);
        }
        let mut escape = false;
        for octet in escaped {
            if escape {
                self.append(&[if *octet == b'n' { b'\n' } else { *octet }]);
                escape = false;
            } else if *octet == b'\\' {
                escape = true;
            } else {
                self.append(&[*octet]);
            }
        }
    }

    /// Octets over those from this place on.
    pub fn put(&mut self, place: usize, octets: &[u8]) {
        for (offset, octet) in octets.iter().enumerate() {
            match self.held.get_mut(place.saturating_add(offset)) {
                Some(old) => *old = *octet,
                None => self.fail(Fault::TooLarge),
            }
        }
    }

    /// Leaves room for a length of so many octets, which counts what comes behind it.
    pub fn open(&mut self, width: usize) -> Length {
        let place = self.len();
        self.number(0, width);
        Length {
            place,
            width,
            from: self.len(),
        }
    }

    /// Writes a length: what it counts ends here.
    pub fn close(&mut self, length: Length) {
        let mut octets = Octets::new(self.alloc);
        octets.number(self.len().saturating_sub(length.from) as u64, length.width);
        self.put(length.place, octets.as_slice());
        if octets.check().is_err() {
            self.fail(Fault::TooLarge);
        }
    }

    /// The text.
    pub fn as_text(&self) -> Result<&str, Fault> {
        self.check()?;
        str::from_utf8(self.held.as_slice()).map_err(|_| Fault::NoText)
    }

    /// Prints the text, as a line.
    pub fn print(&self, rt: &HostRuntime) -> Result<(), Fault> {
        let text = self.as_text()?;
        println!(rt; "{text}")?;
        Ok(())
    }
}
