//! A line of the table: the words that a call is given, and what is told of its answer.

use fs_base::{Config, Family, Prefix};
use fs_nlri::{Feed, Rule};
use std::alloc::Global;
use std::fmt;
use std::str::FromStr;

/// What a call is given, a configuration and the words that are still to be read, what it writes, and what is told so
/// far. A word that says nothing where it stands is 0, or has no octets.
#[derive(Drop)]
pub struct Call<'a> {
    pub alloc: Global,
    pub config: &'a Config,
    pub out: Vec<u8>,
    pub told: String,
    pub rest: &'a str,
}

impl<'a> Call<'a> {
    pub fn word(&mut self) -> &'a str {
        let (word, rest) = self.rest.split_once(' ').unwrap_or((self.rest, ""));
        self.rest = rest;
        word
    }

    /// A number in decimal digits.
    pub fn number<T: FromStr + Default>(&mut self) -> T
    where
        T::Err: Drop,
    {
        self.word().parse::<T>().ok().unwrap_or_default()
    }

    /// The octets of a word in hexadecimal, part by part: `HEX*N` are these N times, and a point parts them.
    pub fn octets(&mut self) -> Vec<u8> {
        let mut octets = Vec::new(self.alloc);
        for part in self.word().split('.') {
            let (digits, times) = part.split_once('*').unwrap_or((part, "1"));
            let piece = hex::decode(self.alloc, digits.as_bytes());
            if let Some(piece) = self.good(piece) {
                for _ in 0..times.parse::<u64>().unwrap_or_default() {
                    self.good(octets.extend_from_slice(&piece));
                }
            }
        }
        octets
    }

    /// `v4`, else IPv6.
    pub fn family(&mut self) -> Family {
        match self.word() {
            "v4" => Family::V4,
            _ => Family::V6,
        }
    }

    /// `FAMILY ADDRESS LENGTH`, the address as a number.
    pub fn prefix(&mut self) -> Option<Prefix> {
        let family = self.family();
        let bits: u128 = self.number();
        Prefix::new(family, bits, self.number())
    }

    /// `FAMILY OCTETS`: rules one behind the other.
    pub fn rules(&mut self) -> Vec<Rule> {
        let mut rules = Vec::new(self.alloc);
        let family = self.family();
        if let Some(mut feed) = self.good(Feed::new(self.alloc, family)) {
            let fed = feed.feed(&self.octets(), &mut rules);
            self.good(fed);
        }
        rules
    }

    /// Tells a word. None where memory is refused.
    pub fn tell(&mut self, word: &str) -> Option<()> {
        self.told.push_str(" ").and(self.told.push_str(word)).ok()
    }

    /// Tells a value as `Debug` prints it.
    pub fn show<T: fmt::Debug>(&mut self, value: &T) -> Option<()> {
        let text = format!(in self.alloc; "{value:?}").ok()?;
        self.tell(text.as_str())
    }

    /// What an answer has; its fault is told.
    pub fn good<T: Drop, E: fmt::Debug + Drop>(&mut self, answer: Result<T, E>) -> Option<T> {
        answer.map_err(|fault| self.show(&fault)).ok()
    }

    /// Tells the fault of a call that writes, how many octets were written since the last one, and the first of them.
    pub fn written<E: fmt::Debug + Drop>(&mut self, answer: Result<(), E>) -> Option<()> {
        self.good(answer);
        let count = self.out.len();
        self.out.truncate(128);
        let text = hex::encode(self.alloc, &self.out).ok()?;
        self.out.clear();
        self.show(&count);
        self.tell(text.as_str())
    }
}

/// Whether a value, which `Debug` can print, is itself.
pub fn same<T: PartialEq + fmt::Debug>(one: &T, other: &T) -> bool {
    one == other
}
