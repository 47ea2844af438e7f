//! What is in flight between two ends.

ghost use Rattle.std.specs.Prelude.{◌≡◌, [], true, false, take, drop, IfOk, OnOk};
ghost use Rattle.fs_speaker.specs.World.{sent};

use fs_base::Memory;
use std::alloc::Global;
use std::marker::Model;

/// The octets in flight to each end, and whether the wire is cut.
#[derive(Drop)]
pub struct Flight {
    to_taker: Vec<u8>,
    to_teller: Vec<u8>,
    cut: bool,
}

impl Model for Flight {
    ghost use Rattle.fs_speaker.specs.Flight.{Flying, flying};

    ghost Value = { Flying };

    ghost view = { λ f. flying f.to_taker.items f.to_teller.items f.cut };
}

impl Flight {
    ghost use Rattle.fs_speaker.specs.Flight.{flying};

    /// These octets are in flight to the receiving end.
    pub fn new(alloc: Global, to_taker: Vec<u8>) -> Flight
        ensures { result ≡ flying to_taker.items [] false }
    {
        Flight {
            to_taker,
            to_teller: Vec::new(alloc),
            cut: false,
        }
    }

    pub fn alloc(&self) -> Global {
        *self.to_taker.allocator()
    }

    /// What is said to the receiving end.
    pub fn tell_taker(&mut self, said: &[u8]) -> Result<(), Memory>
        ensures { OnOk result (self.new
            ≡ flying (sent self.old.cut self.old.to_taker said.now) self.old.to_teller self.old.cut) }
    {
        append(&mut self.to_taker, self.cut, said)
    }

    /// What is said to the announcing end.
    pub fn tell_teller(&mut self, said: &[u8]) -> Result<(), Memory>
        ensures { OnOk result (self.new
            ≡ flying self.old.to_taker (sent self.old.cut self.old.to_teller said.now) self.old.cut) }
    {
        append(&mut self.to_teller, self.cut, said)
    }

    /// Takes the first octets in flight to the receiving end, all where there are fewer.
    pub fn take_taker(&mut self, count: usize) -> Result<Vec<u8>, Memory>
        ensures { IfOk result (λ piece. (piece.items ≡ take count self.old.to_taker)
            × (self.new ≡ flying (drop count self.old.to_taker) self.old.to_teller self.old.cut)) }
    {
        take_front(&mut self.to_taker, count)
    }

    /// Takes the first octets in flight to the announcing end, all where there are fewer.
    pub fn take_teller(&mut self, count: usize) -> Result<Vec<u8>, Memory>
        ensures { IfOk result (λ piece. (piece.items ≡ take count self.old.to_teller)
            × (self.new ≡ flying self.old.to_taker (drop count self.old.to_teller) self.old.cut)) }
    {
        take_front(&mut self.to_teller, count)
    }

    /// What is in flight is gone, and nothing more arrives.
    pub fn cut(&mut self)
        ensures { self.new ≡ flying [] [] true }
    {
        self.to_taker.clear();
        self.to_teller.clear();
        self.cut = true;
    }
}

fn append(flying: &mut Vec<u8>, cut: bool, said: &[u8]) -> Result<(), Memory>
    ensures { OnOk result (flying.new.items ≡ sent cut flying.old.items said.now) }
{
    if !cut {
        flying.extend_from_slice(said)?;
    }
    Ok(())
}

fn take_front(flying: &mut Vec<u8>, count: usize) -> Result<Vec<u8>, Memory>
    ensures { IfOk result (λ piece.
        (piece.items ≡ take count flying.old.items) × (flying.new.items ≡ drop count flying.old.items)) }
{
    let alloc = *flying.allocator();
    if flying.len() <= count {
        let all = Vec::from_slice(alloc, flying)?;
        flying.clear();
        return Ok(all);
    }
    let rest = Vec::from_slice(alloc, &flying[count..])?;
    flying.truncate(count);
    Ok(std::mem::replace(flying, rest))
}
