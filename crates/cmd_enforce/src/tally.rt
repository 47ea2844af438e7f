//! What is counted of the packets of a capture.

ghost use Rattle.std.specs.{Prelude.{◌≡◌, ◌<◌, ◌+◌, ◌^◌, OnOk}, List.{AllByRecursion}};
ghost use Rattle.cmd_enforce.specs.Survey.{link_key, link_place, same_link, with_packet};

use fs_base::{Link, Memory};
use std::alloc::Global;
use std::marker::Model;

/// How many packets have a link type.
#[derive(Clone, Copy, Debug, PartialEq, Eq, Drop)]
pub(crate) struct LinkCount {
    pub(crate) link: Option<Link>,
    pub(crate) packets: u64,
}

/// How many packets there are, the times of the first and of the last one, the greatest time, the number of the first
/// packet whose time lies below that of the one before it, and the link types in the order of their first packets.
#[derive(Drop)]
pub(crate) struct Tally {
    count: u64,
    first: Option<u64>,
    greatest: u64,
    last: u64,
    fall: Option<u64>,
    links: Vec<LinkCount>,
}

impl Model for Tally {
    ghost use Rattle.cmd_enforce.specs.Survey.{Tallied};

    ghost Value = { Tallied };

    ghost view = { λ tally.
        record {
          count = tally.count;
          first = tally.first;
          greatest = tally.greatest;
          last = tally.last;
          fall = tally.fall;
          links = tally.links.items;
        } };
}

impl Tally {
    ghost use Rattle.std.specs.Prelude.{◌<◌, ◌+◌, ◌^◌};
    ghost use Rattle.cmd_enforce.specs.Survey.{fall_with, noted, nothing_noted};

    /// Nothing is counted.
    pub(crate) fn new(alloc: Global) -> Tally
        ensures { result ≡ nothing_noted }
    {
        Tally {
            count: 0,
            first: None,
            greatest: 0,
            last: 0,
            fall: None,
            links: Vec::new(alloc),
        }
    }

    pub(crate) fn count(&self) -> u64
        ensures { result ≡ self.now.count }
    {
        self.count
    }

    /// The time of the first packet.
    pub(crate) fn first(&self) -> Option<u64>
        ensures { result ≡ self.now.first }
    {
        self.first
    }

    pub(crate) fn greatest(&self) -> u64
        ensures { result ≡ self.now.greatest }
    {
        self.greatest
    }

    pub(crate) fn fall(&self) -> Option<u64>
        ensures { result ≡ self.now.fall }
    {
        self.fall
    }

    pub(crate) fn links(&self) -> &[LinkCount]
        ensures { result.now ≡ self.now.links }
    {
        self.links.as_slice()
    }

    /// The number of the first packet whose time lies below that of the one before it, where one packet more comes.
    fn fall_with(&self, time: u64) -> Option<u64>
        requires { self.now.count + 1 < 2 ^ 64 }
        ensures { result ≡ fall_with self.now time }
    {
        match self.fall {
            Some(number) => Some(number),
            None => {
                if time < self.last {
                    Some(self.count + 1)
                } else {
                    None
                }
            }
        }
    }

    /// Counts one packet more, of this link type and time.
    pub(crate) fn note(&mut self, link: Option<Link>, time: u64) -> Result<(), Memory>
        requires count { self.old.count + 1 < 2 ^ 64 }
        requires few { AllByRecursion (λ (count : LinkCount). count.packets + 1 < 2 ^ 64) self.old.links }
        ensures { OnOk result (self.new ≡ noted self.old link time) }
    {
        let fall = self.fall_with(time);
        add_packet(&mut self.links, link)?;
        self.count += 1;
        self.first = Some(self.first.unwrap_or(time));
        self.greatest = self.greatest.max(time);
        self.last = time;
        self.fall = fall;
        Ok(())
    }
}

/// The number of a link type that is read, 0 of any other.
fn link_key(link: Option<Link>) -> u32
    ensures { result ≡ link_key link }
{
    match link {
        Some(link) => link.number(),
        None => 0,
    }
}

fn is_same(one: Option<Link>, other: Option<Link>) -> bool
    ensures { result ≡ same_link one other }
{
    link_key(one) == link_key(other)
}

/// Where the count of a link type stands.
fn place_of(links: &[LinkCount], link: Option<Link>) -> Option<usize>
    ensures { result ≡ link_place link links.now }
{
    links.iter().position(|count| is_same(count.link, link))
}

/// Counts one packet more of a link type.
fn add_packet(links: &mut Vec<LinkCount>, link: Option<Link>) -> Result<(), Memory>
    requires { AllByRecursion (λ (count : LinkCount). count.packets + 1 < 2 ^ 64) links.old.items }
    ensures { OnOk result (links.new.items ≡ with_packet link links.old.items) }
{
    match place_of(links, link) {
        Some(place) => links[place].packets += 1,
        None => links.push(LinkCount { link, packets: 1 })?,
    }
    Ok(())
}
