//! What a section header and the blocks behind it tell of the packets to come.
ghost use Rattle.std.specs.Prelude.{◌≡◌};

use fs_pcap::Endian;
use std::marker::Model;

/// An interface: its link type's number, its snap length (0: none), and the unit of its times.
#[derive(Clone, Copy, Debug, PartialEq, Eq, Drop)]
pub(crate) struct Interface {
    pub(crate) link: u16,
    pub(crate) snap: u32,
    pub(crate) unit: u8,
}

/// At most so many interfaces are taken in a section.
const MOST: usize = 256;

/// Where a capture stands: the order of its section, the interfaces described so far, and the moment of the last
/// packet.
#[derive(Drop)]
pub(crate) struct Section {
    order: Option<Endian>,
    interfaces: [Interface; MOST],
    count: usize,
    moment: u64,
}

impl Model for Section {
    ghost use Rattle.std.specs.Prelude.{◌≤◌, take};
    ghost use Rattle.fs_pcapng.specs.Block.{Stands};

    ghost Value = { Stands };

    ghost view = { λ section.
        record {
          order = section.order;
          interfaces = take section.count section.interfaces;
          moment = section.moment;
        } };

    ghost invariant = { λ section. section.count ≤ 256 };
}

impl Section {
    ghost use Rattle.std.specs.Prelude.{ℕ, ◌<◌, length, nat_lt, slice_get};
    ghost use Rattle.fs_pcapng.specs.{Block.{opened, with_interface}, Pcapng.{nothing}};

    /// Before the first section header.
    pub(crate) fn nothing() -> Section
        ensures { result ≡ nothing }
    {
        Section {
            order: None,
            interfaces: [Interface {
                link: 0,
                snap: 0,
                unit: 0,
            }; MOST],
            count: 0,
            moment: 0,
        }
    }

    pub(crate) fn order(&self) -> Option<Endian>
        ensures { result ≡ self.now.order }
    {
        self.order
    }

    pub(crate) fn moment(&self) -> u64
        ensures { result ≡ self.now.moment }
    {
        self.moment
    }

    /// The interface of this number, from 0.
    pub(crate) fn interface(&self, which: u32) -> Option<Interface>
        ensures { result ≡ slice_get self.now.interfaces which }
    {
        self.interfaces[..self.count].get(which as usize).copied()
    }

    pub(crate) fn has_room(&self) -> bool
        ensures { result ≡ nat_lt (length self.now.interfaces) 256 }
    {
        self.interfaces[..self.count].len() < MOST
    }

    /// A section header of this order.
    pub(crate) fn open(&mut self, order: Endian)
        ensures { self.new ≡ opened order self.old.moment }
    {
        self.order = Some(order);
        self.count = 0;
    }

    /// One interface more.
    pub(crate) fn add(&mut self, interface: Interface)
        requires { length self.old.interfaces < 256 }
        ensures { self.new ≡ with_interface self.old interface }
    {
        self.interfaces[self.count] = interface;
        self.count += 1;
    }

    /// A packet of this moment.
    pub(crate) fn pass(&mut self, moment: u64)
        ensures { self.new ≡ record { order = self.old.order; interfaces = self.old.interfaces; moment = moment } }
    {
        self.moment = moment;
    }
}
