//! The fields of a packet on which rules are tested.

ghost use Rattle.std.specs.Prelude.{◌≡◌, ◌/◌, ◌<◌, ◌^◌};
ghost use Rattle.fs_packet.specs.Fields.{family_of};
ghost use Rattle.fs_ranges.specs.Facts.{AreFacts, IsSmallAddress, IsSmallField, address_number, field_number, front_of, key_of, number_of, syn_number};

use crate::field::Field;
use fs_base::Address;
use fs_packet::View;
use std::marker::Model;

/// Above each number that a field can have: what stands for a field that the packet doesn't have.
pub(crate) const ABSENT: u64 = 1 << 32;

/// The SYN flag among the flags of a TCP header (RFC 9293 section 3.1).
pub(crate) const SYN: u16 = 2;

/// The fields that a rule is tested on. The numbers among them are read from the packet once, the others where a rule
/// asks for them.
#[derive(Drop)]
pub struct Facts<'a> {
    pub(crate) view: &'a View<'a>,
    /// By the field; where the packet doesn't have it, or the number is that of no field, `ABSENT`.
    numbers: [u64; 16],
}

impl<'a> Model for Facts<'a> {
    ghost use Rattle.fs_ranges.specs.Facts.{Facts};

    ghost Value = { Facts };

    ghost view = { λ a. record { view = a.view.now; numbers = a.numbers } };
}

impl<'a> Facts<'a> {
    /// Reads them, but for the packet's destination, which the caller has read.
    #[inline(always)]
    pub fn of(view: &'a View<'a>, destination: Address) -> Facts<'a>
        requires value { destination ≡ view.now.destination }
        requires family { family_of destination ≡ view.now.family }
        ensures { AreFacts view.now result }
    {
        let source = view.source();
        Facts {
            view,
            numbers: [
                0,
                address_number(destination),
                address_number(source),
                octet(view.protocol()),
                ABSENT,
                port(view.destination_port()),
                port(view.source_port()),
                octet(view.icmp_type()),
                octet(view.icmp_code()),
                syn(view.tcp_octets()),
                view.length().into(),
                view.dscp().into(),
                ABSENT,
                label(view.flow_label()),
                ABSENT,
                ABSENT,
            ],
        }
    }

    /// The number by which rules are told apart on a field: the field's, or the front of a source.
    pub fn key(&self, field: Field) -> u64
        ensures { result ≡ key_of self.now field }
    {
        if field.is_front() {
            front(self.view.source())
        } else {
            self.number(field)
        }
    }

    /// The number of a field that isn't the front of a source.
    pub fn number(&self, field: Field) -> u64
        ensures { result ≡ number_of self.now field }
    {
        // no field is above 15: the remainder spares the test of the index
        self.numbers[field as usize % 16]
    }
}

/// An IPv4 address as a number; one of IPv6 is none of these.
fn address_number(address: Address) -> u64
    ensures value { result ≡ address_number address }
    ensures small { IsSmallAddress address }
{
    match address {
        Address::V4(address) => address.into(),
        Address::V6(_) => ABSENT,
    }
}

fn octet(field: Option<u8>) -> u64
    ensures value { result ≡ field_number field }
    ensures small { IsSmallField field }
{
    match field {
        Some(number) => number.into(),
        None => ABSENT,
    }
}

fn port(field: Option<u16>) -> u64
    ensures value { result ≡ field_number field }
    ensures small { IsSmallField field }
{
    match field {
        Some(number) => number.into(),
        None => ABSENT,
    }
}

/// The SYN flag among the octets of a TCP header that hold the flags: 2 or 0.
fn syn(octets: Option<u16>) -> u64
    ensures { result ≡ syn_number octets }
{
    match octets {
        Some(octets) => (octets & SYN).into(),
        None => ABSENT,
    }
}

fn label(field: Option<u32>) -> u64
    ensures value { result ≡ field_number field }
    ensures small { IsSmallField field }
{
    match field {
        Some(number) => number.into(),
        None => ABSENT,
    }
}

/// The first 64 bits of an address of IPv6; one of IPv4 has none.
fn front(address: Address) -> u64
    ensures { result ≡ front_of address }
{
    match address {
        Address::V4(_) => ABSENT,
        Address::V6(address) => top(address),
    }
}

/// The first 64 bits of 128.
pub(crate) fn top(bits: u128) -> u64
    ensures { result ≡ bits / 2 ^ 64 }
{
    (bits >> 64) as u64
}
