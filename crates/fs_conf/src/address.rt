//! The texts of addresses: dotted IPv4, and IPv6 in the forms 1 and 2 of RFC 4291 section 2.2.

ghost use Rattle.std.specs.{Prelude.{◌≡◌, ◌==◌, false}, List.{list_any}};
ghost use Rattle.fs_conf.specs.Address.{dot, ipv4_of, ipv6_of, address_of};

use fs_base::Address;
use std::net::{Ipv4Addr, Ipv6Addr};

/// The IPv4 address that a dotted text writes, in host order.
pub(crate) fn read_ipv4(text: &str) -> Option<u32>
    ensures { result ≡ ipv4_of text.now }
{
    match text.parse::<Ipv4Addr>() {
        Ok(address) => Some(address.to_bits()),
        Err(_) => None,
    }
}

// The IPv6 address that a text without dots writes, in host order.
fn read_ipv6(text: &str) -> Option<u128>
    requires { list_any (λ octet. octet == dot) text.now ≡ false }
    ensures { result ≡ ipv6_of text.now }
{
    match text.parse::<Ipv6Addr>() {
        Ok(address) => Some(address.to_bits()),
        Err(_) => None,
    }
}

/// The address of either family that a text writes. `Ipv6Addr` also reads forms that end in dotted IPv4,
/// which the configuration doesn't have.
pub(crate) fn read_address(text: &str) -> Option<Address>
    ensures { result ≡ address_of text.now }
{
    if text.as_bytes().contains(&b'.') {
        read_ipv4(text).map(Address::V4)
    } else {
        read_ipv6(text).map(Address::V6)
    }
}
