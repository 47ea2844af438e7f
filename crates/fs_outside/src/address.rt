//! Addresses of hosts.

/// An address in host order: of IPv4 32 bits, of IPv6 128.
#[derive(Clone, Copy, Debug, PartialEq, Eq, Drop)]
pub enum Address {
    V4(u32),
    V6(u128),
}
