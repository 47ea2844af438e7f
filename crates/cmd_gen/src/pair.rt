//! What two numbers choose: a peer and its UPDATE, or a packet.

ghost use Rattle.std.specs.Prelude.{◌≡◌, ◌⊎◌};
ghost use Rattle.cmd_gen.specs.{Messages.{octets_of}, Generator.{packet_of, peer_of, port_of, update_of, x_of, y_of}};

use crate::message::{Message, announce_net, announce_rule, announce_wide, withdraw_net};

/// Two numbers that were drawn one after the other.
#[derive(Clone, Copy, Debug, PartialEq, Eq, Drop)]
pub struct Pair {
    pub first: u32,
    pub second: u32,
}

impl Pair {
    /// The number of the peer that sends the UPDATE: 1 or 2.
    pub fn peer(self) -> u16
        ensures peer { result ≡ peer_of self }
        ensures one_of_two { (result ≡ 1) ⊎ (result ≡ 2) }
    {
        1 + (self.first % 2) as u16
    }

    /// The UPDATE that the peer sends.
    pub fn update(self) -> Message
        ensures { octets_of result ≡ update_of self }
    {
        let peer = self.peer() as u8;
        match self.first / 2 % 4 {
            0 => announce_wide(peer, self.x()),
            1 => announce_net(peer, self.x(), self.y()),
            2 => announce_rule(peer, self.x(), self.y(), self.port()),
            _ => withdraw_net(self.x(), self.y()),
        }
    }

    /// The packet: 28 octets of IPv4 with UDP (RFC 791, RFC 768), from 203.0.113.1 port 40000.
    pub fn packet(self) -> [u8; 28]
        ensures { result ≡ packet_of self }
    {
        let [high, low] = self.port().to_be_bytes();
        let (x, y, host) = (self.x(), self.y(), (self.first % 256) as u8);
        [
            0x45, 0, 0, 28, 0, 0, 0, 0, 64, 17, 0, 0, // 28 octets, time to live, protocol
            203, 0, 113, 1, // source
            10, x, y, host, // destination
            0x9c, 0x40, high, low, 0, 8, 0, 0, // ports, 8 octets of UDP
        ]
    }

    /// The second octet of the addresses.
    fn x(self) -> u8
        ensures { result ≡ x_of self }
    {
        (self.second % 16) as u8
    }

    /// The third octet of the addresses.
    fn y(self) -> u8
        ensures { result ≡ y_of self }
    {
        (self.second / 16 % 16) as u8
    }

    /// The destination port.
    fn port(self) -> u16
        ensures { result ≡ port_of self }
    {
        (self.second / 256 % 1024) as u16
    }
}
