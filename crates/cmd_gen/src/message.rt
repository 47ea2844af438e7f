//! The messages of the generator's tape.

ghost use Rattle.std.specs.Prelude.{◌≡◌, ◌⊎◌};
ghost use Rattle.cmd_gen.specs.Messages.{announcement, keepalive, net, open_of, rule_announcement, rule_of, wide, withdrawal, octets_of};

/// An UPDATE of the tape.
#[derive(Drop)]
pub enum Message {
    /// Announces a /16.
    Wide([u8; 46]),
    /// Announces a /24.
    Net([u8; 47]),
    /// Announces a flow rule.
    Rule([u8; 68]),
    /// Withdraws a /24.
    Withdrawal([u8; 27]),
}

impl Message {
    /// Its octets.
    pub fn as_slice(&self) -> &[u8]
        ensures { result.now ≡ octets_of self.now }
    {
        match self {
            Message::Wide(octets) => octets,
            Message::Net(octets) => octets,
            Message::Rule(octets) => octets,
            Message::Withdrawal(octets) => octets,
        }
    }
}

/// The OPEN of peer 1 or 2.
pub fn open_message(peer: u16) -> [u8; 37]
    requires { (peer ≡ 1) ⊎ (peer ≡ 2) }
    ensures { result ≡ open_of peer }
{
    let number = peer as u8;
    let low = 0xe8 + number; // of its AS
    [
        0xff, 0xff, 0xff, 0xff, 0xff, 0xff, 0xff, 0xff, 0xff, 0xff, 0xff, 0xff, 0xff, 0xff, 0xff,
        0xff, 0, 37, 1, // header
        4, 0xfd, low, 0, 180, 198, 51, 100, number, // version, AS, hold time, identifier
        8, 2, 6, 65, 4, 0, 0, 0xfd, low, // capability
    ]
}

/// A KEEPALIVE.
pub fn keepalive() -> [u8; 19]
    ensures { result ≡ keepalive }
{
    [
        0xff, 0xff, 0xff, 0xff, 0xff, 0xff, 0xff, 0xff, 0xff, 0xff, 0xff, 0xff, 0xff, 0xff, 0xff,
        0xff, 0, 19, 4,
    ]
}

/// The UPDATE by which the peer announces 10.x.0.0/16.
pub(crate) fn announce_wide(peer: u8, x: u8) -> Message
    requires { (peer ≡ 1) ⊎ (peer ≡ 2) }
    ensures { octets_of result ≡ announcement peer (wide x) }
{
    let low = 0xe8 + peer; // of its AS
    Message::Wide([
        0xff, 0xff, 0xff, 0xff, 0xff, 0xff, 0xff, 0xff, 0xff, 0xff, 0xff, 0xff, 0xff, 0xff, 0xff,
        0xff, 0, 46, 2, // header
        0, 0, 0, 20, // lengths
        0x40, 1, 1, 0, // ORIGIN
        0x40, 2, 6, 2, 1, 0, 0, 0xfd, low, // AS_PATH
        0x40, 3, 4, 198, 51, 100, peer, // NEXT_HOP
        16, 10, x, // prefix
    ])
}

/// The UPDATE by which the peer announces 10.x.y.0/24.
pub(crate) fn announce_net(peer: u8, x: u8, y: u8) -> Message
    requires { (peer ≡ 1) ⊎ (peer ≡ 2) }
    ensures { octets_of result ≡ announcement peer (net x y) }
{
    let low = 0xe8 + peer; // of its AS
    Message::Net([
        0xff, 0xff, 0xff, 0xff, 0xff, 0xff, 0xff, 0xff, 0xff, 0xff, 0xff, 0xff, 0xff, 0xff, 0xff,
        0xff, 0, 47, 2, // header
        0, 0, 0, 20, // lengths
        0x40, 1, 1, 0, // ORIGIN
        0x40, 2, 6, 2, 1, 0, 0, 0xfd, low, // AS_PATH
        0x40, 3, 4, 198, 51, 100, peer, // NEXT_HOP
        24, 10, x, y, // prefix
    ])
}

/// The UPDATE by which the peer announces the rule that drops UDP to a port of 10.x.y.0/24.
pub(crate) fn announce_rule(peer: u8, x: u8, y: u8, port: u16) -> Message
    requires { (peer ≡ 1) ⊎ (peer ≡ 2) }
    ensures { octets_of result ≡ rule_announcement peer (rule_of x y port) }
{
    let low = 0xe8 + peer; // of its AS
    let [port_high, port_low] = port.to_be_bytes();
    Message::Rule([
        0xff, 0xff, 0xff, 0xff, 0xff, 0xff, 0xff, 0xff, 0xff, 0xff, 0xff, 0xff, 0xff, 0xff, 0xff,
        0xff, 0, 68, 2, // header
        0, 0, 0, 45, // lengths
        0x80, 14, 18, 0, 1, 133, 0, 0, // MP_REACH_NLRI
        12, 1, 24, 10, x, y, 3, 0x81, 17, 5, 0x91, port_high, port_low, // its rule
        0x40, 1, 1, 0, // ORIGIN
        0x40, 2, 6, 2, 1, 0, 0, 0xfd, low, // AS_PATH
        0xc0, 16, 8, 0x80, 6, 0, 0, 0, 0, 0, 0, // extended communities
    ])
}

/// The UPDATE that withdraws 10.x.y.0/24.
pub(crate) fn withdraw_net(x: u8, y: u8) -> Message
    ensures { octets_of result ≡ withdrawal (net x y) }
{
    Message::Withdrawal([
        0xff, 0xff, 0xff, 0xff, 0xff, 0xff, 0xff, 0xff, 0xff, 0xff, 0xff, 0xff, 0xff, 0xff, 0xff,
        0xff, 0, 27, 2, // header
        0, 4, 24, 10, x, y, 0, 0, // withdrawn, and nothing else
    ])
}
