//! The messages that are made up where a session begins in the middle of a dump.

ghost use Rattle.std.specs.Prelude.{◌≡◌, true, false};
ghost use Rattle.cmd_convert.specs.Greeting.{greeting};

use fs_message::as_in_two;

/// An OPEN of this AS, with AS numbers of four octets (RFC 6793 section 3), and a KEEPALIVE.
pub(crate) fn wide_greeting(asn: u32) -> [u8; 56]
    ensures { result ≡ greeting asn true }
{
    let [high, low] = as_in_two(asn).to_be_bytes();
    let [first, second, third, fourth] = asn.to_be_bytes();
    [
        0xff, 0xff, 0xff, 0xff, 0xff, 0xff, 0xff, 0xff, 0xff, 0xff, 0xff, 0xff, 0xff, 0xff, 0xff,
        0xff, 0, 37, 1, // header of OPEN
        4, high, low, 0, 0, 0, 0, 0, 1, // version, AS, hold time, identifier
        8, 2, 6, 65, 4, first, second, third, fourth, // capability
        0xff, 0xff, 0xff, 0xff, 0xff, 0xff, 0xff, 0xff, 0xff, 0xff, 0xff, 0xff, 0xff, 0xff, 0xff,
        0xff, 0, 19, 4, // KEEPALIVE
    ]
}

/// An OPEN of this AS, with AS numbers of two octets, and a KEEPALIVE.
pub(crate) fn narrow_greeting(asn: u32) -> [u8; 48]
    ensures { result ≡ greeting asn false }
{
    let [high, low] = as_in_two(asn).to_be_bytes();
    [
        0xff, 0xff, 0xff, 0xff, 0xff, 0xff, 0xff, 0xff, 0xff, 0xff, 0xff, 0xff, 0xff, 0xff, 0xff,
        0xff, 0, 29, 1, // header of OPEN
        4, high, low, 0, 0, 0, 0, 0, 1, 0, // version, AS, hold time, identifier, no parameter
        0xff, 0xff, 0xff, 0xff, 0xff, 0xff, 0xff, 0xff, 0xff, 0xff, 0xff, 0xff, 0xff, 0xff, 0xff,
        0xff, 0, 19, 4, // KEEPALIVE
    ]
}
