//! OPEN (RFC 4271, sections 4.2 and 6.2).

ghost use Rattle.std.specs.Prelude.{◌≡◌, ◌≤◌, length};
ghost use Rattle.fs_message.specs.Open.{fields_fault, open_of, OpensAs};

use crate::MessageFault;
use crate::capabilities::{Found, read_parameters};
use crate::fault::{BAD_HOLD_TIME, BAD_IDENTIFIER, BAD_PARAMETERS, BAD_PEER_AS, BAD_VERSION};
use byteorder::{BigEndian, ByteOrder};

/// What an OPEN says: the sender's AS, its hold time in seconds and identifier, whether it has a four-octet
/// AS (RFC 6793), and the families of routes that it names (RFC 4760, section 8).
#[derive(Clone, Copy, Debug, PartialEq, Eq, Drop)]
pub struct Open {
    pub asn: u32,
    pub hold_time: u16,
    pub id: u32,
    pub four: bool,
    pub v4_unicast: bool,
    pub v4_flow: bool,
    pub v6_unicast: bool,
    pub v6_flow: bool,
}

impl Open {
    /// Reads an OPEN's body, whose sender is to have the AS `expected_as`. A fault is the first of these
    /// (RFC 4271, section 6.2): 2/1 a version other than 4, 2/2 an AS field of 0, 2/6 a hold time of 1 or 2
    /// seconds, 2/3 an identifier of 0, 2/4 malformed parameters, 2/2 another AS.
    pub fn read(body: &[u8], expected_as: u32) -> Result<Open, MessageFault>
        requires { 10 ≤ length body.now }
        ensures { result ≡ open_of expected_as body.now }
    {
        if let Some(fault) = fault_of_fields(body) {
            return Err(fault);
        }
        let Some(found) = read_parameters(&body[10..]) else {
            return Err(MessageFault::of(BAD_PARAMETERS));
        };
        opened(found, body, expected_as)
    }
}

/// The first fault of the fields before the parameters.
fn fault_of_fields(body: &[u8]) -> Option<MessageFault>
    requires { 10 ≤ length body.now }
    ensures { result ≡ fields_fault body.now }
{
    if body[0] != 4 {
        return Some(MessageFault::of(BAD_VERSION));
    }
    if BigEndian::read_u16(&body[1..]) == 0 {
        return Some(MessageFault::of(BAD_PEER_AS));
    }
    let hold_time = BigEndian::read_u16(&body[3..]);
    if hold_time == 1 || hold_time == 2 {
        return Some(MessageFault::of(BAD_HOLD_TIME));
    }
    if BigEndian::read_u32(&body[5..]) == 0 {
        return Some(MessageFault::of(BAD_IDENTIFIER));
    }
    if body[9] as usize != body.len() - 10 {
        return Some(MessageFault::of(BAD_PARAMETERS));
    }
    None
}

/// What an OPEN says whose capabilities are found.
fn opened(found: Found, body: &[u8], expected_as: u32) -> Result<Open, MessageFault>
    requires { 10 ≤ length body.now }
    ensures { OpensAs found expected_as body.now result }
{
    let asn = found.asn.unwrap_or(BigEndian::read_u16(&body[1..]) as u32);
    if asn != expected_as {
        return Err(MessageFault::of(BAD_PEER_AS));
    }
    Ok(Open {
        asn,
        hold_time: BigEndian::read_u16(&body[3..]),
        id: BigEndian::read_u32(&body[5..]),
        four: found.asn.is_some(),
        v4_unicast: found.v4_unicast,
        v4_flow: found.v4_flow,
        v6_unicast: found.v6_unicast,
        v6_flow: found.v6_flow,
    })
}
