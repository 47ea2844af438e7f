//! The texts of messages (RFC 4271, section 4).

ghost use Rattle.std.specs.Prelude.{◌≡◌, ◌≤◌, ◌++◌, [], ◌∷◌, length, replicate};
ghost use Rattle.byteorder.specs.Endian.{big_bytes};
ghost use Rattle.fs_message.specs.Write.{message_text, AppendsWhole, as_field, open_body};

use crate::header::{HEADER, KEEPALIVE, NOTIFICATION, OPEN, UPDATE};
use byteorder::{BigEndian, ByteOrder};
use fs_base::Memory;

/// Appends our OPEN: AS `asn`, the hold time offered in seconds, identifier `id`, and the four families and the
/// four-octet AS as capabilities (RFC 4271, section 4.2). Refused for memory, it leaves `out` as it was.
pub fn write_open(asn: u32, hold_time: u16, id: u32, out: &mut Vec<u8>) -> Result<(), Memory>
    ensures { AppendsWhole result out.old.items out.new.items (message_text 1 (open_body asn hold_time id)) }
{
    write_message(OPEN, &open_octets(asn, hold_time, id), out)
}

/// Appends the UPDATE with this body, of at most 4077 octets. Refused for memory, it leaves `out` as it was.
pub fn write_update_frame(body: &[u8], out: &mut Vec<u8>) -> Result<(), Memory>
    requires { length body.now ≤ 4077 }
    ensures { AppendsWhole result out.old.items out.new.items (message_text 2 body.now) }
{
    write_message(UPDATE, body, out)
}

/// Appends a NOTIFICATION without data. Refused for memory, it leaves `out` as it was.
pub fn write_notice(code: u8, subcode: u8, out: &mut Vec<u8>) -> Result<(), Memory>
    ensures { AppendsWhole result out.old.items out.new.items (message_text 3 (code ∷ subcode ∷ [])) }
{
    write_message(NOTIFICATION, &[code, subcode], out)
}

/// Appends a KEEPALIVE. Refused for memory, it leaves `out` as it was.
pub fn write_keepalive(out: &mut Vec<u8>) -> Result<(), Memory>
    ensures { AppendsWhole result out.old.items out.new.items (message_text 4 []) }
{
    write_message(KEEPALIVE, &[], out)
}

fn write_message(kind: u8, body: &[u8], out: &mut Vec<u8>) -> Result<(), Memory>
    requires { length body.now ≤ 4077 }
    ensures { AppendsWhole result out.old.items out.new.items (message_text kind body.now) }
{
    let size = HEADER + body.len();
    out.reserve(size)?;
    out.extend_from_slice(&header_octets(kind, size as u16))?;
    out.extend_from_slice(body)?;
    Ok(())
}

fn header_octets(kind: u8, size: u16) -> [u8; 19]
    ensures { result ≡ replicate 16 255 ++ (big_bytes 2 size ++ (kind ∷ [])) }
{
    let mut header = [255u8; 19];
    BigEndian::write_u16(&mut header[16..], size);
    header[18] = kind;
    header
}

/// The octets of our OPEN before its AS, hold time and identifier stand in them: version 4, and a parameter of
/// 30 octets with capabilities 1 for 1/1, 1/133, 2/1 and 2/133, and capability 65.
const OPEN_TEMPLATE: [u8; 42] = [
    4, 0, 0, 0, 0, 0, 0, 0, 0, 32, 2, 30, 1, 4, 0, 1, 0, 1, 1, 4, 0, 1, 0, 133, 1, 4, 0, 2, 0, 1,
    1, 4, 0, 2, 0, 133, 65, 4, 0, 0, 0, 0,
];

fn open_octets(asn: u32, hold_time: u16, id: u32) -> [u8; 42]
    ensures { result ≡ open_body asn hold_time id }
{
    let mut body = OPEN_TEMPLATE;
    BigEndian::write_u16(&mut body[1..], as_in_two(asn));
    BigEndian::write_u16(&mut body[3..], hold_time);
    BigEndian::write_u32(&mut body[5..], id);
    BigEndian::write_u32(&mut body[38..], asn);
    body
}

/// The AS in two octets: AS_TRANS where it needs four (RFC 6793, section 4.1).
pub fn as_in_two(asn: u32) -> u16
    ensures { result ≡ as_field asn }
{
    match u16::try_from(asn) {
        Ok(asn) => asn,
        Err(_) => 23456,
    }
}
