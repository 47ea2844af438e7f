//! BGP messages (RFC 4271 section 4), whose lengths are reckoned.

use crate::fault::Fault;
use crate::fields::{field_of, halves};
use crate::named::NamedFiles;
use crate::octets::{Length, Octets};

/// The marker in front of each message.
const MARKER: [u8; 16] = [0xff; 16];

/// The type of an UPDATE.
const UPDATE: u64 = 2;

/// The flag of a path attribute whose length has two octets: Extended Length (RFC 4271 section 4.3).
const EXTENDED: u8 = 0x10;

/// The SAFI of flow rules, the length of no next hop, and the reserved octet (RFC 4760 section 3).
const FLOW: [u8; 3] = [133, 0, 0];

/// The head of a message of this type: the marker, room for its length, which counts all of it, and the type.
pub fn begin_message(kind: u64, made: &mut Octets) -> Length {
    let from = made.len();
    made.append(&MARKER);
    let length = made.open(2);
    made.number(kind, 1);
    Length { from, ..length }
}

/// The flags and the type of a path attribute, and room for its length.
fn begin_attribute(named: &NamedFiles, head: &str, made: &mut Octets) -> Length {
    let start = made.len();
    named.append_octets(head, made);
    let flags = made.as_slice().get(start).copied().unwrap_or(0);
    made.open(if flags & EXTENDED != 0 { 2 } else { 1 })
}

fn append_attribute(named: &NamedFiles, head: &str, value: &str, made: &mut Octets) {
    let length = begin_attribute(named, head, made);
    named.append_octets(value, made);
    made.close(length);
}

/// ORIGIN, which is IGP, and AS_PATH.
fn append_path(named: &NamedFiles, path: &str, made: &mut Octets) {
    append_attribute(named, "4001", "00", made);
    append_attribute(named, "4002", path, made);
}

/// Path attributes with commas between them: flags and type, and then the value.
fn append_attributes(named: &NamedFiles, text: &str, made: &mut Octets) {
    for attribute in text.split(',') {
        let attribute = attribute.trim();
        if !attribute.is_empty() {
            let (head, value) = halves(attribute);
            append_attribute(named, head, value, made);
        }
    }
}

/// An UPDATE: withdrawn prefixes, attributes and announced prefixes, with `|` between them.
pub fn append_update(named: &NamedFiles, fields: &str, made: &mut Octets) -> Result<(), Fault> {
    let (withdrawn, others) = field_of(fields)?;
    let (listed, announced) = field_of(others)?;
    let message = begin_message(UPDATE, made);
    let length = made.open(2);
    named.append_octets(withdrawn, made);
    made.close(length);
    let length = made.open(2);
    append_attributes(named, listed, made);
    made.close(length);
    named.append_octets(announced, made);
    made.close(message);
    Ok(())
}

/// An UPDATE that announces IPv4 prefixes: the AS_PATH, the next hop and the prefixes.
pub fn append_unicast(named: &NamedFiles, fields: &str, made: &mut Octets) -> Result<(), Fault> {
    let (path, others) = field_of(fields)?;
    let (hop, prefixes) = field_of(others)?;
    let message = begin_message(UPDATE, made);
    made.number(0, 2);
    let length = made.open(2);
    append_path(named, path, made);
    append_attribute(named, "4003", hop, made);
    made.close(length);
    named.append_octets(prefixes, made);
    made.close(message);
    Ok(())
}

/// An UPDATE that announces rules: the AFI, the AS_PATH, the rules, each with its length, and the communities of their
/// actions, if any.
pub fn append_flow(named: &NamedFiles, fields: &str, made: &mut Octets) -> Result<(), Fault> {
    let (afi, others) = field_of(fields)?;
    let (path, others) = field_of(others)?;
    let (rules, actions) = field_of(others)?;
    let message = begin_message(UPDATE, made);
    made.number(0, 2);
    let length = made.open(2);
    let reach = begin_attribute(named, "800e", made);
    named.append_octets(afi, made);
    made.append(&FLOW);
    named.append_octets(rules, made);
    made.close(reach);
    append_path(named, path, made);
    if !actions.trim().is_empty() {
        append_attribute(named, "c010", actions, made);
    }
    made.close(length);
    made.close(message);
    Ok(())
}
