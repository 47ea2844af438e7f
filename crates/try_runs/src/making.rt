//! What a line makes that appends to a file.

use crate::fault::Fault;
use crate::fields::{halves, number, size};
use crate::message::{append_flow, append_unicast, append_update, begin_message};
use crate::named::NamedFiles;
use crate::octets::Octets;
use crate::records::{Kind, append_header, append_singly, begin_packet, begin_record, end_packet};

/// Appends what a word makes of the rest of its line.
pub fn make(named: &NamedFiles, word: &str, rest: &str, made: &mut Octets) -> Result<(), Fault> {
    match word {
        "text" => made.text(rest.as_bytes()),
        "line" => {
            made.text(rest.as_bytes());
            made.append(b"\n");
        }
        "hex" => named.append_octets(rest, made),
        "update" => return append_update(named, rest, made),
        "unicast" => return append_unicast(named, rest, made),
        "flow" => return append_flow(named, rest, made),
        "packet" => return make_packet(named, rest, None, made),
        _ => {
            let (digits, field) = halves(rest);
            return make_of(named, word, number(digits)?, field, made);
        }
    }
    Ok(())
}

/// Appends what a word makes of a number and a field.
fn make_of(
    named: &NamedFiles,
    word: &str,
    number: u64,
    field: &str,
    made: &mut Octets,
) -> Result<(), Fault> {
    match word {
        "capture" => return append_header(number, made),
        "captured" => return make_packet(named, field, Some(number), made),
        "front" => named.append_front(size(number), field, made),
        "message" => make_message(named, number, field, made),
        "from" => make_sent(named, number, field, made),
        "singly" => make_singly(named, number, field, made),
        "up" => _ = begin_record(Kind::Up, number, made),
        "lost" => _ = begin_record(Kind::Lost, number, made),
        _ => return Err(Fault::NoWord),
    }
    Ok(())
}

/// A record of a packet that had so many octets; as many as were captured, if that isn't said.
fn make_packet(
    named: &NamedFiles,
    field: &str,
    original: Option<u64>,
    made: &mut Octets,
) -> Result<(), Fault> {
    let place = begin_packet(made);
    named.append_octets(field, made);
    end_packet(place, original, made)
}

/// A message of this type.
fn make_message(named: &NamedFiles, kind: u64, body: &str, made: &mut Octets) {
    let length = begin_message(kind, made);
    named.append_octets(body, made);
    made.close(length);
}

/// A record of what a peer sends.
fn make_sent(named: &NamedFiles, peer: u64, payload: &str, made: &mut Octets) {
    let length = begin_record(Kind::Octets, peer, made);
    named.append_octets(payload, made);
    made.close(length);
}

/// The same, with each octet in a record of its own.
fn make_singly(named: &NamedFiles, peer: u64, payload: &str, made: &mut Octets) {
    let octets = named.octets(payload);
    append_singly(peer, octets.as_slice(), made);
    if let Err(fault) = octets.check() {
        made.fail(fault);
    }
}
