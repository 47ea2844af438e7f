//! The writer of a list (RFC 8955 section 4.2.1).

ghost use Rattle.std.specs.{Prelude.{◌≡◌, ◌<◌, ◌^◌, ◌++◌, length, take, All, OnOk, OnErr}, Vec.{vec_len}};
ghost use Rattle.fs_ops.specs.{Operator.{width_of}, OperatorList.{pair_octets, canonical}};

use crate::operator::width_of;
use byteorder::{BigEndian, ByteOrder};
use fs_base::Memory;

/// Appends one pair.
fn append_pair(operator: u8, value: u64, out: &mut Vec<u8>) -> Result<(), Memory>
    requires { value < 256 ^ width_of operator }
    ensures ok { OnOk result (out.new.items ≡ out.old.items ++ pair_octets (operator, value)) }
    ensures err { OnErr result (out.new.items ≡ out.old.items) }
{
    let len = width_of(operator);
    let mut octets = [operator, 0, 0, 0, 0, 0, 0, 0, 0];
    BigEndian::write_uint(&mut octets[1..], value, len);
    out.extend_from_slice(&octets[..1 + len])?;
    Ok(())
}

/// Appends pair after pair, up to want of memory.
fn append(pairs: &[(u8, u64)], out: &mut Vec<u8>) -> Result<(), Memory>
    requires { All (λ pair. pair.1 < 256 ^ width_of pair.0) pairs.now }
    ensures ok { OnOk result (out.new.items ≡ out.old.items ++ canonical pairs.now) }
    ensures front { take (vec_len out.old) out.new.items ≡ out.old.items }
{
    for &(operator, value) in pairs {
        append_pair(operator, value, out)?;
    }
    Ok(())
}

/// Appends the octets of the pairs; after want of memory `out` is as it was.
pub fn write(pairs: &[(u8, u64)], out: &mut Vec<u8>) -> Result<(), Memory>
    requires { All (λ pair. pair.1 < 256 ^ width_of pair.0) pairs.now }
    ensures ok { OnOk result (out.new.items ≡ out.old.items ++ canonical pairs.now) }
    ensures err { OnErr result (out.new.items ≡ out.old.items) }
{
    let start = out.len();
    let written = append(pairs, out);
    if written.is_err() {
        out.truncate(start);
    }
    written
}

/// How many octets are written for the pairs.
pub fn encoded_len(pairs: &[(u8, u64)]) -> usize
    ensures value { result ≡ length (canonical pairs.now) }
    ensures small { result < 2 ^ 63 }
{
    let mut len = 0;
    for &(operator, _) in pairs {
        len += 1 + width_of(operator);
    }
    len
}
