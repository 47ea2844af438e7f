//! Rules written as frames (RFC 8955 section 4.1, RFC 8956 section 3).

ghost use Rattle.std.specs.{Prelude.{◌≡◌, ◌+◌, ◌-◌, ◌*◌, ◌/◌, ◌^◌, ◌<◌, ◌≤◌, ◌++◌, length, take, All, OnOk, OnErr}, Vec.{vec_len}};
ghost use Rattle.fs_nlri.specs.{Spelling.{octets_for}, Component.{body_of, part_of, parts_of}, Writing.{IsWritable}};
ghost use Rattle.fs_nlri.specs.Rule.{IsRule, first_octets, canonical_body, canonical_part, canonical_value, canonical_length, framed};
ghost use Rattle.fs_nlri.specs.Rule.{canonical_frame};

use crate::component::{Component, Content, PrefixForm};
use crate::rule::Rule;
use crate::size::{octets_for_bits, value_len};
use byteorder::{BigEndian, ByteOrder};
use fs_base::Memory;

/// Appends the canonical frame of the rule: the length in its short form below 240, and every ignored bit 0
/// (RFC 8955 section 4.1). After `Memory` `out` is as before.
pub fn encode(rule: &Rule, out: &mut Vec<u8>) -> Result<(), Memory>
    ensures rule { IsRule rule.now }
    ensures ok { OnOk result (out.new.items ≡ out.old.items ++ canonical_frame rule.now) }
    ensures err { OnErr result (out.new.items ≡ out.old.items) }
{
    let start = out.len();
    let written = append_frame(&rule.components, out);
    if written.is_err() {
        out.truncate(start);
    }
    written
}

// What these functions append up to want of memory stays; `encode` takes it away.

fn append_frame(components: &[Component], out: &mut Vec<u8>) -> Result<(), Memory>
    requires fits { length (canonical_value (parts_of components.now)) ≤ 4095 }
    requires writable { All (λ component. IsWritable (part_of component).body) components.now }
    ensures ok { OnOk result (out.new.items ≡ out.old.items ++ framed (parts_of components.now)) }
    ensures front { take (vec_len out.old) out.new.items ≡ out.old.items }
{
    append_length(value_len(components), out)?;
    append_value(components, out)
}

fn append_length(len: usize, out: &mut Vec<u8>) -> Result<(), Memory>
    requires { len ≤ 4095 }
    ensures ok { OnOk result (out.new.items ≡ out.old.items ++ canonical_length len) }
    ensures err { OnErr result (out.new.items ≡ out.old.items) }
{
    if len < 240 {
        out.push(len as u8)?;
    } else {
        out.extend_from_slice(&[(240 + len / 256) as u8, (len % 256) as u8])?;
    }
    Ok(())
}

fn append_value(components: &[Component], out: &mut Vec<u8>) -> Result<(), Memory>
    requires { All (λ component. IsWritable (part_of component).body) components.now }
    ensures ok { OnOk result (out.new.items ≡ out.old.items ++ canonical_value (parts_of components.now)) }
    ensures front { take (vec_len out.old) out.new.items ≡ out.old.items }
{
    for component in components {
        append_component(component, out)?;
    }
    Ok(())
}

fn append_component(component: &Component, out: &mut Vec<u8>) -> Result<(), Memory>
    requires { IsWritable (part_of component.now).body }
    ensures ok { OnOk result (out.new.items ≡ out.old.items ++ canonical_part (part_of component.now)) }
    ensures front { take (vec_len out.old) out.new.items ≡ out.old.items }
{
    out.push(component.kind())?;
    append_body(component, out)
}

fn append_body(component: &Component, out: &mut Vec<u8>) -> Result<(), Memory>
    requires { IsWritable (part_of component.now).body }
    ensures ok { OnOk result (out.new.items ≡ out.old.items ++ canonical_body (part_of component.now).body) }
    ensures front { take (vec_len out.old) out.new.items ≡ out.old.items }
{
    match component.content() {
        Content::Prefix(form) => append_prefix(&form, out),
        Content::Numbers(list) => list.encode(out),
        Content::Masks(list) => list.encode(out),
    }
}

fn append_prefix(form: &PrefixForm, out: &mut Vec<u8>) -> Result<(), Memory>
    requires { IsWritable (body_of form.now) }
    ensures ok { OnOk result (out.new.items ≡ out.old.items ++ canonical_body (body_of form.now)) }
    ensures front { take (vec_len out.old) out.new.items ≡ out.old.items }
{
    match *form {
        PrefixForm::V4(prefix) => {
            out.push(prefix.length)?;
            append_bits(prefix.bits, 32, prefix.length, out)
        }
        PrefixForm::V6 {
            length,
            offset,
            pattern,
        } => {
            out.extend_from_slice(&[length, offset])?;
            append_bits(pattern, 128, length.saturating_sub(offset), out)
        }
    }
}

/// Appends the octets that hold the first bits of a number of `width` bits.
fn append_bits(number: u128, width: usize, bits: u8, out: &mut Vec<u8>) -> Result<(), Memory>
    requires width { width ≤ 128 }
    requires room { 8 * octets_for bits ≤ width }
    requires fits { number < 2 ^ width }
    ensures ok { OnOk result (out.new.items ≡ out.old.items ++ first_octets width bits number) }
    ensures err { OnErr result (out.new.items ≡ out.old.items) }
{
    let count = octets_for_bits(bits);
    if count == 0 {
        return Ok(());
    }
    let mut octets = [0; 16];
    BigEndian::write_uint128(&mut octets, number >> (width - 8 * count), count);
    out.extend_from_slice(&octets[..count])?;
    Ok(())
}
