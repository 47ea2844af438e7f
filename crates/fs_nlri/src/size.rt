//! The count of octets that a rule's value has (RFC 8955 section 4.1).

ghost use Rattle.std.specs.Prelude.{◌≡◌, ◌<◌, ◌≤◌, nat_le, length};
ghost use Rattle.fs_nlri.specs.{Spelling.{octets_for}, Component.{body_of, part_of, parts_of}, Rule.{canonical_body, canonical_part, canonical_value, framed}};

use crate::component::{Component, Content, PrefixForm};

/// The least count of octets that hold so many bits.
pub(crate) fn octets_for_bits(bits: u8) -> usize
    ensures { result ≡ octets_for bits }
{
    (usize::from(bits) + 7) / 8
}

fn prefix_len(form: &PrefixForm) -> usize
    ensures value { result ≡ length (canonical_body (body_of form.now)) }
    ensures small { result < 64 }
{
    match *form {
        PrefixForm::V4(prefix) => 1 + octets_for_bits(prefix.length),
        PrefixForm::V6 { length, offset, .. } => 2 + octets_for_bits(length.saturating_sub(offset)),
    }
}

/// How many octets the component takes, its type included.
fn component_len(component: &Component) -> usize
    ensures { result ≡ length (canonical_part (part_of component.now)) }
{
    let body = match component.content() {
        Content::Prefix(form) => prefix_len(&form),
        Content::Numbers(list) => list.encoded_len(),
        Content::Masks(list) => list.encoded_len(),
    };
    1 + body
}

/// Whether the components' octets are no more than a frame can hold.
pub(crate) fn fits(components: &[Component]) -> bool
    ensures { result ≡ nat_le (length (canonical_value (parts_of components.now))) 4095 }
{
    let mut room = 4095;
    for component in components {
        let len = component_len(component);
        if room < len {
            return false;
        }
        room -= len;
    }
    true
}

/// How many octets the components take.
pub(crate) fn value_len(components: &[Component]) -> usize
    requires { length (canonical_value (parts_of components.now)) ≤ 4095 }
    ensures { result ≡ length (canonical_value (parts_of components.now)) }
{
    let mut len = 0;
    for component in components {
        len += component_len(component);
    }
    len
}

/// How many octets the components' frame has, its length in its short form below 240.
pub(crate) fn frame_len(components: &[Component]) -> usize
    requires { length (canonical_value (parts_of components.now)) ≤ 4095 }
    ensures value { result ≡ length (framed (parts_of components.now)) }
    ensures small { result ≤ 4097 }
{
    let len = value_len(components);
    if len < 240 { 1 + len } else { 2 + len }
}
