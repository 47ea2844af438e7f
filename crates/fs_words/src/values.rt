//! The names of the types of components, and the word of what stands behind a type (RFC 8955 section 4.2.2,
//! RFC 8956 section 3).

ghost use Rattle.std.specs.{Prelude.{◌≡◌, ◌++◌, OnOk}, String.{string_bytes}};
ghost use Rattle.fs_nlri.specs.{Component.{part_of}, Sound.{IsSoundBody}};
ghost use Rattle.fs_words.specs.Values.{component_name, list_kind, value_text};

use crate::operators::print_operators;
use crate::prefixes::print_prefix;
use fs_base::Memory;
use fs_nlri::{Component, Content};
use fs_ops::Kind;

/// The name of a type, 1 to 13.
pub fn component_name(kind: u8) -> &'static str
    ensures { result.now ≡ component_name kind }
{
    match kind {
        1 => "dst",
        2 => "src",
        3 => "proto",
        4 => "port",
        5 => "dport",
        6 => "sport",
        7 => "itype",
        8 => "icode",
        9 => "tcp",
        10 => "len",
        11 => "dscp",
        12 => "frag",
        _ => "label",
    }
}

/// What the list of a type does.
pub fn list_kind(kind: u8) -> Kind
    ensures { result ≡ list_kind kind }
{
    if kind == 9 || kind == 12 {
        Kind::Bitmask
    } else {
        Kind::Numeric
    }
}

/// Appends the word of what stands behind the component's type.
///
/// After `Memory` a part of the word may stand in `out`.
pub fn print_value(component: &Component, out: &mut String) -> Result<(), Memory>
    requires { IsSoundBody (part_of component.now).body }
    ensures { OnOk result (string_bytes out.new ≡ string_bytes out.old ++ value_text (part_of component.now)) }
{
    let kind = list_kind(component.kind());
    match component.content() {
        Content::Prefix(form) => print_prefix(&form, out),
        Content::Numbers(list) => print_operators(kind, list, out),
        Content::Masks(list) => print_operators(kind, list, out),
    }
}
