//! The bits that normal form clears (RFC 8955 section 4.2, RFC 8956 section 3).

ghost use Rattle.std.specs.Prelude.{◌≡◌, ◌-◌, IfOk};
ghost use Rattle.fs_base.specs.Bits.{cleared};
ghost use Rattle.fs_nlri.specs.{Forms.{prefix_form}, Component.{body_of, part_of, parts_of}, Making.{cleared_body, cleared_part, cleared_parts}};

use crate::body::bits_of_fragment;
use crate::component::{Component, PrefixForm};
use crate::given::{DSCP_BITS, is_given};
use fs_base::{Family, Memory, Prefix};
use std::alloc::Global;

/// The pattern without the bits past its length.
fn clear_pattern(length: u8, offset: u8, pattern: u128) -> u128
    ensures { result ≡ cleared 128 (length - offset) pattern }
{
    match Prefix::new(Family::V6, pattern, length.saturating_sub(offset)) {
        Some(prefix) => prefix.bits,
        None => pattern,
    }
}

fn clear_form(family: Family, form: PrefixForm) -> PrefixForm
    ensures { body_of result ≡ cleared_body (prefix_form family) (body_of form) }
{
    match (family, form) {
        (
            Family::V6,
            PrefixForm::V6 {
                length,
                offset,
                pattern,
            },
        ) => PrefixForm::V6 {
            length,
            offset,
            pattern: clear_pattern(length, offset, pattern),
        },
        _ => form,
    }
}

/// The component without the bits that normal form clears.
fn clear(family: Family, component: Component) -> Component
    ensures { part_of result ≡ cleared_part family (part_of component) }
{
    match component {
        Component::Destination(form) => Component::Destination(clear_form(family, form)),
        Component::Source(form) => Component::Source(clear_form(family, form)),
        Component::Dscp(mut list) => {
            list.keep_bits(DSCP_BITS);
            Component::Dscp(list)
        }
        Component::Fragment(mut list) => {
            list.keep_bits(bits_of_fragment(family));
            Component::Fragment(list)
        }
        other => other,
    }
}

impl Component {
    ghost use Rattle.std.specs.Prelude.{◌≡◌, is_some, IfSome, IfNone};
    ghost use Rattle.fs_nlri.specs.{Forms.{form_of}, Component.{part_of}, Rule.{IsNormalAt}, Making.{cleared_part, part_given}};

    /// The component in normal form: the bits that are to be ignored are cleared. None exactly where the family doesn't
    /// give the component, or its type the form and the widths that it has.
    pub fn cleared(self, family: Family) -> Option<Component>
        ensures some { IfSome result (λ own. part_of own ≡ cleared_part family (part_of self)) }
        ensures normal { IfSome result (λ own.
            let part = part_of own in IsNormalAt (form_of family part.kind) part.body) }
        ensures given { is_some result ≡ part_given family (part_of self) }
        ensures none { IfNone result
            (let part = part_of self in IsNormalAt (form_of family part.kind) part.body → ⊥) }
        ensures same { let part = part_of self in
            IsNormalAt (form_of family part.kind) part.body → cleared_part family part ≡ part }
    {
        if !is_given(family, &self) {
            return None;
        }
        Some(clear(family, self))
    }
}

pub(crate) fn clear_all(
    alloc: Global,
    family: Family,
    components: Vec<Component>,
) -> Result<Vec<Component>, Memory>
    ensures ok { IfOk result (λ list. parts_of list.items ≡ cleared_parts family (parts_of components.items)) }
{
    let mut list = Vec::with_capacity(alloc, components.len())?;
    for component in components {
        list.push(clear(family, component))?;
    }
    Ok(list)
}
