//! Unicast prefixes (RFC 4271, section 4.3).

ghost use Rattle.std.specs.Prelude.{◌≡◌, ◌==◌, length, map, Some, None, if◌then◌else◌, option_map, IfOk};
ghost use Rattle.fs_nlri.specs.Rule.{shown};
ghost use Rattle.fs_attrs.specs.Prefixes.{first_prefix, all_prefixes};

use crate::lists::PrefixList;
use fs_base::{Family, Memory, Prefix};
use fs_nlri::left_aligned;
use std::alloc::Global;

/// The prefixes of a field, or None where one is malformed.
pub(crate) fn read_prefixes(
    alloc: Global,
    family: Family,
    octets: &[u8],
) -> Result<Option<PrefixList>, Memory>
    ensures { IfOk result (λ found. found ≡ all_prefixes family octets.now) }
{
    let mut prefixes = Vec::new(alloc);
    let mut rest = octets;
    while let Some((prefix, behind)) = next_prefix(family, rest) {
        prefixes.push(prefix)?;
        rest = behind;
    }
    Ok(list_at_end(prefixes, rest))
}

/// The list, where nothing but prefixes stood there.
fn list_at_end(prefixes: Vec<Prefix>, rest: &[u8]) -> Option<PrefixList>
    ensures { result ≡ (if length rest.now == 0 then Some (map shown prefixes.items) else None) }
{
    if rest.is_empty() {
        return Some(PrefixList::new(prefixes));
    }
    None
}

/// The prefix at the front, and what follows it.
fn next_prefix(family: Family, octets: &[u8]) -> Option<(Prefix, &[u8])>
    ensures { option_map (λ found. (shown found.0, found.1.now)) result ≡ first_prefix family octets.now }
{
    let (length, rest) = octets.split_first()?;
    if *length > family.width() {
        return None;
    }
    let (bits, behind) = rest.split_at_checked((usize::from(*length) + 7) / 8)?;
    let prefix = Prefix::of_bits(family, left_aligned(bits, family.width().into()), *length);
    Some((prefix, behind))
}
