//! What stands behind a component's type, by its form.

ghost use Rattle.std.specs.Prelude.{◌≡◌, ◌+◌, ◌-◌, ◌*◌, ◌/◌, ◌^◌, ◌<◌, ◌≤◌, ◌↔◌, length, take, IfOk, IfErr, IsTrue};
ghost use Rattle.byteorder.specs.Endian.{big_number};
ghost use Rattle.fs_ops.specs.Fault.{CanBeWide};
ghost use Rattle.fs_nlri.specs.Forms.{V4Form, V6Form, ListForm, prefix_form, number_form, fragment_bits};
ghost use Rattle.fs_nlri.specs.{Parts.{ListBody}, Component.{body_of}, Spelling.{SpellsBody, octets_for}, Body.{IsBodyFault}};

use crate::component::PrefixForm;
use crate::fault::{NlriFault, Reason, bad};
use crate::given::{ALL_WIDTHS, has_range};
use crate::size::octets_for_bits;
use byteorder::{BigEndian, ByteOrder};
use fs_base::{Family, Prefix};
use fs_ops::{NumList, OfKind, OperatorList};
use std::alloc::Global;

/// The octets as the highest of a number of `width` bits.
pub fn left_aligned(octets: &[u8], width: usize) -> u128
    requires fits { 8 * length octets.now ≤ width }
    requires width { width ≤ 128 }
    ensures { result ≡ big_number (length octets.now) octets.now * 2 ^ (width - 8 * length octets.now) }
{
    if octets.is_empty() {
        return 0;
    }
    BigEndian::read_uint128(octets, octets.len()) << (width - 8 * octets.len())
}

/// Reads a prefix of either family and answers the count of its octets.
pub(crate) fn read_prefix(family: Family, octets: &[u8]) -> Result<(PrefixForm, usize), NlriFault>
    ensures taken { IfOk result (λ read. read.1 ≤ length octets.now) }
    ensures found { IfOk result (λ read. SpellsBody (prefix_form family) (take read.1 octets.now) (body_of read.0)) }
    ensures fault { IfErr result (IsBodyFault (prefix_form family) octets.now) }
{
    match family {
        Family::V4 => read_v4(octets),
        Family::V6 => read_v6(octets),
    }
}

fn read_v4(octets: &[u8]) -> Result<(PrefixForm, usize), NlriFault>
    ensures taken { IfOk result (λ read. read.1 ≤ length octets.now) }
    ensures found { IfOk result (λ read. SpellsBody V4Form (take read.1 octets.now) (body_of read.0)) }
    ensures fault { IfErr result (IsBodyFault V4Form octets.now) }
{
    let [length, tail @ ..] = octets else {
        return Err(bad(Reason::Cut, 0));
    };
    if *length > 32 {
        return Err(bad(Reason::PrefixLength, 0));
    }
    let count = octets_for_bits(*length);
    if tail.len() < count {
        return Err(bad(Reason::Cut, octets.len()));
    }
    let prefix = Prefix::of_bits(Family::V4, left_aligned(&tail[..count], 32), *length);
    Ok((PrefixForm::V4(prefix), 1 + count))
}

fn read_v6(octets: &[u8]) -> Result<(PrefixForm, usize), NlriFault>
    ensures taken { IfOk result (λ read. read.1 ≤ length octets.now) }
    ensures found { IfOk result (λ read. SpellsBody V6Form (take read.1 octets.now) (body_of read.0)) }
    ensures fault { IfErr result (IsBodyFault V6Form octets.now) }
{
    let [length, ..] = octets else {
        return Err(bad(Reason::Cut, 0));
    };
    if *length > 128 {
        return Err(bad(Reason::PrefixLength, 0));
    }
    let [_, offset, tail @ ..] = octets else {
        return Err(bad(Reason::Cut, 1));
    };
    if !has_range(*length, *offset) {
        return Err(bad(Reason::Offset, 1));
    }
    let bits = *length - *offset;
    let count = octets_for_bits(bits);
    if tail.len() < count {
        return Err(bad(Reason::Cut, octets.len()));
    }
    let pattern = Prefix::of_bits(Family::V6, left_aligned(&tail[..count], 128), bits);
    let form = PrefixForm::V6 {
        length: *length,
        offset: *offset,
        pattern: pattern.bits,
    };
    Ok((form, 2 + count))
}

/// The fragment bits that the family has.
pub(crate) fn bits_of_fragment(family: Family) -> u64
    ensures { result ≡ fragment_bits family }
{
    match family {
        Family::V4 => 0x0f,
        Family::V6 => 0x0e,
    }
}

/// Reads a list whose values have widths of these codes. Where `bits` are given, a value's other bits are cleared.
pub(crate) fn read_list<K: OfKind>(
    alloc: Global,
    octets: &[u8],
    widths: &[u8],
    bits: Option<u64>,
) -> Result<(OperatorList<K>, usize), NlriFault>
    requires { CanBeWide widths.now }
    ensures taken { IfOk result (λ read. read.1 ≤ length octets.now) }
    ensures found { IfOk result (λ read.
        SpellsBody (ListForm K.KIND widths.now bits) (take read.1 octets.now) (ListBody read.0)) }
    ensures fault { IfErr result (IsBodyFault (ListForm K.KIND widths.now bits) octets.now) }
{
    let (mut list, taken) = OperatorList::decode_within(alloc, octets, widths)?;
    if let Some(bits) = bits {
        list.keep_bits(bits);
    }
    Ok((list, taken))
}

/// Reads a list of numbers of 1, 2, 4 or 8 octets.
pub(crate) fn read_numbers(alloc: Global, octets: &[u8]) -> Result<(NumList, usize), NlriFault>
    ensures taken { IfOk result (λ read. read.1 ≤ length octets.now) }
    ensures found { IfOk result (λ read. SpellsBody number_form (take read.1 octets.now) (ListBody read.0)) }
    ensures fault { IfErr result (IsBodyFault number_form octets.now) }
{
    read_list(alloc, octets, &ALL_WIDTHS, None)
}
