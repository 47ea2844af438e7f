//! The words of lists of operators and values (RFC 8955 section 4.2.1).

ghost use Rattle.std.specs.{Prelude.{◌≡◌, ◌++◌, ◌<◌, ◌≤◌, ◌^◌, All, OnOk, decimal, flat_map}, String.{string_bytes}};
ghost use Rattle.fs_ops.specs.{declared.kind.Kind.TheVariants.{Numeric}, Operator.{joins, width_code, width_of}};
ghost use Rattle.fs_words.specs.Operators.{joined_text, joiner, least_code, list_text, mask_sign, number_sign, operand_text, pair_text, sign};
ghost use Rattle.fs_words.specs.Operators.{width_text, width_word};

use crate::pieces::{print_decimal, print_wide};
use fs_base::Memory;
use fs_ops::{Kind, OfKind, OperatorList, width_code_of, width_of};

/// The sign of the bits less, greater, equal.
fn number_sign(relation: u8) -> &'static str
    ensures { result.now ≡ number_sign relation }
{
    match relation {
        0 => "!",
        1 => "=",
        2 => ">",
        3 => ">=",
        4 => "<",
        5 => "<=",
        6 => "!=",
        _ => "*",
    }
}

/// The sign of the bits NOT, match.
fn mask_sign(relation: u8) -> &'static str
    ensures { result.now ≡ mask_sign relation }
{
    match relation {
        0 => "~",
        1 => "=",
        2 => "!~",
        _ => "!=",
    }
}

/// The sign of an operator.
fn sign(kind: Kind, operator: u8) -> &'static str
    ensures { result.now ≡ sign kind operator }
{
    match kind {
        Kind::Numeric => number_sign(operator & 7),
        Kind::Bitmask => mask_sign(operator & 3),
    }
}

/// What stands before a pair that isn't the first: AND or OR.
fn joiner(operator: u8) -> &'static str
    ensures { result.now ≡ joiner operator }
{
    if operator & 0x40 != 0 { "&" } else { "," }
}

/// The code of the least width that holds the value.
pub fn least_code(value: u64) -> u8
    ensures value { result ≡ least_code value }
    ensures small { result < 4 }
{
    if value < 1 << 8 {
        0
    } else if value < 1 << 16 {
        1
    } else if value < 1 << 32 {
        2
    } else {
        3
    }
}

/// A width by its code.
fn width_text(code: u8) -> &'static str
    ensures { result.now ≡ width_text code }
{
    match code {
        0 => ":1",
        1 => ":2",
        2 => ":4",
        _ => ":8",
    }
}

/// The width of a value, where it isn't the least one.
fn width_word(value: u64, code: u8) -> &'static str
    ensures { result.now ≡ width_word value code }
{
    if code == least_code(value) {
        ""
    } else {
        width_text(code)
    }
}

/// Appends a number and its width.
fn print_number(operator: u8, value: u64, out: &mut String) -> Result<(), Memory>
    ensures { OnOk result (string_bytes out.new ≡ string_bytes out.old ++ operand_text Numeric operator value) }
{
    print_decimal(value, out)?;
    out.push_str(width_word(value, width_code_of(operator)))?;
    Ok(())
}

/// Appends a value as its list has it.
fn print_operand(kind: Kind, operator: u8, value: u64, out: &mut String) -> Result<(), Memory>
    requires { value < 256 ^ width_of operator }
    ensures { OnOk result (string_bytes out.new ≡ string_bytes out.old ++ operand_text kind operator value) }
{
    match kind {
        Kind::Numeric => print_number(operator, value, out),
        Kind::Bitmask => print_wide(width_of(operator), value, out),
    }
}

/// Appends an operator and its value.
fn print_pair(kind: Kind, operator: u8, value: u64, out: &mut String) -> Result<(), Memory>
    requires { value < 256 ^ width_of operator }
    ensures { OnOk result (string_bytes out.new ≡ string_bytes out.old ++ pair_text kind (operator, value)) }
{
    out.push_str(sign(kind, operator))?;
    print_operand(kind, operator, value, out)
}

/// Appends the pairs behind the first.
fn print_others(kind: Kind, pairs: &[(u8, u64)], out: &mut String) -> Result<(), Memory>
    requires { All (λ pair. pair.1 < 256 ^ width_of pair.0) pairs.now }
    ensures { OnOk result (string_bytes out.new ≡ string_bytes out.old ++ flat_map (joined_text kind) pairs.now) }
{
    for &(operator, value) in pairs {
        out.push_str(joiner(operator))?;
        print_pair(kind, operator, value, out)?;
    }
    Ok(())
}

/// Appends the pairs of a list.
fn print_list(kind: Kind, pairs: &[(u8, u64)], out: &mut String) -> Result<(), Memory>
    requires { All (λ pair. pair.1 < 256 ^ width_of pair.0) pairs.now }
    ensures { OnOk result (string_bytes out.new ≡ string_bytes out.old ++ list_text kind pairs.now) }
{
    match pairs {
        [] => Ok(()),
        [(operator, value), others @ ..] => {
            print_pair(kind, *operator, *value, out)?;
            print_others(kind, others, out)
        }
    }
}

/// Appends a list of this kind.
pub(crate) fn print_operators<K: OfKind>(
    kind: Kind,
    list: &OperatorList<K>,
    out: &mut String,
) -> Result<(), Memory>
    ensures { OnOk result (string_bytes out.new ≡ string_bytes out.old ++ list_text kind list.now) }
{
    print_list(kind, list.pairs(), out)
}
