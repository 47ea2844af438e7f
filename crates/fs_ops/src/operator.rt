//! The operator octet (RFC 8955 sections 4.2.1.1 and 4.2.1.2).

ghost use Rattle.std.specs.Prelude.{◌≡◌, ◌≤◌, ◌<◌, ◌↔◌, bit_and, IsTrue, Contains};
ghost use Rattle.fs_ops.specs.Operator.{ends, joins, width_code, width_of, counted_bits};

use crate::kind::Kind;

/// Whether the pair is its list's last.
pub fn is_last(operator: u8) -> bool
    ensures { result ≡ ends operator }
{
    operator & 0x80 != 0
}

/// Whether the pair joins the group of the pair before it.
pub fn is_joined(operator: u8) -> bool
    ensures { result ≡ joins operator }
{
    operator & 0x40 != 0
}

/// The code of the value's length, 0 to 3.
pub fn width_code_of(operator: u8) -> u8
    ensures value { result ≡ width_code operator }
    ensures small { result < 4 }
{
    (operator >> 4) & 3
}

/// Whether values with this code are allowed.
pub fn allows(widths: &[u8], code: u8) -> bool
    ensures { IsTrue result ↔ Contains widths.now code }
{
    widths.contains(&code)
}

/// The value's length, 1, 2, 4 or 8 octets.
pub fn width_of(operator: u8) -> usize
    ensures value { result ≡ width_of operator }
    ensures low { 1 ≤ result }
    ensures high { result ≤ 8 }
{
    1 << width_code_of(operator)
}

/// The operator without the bits that mean nothing where it stands, first in its list or not.
pub fn clear_ignored(kind: Kind, first: bool, operator: u8) -> u8
    ensures { result ≡ bit_and operator (counted_bits kind first) }
{
    match kind {
        Kind::Numeric => operator & if first { 0xb7 } else { 0xf7 },
        Kind::Bitmask => operator & if first { 0xb3 } else { 0xf3 },
    }
}
