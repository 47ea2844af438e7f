//! Whether a list holds of a number (RFC 8955 section 4.2.1).

ghost use Rattle.std.specs.Prelude.{◌≡◌, false};
ghost use Rattle.fs_ops.specs.{OperatorList.{first_joins}, Evaluation.{holds, compares, matches_bits, masks, test_of}};

use crate::kind::Kind;
use crate::operator::is_joined;

fn compare(operator: u8, value: u64, datum: u64) -> bool
    ensures { result ≡ compares datum (operator, value) }
{
    (operator & 4 != 0 && datum < value)
        || (operator & 2 != 0 && datum > value)
        || (operator & 1 != 0 && datum == value)
}

fn match_bits(operator: u8, value: u64, datum: u64) -> bool
    ensures { result ≡ matches_bits datum (operator, value) }
{
    if operator & 1 != 0 {
        datum & value == value
    } else {
        datum & value != 0
    }
}

fn mask(operator: u8, value: u64, datum: u64) -> bool
    ensures { result ≡ masks datum (operator, value) }
{
    let found = match_bits(operator, value, datum);
    if operator & 2 != 0 { !found } else { found }
}

fn test(kind: Kind, operator: u8, value: u64, datum: u64) -> bool
    ensures { result ≡ test_of kind datum (operator, value) }
{
    match kind {
        Kind::Numeric => compare(operator, value, datum),
        Kind::Bitmask => mask(operator, value, datum),
    }
}

/// Whether some group of the pairs has all its pairs true of the number.
pub fn eval(pairs: &[(u8, u64)], kind: Kind, datum: u64) -> bool
    requires { first_joins pairs.now ≡ false }
    ensures { result ≡ holds (test_of kind datum) pairs.now }
{
    let mut all = false;
    for &(operator, value) in pairs {
        if all && !is_joined(operator) {
            return true;
        }
        all = (all || !is_joined(operator)) && test(kind, operator, value, datum);
    }
    all
}
