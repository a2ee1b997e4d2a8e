//! The number that an integer writes.

ghost use Rattle.std.specs.Prelude.{◌≡◌, ◌≤◌, ◌<◌, ◌^◌, SomeIff, pos, neg_ℤ, true};
ghost use Rattle.std.specs.List.{list_all};
ghost use Rattle.std.specs.Char.{is_ascii_digit};
ghost use Rattle.dg_lex.specs.Tokens as spec;

use crate::kind::is_integer;
use crate::number::value_of_digits;

/// The number that digits write, where 64 bits signed hold it.
fn number(digits: &[u8]) -> Option<i64>
    requires { list_all is_ascii_digit digits.now ≡ true }
    ensures exact { SomeIff result (spec.value_of_digits digits.now < 2 ^ 63) (pos
        (spec.value_of_digits digits.now)) }
{
    0i64.checked_add_unsigned(value_of_digits(digits)?)
}

/// The negative of that number, where 64 bits signed hold it.
fn negative(digits: &[u8]) -> Option<i64>
    requires { list_all is_ascii_digit digits.now ≡ true }
    ensures exact { SomeIff result (spec.value_of_digits digits.now ≤ 2 ^ 63) (neg_ℤ (pos
        (spec.value_of_digits digits.now))) }
{
    0i64.checked_sub_unsigned(value_of_digits(digits)?)
}

/// The number that an integer token writes by all of its bytes, or None where they are no integer.
pub fn value_of_integer(z: &[u8]) -> Option<i64>
    ensures exact { SomeIff result (spec.is_integer z.now ≡ true) (spec.value_of_integer z.now) }
{
    if !is_integer(z) {
        return None;
    }
    match z {
        [b'-', digits @ ..] => negative(digits),
        _ => number(z),
    }
}
