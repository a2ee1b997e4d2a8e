//! What a token is, by all of its bytes.

ghost use Rattle.std.specs.Prelude.{◌≡◌, true, false, nat_le};
ghost use Rattle.std.specs.Char.{is_ascii_digit};
ghost use Rattle.std.specs.List.{list_all};
ghost use Rattle.dg_lex.specs.Bytes as bytes;
ghost use Rattle.dg_lex.specs.Tokens as spec;

use crate::extent::is_word_byte;
use crate::number::value_of_digits;
use crate::token::TokenKind;

/// The most bytes of a name.
const NAME_LIMIT: usize = 64;

const SIGNS: &[u8] = b"(){}<>,:=.!?[]+";

fn is_reserved(z: &[u8]) -> bool
    ensures exact { result ≡ bytes.is_among z.now spec.reserved }
{
    z == b"new".as_slice()
        || z == b"if".as_slice()
        || z == b"then".as_slice()
        || z == b"else".as_slice()
        || z == b"await".as_slice()
}

fn are_word_bytes(z: &[u8]) -> bool
    ensures exact { result ≡ list_all bytes.is_word_byte z.now }
{
    z.iter().all(|b| is_word_byte(*b))
}

fn are_digits(z: &[u8]) -> bool
    ensures exact { result ≡ list_all is_ascii_digit z.now }
{
    z.iter().all(|b| b.is_ascii_digit())
}

#[tactic(auto, unfolding(crate::specs::Tokens::is_name))]
fn is_name(z: &[u8]) -> bool
    ensures exact { result ≡ spec.is_name z.now }
{
    let begins = match z {
        [first, ..] => first.is_ascii_alphabetic(),
        [] => false,
    };
    begins && are_word_bytes(z) && z.len() <= NAME_LIMIT && !is_reserved(z)
}

#[tactic(auto, unfolding(crate::specs::Tokens::is_at_name))]
fn is_at_name(z: &[u8]) -> bool
    ensures exact { result ≡ spec.is_at_name z.now }
{
    match z {
        [b'@', name @ ..] => is_name(name),
        _ => false,
    }
}

#[tactic(auto, unfolding(crate::specs::Tokens::is_counting))]
fn is_counting(z: &[u8]) -> bool
    ensures exact { result ≡ spec.is_counting z.now }
    ensures digits { result ≡ true → list_all is_ascii_digit z.now ≡ true }
{
    match z {
        [b'0', ..] => false,
        [] => false,
        _ => are_digits(z),
    }
}

fn is_at_most(digits: &[u8], limit: u64) -> bool
    requires { list_all is_ascii_digit digits.now ≡ true }
    ensures exact { result ≡ nat_le (spec.value_of_digits digits.now) limit }
{
    value_of_digits(digits).is_some_and(|value| value <= limit)
}

#[tactic(auto, unfolding(crate::specs::Tokens::is_integer))]
pub fn is_integer(z: &[u8]) -> bool
    ensures exact { result ≡ spec.is_integer z.now }
{
    if let [b'-', digits @ ..] = z {
        return is_counting(digits) && is_at_most(digits, 1 << 63);
    }
    z == b"0".as_slice() || (is_counting(z) && is_at_most(z, (1 << 63) - 1))
}

/// Whether this stands behind the opening quote of a text, with the closing quote at its end.
fn is_rest_of_text(z: &[u8]) -> bool
    ensures exact { result ≡ spec.is_rest_of_text false z.now }
{
    let mut escaped = false;
    let mut rest = z;
    while let [b, more @ ..] = rest {
        if escaped {
            if *b != b'"' && *b != b'\\' {
                return false;
            }
            escaped = false;
        } else {
            if *b == b'"' {
                return more.is_empty();
            }
            if *b < 32 || *b > 126 {
                return false;
            }
            escaped = *b == b'\\';
        }
        rest = more;
    }
    false
}

#[tactic(auto, unfolding(crate::specs::Tokens::is_text))]
fn is_text(z: &[u8]) -> bool
    ensures exact { result ≡ spec.is_text z.now }
{
    match z {
        [b'"', rest @ ..] => is_rest_of_text(rest),
        _ => false,
    }
}

#[tactic(auto, unfolding(crate::specs::Tokens::is_sign))]
fn is_sign(z: &[u8]) -> bool
    ensures exact { result ≡ spec.is_sign z.now }
{
    match z {
        [b] => SIGNS.contains(b),
        _ => z == b"==".as_slice(),
    }
}

/// The kind of a token of just these bytes, or None where they are no token.
#[tactic(auto, unfolding(crate::specs::Tokens::kind_of))]
pub fn kind_of(z: &[u8]) -> Option<TokenKind>
    ensures exact { result ≡ spec.kind_of z.now }
{
    if is_name(z) {
        Some(TokenKind::Name)
    } else if is_reserved(z) {
        Some(TokenKind::Word)
    } else if is_at_name(z) {
        Some(TokenKind::AtName)
    } else if is_integer(z) {
        Some(TokenKind::Integer)
    } else if is_text(z) {
        Some(TokenKind::Text)
    } else if is_sign(z) {
        Some(TokenKind::Sign)
    } else {
        None
    }
}
