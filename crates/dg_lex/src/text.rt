//! The value of a text in quotes.

ghost use Rattle.std.specs.Prelude.{◌≡◌, ◌<◌, IfOk, OnErr, length, false};
ghost use Rattle.dg_lex.specs.Lexemes as spec;

use std::alloc::{AllocError, Global};

/// What stands between the quotes of a text, without the `\` before each `"` and `\`.
fn unescaped(alloc: Global, inner: &[u8]) -> Result<Vec<u8>, AllocError>
    ensures exact { IfOk result (λ v. v.items ≡ spec.unescaped false inner.now) }
    ensures cause { OnErr result (0 < length inner.now) }
{
    let mut value = Vec::new(alloc);
    let mut escaped = false;
    for b in inner {
        let is_escape = !escaped && *b == b'\\';
        if !is_escape {
            value.push(*b)?;
        }
        escaped = is_escape;
    }
    Ok(value)
}

/// The value of a text token, by all of its bytes. It lacks memory only where something stands
/// between the quotes.
#[tactic(auto, unfolding(crate::specs::Lexemes::value_of_text))]
pub fn value_of_text(alloc: Global, spelling: &[u8]) -> Result<Vec<u8>, AllocError>
    ensures exact { IfOk result (λ v. v.items ≡ spec.value_of_text spelling.now) }
    ensures cause { OnErr result (2 < length spelling.now) }
{
    let inner = if spelling.len() < 2 {
        &[]
    } else {
        &spelling[1..spelling.len() - 1]
    };
    unescaped(alloc, inner)
}
