//! The tokens of a line, one after another.

ghost use Rattle.std.specs.Prelude.{◌≡◌, ◌≤◌, ◌↔◌, length, Ok, Err, IfOk};
ghost use Rattle.dg_lex.specs.Bytes.{line_limit};
ghost use Rattle.dg_lex.specs.Tokens as spec;
ghost use Rattle.dg_lex.specs.LexFaults.{HasNoTokens};

use crate::extent::extent;
use crate::kind::kind_of;
use crate::token::{LexFault, Token};
use std::alloc::Global;

/// The tokens of a line of at most 4,096 bytes, with any number of spaces between them.
pub fn tokens(alloc: Global, line: &[u8]) -> Result<Vec<Token>, LexFault>
    requires { length line.now ≤ line_limit }
    ensures exact { IfOk result (λ ts. spec.tokens_of line.now ≡ Ok ts.items) }
    // Bad comes exactly where no token begins at that byte and all before it are tokens and spaces,
    // and NoMemory only where the line isn't blank.
    ensures cause { HasNoTokens (spec.tokens_of line.now) result }
{
    let mut found = Vec::new(alloc);
    let mut at = 0;
    while at < line.len() {
        if line[at] == b' ' {
            at += 1;
            continue;
        }
        let end = at + extent(&line[at..]);
        let Some(kind) = kind_of(&line[at..end]) else {
            return Err(LexFault::Bad { at: at as u32 });
        };
        found.push(Token {
            kind,
            from: at as u32,
            to: end as u32,
        })?;
        at = end;
    }
    Ok(found)
}

/// The bytes of the line that a token takes. Places past the line's end count as its end.
pub fn spelling<'a>(line: &'a [u8], token: &Token) -> &'a [u8]
    ensures exact { result.now ≡ spec.spelling_of line.now token.now }
{
    let end = line.len().min(token.to as usize);
    let from = token.from as usize;
    if from < end { &line[from..end] } else { &[] }
}
