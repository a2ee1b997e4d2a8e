ghost use Rattle.std.specs.Prelude.{◌≡◌};
ghost use Rattle.dg_lex.specs.declared.token.LexFault.TheVariants.{NoMemory};

use std::alloc::{AllocError, AllocFailed};

/// What a token is. Words such as `module` are names, which have their meaning by where they stand.
#[derive(Clone, Copy, Debug, PartialEq, Eq)]
pub enum TokenKind {
    /// A word that begins with a letter and isn't reserved. It has at most 64 bytes.
    Name,
    /// A reserved word: `new`, `if`, `then`, `else` or `await`.
    Word,
    /// A name right behind an `@`, as in `@Singleton`.
    AtName,
    /// An integer of 64 bits, signed, without zeros in front; zero has no sign.
    Integer,
    /// A text in quotes. A quote or a `\` within it has a `\` before it, and nothing else has.
    Text,
    /// One of `(` `)` `{` `}` `<` `>` `,` `:` `==` `=` `.` `!` `?` `[` `]` `+`.
    Sign,
}

/// A token, by the bytes of its line that it takes: the first is byte `from`, counted from 0, and
/// `to` is the one after the last.
#[derive(Clone, Copy, Debug, PartialEq, Eq)]
pub struct Token {
    pub kind: TokenKind,
    pub from: u32,
    pub to: u32,
}

/// Why a line has no tokens.
#[derive(Clone, Copy, Debug, PartialEq, Eq)]
pub enum LexFault {
    /// No token begins at this byte, and all before it are tokens and spaces.
    Bad { at: u32 },
    /// There was no memory.
    NoMemory,
}

impl From<AllocError> for LexFault {
    ghost from_gives = { λ _ e. e ≡ NoMemory };

    fn from(_: AllocError) -> LexFault {
        LexFault::NoMemory
    }
}

impl<T: Drop> From<AllocFailed<T>> for LexFault {
    ghost from_gives = { λ _ e. e ≡ NoMemory };

    fn from(_: AllocFailed<T>) -> LexFault {
        LexFault::NoMemory
    }
}
