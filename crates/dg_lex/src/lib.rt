//! Tokens of a line: what each kind is, how far it reaches, and the values of integers and texts.
#![tactic(auto)]

mod extent;
mod integer;
mod kind;
mod laws;
mod number;
mod scan;
mod text;
mod token;

pub use integer::value_of_integer;
pub use laws::{
    decimal_integers, no_longer_token, no_token_begins, quoted_texts, tokens_lie_in_order,
};
pub use scan::{spelling, tokens};
pub use text::value_of_text;
pub use token::{LexFault, Token, TokenKind};

#[cfg(test)]
mod tests;
