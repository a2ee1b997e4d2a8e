//! What holds of the tokens of every line, and of every text in quotes.

ghost use Rattle.dg_lex.specs.LexLaws.{NoLongerToken, TokensLieInOrder, NoTokenBegins, AreQuoted, AreDecimals};

/// A token is as long as it can be: no longer front of the bytes that begin there is a token of any
/// kind.
pub fn no_longer_token()
    ensures exact { NoLongerToken }
{}

/// The tokens of a line lie in order, none over another, and only spaces stand before, between and
/// behind them. Each is spelled as its kind says, no longer front of what stands there is a token,
/// and behind a name, a reserved word, an at-name or an integer no letter, digit or `_` stands.
pub fn tokens_lie_in_order()
    ensures exact { TokensLieInOrder }
{}

/// Where a line has no tokens, the byte that is named is something other than a space, at which no
/// token begins.
pub fn no_token_begins()
    ensures exact { NoTokenBegins }
{}

/// The value of a text in quotes is that text, and a text token is its value in quotes, so texts
/// are printed as they were written.
pub fn quoted_texts()
    ensures exact { AreQuoted }
{}

/// The decimal text of each integer of 64 bits, signed, is an integer token with that value.
pub fn decimal_integers()
    ensures exact { AreDecimals }
{}
