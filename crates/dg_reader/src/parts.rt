//! Words, signs, names and literals, and lists of names.

ghost use Rattle.std.specs.Prelude.{◌≡◌, IfErr, drop};
ghost use Rattle.dg_lex.specs.Bytes.{line_limit};
ghost use Rattle.dg_lex.specs.declared.token.TokenKind.TheVariants as kind;
ghost use Rattle.dg_decl.specs.Readers as readers;
ghost use Rattle.dg_reader.specs.Gives.{Gives, GivesBy};
ghost use Rattle.dg_reader.specs.declared.fault.FormFault.TheVariants as fault;

use crate::fault::FormFault;
use crate::lexemes::Lexemes;
use dg_lex::{TokenKind, value_of_integer, value_of_text};
use dg_types::{Name, Text};
use sqlite_items::Items;
use std::alloc::Global;

/// The most members of a list that has a limit of its own.
pub const LIST_LIMIT: usize = 32;

/// No line has room for more names than it has bytes.
const NAME_COUNT_LIMIT: usize = 4096;

/// A name that has a meaning by its place.
pub fn keyword(tokens: &mut Lexemes<'_>, word: &[u8]) -> Result<(), FormFault>
    ensures exact { GivesBy (λ _. tt) (readers.keyword word.now tokens.old) result tokens.new }
    ensures cause { IfErr result (λ e. e ≡ fault.NoForm) }
{
    tokens.take(TokenKind::Name, word)
}

/// A reserved word.
pub fn word(tokens: &mut Lexemes<'_>, word: &[u8]) -> Result<(), FormFault>
    ensures exact { GivesBy (λ _. tt) (readers.word word.now tokens.old) result tokens.new }
    ensures cause { IfErr result (λ e. e ≡ fault.NoForm) }
{
    tokens.take(TokenKind::Word, word)
}

pub fn sign(tokens: &mut Lexemes<'_>, sign: &[u8]) -> Result<(), FormFault>
    ensures exact { GivesBy (λ _. tt) (readers.sign sign.now tokens.old) result tokens.new }
    ensures cause { IfErr result (λ e. e ≡ fault.NoForm) }
{
    tokens.take(TokenKind::Sign, sign)
}

pub fn name(alloc: Global, tokens: &mut Lexemes<'_>) -> Result<Name, FormFault>
    ensures exact { Gives (readers.name tokens.old) result tokens.new }
{
    Ok(Name::from_slice(alloc, tokens.spelled(TokenKind::Name)?)?)
}

/// A name without the `@` in front of it.
fn behind_at(spelled: &[u8]) -> &[u8]
    ensures exact { result.now ≡ drop 1 spelled.now }
{
    match spelled {
        [] => spelled,
        [_, name @ ..] => name,
    }
}

/// The name behind the `@` of an at-name.
#[tactic(auto, unfolding(dg_decl::specs::Readers::at_name))]
pub fn at_name(alloc: Global, tokens: &mut Lexemes<'_>) -> Result<Name, FormFault>
    ensures exact { Gives (readers.at_name tokens.old) result tokens.new }
{
    let spelled = tokens.spelled(TokenKind::AtName)?;
    Ok(Name::from_slice(alloc, behind_at(spelled))?)
}

/// A text, by its value.
#[tactic(auto, unfolding(dg_decl::specs::Readers::text))]
pub fn text(alloc: Global, tokens: &mut Lexemes<'_>) -> Result<Text, FormFault>
    ensures exact { Gives (readers.text tokens.old) result tokens.new }
{
    let spelled = tokens.spelled(TokenKind::Text)?;
    Ok(Text::from_vec(value_of_text(alloc, spelled)?))
}

/// An integer, by its value.
#[tactic(auto, unfolding(dg_decl::specs::Readers::integer))]
pub fn integer(tokens: &mut Lexemes<'_>) -> Result<i64, FormFault>
    ensures exact { Gives (readers.integer tokens.old) result tokens.new }
    ensures cause { IfErr result (λ e. e ≡ fault.NoForm) }
{
    match value_of_integer(tokens.spelled(TokenKind::Integer)?) {
        Some(n) => Ok(n),
        None => Err(FormFault::NoForm),
    }
}

#[tactic(auto, unfolding(dg_decl::specs::Readers::enclosed))]
pub fn enclosed_name(alloc: Global, tokens: &mut Lexemes<'_>) -> Result<Name, FormFault>
    ensures exact { Gives (readers.enclosed readers.name tokens.old) result tokens.new }
{
    sign(tokens, b"(")?;
    let name = name(alloc, tokens)?;
    sign(tokens, b")")?;
    Ok(name)
}

#[tactic(auto, unfolding(dg_decl::specs::Readers::enclosed))]
pub fn enclosed_text(alloc: Global, tokens: &mut Lexemes<'_>) -> Result<Text, FormFault>
    ensures exact { Gives (readers.enclosed readers.text tokens.old) result tokens.new }
{
    sign(tokens, b"(")?;
    let text = text(alloc, tokens)?;
    sign(tokens, b")")?;
    Ok(text)
}

#[tactic(auto, unfolding(dg_decl::specs::Readers::enclosed))]
pub fn enclosed_integer(tokens: &mut Lexemes<'_>) -> Result<i64, FormFault>
    ensures exact { Gives (readers.enclosed readers.integer tokens.old) result tokens.new }
{
    sign(tokens, b"(")?;
    let n = integer(tokens)?;
    sign(tokens, b")")?;
    Ok(n)
}

/// Behind this word a name, or neither.
#[tactic(auto, unfolding(dg_decl::specs::Readers::optional))]
pub fn optional_name(
    alloc: Global,
    tokens: &mut Lexemes<'_>,
    word: &[u8],
) -> Result<Option<Name>, FormFault>
    ensures exact { Gives (readers.optional kind.Name word.now readers.name tokens.old) result
        tokens.new }
{
    if tokens.eat(TokenKind::Name, word) {
        return Ok(Some(name(alloc, tokens)?));
    }
    Ok(None)
}

fn name_list(alloc: Global, tokens: &mut Lexemes<'_>) -> Result<Items<Name>, FormFault>
    ensures exact { Gives (readers.list_of readers.name line_limit tokens.old) result tokens.new }
{
    let mut found = Items::new(alloc);
    for _turn in 0..NAME_COUNT_LIMIT {
        found.push(name(alloc, tokens)?)?;
        if !tokens.eat(TokenKind::Sign, b",") {
            return Ok(found);
        }
    }
    Err(FormFault::NoForm)
}

/// One name or more with commas between.
#[tactic(auto, unfolding(dg_decl::specs::Readers::names))]
pub fn names(alloc: Global, tokens: &mut Lexemes<'_>) -> Result<Items<Name>, FormFault>
    ensures exact { Gives (readers.names tokens.old) result tokens.new }
{
    name_list(alloc, tokens)
}

/// Behind a token of this kind and spelling one name or more with commas between, or none.
#[tactic(auto, unfolding(dg_decl::specs::Readers::optional_names))]
pub fn optional_names(
    alloc: Global,
    tokens: &mut Lexemes<'_>,
    kind: TokenKind,
    spelling: &[u8],
) -> Result<Items<Name>, FormFault>
    ensures exact { Gives (readers.optional_names kind spelling.now tokens.old) result tokens.new }
{
    if tokens.eat(kind, spelling) {
        return names(alloc, tokens);
    }
    Ok(Items::new(alloc))
}

/// The names of all at-names that stand in front.
pub fn at_names(alloc: Global, tokens: &mut Lexemes<'_>) -> Result<Items<Name>, FormFault>
    ensures exact { Gives (readers.at_names tokens.old) result tokens.new }
{
    let mut found = Items::new(alloc);
    while tokens.comes_kind(TokenKind::AtName) {
        found.push(at_name(alloc, tokens)?)?;
    }
    Ok(found)
}
