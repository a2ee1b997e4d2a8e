//! Literals, and the constants of `open` lines.

ghost use Rattle.std.specs.Prelude.{◌≡◌};
ghost use Rattle.dg_decl.specs.Readers as readers;
ghost use Rattle.dg_decl.specs.ExpressionForms as forms;
ghost use Rattle.dg_reader.specs.Gives.{Gives};

use crate::fault::FormFault;
use crate::lexemes::Lexemes;
use crate::parts::{LIST_LIMIT, integer, name, sign, text, word};
use dg_decl::Expr;
use dg_lex::TokenKind;
use sqlite_items::Items;
use std::alloc::Global;

/// How deep expressions, constants and trees nest at most.
pub const NESTING_LIMIT: usize = 16;

#[tactic(auto, unfolding(dg_decl::specs::ExpressionForms::text_constant))]
pub fn text_constant(alloc: Global, tokens: &mut Lexemes<'_>) -> Result<Expr, FormFault>
    ensures exact { Gives (forms.text_constant tokens.old) result tokens.new }
{
    Ok(Expr::Text(text(alloc, tokens)?))
}

#[tactic(auto, unfolding(dg_decl::specs::ExpressionForms::integer_constant))]
pub fn integer_constant(tokens: &mut Lexemes<'_>) -> Result<Expr, FormFault>
    ensures exact { Gives (forms.integer_constant tokens.old) result tokens.new }
{
    Ok(Expr::Int(integer(tokens)?))
}

/// One constant or more, which nest at most so deep, with commas between.
#[cycle(constants)]
fn constant_list(
    alloc: Global,
    tokens: &mut Lexemes<'_>,
    depth: usize,
) -> Result<Items<Expr>, FormFault>
    ensures exact { Gives (readers.list_of (forms.constant_within depth) readers.list_limit
        tokens.old) result tokens.new }
{
    let mut found = Items::new(alloc);
    for _turn in 0..LIST_LIMIT {
        found.push(constant_within(alloc, tokens, depth)?)?;
        if !tokens.eat(TokenKind::Sign, b",") {
            return Ok(found);
        }
    }
    Err(FormFault::NoForm)
}

#[cycle(constants)]
#[tactic(auto, unfolding(dg_decl::specs::Readers::in_parentheses))]
fn constants(
    alloc: Global,
    tokens: &mut Lexemes<'_>,
    depth: usize,
) -> Result<Items<Expr>, FormFault>
    ensures exact { Gives (readers.in_parentheses (forms.constant_within depth) tokens.old)
        result tokens.new }
{
    sign(tokens, b"(")?;
    if tokens.eat(TokenKind::Sign, b")") {
        return Ok(Items::new(alloc));
    }
    let found = constant_list(alloc, tokens, depth)?;
    sign(tokens, b")")?;
    Ok(found)
}

/// `new N(..)` of constants that nest at most so deep.
#[cycle(constants)]
#[tactic(auto, unfolding(dg_decl::specs::ExpressionForms::object))]
fn constant_object(alloc: Global, tokens: &mut Lexemes<'_>, depth: usize) -> Result<Expr, FormFault>
    ensures exact { Gives (forms.object (forms.constant_within depth) tokens.old) result
        tokens.new }
{
    word(tokens, b"new")?;
    let class = name(alloc, tokens)?;
    let args = constants(alloc, tokens, depth)?;
    Ok(Expr::New { class, args })
}

/// A constant over those within it, which nest at most so deep.
#[cycle(constants)]
#[tactic(auto, unfolding(dg_decl::specs::ExpressionForms::constant_over))]
fn constant_over(alloc: Global, tokens: &mut Lexemes<'_>, depth: usize) -> Result<Expr, FormFault>
    ensures exact { Gives (forms.constant_over (forms.constant_within depth) tokens.old) result
        tokens.new }
{
    if tokens.comes_kind(TokenKind::Text) {
        text_constant(alloc, tokens)
    } else if tokens.comes_kind(TokenKind::Integer) {
        integer_constant(tokens)
    } else {
        constant_object(alloc, tokens, depth)
    }
}

/// A constant that nests at most so deep.
#[cycle(constants)]
fn constant_within(alloc: Global, tokens: &mut Lexemes<'_>, depth: usize) -> Result<Expr, FormFault>
    ensures exact { Gives (forms.constant_within depth tokens.old) result tokens.new }
{
    if depth == 0 {
        return Err(FormFault::NoForm);
    }
    constant_over(alloc, tokens, depth - 1)
}

#[tactic(auto, unfolding(dg_decl::specs::ExpressionForms::constant))]
pub fn constant(alloc: Global, tokens: &mut Lexemes<'_>) -> Result<Expr, FormFault>
    ensures exact { Gives (forms.constant tokens.old) result tokens.new }
{
    constant_within(alloc, tokens, NESTING_LIMIT)
}
