//! Types, their uses and parameters.

ghost use Rattle.std.specs.Prelude.{◌≡◌, codes};
ghost use Rattle.dg_lex.specs.Bytes.{Bytes};
ghost use Rattle.dg_decl.specs.Readers as readers;
ghost use Rattle.dg_decl.specs.TypeForms as types;
ghost use Rattle.dg_reader.specs.Gives.{Gives};

use crate::fault::FormFault;
use crate::lexemes::Lexemes;
use crate::parts::{LIST_LIMIT, at_name, enclosed_text, name, sign};
use dg_decl::Param;
use dg_lex::TokenKind;
use dg_types::{Name, Qualifier, Shape, Text, TypeUse};
use sqlite_items::{Boxed, Items};
use std::alloc::Global;

/// How deep types nest at most.
const TYPE_DEPTH_LIMIT: usize = 4;

/// The type of this name.
fn shape_named(name: Name) -> Shape
    ensures exact { result ≡ types.shape_named name }
{
    if name.is(b"Text") {
        Shape::Text
    } else if name.is(b"Int") {
        Shape::Int
    } else {
        Shape::Named(name)
    }
}

/// What a constructor makes of the types behind its `<`.
#[cycle(types)]
#[tactic(auto, unfolding(dg_decl::specs::TypeForms::constructed))]
fn constructed(
    alloc: Global,
    tokens: &mut Lexemes<'_>,
    constructor: &Name,
    depth: usize,
) -> Result<Shape, FormFault>
    ensures exact { Gives (types.constructed (types.type_within depth) constructor.now
        tokens.old) result tokens.new }
{
    if constructor.is(b"Set") {
        let t = type_within(alloc, tokens, depth)?;
        Ok(Shape::Set(Boxed::new(alloc, t)?))
    } else if constructor.is(b"Map") {
        let keys = type_within(alloc, tokens, depth)?;
        sign(tokens, b",")?;
        let values = type_within(alloc, tokens, depth)?;
        Ok(Shape::Map(Boxed::new(alloc, keys)?, Boxed::new(alloc, values)?))
    } else if constructor.is(b"Optional") {
        let t = type_within(alloc, tokens, depth)?;
        Ok(Shape::Optional(Boxed::new(alloc, t)?))
    } else if constructor.is(b"Provider") {
        let t = type_within(alloc, tokens, depth)?;
        Ok(Shape::Provider(Boxed::new(alloc, t)?))
    } else if constructor.is(b"Lazy") {
        let t = type_within(alloc, tokens, depth)?;
        Ok(Shape::Lazy(Boxed::new(alloc, t)?))
    } else if constructor.is(b"Producer") {
        let t = type_within(alloc, tokens, depth)?;
        Ok(Shape::Producer(Boxed::new(alloc, t)?))
    } else if constructor.is(b"Produced") {
        let t = type_within(alloc, tokens, depth)?;
        Ok(Shape::Produced(Boxed::new(alloc, t)?))
    } else {
        Err(FormFault::NoForm)
    }
}

/// A name alone, or a constructor with its types between `<` and `>`, which nest at most so deep.
#[cycle(types)]
#[tactic(auto, unfolding(dg_decl::specs::TypeForms::type_over))]
fn type_over(alloc: Global, tokens: &mut Lexemes<'_>, depth: usize) -> Result<Shape, FormFault>
    ensures exact { Gives (types.type_over (types.type_within depth) tokens.old) result tokens.new }
{
    let n = name(alloc, tokens)?;
    if !tokens.eat(TokenKind::Sign, b"<") {
        return Ok(shape_named(n));
    }
    let shape = constructed(alloc, tokens, &n, depth)?;
    sign(tokens, b">")?;
    Ok(shape)
}

/// A type, at most so deep.
#[cycle(types)]
fn type_within(alloc: Global, tokens: &mut Lexemes<'_>, depth: usize) -> Result<Shape, FormFault>
    ensures exact { Gives (types.type_within depth tokens.old) result tokens.new }
{
    if depth == 0 {
        return Err(FormFault::NoForm);
    }
    type_over(alloc, tokens, depth - 1)
}

#[tactic(auto, unfolding(dg_decl::specs::TypeForms::type_form))]
pub fn type_form(alloc: Global, tokens: &mut Lexemes<'_>) -> Result<Shape, FormFault>
    ensures exact { Gives (types.type_form tokens.old) result tokens.new }
{
    type_within(alloc, tokens, TYPE_DEPTH_LIMIT)
}

/// The text in parentheses of a qualifier with a member, where there is one.
#[tactic(auto, unfolding(dg_decl::specs::TypeForms::member))]
fn member(alloc: Global, tokens: &mut Lexemes<'_>) -> Result<Option<Text>, FormFault>
    ensures exact { Gives (types.member tokens.old) result tokens.new }
{
    if tokens.comes(TokenKind::Sign, b"(") {
        return Ok(Some(enclosed_text(alloc, tokens)?));
    }
    Ok(None)
}

#[tactic(auto, unfolding(dg_decl::specs::TypeForms::some_qualifier))]
fn some_qualifier(alloc: Global, tokens: &mut Lexemes<'_>) -> Result<Option<Qualifier>, FormFault>
    ensures exact { Gives (types.some_qualifier tokens.old) result tokens.new }
{
    let name = at_name(alloc, tokens)?;
    let member = member(alloc, tokens)?;
    Ok(Some(Qualifier { name, member }))
}

#[tactic(auto, unfolding(dg_decl::specs::TypeForms::qualifier))]
fn qualifier(alloc: Global, tokens: &mut Lexemes<'_>) -> Result<Option<Qualifier>, FormFault>
    ensures exact { Gives (types.qualifier tokens.old) result tokens.new }
{
    if tokens.comes_kind(TokenKind::AtName) {
        return some_qualifier(alloc, tokens);
    }
    Ok(None)
}

#[tactic(auto, unfolding(dg_decl::specs::TypeForms::type_use))]
pub fn type_use(alloc: Global, tokens: &mut Lexemes<'_>) -> Result<TypeUse, FormFault>
    ensures exact { Gives (types.type_use tokens.old) result tokens.new }
{
    let qualifier = qualifier(alloc, tokens)?;
    let shape = type_form(alloc, tokens)?;
    Ok(TypeUse { qualifier, shape })
}

#[tactic(auto, unfolding(dg_decl::specs::TypeForms::param))]
pub fn param(alloc: Global, tokens: &mut Lexemes<'_>) -> Result<Param, FormFault>
    ensures exact { Gives (types.param tokens.old) result tokens.new }
{
    let name = name(alloc, tokens)?;
    sign(tokens, b":")?;
    let shape = type_use(alloc, tokens)?;
    Ok(Param { name, shape })
}

#[tactic(auto, unfolding(dg_decl::specs::Readers::enclosed))]
pub fn enclosed_param(alloc: Global, tokens: &mut Lexemes<'_>) -> Result<Param, FormFault>
    ensures exact { Gives (readers.enclosed types.param tokens.old) result tokens.new }
{
    sign(tokens, b"(")?;
    let param = param(alloc, tokens)?;
    sign(tokens, b")")?;
    Ok(param)
}

/// One parameter or more, with commas between.
fn param_list(alloc: Global, tokens: &mut Lexemes<'_>) -> Result<Items<Param>, FormFault>
    ensures exact { Gives (readers.list_of types.param readers.list_limit tokens.old) result
        tokens.new }
{
    let mut found = Items::new(alloc);
    for _turn in 0..LIST_LIMIT {
        found.push(param(alloc, tokens)?)?;
        if !tokens.eat(TokenKind::Sign, b",") {
            return Ok(found);
        }
    }
    Err(FormFault::NoForm)
}

#[tactic(auto, unfolding(dg_decl::specs::TypeForms::params, dg_decl::specs::Readers::in_parentheses))]
pub fn params(alloc: Global, tokens: &mut Lexemes<'_>) -> Result<Items<Param>, FormFault>
    ensures exact { Gives (types.params tokens.old) result tokens.new }
{
    sign(tokens, b"(")?;
    if tokens.eat(TokenKind::Sign, b")") {
        return Ok(Items::new(alloc));
    }
    let params = param_list(alloc, tokens)?;
    sign(tokens, b")")?;
    Ok(params)
}
