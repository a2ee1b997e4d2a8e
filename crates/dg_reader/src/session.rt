//! Lines of the session: instances, links and asks.

ghost use Rattle.std.specs.Prelude.{◌≡◌, codes};
ghost use Rattle.dg_decl.specs.Readers as readers;
ghost use Rattle.dg_decl.specs.Forms as forms;
ghost use Rattle.dg_reader.specs.Gives.{Gives};

use crate::constants::constant;
use crate::fault::FormFault;
use crate::lexemes::Lexemes;
use crate::parts::{LIST_LIMIT, integer, keyword, name, optional_name, sign, text};
use dg_decl::{AskStep, Item, OpenArg};
use dg_lex::TokenKind;
use dg_types::MapKeyVal;
use sqlite_items::Items;
use std::alloc::Global;

/// N = CONST
#[tactic(auto, unfolding(dg_decl::specs::Forms::open_arg))]
fn open_arg(alloc: Global, tokens: &mut Lexemes<'_>) -> Result<OpenArg, FormFault>
    ensures exact { Gives (forms.open_arg tokens.old) result tokens.new }
{
    let name = name(alloc, tokens)?;
    sign(tokens, b"=")?;
    let value = constant(alloc, tokens)?;
    Ok(OpenArg { name, value })
}

/// One argument or more, with commas between.
fn open_arg_list(alloc: Global, tokens: &mut Lexemes<'_>) -> Result<Items<OpenArg>, FormFault>
    ensures exact { Gives (readers.list_of forms.open_arg readers.list_limit tokens.old) result
        tokens.new }
{
    let mut found = Items::new(alloc);
    for _turn in 0..LIST_LIMIT {
        found.push(open_arg(alloc, tokens)?)?;
        if !tokens.eat(TokenKind::Sign, b",") {
            return Ok(found);
        }
    }
    Err(FormFault::NoForm)
}

/// [with N = CONST, ..]
#[tactic(auto, unfolding(dg_decl::specs::Forms::open_args))]
fn open_args(alloc: Global, tokens: &mut Lexemes<'_>) -> Result<Items<OpenArg>, FormFault>
    ensures exact { Gives (forms.open_args tokens.old) result tokens.new }
{
    if tokens.eat(TokenKind::Name, b"with") {
        return open_arg_list(alloc, tokens);
    }
    Ok(Items::new(alloc))
}

/// open N : N [in N] [with N = CONST, ..]
#[tactic(auto, unfolding(dg_decl::specs::Forms::open_line))]
pub fn open_line(alloc: Global, tokens: &mut Lexemes<'_>) -> Result<Item, FormFault>
    ensures exact { Gives (forms.open_line tokens.old) result tokens.new }
{
    keyword(tokens, b"open")?;
    let inst = name(alloc, tokens)?;
    sign(tokens, b":")?;
    let class = name(alloc, tokens)?;
    let parent = optional_name(alloc, tokens, b"in")?;
    let args = open_args(alloc, tokens)?;
    tokens.end()?;
    Ok(Item::OpenLine {
        name: inst,
        class,
        parent,
        args,
    })
}

/// link N to N
#[tactic(auto, unfolding(dg_decl::specs::Forms::link_line))]
pub fn link_line(alloc: Global, tokens: &mut Lexemes<'_>) -> Result<Item, FormFault>
    ensures exact { Gives (forms.link_line tokens.old) result tokens.new }
{
    keyword(tokens, b"link")?;
    let from = name(alloc, tokens)?;
    keyword(tokens, b"to")?;
    let to = name(alloc, tokens)?;
    tokens.end()?;
    Ok(Item::Link { from, to })
}

/// A text or an integer as the key of an entry of a map.
#[tactic(auto, unfolding(dg_decl::specs::Forms::map_key_form))]
fn map_key_form(alloc: Global, tokens: &mut Lexemes<'_>) -> Result<MapKeyVal, FormFault>
    ensures exact { Gives (forms.map_key_form tokens.old) result tokens.new }
{
    if tokens.comes_kind(TokenKind::Text) {
        return Ok(MapKeyVal::Text(text(alloc, tokens)?));
    }
    Ok(MapKeyVal::Int(integer(tokens)?))
}

/// ["k"] | [i]
#[tactic(auto, unfolding(dg_decl::specs::Forms::at_key))]
fn at_key(alloc: Global, tokens: &mut Lexemes<'_>) -> Result<AskStep, FormFault>
    ensures exact { Gives (forms.at_key tokens.old) result tokens.new }
{
    sign(tokens, b"[")?;
    let key = map_key_form(alloc, tokens)?;
    sign(tokens, b"]")?;
    Ok(AskStep::At(key))
}

/// .N | ! | ? | ["k"] | [i]
#[tactic(auto, unfolding(dg_decl::specs::Forms::ask_step))]
fn ask_step(alloc: Global, tokens: &mut Lexemes<'_>) -> Result<AskStep, FormFault>
    ensures exact { Gives (forms.ask_step tokens.old) result tokens.new }
{
    if tokens.comes(TokenKind::Sign, b".") {
        sign(tokens, b".")?;
        Ok(AskStep::Field(name(alloc, tokens)?))
    } else if tokens.comes(TokenKind::Sign, b"!") {
        sign(tokens, b"!")?;
        Ok(AskStep::Get)
    } else if tokens.comes(TokenKind::Sign, b"?") {
        sign(tokens, b"?")?;
        Ok(AskStep::Inside)
    } else {
        at_key(alloc, tokens)
    }
}

/// Steps up to the end of the line.
fn ask_steps(alloc: Global, tokens: &mut Lexemes<'_>) -> Result<Items<AskStep>, FormFault>
    ensures exact { Gives (forms.ask_steps readers.list_limit tokens.old) result tokens.new }
{
    let mut found = Items::new(alloc);
    for _turn in 0..LIST_LIMIT {
        if tokens.is_empty() {
            return Ok(found);
        }
        found.push(ask_step(alloc, tokens)?)?;
    }
    if !tokens.is_empty() {
        return Err(FormFault::NoForm);
    }
    Ok(found)
}

/// ask N.N and steps
#[tactic(auto, unfolding(dg_decl::specs::Forms::ask_line))]
pub fn ask_line(alloc: Global, tokens: &mut Lexemes<'_>) -> Result<Item, FormFault>
    ensures exact { Gives (forms.ask_line tokens.old) result tokens.new }
{
    keyword(tokens, b"ask")?;
    let inst = name(alloc, tokens)?;
    sign(tokens, b".")?;
    let entry = name(alloc, tokens)?;
    let steps = ask_steps(alloc, tokens)?;
    Ok(Item::AskLine { inst, entry, steps })
}
