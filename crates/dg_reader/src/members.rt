//! Lines of blocks.

ghost use Rattle.std.specs.Prelude.{◌≡◌, codes};
ghost use Rattle.dg_decl.specs.Readers as readers;
ghost use Rattle.dg_decl.specs.Forms as forms;
ghost use Rattle.dg_decl.specs.declared.item.Item.TheVariants as item;
ghost use Rattle.dg_reader.specs.Gives.{Gives};

use crate::bodies::{body, tree_body};
use crate::fault::FormFault;
use crate::lexemes::Lexemes;
use crate::outside::scope;
use crate::parts::{enclosed_integer, enclosed_text, keyword, name, sign};
use crate::types::{enclosed_param, params, type_use};
use dg_decl::{Item, Mark};
use dg_lex::TokenKind;
use dg_types::{MapKeyVal, Name, TypeUse};
use std::alloc::Global;

/// @StringKey("k") | @IntKey(i)
#[tactic(auto, unfolding(dg_decl::specs::Forms::map_key_mark))]
fn map_key_mark(alloc: Global, tokens: &mut Lexemes<'_>) -> Result<MapKeyVal, FormFault>
    ensures exact { Gives (forms.map_key_mark tokens.old) result tokens.new }
{
    if tokens.eat(TokenKind::AtName, b"@StringKey") {
        return Ok(MapKeyVal::Text(enclosed_text(alloc, tokens)?));
    }
    tokens.take(TokenKind::AtName, b"@IntKey")?;
    Ok(MapKeyVal::Int(enclosed_integer(tokens)?))
}

/// [MARK]: an at-name of one of these names in front is the mark.
#[tactic(auto, unfolding(dg_decl::specs::Forms::mark_form, dg_decl::specs::Readers::at_name))]
fn mark_form(alloc: Global, tokens: &mut Lexemes<'_>) -> Result<Option<Mark>, FormFault>
    ensures exact { Gives (forms.mark_form tokens.old) result tokens.new }
{
    if tokens.comes(TokenKind::AtName, b"@IntoSet") {
        tokens.spelled(TokenKind::AtName)?;
        Ok(Some(Mark::IntoSet))
    } else if tokens.comes(TokenKind::AtName, b"@ElementsIntoSet") {
        tokens.spelled(TokenKind::AtName)?;
        Ok(Some(Mark::ElementsIntoSet))
    } else if tokens.comes(TokenKind::AtName, b"@IntoMap") {
        tokens.spelled(TokenKind::AtName)?;
        Ok(Some(Mark::IntoMap(map_key_mark(alloc, tokens)?)))
    } else {
        Ok(None)
    }
}

/// [MARK] [@S] provides N(PARAMS) : USE = EXPR
#[tactic(auto, unfolding(dg_decl::specs::Forms::provides_line))]
pub fn provides_line(alloc: Global, tokens: &mut Lexemes<'_>) -> Result<Item, FormFault>
    ensures exact { Gives (forms.provides_line tokens.old) result tokens.new }
{
    let mark = mark_form(alloc, tokens)?;
    let scope = scope(alloc, tokens)?;
    keyword(tokens, b"provides")?;
    let name = name(alloc, tokens)?;
    let params = params(alloc, tokens)?;
    sign(tokens, b":")?;
    let result = type_use(alloc, tokens)?;
    sign(tokens, b"=")?;
    let body = body(alloc, tokens)?;
    tokens.end()?;
    Ok(Item::Provides {
        mark,
        scope,
        name,
        params,
        result,
        body,
    })
}

/// [@S] binds N(PARAM) : USE, behind its mark.
#[tactic(auto, unfolding(dg_decl::specs::Forms::binds_behind))]
fn binds_behind(
    alloc: Global,
    tokens: &mut Lexemes<'_>,
    mark: Option<Mark>,
) -> Result<Item, FormFault>
    ensures exact { Gives (forms.binds_behind mark tokens.old) result tokens.new }
{
    let scope = scope(alloc, tokens)?;
    keyword(tokens, b"binds")?;
    let name = name(alloc, tokens)?;
    let param = enclosed_param(alloc, tokens)?;
    sign(tokens, b":")?;
    let result = type_use(alloc, tokens)?;
    tokens.end()?;
    Ok(Item::Binds {
        mark,
        scope,
        name,
        param,
        result,
    })
}

fn is_elements(mark: &Option<Mark>) -> bool
    ensures exact { result ≡ forms.is_elements mark.now }
{
    matches!(mark, Some(Mark::ElementsIntoSet))
}

/// [MARK] [@S] binds N(PARAM) : USE, where the mark isn't @ElementsIntoSet.
#[tactic(auto, unfolding(dg_decl::specs::Forms::binds_line))]
pub fn binds_line(alloc: Global, tokens: &mut Lexemes<'_>) -> Result<Item, FormFault>
    ensures exact { Gives (forms.binds_line tokens.old) result tokens.new }
{
    let mark = mark_form(alloc, tokens)?;
    if is_elements(&mark) {
        return Err(FormFault::NoForm);
    }
    binds_behind(alloc, tokens, mark)
}

/// [MARK] produces N(PARAMS) : USE = TREE
#[tactic(auto, unfolding(dg_decl::specs::Forms::produces_line))]
pub fn produces_line(alloc: Global, tokens: &mut Lexemes<'_>) -> Result<Item, FormFault>
    ensures exact { Gives (forms.produces_line tokens.old) result tokens.new }
{
    let mark = mark_form(alloc, tokens)?;
    keyword(tokens, b"produces")?;
    let name = name(alloc, tokens)?;
    let params = params(alloc, tokens)?;
    sign(tokens, b":")?;
    let result = type_use(alloc, tokens)?;
    sign(tokens, b"=")?;
    let body = tree_body(alloc, tokens)?;
    tokens.end()?;
    Ok(Item::Produces {
        mark,
        name,
        params,
        result,
        body,
    })
}

/// bindsOptionalOf N : USE
#[tactic(auto, unfolding(dg_decl::specs::Forms::optional_of_line, dg_decl::specs::Forms::use_line))]
pub fn optional_of_line(alloc: Global, tokens: &mut Lexemes<'_>) -> Result<Item, FormFault>
    ensures exact { Gives (forms.optional_of_line tokens.old) result tokens.new }
{
    keyword(tokens, b"bindsOptionalOf")?;
    let name = name(alloc, tokens)?;
    sign(tokens, b":")?;
    let result = type_use(alloc, tokens)?;
    tokens.end()?;
    Ok(Item::OptionalOf { name, result })
}

/// multibinds N : USE
#[tactic(auto, unfolding(dg_decl::specs::Forms::multibinds_line, dg_decl::specs::Forms::use_line))]
pub fn multibinds_line(alloc: Global, tokens: &mut Lexemes<'_>) -> Result<Item, FormFault>
    ensures exact { Gives (forms.multibinds_line tokens.old) result tokens.new }
{
    keyword(tokens, b"multibinds")?;
    let name = name(alloc, tokens)?;
    sign(tokens, b":")?;
    let result = type_use(alloc, tokens)?;
    tokens.end()?;
    Ok(Item::Multibinds { name, result })
}

/// bindsInstance N : USE
#[tactic(auto, unfolding(dg_decl::specs::Forms::binds_instance_line, dg_decl::specs::Forms::use_line))]
pub fn binds_instance_line(alloc: Global, tokens: &mut Lexemes<'_>) -> Result<Item, FormFault>
    ensures exact { Gives (forms.binds_instance_line tokens.old) result tokens.new }
{
    keyword(tokens, b"bindsInstance")?;
    let name = name(alloc, tokens)?;
    sign(tokens, b":")?;
    let result = type_use(alloc, tokens)?;
    tokens.end()?;
    Ok(Item::BindsInstance { name, result })
}

/// entry N : USE
#[tactic(auto, unfolding(dg_decl::specs::Forms::entry_line, dg_decl::specs::Forms::use_line))]
pub fn entry_line(alloc: Global, tokens: &mut Lexemes<'_>) -> Result<Item, FormFault>
    ensures exact { Gives (forms.entry_line tokens.old) result tokens.new }
{
    keyword(tokens, b"entry")?;
    let name = name(alloc, tokens)?;
    sign(tokens, b":")?;
    let result = type_use(alloc, tokens)?;
    tokens.end()?;
    Ok(Item::Entry { name, result })
}

/// dependsOn N
#[tactic(auto, unfolding(dg_decl::specs::Forms::depends_on_line))]
pub fn depends_on_line(alloc: Global, tokens: &mut Lexemes<'_>) -> Result<Item, FormFault>
    ensures exact { Gives (forms.depends_on_line tokens.old) result tokens.new }
{
    keyword(tokens, b"dependsOn")?;
    let name = name(alloc, tokens)?;
    tokens.end()?;
    Ok(Item::DependsOn { name })
}

/// }
#[tactic(auto, unfolding(dg_decl::specs::Forms::end_line))]
pub fn end_line(tokens: &mut Lexemes<'_>) -> Result<Item, FormFault>
    ensures exact { Gives (forms.end_line tokens.old) result tokens.new }
{
    sign(tokens, b"}")?;
    tokens.end()?;
    Ok(Item::End)
}
