//! Lines outside blocks: what a document declares there, and the headers of blocks.

ghost use Rattle.std.specs.Prelude.{◌≡◌, codes};
ghost use Rattle.std.specs.Option.{option_map};
ghost use Rattle.dg_lex.specs.declared.token.TokenKind.TheVariants as kind;
ghost use Rattle.dg_decl.specs.Readers as readers;
ghost use Rattle.dg_decl.specs.Forms as forms;
ghost use Rattle.dg_reader.specs.Gives.{Gives};

use crate::fault::FormFault;
use crate::lexemes::Lexemes;
use crate::parts::{
    at_name, at_names, enclosed_name, keyword, name, names, optional_name, optional_names, sign,
};
use crate::types::params;
use dg_decl::Item;
use dg_lex::TokenKind;
use dg_types::Name;
use std::alloc::Global;

/// [@S]
#[tactic(auto, unfolding(dg_decl::specs::Forms::scope))]
pub fn scope(alloc: Global, tokens: &mut Lexemes<'_>) -> Result<Option<Name>, FormFault>
    ensures exact { Gives (forms.scope tokens.old) result tokens.new }
{
    if tokens.comes_kind(TokenKind::AtName) {
        return Ok(Some(at_name(alloc, tokens)?));
    }
    Ok(None)
}

/// qualifier N | qualifier N(Text)
#[tactic(auto, unfolding(dg_decl::specs::Forms::qualifier_line))]
pub fn qualifier_line(alloc: Global, tokens: &mut Lexemes<'_>) -> Result<Item, FormFault>
    ensures exact { Gives (forms.qualifier_line tokens.old) result tokens.new }
{
    keyword(tokens, b"qualifier")?;
    let name = name(alloc, tokens)?;
    if tokens.eat(TokenKind::Sign, b"(") {
        keyword(tokens, b"Text")?;
        sign(tokens, b")")?;
        tokens.end()?;
        return Ok(Item::QualifierLine { name, member: true });
    }
    tokens.end()?;
    Ok(Item::QualifierLine {
        name,
        member: false,
    })
}

/// scope N
#[tactic(auto, unfolding(dg_decl::specs::Forms::scope_line))]
pub fn scope_line(alloc: Global, tokens: &mut Lexemes<'_>) -> Result<Item, FormFault>
    ensures exact { Gives (forms.scope_line tokens.old) result tokens.new }
{
    keyword(tokens, b"scope")?;
    let name = name(alloc, tokens)?;
    tokens.end()?;
    Ok(Item::ScopeLine { name })
}

/// interface N
#[tactic(auto, unfolding(dg_decl::specs::Forms::interface_line))]
pub fn interface_line(alloc: Global, tokens: &mut Lexemes<'_>) -> Result<Item, FormFault>
    ensures exact { Gives (forms.interface_line tokens.old) result tokens.new }
{
    keyword(tokens, b"interface")?;
    let name = name(alloc, tokens)?;
    tokens.end()?;
    Ok(Item::Interface { name })
}

/// class N(PARAMS) [: N, ..], behind what stands in front of it.
#[tactic(auto, unfolding(dg_decl::specs::Forms::class_behind))]
fn class_behind(
    alloc: Global,
    tokens: &mut Lexemes<'_>,
    inject: bool,
    scope: Option<Name>,
) -> Result<Item, FormFault>
    ensures exact { Gives (forms.class_behind inject scope tokens.old) result tokens.new }
{
    keyword(tokens, b"class")?;
    let name = name(alloc, tokens)?;
    let params = params(alloc, tokens)?;
    let interfaces = optional_names(alloc, tokens, TokenKind::Sign, b":")?;
    tokens.end()?;
    Ok(Item::Class {
        inject,
        scope,
        name,
        params,
        interfaces,
    })
}

/// [@Inject [@S]] class N(PARAMS) [: N, ..]
#[tactic(auto, unfolding(dg_decl::specs::Forms::class_line))]
pub fn class_line(alloc: Global, tokens: &mut Lexemes<'_>) -> Result<Item, FormFault>
    ensures exact { Gives (forms.class_line tokens.old) result tokens.new }
{
    if tokens.eat(TokenKind::AtName, b"@Inject") {
        let scope = scope(alloc, tokens)?;
        return class_behind(alloc, tokens, true, scope);
    }
    class_behind(alloc, tokens, false, None)
}

/// [@InstallIn(N)]
#[tactic(auto, unfolding(dg_decl::specs::Readers::optional))]
fn install(alloc: Global, tokens: &mut Lexemes<'_>) -> Result<Option<Name>, FormFault>
    ensures exact { Gives (readers.optional kind.AtName (codes "@InstallIn") (readers.enclosed
        readers.name) tokens.old) result tokens.new }
{
    if tokens.eat(TokenKind::AtName, b"@InstallIn") {
        return Ok(Some(enclosed_name(alloc, tokens)?));
    }
    Ok(None)
}

/// [@InstallIn(N)] module N [includes N, ..] {
#[tactic(auto, unfolding(dg_decl::specs::Forms::module_line))]
pub fn module_line(alloc: Global, tokens: &mut Lexemes<'_>) -> Result<Item, FormFault>
    ensures exact { Gives (forms.module_line tokens.old) result tokens.new }
{
    let install = install(alloc, tokens)?;
    keyword(tokens, b"module")?;
    let name = name(alloc, tokens)?;
    let includes = optional_names(alloc, tokens, TokenKind::Name, b"includes")?;
    sign(tokens, b"{")?;
    tokens.end()?;
    Ok(Item::Module {
        install,
        name,
        includes,
    })
}

/// @TestInstallIn(N) module N replaces N, .. [includes N, ..] {
#[tactic(auto, unfolding(dg_decl::specs::Forms::test_module_line))]
pub fn test_module_line(alloc: Global, tokens: &mut Lexemes<'_>) -> Result<Item, FormFault>
    ensures exact { Gives (forms.test_module_line tokens.old) result tokens.new }
{
    tokens.take(TokenKind::AtName, b"@TestInstallIn")?;
    let install = enclosed_name(alloc, tokens)?;
    keyword(tokens, b"module")?;
    let name = name(alloc, tokens)?;
    keyword(tokens, b"replaces")?;
    let replaces = names(alloc, tokens)?;
    let includes = optional_names(alloc, tokens, TokenKind::Name, b"includes")?;
    sign(tokens, b"{")?;
    tokens.end()?;
    Ok(Item::TestModule {
        install,
        name,
        replaces,
        includes,
    })
}

/// any number of @S, component N [in N] [modules N, ..] {
#[tactic(auto, unfolding(dg_decl::specs::Forms::component_line))]
pub fn component_line(alloc: Global, tokens: &mut Lexemes<'_>) -> Result<Item, FormFault>
    ensures exact { Gives (forms.component_line tokens.old) result tokens.new }
{
    let scopes = at_names(alloc, tokens)?;
    keyword(tokens, b"component")?;
    let name = name(alloc, tokens)?;
    let parent = optional_name(alloc, tokens, b"in")?;
    let modules = optional_names(alloc, tokens, TokenKind::Name, b"modules")?;
    sign(tokens, b"{")?;
    tokens.end()?;
    Ok(Item::Component {
        scopes,
        name,
        parent,
        modules,
    })
}

/// any number of @S, defineComponent N in N {
#[tactic(auto, unfolding(dg_decl::specs::Forms::define_component_line))]
pub fn define_component_line(alloc: Global, tokens: &mut Lexemes<'_>) -> Result<Item, FormFault>
    ensures exact { Gives (forms.define_component_line tokens.old) result tokens.new }
{
    let scopes = at_names(alloc, tokens)?;
    keyword(tokens, b"defineComponent")?;
    let class = name(alloc, tokens)?;
    keyword(tokens, b"in")?;
    let parent = name(alloc, tokens)?;
    sign(tokens, b"{")?;
    tokens.end()?;
    Ok(Item::DefineComponent {
        scopes,
        name: class,
        parent,
    })
}

/// @InstallIn(N) entryPoint N {
#[tactic(auto, unfolding(dg_decl::specs::Forms::entry_point_line))]
pub fn entry_point_line(alloc: Global, tokens: &mut Lexemes<'_>) -> Result<Item, FormFault>
    ensures exact { Gives (forms.entry_point_line tokens.old) result tokens.new }
{
    tokens.take(TokenKind::AtName, b"@InstallIn")?;
    let install = enclosed_name(alloc, tokens)?;
    keyword(tokens, b"entryPoint")?;
    let name = name(alloc, tokens)?;
    sign(tokens, b"{")?;
    tokens.end()?;
    Ok(Item::EntryPoint { install, name })
}
