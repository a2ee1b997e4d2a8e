//! Which form a line has.

ghost use Rattle.std.specs.Prelude.{◌≡◌, codes};
ghost use Rattle.std.specs.Str.{bytes_eq};
ghost use Rattle.dg_decl.specs.Forms as forms;
ghost use Rattle.dg_reader.specs.Gives.{Gives};

use crate::fault::FormFault;
use crate::lexemes::Lexemes;
use crate::members::{
    binds_instance_line, binds_line, depends_on_line, end_line, entry_line, multibinds_line,
    optional_of_line, produces_line, provides_line,
};
use crate::outside::{
    class_line, component_line, define_component_line, entry_point_line, interface_line,
    module_line, qualifier_line, scope_line, test_module_line,
};
use crate::session::{ask_line, link_line, open_line};
use dg_decl::Item;
use dg_lex::TokenKind;
use std::alloc::Global;

fn is(word: &[u8], other: &[u8]) -> bool
    ensures exact { result ≡ bytes_eq word.now other.now }
{
    word == other
}

/// A line outside blocks with this word.
#[tactic(auto, unfolding(dg_decl::specs::Forms::outside_line))]
fn outside_line(alloc: Global, tokens: &mut Lexemes<'_>, word: &[u8]) -> Result<Item, FormFault>
    ensures exact { Gives (forms.outside_line word.now tokens.old) result tokens.new }
{
    if is(word, b"qualifier") {
        qualifier_line(alloc, tokens)
    } else if is(word, b"scope") {
        scope_line(alloc, tokens)
    } else if is(word, b"interface") {
        interface_line(alloc, tokens)
    } else if is(word, b"class") {
        class_line(alloc, tokens)
    } else if is(word, b"module") {
        if tokens.comes(TokenKind::AtName, b"@TestInstallIn") {
            test_module_line(alloc, tokens)
        } else {
            module_line(alloc, tokens)
        }
    } else if is(word, b"component") {
        component_line(alloc, tokens)
    } else if is(word, b"defineComponent") {
        define_component_line(alloc, tokens)
    } else if is(word, b"entryPoint") {
        entry_point_line(alloc, tokens)
    } else if is(word, b"open") {
        open_line(alloc, tokens)
    } else if is(word, b"link") {
        link_line(alloc, tokens)
    } else if is(word, b"ask") {
        ask_line(alloc, tokens)
    } else {
        end_line(tokens)
    }
}

/// A line with this word.
#[tactic(auto, unfolding(dg_decl::specs::Forms::line_with))]
fn line_with(alloc: Global, tokens: &mut Lexemes<'_>, word: &[u8]) -> Result<Item, FormFault>
    ensures exact { Gives (forms.line_with word.now tokens.old) result tokens.new }
{
    if is(word, b"provides") {
        provides_line(alloc, tokens)
    } else if is(word, b"binds") {
        binds_line(alloc, tokens)
    } else if is(word, b"produces") {
        produces_line(alloc, tokens)
    } else if is(word, b"bindsOptionalOf") {
        optional_of_line(alloc, tokens)
    } else if is(word, b"multibinds") {
        multibinds_line(alloc, tokens)
    } else if is(word, b"bindsInstance") {
        binds_instance_line(alloc, tokens)
    } else if is(word, b"dependsOn") {
        depends_on_line(alloc, tokens)
    } else if is(word, b"entry") {
        entry_line(alloc, tokens)
    } else {
        outside_line(alloc, tokens, word)
    }
}

/// The item that the tokens of a line spell, all of them.
#[tactic(auto, unfolding(dg_decl::specs::Forms::item_line))]
pub fn item_line(alloc: Global, tokens: &mut Lexemes<'_>) -> Result<Item, FormFault>
    ensures exact { Gives (forms.item_line tokens.old) result tokens.new }
{
    let word = tokens.form_word();
    line_with(alloc, tokens, word)
}
