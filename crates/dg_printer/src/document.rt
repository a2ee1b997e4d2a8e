ghost use Rattle.std.specs.Prelude.{◌≡◌, ◌++◌, ◌<◌, IfOk, OnErr, OnOk, length};
ghost use Rattle.dg_decl.specs.Canonical.{canonical_line, canonical_text, is_member, indent_of};
ghost use Rattle.dg_decl.specs.Lines.{with_end};

use crate::item::push_item;
use crate::line::Line;
use dg_decl::{Doc, Item};
use dg_types::NoMemory;
use std::alloc::Global;

/// Whether the line of an item is indented: whether it is a member of a block.
fn is_indented(item: &Item) -> bool
    ensures exact { result ≡ is_member item.now }
{
    matches!(
        item,
        Item::Provides { .. }
            | Item::Binds { .. }
            | Item::Produces { .. }
            | Item::OptionalOf { .. }
            | Item::Multibinds { .. }
            | Item::BindsInstance { .. }
            | Item::DependsOn { .. }
            | Item::Entry { .. }
    )
}

fn indent_of(item: &Item) -> &'static [u8]
    ensures exact { result.now ≡ indent_of item.now }
{
    if is_indented(item) { b"  " } else { b"" }
}

/// Appends the line of an item.
#[tactic(auto, using(crate::proofs::Appending::line_made), unfolding(dg_decl::specs::Canonical::canonical_line))]
fn push_line(line: &mut Line, item: &Item) -> Result<(), NoMemory>
    ensures exact { OnOk result (line.new.text
        ≡ line.old.text ++ with_end (canonical_line item.now)) }
{
    line.begin(indent_of(item))?;
    push_item(line, item)?;
    line.end()
}

/// The canonical text of a document: one item a line, members indented, no blank lines and no
/// comments. Time and memory grow with the text.
#[tactic(auto, unfolding(dg_decl::specs::Canonical::canonical_text))]
pub fn print_doc(alloc: Global, d: &Doc) -> Result<Vec<u8>, NoMemory>
    ensures exact { IfOk result (λ text. text.items ≡ canonical_text d.now) }
    ensures cause { OnErr result (0 < length d.now.items) }
{
    let mut line = Line::new(alloc);
    for item in d.items.as_slice() {
        push_line(&mut line, item)?;
    }
    Ok(line.into_text())
}
