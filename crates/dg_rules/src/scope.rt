//! The scopes of bindings, and how they are written.

ghost use Rattle.std.specs.Prelude.{◌≡◌, ◌++◌, OnOk, option_map, option_and_then};
ghost use Rattle.dg_decl.specs.Names as names;
ghost use Rattle.dg_decl.specs.Sizes as sizes;
ghost use Rattle.dg_decl.specs.Stages.Bindings as stage;

use dg_decl::Item;
use dg_sites::Sites;
use dg_types::{Name, NoMemory};

/// The scope of an item's binding.
fn scope_of_item(item: &Item) -> Option<&Name>
    ensures exact { option_map (λ n. n.now) result ≡ sizes.scope_of_item item.now }
{
    match item {
        Item::Class { scope, .. } => scope.as_ref(),
        Item::Provides { scope, .. } => scope.as_ref(),
        Item::Binds { scope, .. } => scope.as_ref(),
        _ => None,
    }
}

/// The scope of the item of this index.
pub(crate) fn scope_at<'s>(sites: &'s Sites<'_>, index: u32) -> Option<&'s Name>
    ensures exact { option_map (λ n. n.now) result
        ≡ option_and_then sizes.scope_of_item (names.item_at sites.now index) }
{
    match sites.item(index) {
        Some(item) => scope_of_item(item),
        None => None,
    }
}

/// Appends `@` and a scope.
pub(crate) fn push_scope(scope: &Name, text: &mut Vec<u8>) -> Result<(), NoMemory>
    ensures exact { OnOk result (text.new.items ≡ text.old.items ++ stage.scope_text scope.now) }
{
    text.push(b'@')?;
    text.extend_from_slice(scope.as_slice())?;
    Ok(())
}

/// Appends the name of a class, and its scope.
pub(crate) fn push_scoped_class(
    sites: &Sites<'_>,
    index: u32,
    text: &mut Vec<u8>,
) -> Result<(), NoMemory>
    ensures exact { OnOk result
        (text.new.items ≡ text.old.items ++ stage.scoped_class_text sites.now index) }
{
    sites.push_item_name(index, text)?;
    match scope_at(sites, index) {
        Some(scope) => {
            text.push(b' ')?;
            push_scope(scope, text)
        }
        None => Ok(()),
    }
}
