//! What stands in an item, whatever its form.

ghost use Rattle.std.specs.Prelude.{◌≡◌, option_map};
ghost use Rattle.dg_decl.specs.Document as document;
ghost use Rattle.dg_decl.specs.Names as names;

use crate::item::{Item, Param};
use dg_types::{Name, TypeUse};

impl Item {
    /// The name that the item declares outside blocks.
    pub fn outer_name(&self) -> Option<&Name>
        ensures exact { option_map (λ n. n.now) result ≡ names.outer_name self.now }
    {
        match self {
            Item::QualifierLine { name, .. }
            | Item::ScopeLine { name }
            | Item::Interface { name }
            | Item::Class { name, .. }
            | Item::Module { name, .. }
            | Item::TestModule { name, .. }
            | Item::Component { name, .. }
            | Item::DefineComponent { name, .. }
            | Item::EntryPoint { name, .. } => Some(name),
            _ => None,
        }
    }

    /// The name that the item declares in its block.
    pub fn member_name(&self) -> Option<&Name>
        ensures exact { option_map (λ n. n.now) result ≡ names.member_name self.now }
    {
        match self {
            Item::Provides { name, .. }
            | Item::Binds { name, .. }
            | Item::Produces { name, .. }
            | Item::OptionalOf { name, .. }
            | Item::Multibinds { name, .. }
            | Item::BindsInstance { name, .. }
            | Item::Entry { name, .. } => Some(name),
            _ => None,
        }
    }

    /// The parameters of a class or of a module member.
    pub fn params(&self) -> &[Param]
        ensures exact { result.now ≡ names.params_of self.now }
    {
        match self {
            Item::Class { params, .. }
            | Item::Provides { params, .. }
            | Item::Produces { params, .. } => params.as_slice(),
            Item::Binds { param, .. } => std::slice::from_ref(param),
            _ => &[],
        }
    }

    /// What a member gives, declares or asks for.
    pub fn result(&self) -> Option<&TypeUse>
        ensures exact { option_map (λ u. u.now) result ≡ names.result_of self.now }
    {
        match self {
            Item::Provides { result, .. }
            | Item::Binds { result, .. }
            | Item::Produces { result, .. }
            | Item::OptionalOf { result, .. }
            | Item::Multibinds { result, .. }
            | Item::BindsInstance { result, .. }
            | Item::Entry { result, .. } => Some(result),
            _ => None,
        }
    }

    /// Whether the item opens a block.
    pub fn is_header(&self) -> bool
        ensures exact { result ≡ document.is_header self.now }
    {
        matches!(
            self,
            Item::Module { .. }
                | Item::TestModule { .. }
                | Item::Component { .. }
                | Item::DefineComponent { .. }
                | Item::EntryPoint { .. }
        )
    }

    /// Whether the item closes a block.
    pub fn is_end(&self) -> bool
        ensures exact { result ≡ document.is_end self.now }
    {
        matches!(self, Item::End)
    }
}

/// The index of the header of the block that is open behind an item of this index, where this block
/// was open before it.
pub fn open_behind(block: Option<u32>, index: u32, item: &Item) -> Option<u32>
    ensures exact { result ≡ document.open_behind block index item.now }
{
    if item.is_header() {
        Some(index)
    } else if item.is_end() {
        None
    } else {
        block
    }
}
