ghost use Rattle.std.specs.Prelude.{◌≡◌, ◌++◌, [], IfOk, OnOk, slice_get};
ghost use Rattle.std.specs.Option.{option_copied, option_map_or};
ghost use Rattle.dg_decl.specs.Bounds.{IsBounded};
ghost use Rattle.dg_decl.specs.Components as components;
ghost use Rattle.dg_decl.specs.Components.{component_classes};
ghost use Rattle.dg_decl.specs.Graph as graph;
ghost use Rattle.dg_decl.specs.Names as names;
ghost use Rattle.dg_decl.specs.declared.binding.BindRef.TheVariants as binding;

use crate::class::{bound_at, deps_at, name_at, scopes_at};
use dg_decl::{BindRef, Bound, Class, CompTree, Doc, Item, Node, NodeKind};
use dg_names::Names;
use dg_types::{Name, NoMemory, push_key_text};
use std::alloc::Global;
use std::marker::Model;

/// What names the nodes of a document: its statements and its component classes. Contracts see the
/// document.
#[derive(Drop)]
pub struct Sites<'a> {
    names: Names<'a>,
    classes: &'a [Class],
}

impl<'a> Model for Sites<'a> {
    ghost use Rattle.std.specs.Prelude.{◌≡◌};
    ghost use Rattle.std.specs.Coded.{codes};
    ghost use Rattle.dg_decl.specs.contracts.expression.Expr as expr;
    ghost use Rattle.dg_decl.specs.contracts.expression.Tree as tree;
    ghost use Rattle.dg_decl.specs.declared.document.Doc.{Doc};
    ghost use Rattle.dg_decl.specs.Components.{component_classes};
    ghost use Rattle.dg_types.specs.contracts.shape.Shape as shape;

    ghost Value = { Doc };

    ghost coded = { Prim.hlevel (
      codes,
      shape.the_row.coded,
      expr.the_row.coded,
      tree.the_row.coded,
    ) };

    ghost view = { λ s. s.names };

    ghost invariant = { λ s. s.classes.now ≡ component_classes s.names };
}

/// The name that an item declares, outside blocks or in its block.
fn name_of(item: &Item) -> &[u8]
    ensures exact { result.now ≡ graph.name_of item.now }
{
    match item.outer_name() {
        Some(name) => name.as_slice(),
        None => match item.member_name() {
            Some(name) => name.as_slice(),
            None => &[],
        },
    }
}

/// The item of this index.
fn item_in(items: &[Item], index: u32) -> Option<&Item>
    ensures exact { option_copied result ≡ slice_get items.now index }
{
    items.get(index as usize)
}

impl<'a> Sites<'a> {
    /// From a document and its component classes.
    pub fn of(alloc: Global, doc: &'a Doc, tree: &'a CompTree) -> Result<Sites<'a>, NoMemory>
        requires bounded { IsBounded doc.now }
        requires classes { tree.now.classes ≡ component_classes doc.now }
        ensures exact { IfOk result (λ sites. sites ≡ doc.now) }
    {
        Ok(Sites {
            names: Names::of(alloc, doc)?,
            classes: tree.classes.as_slice(),
        })
    }

    /// The item of this index, if there is one.
    pub fn item(&self, index: u32) -> Option<&Item>
        ensures exact { option_copied result ≡ names.item_at self.now index }
    {
        item_in(self.names.doc().items.as_slice(), index)
    }

    /// The scopes that the class of this number carries; none where there is no such class.
    #[tactic(auto, using(crate::proofs::ClassLemmas::scopes_are))]
    pub fn scopes(&self, class: u32) -> &[Name]
        ensures exact { result.now ≡ components.scopes_of self.now class }
    {
        scopes_at(self.classes, class)
    }

    /// The name of the class of this number.
    #[tactic(auto, using(crate::proofs::ClassLemmas::names_are))]
    fn class_name(&self, class: u32) -> &[u8]
        ensures exact { result.now ≡ components.class_name self.now class }
    {
        name_at(self.classes, class)
    }

    /// The bound arguments of the class of this number.
    #[tactic(auto, using(crate::proofs::ClassLemmas::bound_are))]
    fn bound(&self, class: u32) -> &[Bound]
        ensures exact { result.now ≡ components.bound_of self.now class }
    {
        bound_at(self.classes, class)
    }

    /// The numbers of the classes that the class of this number depends on.
    #[tactic(auto, using(crate::proofs::ClassLemmas::deps_are))]
    fn deps(&self, class: u32) -> &[u32]
        ensures exact { result.now ≡ components.deps_of self.now class }
    {
        deps_at(self.classes, class)
    }

    /// The name that the item of this index declares; empty where there is no such item.
    fn item_name(&self, index: u32) -> &[u8]
        ensures exact { result.now ≡ graph.item_name self.now index }
    {
        self.item(index)
            .map(|item| name_of(item))
            .unwrap_or_default()
    }

    /// Appends the name of the header in whose block a statement stands.
    fn push_owner(&self, block: Option<u32>, text: &mut Vec<u8>) -> Result<(), NoMemory>
        ensures exact { OnOk result (text.new.items
            ≡ text.old.items ++ option_map_or (graph.item_name self.now) block []) }
    {
        match block {
            Some(header) => self.push_item_name(header, text),
            None => Ok(()),
        }
    }

    /// Appends a member behind the name of the block in which it stands.
    fn push_member(&self, index: u32, text: &mut Vec<u8>) -> Result<(), NoMemory>
        ensures exact { OnOk result
            (text.new.items ≡ text.old.items ++ graph.member_text self.now index) }
    {
        match self.names.statement(index) {
            Some(statement) => {
                self.push_owner(statement.block, text)?;
                text.push(b'.')?;
                text.extend_from_slice(name_of(statement.item))?;
                Ok(())
            }
            None => Ok(()),
        }
    }

    /// Appends a bound argument or a default binding behind the name of its class.
    fn push_argument(&self, class: u32, arg: u32, text: &mut Vec<u8>) -> Result<(), NoMemory>
        ensures exact { OnOk result
            (text.new.items ≡ text.old.items ++ graph.argument_text self.now class arg) }
    {
        match self.bound(class).get(arg as usize) {
            Some(bound) => {
                text.extend_from_slice(self.class_name(class))?;
                text.push(b'.')?;
                text.extend_from_slice(bound.name.as_slice())?;
                Ok(())
            }
            None => Ok(()),
        }
    }

    /// Appends an entry point behind the name of the dependency that exposes it.
    fn push_exposed(
        &self,
        class: u32,
        dep: u32,
        entry: u32,
        text: &mut Vec<u8>,
    ) -> Result<(), NoMemory>
        ensures exact { OnOk result (text.new.items ≡ text.old.items
            ++ graph.binding_text self.now class (binding.Exposed dep entry)) }
    {
        match self.deps(class).get(dep as usize) {
            Some(exposing) => {
                text.extend_from_slice(self.class_name(*exposing))?;
                text.push(b'.')?;
                self.push_item_name(entry, text)
            }
            None => Ok(()),
        }
    }

    /// Appends how a binding is named, without the class that owns it.
    fn push_binding(&self, class: u32, binding: BindRef, text: &mut Vec<u8>) -> Result<(), NoMemory>
        ensures exact { OnOk result
            (text.new.items ≡ text.old.items ++ graph.binding_text self.now class binding) }
    {
        match binding {
            BindRef::Member(index) => self.push_member(index, text),
            BindRef::ClassItem(index) => self.push_item_name(index, text),
            BindRef::Arg(arg) => self.push_argument(class, arg, text),
            BindRef::Default => self.push_argument(class, 0, text),
            BindRef::Exposed { dep, entry } => self.push_exposed(class, dep, entry, text),
        }
    }

    /// Appends how a node is named, without its class.
    #[tactic(auto, unfolding(dg_decl::specs::Graph::node_text))]
    pub fn push_node(&self, node: &Node, text: &mut Vec<u8>) -> Result<(), NoMemory>
        ensures exact { OnOk result
            (text.new.items ≡ text.old.items ++ graph.node_text self.now node.now) }
    {
        match &node.kind {
            NodeKind::Bound(binding) => self.push_binding(node.class, *binding, text),
            NodeKind::Multi(key) => push_key_text(text, key),
            NodeKind::Opt(key) => push_key_text(text, key),
            NodeKind::EntryOf(index) => self.push_member(*index, text),
        }
    }

    /// Appends the site of a node: the name of its class, and its own.
    #[tactic(auto, unfolding(dg_decl::specs::Graph::site_of_node))]
    pub fn push_site_of_node(&self, node: &Node, text: &mut Vec<u8>) -> Result<(), NoMemory>
        ensures exact { OnOk result
            (text.new.items ≡ text.old.items ++ graph.site_of_node self.now node.now) }
    {
        text.extend_from_slice(self.class_name(node.class))?;
        text.push(b'/')?;
        self.push_node(node, text)
    }

    /// Appends the site of a request of a node, by the parameter that makes it, or of its one
    /// request.
    #[tactic(auto, unfolding(dg_decl::specs::Graph::site_of_request))]
    pub fn push_site_of_request(
        &self,
        node: &Node,
        param: Option<&Name>,
        text: &mut Vec<u8>,
    ) -> Result<(), NoMemory>
        ensures exact { OnOk result (text.new.items ≡ text.old.items
            ++ graph.site_of_request self.now node.now (option_copied param.entry)) }
    {
        self.push_site_of_node(node, text)?;
        match param {
            Some(name) => {
                text.push(b'(')?;
                text.extend_from_slice(name.as_slice())?;
                text.push(b')')?;
                Ok(())
            }
            None => Ok(()),
        }
    }

    /// Appends the name that the item of this index declares.
    pub fn push_item_name(&self, index: u32, text: &mut Vec<u8>) -> Result<(), NoMemory>
        ensures exact { OnOk result
            (text.new.items ≡ text.old.items ++ graph.item_name self.now index) }
    {
        text.extend_from_slice(self.item_name(index))?;
        Ok(())
    }
}

/// The site of a node: the name of its class, and its own.
pub fn site_text(alloc: Global, d: &Doc, t: &CompTree, n: &Node) -> Result<Vec<u8>, NoMemory>
    requires bounded { IsBounded d.now }
    requires classes { t.now.classes ≡ component_classes d.now }
    ensures exact { IfOk result (λ text. text.items ≡ graph.site_of_node d.now n.now) }
{
    let mut text = Vec::new(alloc);
    Sites::of(alloc, d, t)?.push_site_of_node(n, &mut text)?;
    Ok(text)
}
