ghost use Rattle.std.specs.Prelude.{◌≡◌, ◌<◌, IfOk};
ghost use Rattle.dg_decl.specs.Bounds.{IsBounded};
ghost use Rattle.dg_decl.specs.Components.{class_count, component_classes, exposed_by_class};
ghost use Rattle.dg_decl.specs.Diagnostics.{PassesDependencies};
ghost use Rattle.dg_decl.specs.Graph as graph;
ghost use Rattle.dg_decl.specs.Lookup as lookup;

use crate::bound::of_binding;
use crate::dependency::Dependency;
use crate::groups::{of_contributions, of_inside};
use crate::requests::of_entry;
use dg_decl::{Bind, CompTree, Doc, Exposed, Node, NodeKind};
use dg_resolve::Lookups;
use dg_types::NoMemory;
use sqlite_items::Items;
use std::alloc::Global;
use std::marker::Model;

/// What the nodes of a document need: its look-ups, beside what they are made from. Contracts see
/// the document. To find what a node needs takes the time of a look-up for each request.
#[derive(Drop)]
pub struct Dependencies<'a> {
    doc: &'a Doc,
    tree: &'a CompTree,
    bindings: &'a [Bind],
    exposed: &'a [Items<Exposed>],
    lookups: Lookups<'a>,
}

impl<'a> Model for Dependencies<'a> {
    ghost use Rattle.std.specs.Coded.{codes};
    ghost use Rattle.dg_decl.specs.contracts.expression.Expr as expr_type;
    ghost use Rattle.dg_decl.specs.contracts.expression.Tree as tree_type;
    ghost use Rattle.dg_decl.specs.declared.document.Doc.{Doc};
    ghost use Rattle.dg_deps.specs.Known.{AreDependencies};
    ghost use Rattle.dg_types.specs.contracts.shape.Shape as shape_type;

    ghost Value = { Doc };

    ghost coded = { Prim.hlevel (
      codes,
      shape_type.the_row.coded,
      expr_type.the_row.coded,
      tree_type.the_row.coded,
    ) };

    ghost view = { λ d. d.doc.now };

    ghost invariant = { λ d.
        AreDependencies d.doc.now d.tree.now d.bindings.now d.exposed.now d.lookups };
}

impl<'a> Dependencies<'a> {
    /// From a document, its component classes, its bindings and what dependencies expose.
    pub fn of(
        alloc: Global,
        doc: &'a Doc,
        tree: &'a CompTree,
        bindings: &'a [Bind],
        exposed: &'a [Items<Exposed>],
    ) -> Result<Dependencies<'a>, NoMemory>
        requires bounded { IsBounded doc.now }
        requires passes { PassesDependencies doc.now }
        requires classes { tree.now.classes ≡ component_classes doc.now }
        requires bindings { bindings.now ≡ lookup.bindings doc.now }
        requires exposed { exposed.now ≡ exposed_by_class doc.now }
        ensures exact { IfOk result (λ dependencies. dependencies ≡ doc.now) }
    {
        let lookups = Lookups::of(alloc, doc, tree, bindings, exposed)?;
        Ok(Dependencies {
            doc,
            tree,
            bindings,
            exposed,
            lookups,
        })
    }

    /// The document.
    pub fn doc(&self) -> &'a Doc
        ensures exact { result.now ≡ self.now }
        ensures bounded { IsBounded self.now }
        ensures passes { PassesDependencies self.now }
    {
        self.doc
    }

    /// Its component classes.
    pub fn tree(&self) -> &'a CompTree
        ensures exact { result.now.classes ≡ component_classes self.now }
    {
        self.tree
    }

    /// Its module members as bindings.
    pub fn bindings(&self) -> &'a [Bind]
        ensures exact { result.now ≡ lookup.bindings self.now }
    {
        self.bindings
    }

    /// What dependencies expose to each class.
    pub fn exposed(&self) -> &'a [Items<Exposed>]
        ensures exact { result.now ≡ exposed_by_class self.now }
    {
        self.exposed
    }

    /// Its look-ups.
    pub fn lookups(&self) -> &Lookups<'a>
        ensures exact { result.now ≡ self.now }
    {
        &self.lookups
    }

    /// What a node needs, in order: the requests of its parameters, its contributions, its inside
    /// or its one request.
    #[tactic(auto, unfolding(dg_decl::specs::Graph::deps))]
    pub fn of_node(&self, alloc: Global, node: &Node) -> Result<Vec<Dependency<'a>>, NoMemory>
        requires class { node.now.class < class_count self.now }
        ensures exact { IfOk result (λ needed. needed.items ≡ graph.deps self.now node.now) }
    {
        match &node.kind {
            NodeKind::Bound(binding) => of_binding(alloc, self, node.class, *binding),
            NodeKind::Multi(key) => of_contributions(alloc, self, node.class, key),
            NodeKind::Opt(key) => of_inside(alloc, self, node.class, key),
            NodeKind::EntryOf(entry) => of_entry(alloc, self, node.class, *entry),
        }
    }
}
