//! What each class of a document finds for each key.

ghost use Rattle.std.specs.Prelude.{◌≡◌, ◌<◌, IfOk, Some, option_map};
ghost use Rattle.std.specs.List.{find as find_first};
ghost use Rattle.std.specs.Option.{option_and_then};
ghost use Rattle.dg_decl.specs.Bounds.{IsBounded};
ghost use Rattle.dg_decl.specs.Components.{class_count, component_classes, exposed_by_class, root_first};
ghost use Rattle.dg_decl.specs.Components as components;
ghost use Rattle.dg_decl.specs.Diagnostics.{PassesDependencies};
ghost use Rattle.dg_decl.specs.Graph as graph;
ghost use Rattle.dg_decl.specs.Lookup as lookup;
ghost use Rattle.dg_decl.specs.Names.{item_at};
ghost use Rattle.dg_resolve.specs.Keys as keys;
ghost use Rattle.dg_resolve.specs.Known as known;

use crate::along::{carrier, first_under, found_in, in_chain, is_in_chain, opened};
use crate::chains::chain_at;
use crate::classes::ClassTables;
use crate::keys::{is_optional, opening_key};
use crate::tables::{AllTables, tables};
use dg_decl::{Bind, BindRef, Class, CompTree, Doc, Exposed, Found, Item, Owned};
use dg_names::Names;
use dg_types::{Base, Core, Key, Name, NoMemory};
use sqlite_items::Items;
use std::alloc::Global;
use std::marker::Model;

/// What binds, contributes to and declares each key of a document, in tables that are made once.
/// Contracts see the document. A look-up takes the time of a hash for each class of the chain, as a
/// rule, and of its answer.
#[derive(Drop)]
pub struct Lookups<'a> {
    alloc: Global,
    doc: &'a Doc,
    names: Names<'a>,
    classes: &'a [Class],
    tables: AllTables,
}

impl<'a> Model for Lookups<'a> {
    ghost use Rattle.std.specs.Coded.{codes};
    ghost use Rattle.dg_decl.specs.contracts.expression.Expr as expr;
    ghost use Rattle.dg_decl.specs.contracts.expression.Tree as tree;
    ghost use Rattle.dg_decl.specs.declared.document.Doc.{Doc};
    ghost use Rattle.dg_resolve.specs.Known.{AreLookups};
    ghost use Rattle.dg_types.specs.contracts.shape.Shape as shape;

    ghost Value = { Doc };

    ghost coded = { Prim.hlevel (
      codes,
      shape.the_row.coded,
      expr.the_row.coded,
      tree.the_row.coded,
    ) };

    ghost view = { λ l. l.doc.now };

    ghost invariant = { λ l. AreLookups l.doc.now l.names l.classes.now l.tables };
}

/// The scope with which a class is written, where the item of this index is a class with
/// `@Inject`.
fn injected_scope(doc: &Doc, index: u32) -> Option<&Option<Name>>
    ensures exact { option_map (λ s. s.now) result
        ≡ option_and_then lookup.injected_scope (item_at doc.now index) }
{
    match doc.items.get(index as usize) {
        Some(
            Item::Class {
                inject: true,
                scope,
                ..
            },
        ) => Some(scope),
        _ => None,
    }
}

impl<'a> Lookups<'a> {
    /// The tables of a document, from its component classes, its bindings and what dependencies
    /// expose.
    pub fn of(
        alloc: Global,
        doc: &'a Doc,
        tree: &'a CompTree,
        bindings: &'a [Bind],
        exposed: &'a [Items<Exposed>],
    ) -> Result<Lookups<'a>, NoMemory>
        requires bounded { IsBounded doc.now }
        requires passes { PassesDependencies doc.now }
        requires classes { tree.now.classes ≡ component_classes doc.now }
        requires bindings { bindings.now ≡ lookup.bindings doc.now }
        requires exposed { exposed.now ≡ exposed_by_class doc.now }
        ensures exact { IfOk result (λ lookups. lookups ≡ doc.now) }
    {
        let classes = tree.classes.as_slice();
        let names = Names::of(alloc, doc)?;
        let tables = tables(alloc, &names, classes, bindings, exposed)?;
        Ok(Lookups {
            alloc,
            doc,
            names,
            classes,
            tables,
        })
    }

    /// The chain of a class, the root first.
    fn chain(&self, class: u32) -> &[u32]
        requires { class < class_count self.now }
        ensures exact { result.now ≡ root_first self.now class }
    {
        chain_at(&self.tables.chains, class)
    }

    fn explicit_in_chain(
        &self,
        alloc: Global,
        class: u32,
        key: &Key,
    ) -> Result<Vec<Owned>, NoMemory>
        requires { class < class_count self.now }
        ensures exact { IfOk result (λ found.
            found.items ≡ lookup.explicit_in_chain self.now class key.now) }
    {
        in_chain(alloc, &self.tables.explicit, self.chain(class), key)
    }

    /// A set or map is declared in the chain of a class. The key is that of its values.
    fn is_declared(&self, class: u32, plain: &Key) -> bool
        requires { class < class_count self.now }
        ensures exact { result ≡ lookup.acts_in_chain self.now class lookup.is_declaration plain.now }
    {
        is_in_chain(&self.tables.members.declarations, self.chain(class), plain)
    }

    /// An optional is declared in the chain of a class. The key is that of its inside.
    fn is_optional_declared(&self, class: u32, inside: &Key) -> bool
        requires { class < class_count self.now }
        ensures exact { result ≡ lookup.acts_in_chain self.now class lookup.is_optional inside.now }
    {
        is_in_chain(&self.tables.members.optionals, self.chain(class), inside)
    }

    /// The contributions to the set or map of this key of values.
    fn contributions_to(
        &self,
        alloc: Global,
        class: u32,
        plain: &Key,
    ) -> Result<Vec<Owned>, NoMemory>
        requires { class < class_count self.now }
        ensures exact { IfOk result (λ owned.
            owned.items ≡ known.contributions_to self.now class plain.now) }
    {
        in_chain(
            alloc,
            &self.tables.members.contributions,
            self.chain(class),
            plain,
        )
    }

    /// The contributions to a set or map, where it has any or is declared.
    fn multi(&self, alloc: Global, class: u32, key: &Key) -> Result<Option<Items<Owned>>, NoMemory>
        requires { class < class_count self.now }
        ensures exact { IfOk result (λ owned. owned ≡ known.opened
            (lookup.acts_in_chain self.now class lookup.is_declaration (keys.opening_key key.now))
            (known.contributions_to self.now class (keys.opening_key key.now))) }
    {
        let plain = opening_key(alloc, key)?;
        let owned = self.contributions_to(alloc, class, &plain)?;
        Ok(opened(self.is_declared(class, &plain), owned))
    }

    /// The nearest class of the chain that carries a scope.
    fn carrier_of(&self, class: u32, scope: &Name) -> Option<u32>
        requires { class < class_count self.now }
        ensures exact { result
            ≡ find_first (components.carries self.now scope.now) (components.chain self.now class) }
    {
        carrier(self.classes, self.chain(class), scope.as_slice())
    }

    /// What a class finds for the item of a class of this index.
    fn injected_item(&self, class: u32, item: u32) -> Found
        requires { class < class_count self.now }
        ensures exact { result ≡ lookup.injected_item self.now class (Some item) }
    {
        match injected_scope(self.doc, item) {
            None => Found::Nothing,
            Some(None) => Found::One {
                owner: class,
                binding: BindRef::ClassItem(item),
            },
            Some(Some(scope)) => match self.carrier_of(class, scope) {
                None => Found::BadScope { item },
                Some(owner) => Found::One {
                    owner,
                    binding: BindRef::ClassItem(item),
                },
            },
        }
    }

    /// What a class finds for a key of a base type.
    fn injected(&self, class: u32, key: &Key, base: &Base) -> Found
        requires { class < class_count self.now }
        ensures exact { result ≡ lookup.injected self.now class key.now.qualifier base.now }
    {
        match (&key.qualifier, base) {
            (None, Base::Named(name)) => match self.names.class_item_named(name.as_slice()) {
                None => Found::Nothing,
                Some(item) => self.injected_item(class, item),
            },
            _ => Found::Nothing,
        }
    }

    /// What a class finds for a key that has no explicit binding.
    #[tactic(auto, using(crate::proofs::FoundLemmas::one_found, crate::proofs::FoundLemmas::set_found, crate::proofs::FoundLemmas::map_found, crate::proofs::FoundLemmas::optional_found))]
    fn find_without_explicit(&self, alloc: Global, class: u32, key: &Key) -> Result<Found, NoMemory>
        requires { class < class_count self.now }
        ensures exact { IfOk result (λ found.
            found ≡ lookup.find_without_explicit self.now class key.now) }
    {
        match &key.core {
            Core::One(base) => Ok(self.injected(class, key, base)),
            Core::Set(_, _) => match self.multi(alloc, class, key)? {
                None => Ok(Found::Nothing),
                Some(owned) => Ok(Found::SetOf(owned)),
            },
            Core::Map(_, _, _) => match self.multi(alloc, class, key)? {
                None => Ok(Found::Nothing),
                Some(owned) => Ok(Found::MapOf(owned)),
            },
            Core::Optional(_, _) => {
                let inside = opening_key(alloc, key)?;
                if self.is_optional_declared(class, &inside) {
                    Ok(Found::OptionalOf)
                } else {
                    Ok(Found::Nothing)
                }
            }
        }
    }

    /// What a class finds for a key.
    #[tactic(auto, using(crate::proofs::QueryLemmas::found_is), unfolding(dg_decl::specs::Lookup::find))]
    pub fn find(&self, alloc: Global, class: u32, key: &Key) -> Result<Found, NoMemory>
        requires { class < class_count self.now }
        ensures exact { IfOk result (λ found. found ≡ lookup.find self.now class key.now) }
    {
        match found_in(self.explicit_in_chain(alloc, class, key)?) {
            Some(found) => Ok(found),
            None => self.find_without_explicit(alloc, class, key),
        }
    }

    /// The contributions to a set or map that a class sees, those of the root class first; none for
    /// a key of another form.
    pub fn contributions(
        &self,
        alloc: Global,
        class: u32,
        key: &Key,
    ) -> Result<Vec<Owned>, NoMemory>
        requires { class < class_count self.now }
        ensures exact { IfOk result (λ owned.
            owned.items ≡ lookup.contributions self.now class key.now) }
    {
        if is_optional(key) {
            return self.contributions_to(alloc, class, key);
        }
        let plain = opening_key(alloc, key)?;
        self.contributions_to(alloc, class, &plain)
    }

    /// The table in which the first statement of a key stands.
    fn opening_tables(&self, key: &Key) -> &ClassTables
        ensures exact { known.AreOpenings self.now key.now result.now }
    {
        if is_optional(key) {
            &self.tables.members.optionals
        } else {
            &self.tables.members.openings
        }
    }

    /// The index of the statement on which a set, map or optional stands in a class: its first
    /// contribution or declaration, in the first class of the chain, from the root on, that has one.
    pub fn first_statement(&self, class: u32, key: &Key) -> Option<u32>
        requires { class < class_count self.now }
        ensures exact { result ≡ graph.first_statement self.now class key.now }
    {
        let chain = self.chain(class);
        let tables = self.opening_tables(key);
        first_under(self.alloc, tables, chain, key)
    }
}
