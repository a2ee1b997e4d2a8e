ghost use Rattle.std.specs.Prelude.{◌≡◌, [], IfOk, filter_map};
ghost use Rattle.dg_binds.specs.Keys as keys;
ghost use Rattle.dg_decl.specs.Bounds.{IsBounded};
ghost use Rattle.dg_decl.specs.Lookup as lookup;
ghost use Rattle.dg_decl.specs.Stages.Names.{names_stage};
ghost use Rattle.dg_decl.specs.Stages.Types.{types_stage};

use crate::keys::key_of_use;
use dg_decl::{Bind, BindKind, Doc, Item, Mark};
use dg_names::{Names, Statement};
use dg_types::{Core, Inner, Key, MapKeyVal, MapKind, NoMemory, TypeUse};
use std::alloc::Global;

/// What a member with this mark does with the key of its result.
fn kind_of_mark(alloc: Global, mark: &Option<Mark>) -> Result<BindKind, NoMemory>
    ensures exact { IfOk result (λ kind. kind ≡ lookup.kind_of_mark mark.now) }
{
    match mark {
        None => Ok(BindKind::Explicit),
        Some(Mark::IntoSet) => Ok(BindKind::IntoSet),
        Some(Mark::ElementsIntoSet) => Ok(BindKind::Elements),
        Some(Mark::IntoMap(key)) => Ok(BindKind::IntoMap(key.copy(alloc)?)),
    }
}

fn kind_of_map_key(key: &MapKeyVal) -> MapKind
    ensures exact { result ≡ lookup.kind_of_map_key key.now }
{
    match key {
        MapKeyVal::Text(_) => MapKind::Text,
        MapKeyVal::Int(_) => MapKind::Int,
    }
}

/// The type that a member of this result binds or adds to, by its mark.
fn marked_core(mark: &Option<Mark>, core: Core) -> Option<Core>
    ensures exact { result ≡ lookup.marked_core mark.now core }
{
    match (mark, core) {
        (None | Some(Mark::ElementsIntoSet), core) => Some(core),
        (Some(Mark::IntoSet), Core::One(base)) => Some(Core::Set(base, Inner::Plain)),
        (Some(Mark::IntoMap(key)), Core::One(base)) => {
            Some(Core::Map(kind_of_map_key(key), base, Inner::Plain))
        }
        _ => None,
    }
}

/// The key that a member of this mark and result binds, adds to or declares.
fn marked_key(alloc: Global, mark: &Option<Mark>, given: &TypeUse) -> Result<Option<Key>, NoMemory>
    ensures exact { IfOk result (λ key. key ≡ keys.marked_key mark.now given.now) }
{
    let Some(key) = key_of_use(alloc, given)? else {
        return Ok(None);
    };
    let Key { qualifier, core } = key;
    match marked_core(mark, core) {
        None => Ok(None),
        Some(core) => Ok(Some(Key { qualifier, core })),
    }
}

/// The binding of a member of a module, of this index.
fn bind(
    alloc: Global,
    place: (u32, u32),
    mark: &Option<Mark>,
    kind: BindKind,
    given: &TypeUse,
) -> Result<Option<Bind>, NoMemory>
    ensures exact { IfOk result (λ bind. bind ≡ keys.bind place.0 place.1 kind
        (keys.marked_key mark.now given.now)) }
{
    let (item, module) = place;
    match marked_key(alloc, mark, given)? {
        None => Ok(None),
        Some(key) => Ok(Some(Bind {
            item,
            module,
            key,
            kind,
        })),
    }
}

/// The same, where the mark says what the member does.
fn bind_marked(
    alloc: Global,
    place: (u32, u32),
    mark: &Option<Mark>,
    given: &TypeUse,
) -> Result<Option<Bind>, NoMemory>
    ensures exact { IfOk result (λ bind. bind ≡ keys.bind place.0 place.1
        (lookup.kind_of_mark mark.now) (keys.marked_key mark.now given.now)) }
{
    let kind = kind_of_mark(alloc, mark)?;
    bind(alloc, place, mark, kind, given)
}

/// A statement of a module as a binding, if it is one.
fn binding_in(alloc: Global, statement: &Statement, owner: u32) -> Result<Option<Bind>, NoMemory>
    ensures exact { IfOk result (λ bind. bind ≡ lookup.binding_in statement.now owner) }
{
    let place = (statement.index, owner);
    match statement.item {
        Item::Provides { mark, result, .. } => bind_marked(alloc, place, mark, result),
        Item::Binds { mark, result, .. } => bind_marked(alloc, place, mark, result),
        Item::Produces { mark, result, .. } => bind_marked(alloc, place, mark, result),
        Item::OptionalOf { result, .. } => {
            bind(alloc, place, &None, BindKind::OptionalOf, result)
        }
        Item::Multibinds { result, .. } => bind(alloc, place, &None, BindKind::Declares, result),
        _ => Ok(None),
    }
}

fn binding_of(alloc: Global, statement: &Statement) -> Result<Option<Bind>, NoMemory>
    ensures exact { IfOk result (λ bind. bind ≡ lookup.binding_of statement.now) }
{
    match statement.block {
        None => Ok(None),
        Some(owner) => binding_in(alloc, statement, owner),
    }
}

pub fn bindings_of(alloc: Global, statements: &[Statement]) -> Result<Vec<Bind>, NoMemory>
    ensures exact { IfOk result (λ found.
        found.items ≡ filter_map lookup.binding_of statements.now) }
{
    let mut found = Vec::new(alloc);
    for statement in statements {
        if let Some(bind) = binding_of(alloc, statement)? {
            found.push(bind)?;
        }
    }
    Ok(found)
}

/// The bindings of a document: one for each module member, in order.
#[tactic(auto, unfolding(dg_decl::specs::Lookup::bindings))]
pub fn bindings(alloc: Global, d: &Doc) -> Result<Vec<Bind>, NoMemory>
    requires bounded { IsBounded d.now }
    requires names { names_stage d.now ≡ [] }
    requires types { types_stage d.now ≡ [] }
    ensures exact { IfOk result (λ bindings. bindings.items ≡ lookup.bindings d.now) }
{
    bindings_of(alloc, Names::of(alloc, d)?.statements())
}
