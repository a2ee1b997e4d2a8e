//! What stands in the tables of the classes of a chain.

ghost use Rattle.std.specs.Prelude.{◌≡◌, IfOk, reverse};
ghost use Rattle.std.specs.List.{list_any};
ghost use Rattle.dg_lex.specs.Bytes.{is_among};
ghost use Rattle.dg_resolve.specs.Keys as keys;
ghost use Rattle.dg_resolve.specs.Known as known;

use crate::classes::ClassTables;
use crate::keys::opening_key;
use dg_decl::{BindRef, Class, Found, Owned};
use dg_types::{Key, Name, NoMemory};
use sqlite_items::Items;
use std::alloc::Global;

/// What stands under a key, in the order of the classes.
pub fn in_chain(
    alloc: Global,
    tables: &ClassTables,
    chain: &[u32],
    key: &Key,
) -> Result<Vec<Owned>, NoMemory>
    ensures exact { IfOk result (λ found.
        found.items ≡ known.in_chain tables.now key.now chain.now) }
{
    let mut found = Vec::new(alloc);
    for class in chain {
        found.extend_from_slice(tables.of_class(*class, key))?;
    }
    Ok(found)
}

/// Whether something stands under a key in the table of a class.
fn has(tables: &ClassTables, key: &Key, class: u32) -> bool
    ensures exact { result ≡ known.has tables.now key.now class }
{
    match tables.of_class(class, key) {
        [] => false,
        _ => true,
    }
}

/// Whether something stands under a key in one of the classes.
pub fn is_in_chain(tables: &ClassTables, chain: &[u32], key: &Key) -> bool
    ensures exact { result ≡ list_any (known.has tables.now key.now) chain.now }
{
    chain.iter().any(|class| has(tables, key, *class))
}

/// The item of a binding that is a module member.
fn member_of(binding: BindRef) -> Option<u32>
    ensures exact { result ≡ known.member_of binding }
{
    match binding {
        BindRef::Member(item) => Some(item),
        _ => None,
    }
}

/// The item of the first binding under a key.
pub fn first_item(tables: &ClassTables, chain: &[u32], key: &Key) -> Option<u32>
    ensures exact { result ≡ known.first_item tables.now key.now chain.now }
{
    for class in chain {
        if let Some(first) = tables.of_class(*class, key).first() {
            return member_of(first.binding);
        }
    }
    None
}

/// The same under the opening key of this one. It takes no memory, and goes over all keys of the
/// classes.
fn first_opening(tables: &ClassTables, chain: &[u32], key: &Key) -> Option<u32>
    ensures exact { result ≡ known.first_item tables.now (keys.opening_key key.now) chain.now }
{
    for class in chain {
        if let Some(first) = tables.of_opening(*class, key).first() {
            return member_of(first.binding);
        }
    }
    None
}

/// The item of the first binding under the opening key of this one. Where there is no memory for
/// that key, it goes over all keys of the classes.
pub fn first_under(alloc: Global, tables: &ClassTables, chain: &[u32], key: &Key) -> Option<u32>
    ensures exact { result ≡ known.first_item tables.now (keys.opening_key key.now) chain.now }
{
    match opening_key(alloc, key) {
        Ok(opening) => first_item(tables, chain, &opening),
        Err(NoMemory) => first_opening(tables, chain, key),
    }
}

fn is_name_among(name: &[u8], names: &[Name]) -> bool
    ensures exact { result ≡ is_among name.now names.now }
{
    names.iter().any(|n| n.is(name))
}

fn carries(classes: &[Class], class: u32, scope: &[u8]) -> bool
    ensures exact { result ≡ is_among scope.now (known.scopes_at classes.now class) }
{
    match classes.get(class as usize) {
        Some(row) => is_name_among(scope, row.scopes.as_slice()),
        None => false,
    }
}

/// The nearest class, from the last on, that carries a scope.
pub fn carrier(classes: &[Class], chain: &[u32], scope: &[u8]) -> Option<u32>
    ensures exact { result ≡ known.carrier classes.now scope.now chain.now }
{
    chain
        .iter()
        .rev()
        .copied()
        .find(|class| carries(classes, *class, scope))
}

/// What explicit bindings come to, where there are any.
pub fn found_in(explicit: Vec<Owned>) -> Option<Found>
    ensures exact { result ≡ known.found_in explicit.items }
{
    match explicit.as_slice() {
        [] => None,
        [only] => Some(Found::One {
            owner: only.owner,
            binding: only.binding,
        }),
        _ => Some(Found::Many(Items::from_vec(explicit))),
    }
}

/// The contributions to a set or map, where it has any or is declared.
pub fn opened(is_there: bool, owned: Vec<Owned>) -> Option<Items<Owned>>
    ensures exact { result ≡ known.opened is_there owned.items }
{
    if is_there || !owned.is_empty() {
        Some(Items::from_vec(owned))
    } else {
        None
    }
}
