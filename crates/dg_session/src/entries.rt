//! The entries of classes by name.

ghost use Rattle.std.specs.Prelude.{◌≡◌, option_and_then, option_map, option_copied};
ghost use Rattle.std.specs.List.{find};
ghost use Rattle.dg_decl.specs.Components.{entries_of};
ghost use Rattle.dg_decl.specs.Names as declared;
ghost use Rattle.dg_decl.specs.Stages.Session as stage;
ghost use Rattle.dg_slots.specs.Sessions as sessions;

use crate::scene::Scene;
use dg_compdep::class_of_instance;
use dg_decl::Item;
use dg_names::{Names, Statement};
use dg_types::Shape;
use sqlite_items::at;

/// The item of an index.
fn item_at<'a>(names: &Names<'a>, index: u32) -> Option<&'a Item>
    ensures exact { option_copied result ≡ declared.item_at names.now index }
{
    names.doc().items.as_slice().get(index as usize)
}

/// The index of the entry of this name of a class.
#[tactic(auto, using(crate::proofs::EntryTableLemmas::found_at, crate::proofs::EntryTableLemmas::found_nowhere))]
fn entry_called(scene: &Scene<'_>, class: u32, name: &[u8]) -> Option<u32>
    ensures exact { result
        ≡ find (sessions.is_entry_called scene.now name.now) (entries_of scene.now class) }
{
    match scene.entry_place(class, name) {
        Some(place) => at(scene.entries(class), place).copied(),
        None => None,
    }
}

/// The entry of this name of a class.
fn entry_named<'a>(scene: &Scene<'a>, class: u32, name: &[u8]) -> Option<&'a Item>
    ensures exact { option_copied result ≡ stage.entry_named scene.now class name.now }
{
    match entry_called(scene, class, name) {
        Some(entry) => item_at(scene.names(), entry),
        None => None,
    }
}

/// The entry that an `ask` line asks for.
pub(crate) fn asked_entry<'a>(
    scene: &Scene<'a>,
    s: &Statement<'_>,
    inst: &[u8],
    entry: &[u8],
) -> Option<&'a Item>
    ensures exact { option_copied result
        ≡ stage.asked_entry scene.now s.now inst.now entry.now }
{
    match class_of_instance(scene.names(), s, inst) {
        Some(class) => entry_named(scene, class, entry),
        None => None,
    }
}

/// The type of what an entry asks for.
pub(crate) fn type_of_entry(entry: &Item) -> Option<&Shape>
    ensures exact { option_map (λ t. t.now) result
        ≡ option_map (λ u. u.shape) (declared.result_of entry.now) }
{
    match entry.result() {
        Some(asked) => Some(&asked.shape),
        None => None,
    }
}
