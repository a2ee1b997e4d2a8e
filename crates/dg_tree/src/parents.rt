//! Instances and the instances in which they were opened.

ghost use Rattle.std.specs.Prelude.{◌≡◌, ◌<◌, ℕ, Some, slice_get};
ghost use Rattle.dg_decl.specs.declared.document.Doc.{Doc};
ghost use Rattle.dg_decl.specs.Components.{walk};
ghost use Rattle.dg_eval.specs.World.{chain_of_inst, world_of};
ghost use Rattle.dg_requests.specs.Contexts.{parent_at};

use dg_eval::World;

/// The number of the instance in which an instance was opened.
fn parent_of(parents: &[Option<u32>], inst: u32) -> Option<u32>
    ensures exact { result ≡ parent_at parents.now inst }
{
    match parents.get(inst as usize) {
        Some(parent) => *parent,
        None => None,
    }
}

/// The instance so many parents up from another one.
fn parent_up(parents: &[Option<u32>], inst: u32, level: u32) -> Option<u32>
    ensures exact { (steps : ℕ) → level < steps
        → result ≡ slice_get (walk (parent_at parents.now) steps (Some inst)) level }
{
    let mut at = inst;
    for step in 0..level {
        let _ = step;
        match parent_of(parents, at) {
            Some(parent) => at = parent,
            None => return None,
        }
    }
    Some(at)
}

/// The instance so many parents up from another one. No chain of parents has more instances than
/// there are.
pub(crate) fn up(world: &World, inst: u32, level: u32) -> Option<u32>
    ensures exact { (doc : Doc) → world.now ≡ world_of doc
        → result ≡ slice_get (chain_of_inst doc inst) level }
{
    if level as usize >= world.parent.len() {
        return None;
    }
    parent_up(world.parent.as_slice(), inst, level)
}
