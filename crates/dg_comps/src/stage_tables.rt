//! What the rules of the stage look up, in tables that are made once.

ghost use Rattle.std.specs.Prelude.{IfOk};
ghost use Rattle.dg_decl.specs.Bounds.{IsBounded};
ghost use Rattle.dg_comps.specs.Known.{KnowsAll};

use crate::class_table::ClassTable;
use crate::entries::repeated_entries;
use crate::parents::{ancestor_sets, cyclic_of};
use crate::scopes::carriers;
use dg_names::Names;
use dg_types::NoMemory;
use std::alloc::Global;

/// What the rules of the stage look up.
#[derive(Drop)]
pub(crate) struct StageTables {
    /// For each class the set of its ancestors.
    pub(crate) above: Vec<u128>,
    /// The classes that are their own ancestors.
    pub(crate) cyclic: u128,
    /// For each scope the classes that carry it.
    pub(crate) carriers: ClassTable,
    /// For each statement whether it is an entry with the name of an earlier one of its class.
    pub(crate) repeated: Vec<bool>,
}

/// The tables of a document.
pub(crate) fn stage_tables_of(alloc: Global, names: &Names<'_>) -> Result<StageTables, NoMemory>
    requires bounded { IsBounded names.now }
    ensures exact { IfOk result (λ tables. KnowsAll names.now tables) }
{
    let above = ancestor_sets(alloc, names)?;
    let cyclic = cyclic_of(names, &above);
    let carriers = carriers(alloc, names)?;
    let repeated = repeated_entries(alloc, names)?;
    Ok(StageTables {
        above,
        cyclic,
        carriers,
        repeated,
    })
}
