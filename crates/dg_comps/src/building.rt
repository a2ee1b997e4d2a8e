ghost use Rattle.std.specs.Prelude.{◌≡◌, [], IfOk, IfErr, OnOk};
ghost use Rattle.dg_decl.specs.Bounds.{IsBounded};
ghost use Rattle.dg_decl.specs.Components.{component_classes};
ghost use Rattle.dg_decl.specs.Stages.Names.{names_stage};
ghost use Rattle.dg_decl.specs.Stages.Types.{types_stage};
ghost use Rattle.dg_decl.specs.Stages.Components.{components_stage};
ghost use Rattle.dg_comps.specs.Faults.{IsFaultOf};

use crate::classes::component_classes;
use crate::fault::TreeFault;
use crate::stage::components_stage;
use crate::stage_tables::stage_tables_of;
use dg_decl::{CompTree, Doc};
use dg_names::Names;
use std::alloc::Global;

/// The component classes of a document by number: Hilt's eight, and then those that the document
/// declares, in order.
pub fn tree(alloc: Global, d: &Doc) -> Result<CompTree, TreeFault>
    requires bounded { IsBounded d.now }
    requires names { names_stage d.now ≡ [] }
    requires types { types_stage d.now ≡ [] }
    ensures exact { IfOk result (λ t. t.classes ≡ component_classes d.now) }
    // Broken comes exactly where the stage of components finds something, and is that stage.
    ensures accepted { OnOk result (components_stage d.now ≡ []) }
    ensures cause { IfErr result (IsFaultOf d.now) }
{
    let names = Names::of(alloc, d)?;
    tree_of(alloc, &names)
}

/// The component classes of a document, by the names that it declares.
pub(crate) fn tree_of(alloc: Global, names: &Names<'_>) -> Result<CompTree, TreeFault>
    requires bounded { IsBounded names.now }
    ensures exact { IfOk result (λ t. t.classes ≡ component_classes names.now) }
    ensures accepted { OnOk result (components_stage names.now ≡ []) }
    ensures cause { IfErr result (IsFaultOf names.now) }
{
    let tables = stage_tables_of(alloc, names)?;
    let broken = components_stage(alloc, names, &tables)?;
    if broken.is_empty() {
        let classes = component_classes(alloc, names, &tables.above)?;
        Ok(CompTree { classes })
    } else {
        Err(TreeFault::Broken(broken))
    }
}
