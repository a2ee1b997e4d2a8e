//! What the run of an accepted document is made from.

ghost use Rattle.std.specs.Prelude.{◌≡◌, [], IfOk};
ghost use Rattle.dg_decl.specs.Bounds.{IsBounded};
ghost use Rattle.dg_decl.specs.Components.{component_classes};
ghost use Rattle.dg_decl.specs.Diagnostics.{IsAccepted, PassesDependencies};
ghost use Rattle.dg_decl.specs.Stages.Links.{links_stage};
ghost use Rattle.dg_decl.specs.Stages.Session.{session_stage};
ghost use Rattle.dg_slots.specs.Links.{links_of};
ghost use Rattle.dg_slots.specs.Plans.{plan_of};
ghost use Rattle.dg_slots.specs.Sessions.{session_of};
ghost use Rattle.dg_top.specs.Prepared.{IsPrepared};

use dg_binds::bindings;
use dg_compdep::{LinkFault, exposed, links};
use dg_comps::{TreeFault, tree};
use dg_decl::{CompTree, Doc};
use dg_deps::Dependencies;
use dg_graph::graph_of;
use dg_plan::plan;
use dg_session::{SessionFault, session};
use dg_slots::{Plan, Session};
use dg_types::NoMemory;
use sqlite_items::Items;
use std::alloc::Global;

/// The plan, the session and the links of a document.
#[derive(Drop)]
pub struct Prepared {
    pub plan: Plan,
    pub session: Session,
    /// For each instance, the numbers of those to which `link` lines tie it.
    pub links: Vec<Items<u32>>,
}

/// The component classes of a document.
fn classes_of(alloc: Global, d: &Doc) -> Result<CompTree, NoMemory>
    requires bounded { IsBounded d.now }
    requires passes { PassesDependencies d.now }
    ensures exact { IfOk result (λ t. t.classes ≡ component_classes d.now) }
{
    match tree(alloc, d) {
        Ok(t) => Ok(t),
        Err(TreeFault::Broken(_)) => unreachable!(),
        Err(TreeFault::NoMemory) => Err(NoMemory),
    }
}

fn plan_in_graph(alloc: Global, dependencies: &Dependencies<'_>) -> Result<Plan, NoMemory>
    ensures exact { IfOk result (λ p. p ≡ plan_of dependencies.now) }
{
    let graph = graph_of(alloc, dependencies)?;
    let plan = plan(alloc, dependencies, &graph)?;
    Ok(plan)
}

/// The plan of a document with these component classes.
fn plan_in(alloc: Global, d: &Doc, t: &CompTree) -> Result<Plan, NoMemory>
    requires bounded { IsBounded d.now }
    requires passes { PassesDependencies d.now }
    requires classes { t.now.classes ≡ component_classes d.now }
    ensures exact { IfOk result (λ p. p ≡ plan_of d.now) }
{
    let binds = bindings(alloc, d)?;
    let exposed = exposed(alloc, d, t)?;
    let dependencies = Dependencies::of(alloc, d, t, binds.as_slice(), exposed.as_slice())?;
    let plan = plan_in_graph(alloc, &dependencies)?;
    Ok(plan)
}

/// The session of a document with these component classes.
fn session_in(alloc: Global, d: &Doc, t: &CompTree) -> Result<Session, NoMemory>
    requires bounded { IsBounded d.now }
    requires passes { PassesDependencies d.now }
    requires classes { t.now.classes ≡ component_classes d.now }
    requires session { session_stage d.now ≡ [] }
    ensures exact { IfOk result (λ s. s ≡ session_of d.now) }
{
    match session(alloc, d, t) {
        Ok(s) => Ok(s),
        Err(SessionFault::Broken(_)) => unreachable!(),
        Err(SessionFault::NoMemory) => Err(NoMemory),
    }
}

/// The links of a document with these component classes.
fn links_in(alloc: Global, d: &Doc, t: &CompTree) -> Result<Vec<Items<u32>>, NoMemory>
    requires bounded { IsBounded d.now }
    requires passes { PassesDependencies d.now }
    requires classes { t.now.classes ≡ component_classes d.now }
    requires session { session_stage d.now ≡ [] }
    requires links { links_stage d.now ≡ [] }
    ensures exact { IfOk result (λ lists. lists.items ≡ links_of d.now) }
{
    match links(alloc, d, t) {
        Ok(lists) => Ok(lists),
        Err(LinkFault::Broken(_)) => unreachable!(),
        Err(LinkFault::NoMemory) => Err(NoMemory),
    }
}

/// The plan, the session and the links of an accepted document.
pub fn prepare(alloc: Global, d: &Doc) -> Result<Prepared, NoMemory>
    requires bounded { IsBounded d.now }
    requires accepted { IsAccepted d.now }
    ensures exact { IfOk result (IsPrepared d.now) }
{
    let t = classes_of(alloc, d)?;
    let plan = plan_in(alloc, d, &t)?;
    let session = session_in(alloc, d, &t)?;
    let links = links_in(alloc, d, &t)?;
    Ok(Prepared {
        plan,
        session,
        links,
    })
}
