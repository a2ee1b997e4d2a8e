ghost use Rattle.std.specs.Prelude.{◌≡◌, [], IfOk, IfErr, OnOk};
ghost use Rattle.dg_decl.specs.Bounds.{IsBounded};
ghost use Rattle.dg_decl.specs.Components.{component_classes};
ghost use Rattle.dg_decl.specs.Diagnostics.{PassesDependencies};
ghost use Rattle.dg_decl.specs.Stages.Session.{session_stage};
ghost use Rattle.dg_session.specs.Faults.{IsFaultOf};
ghost use Rattle.dg_slots.specs.Sessions.{session_of};

use crate::asks::asks_of;
use crate::fault::SessionFault;
use crate::insts::insts_of;
use crate::numbered::Numbers;
use crate::rules::broken_lines;
use crate::scene::Scene;
use dg_compdep::Instances;
use dg_decl::{CompTree, Doc};
use dg_slots::Session;
use dg_types::NoMemory;
use std::alloc::Global;

/// The instances that a document opens and the asks, where it breaks no rule on them.
#[tactic(auto, unfolding(dg_slots::specs::Sessions::session_of))]
fn numbered_session(alloc: Global, scene: &Scene<'_>) -> Result<Session, NoMemory>
    ensures exact { IfOk result (λ s. s ≡ session_of scene.now) }
{
    let instances = Instances::of(alloc, scene.names())?;
    let numbers = Numbers::of(alloc, scene.names())?;
    let insts = insts_of(alloc, scene, &instances, &numbers)?;
    let asks = asks_of(alloc, scene, &instances, &numbers)?;
    Ok(Session { insts, asks })
}

/// The instances that a document opens and what it asks of them, by number.
pub fn session(alloc: Global, d: &Doc, t: &CompTree) -> Result<Session, SessionFault>
    requires bounded { IsBounded d.now }
    requires passes { PassesDependencies d.now }
    requires classes { t.now.classes ≡ component_classes d.now }
    ensures exact { IfOk result (λ s. s ≡ session_of d.now) }
    // Broken comes exactly where the stage of the session finds something, and is that stage.
    ensures accepted { OnOk result (session_stage d.now ≡ []) }
    ensures cause { IfErr result (IsFaultOf d.now) }
{
    let scene = Scene::of(alloc, d, t)?;
    let broken = broken_lines(alloc, &scene)?;
    if broken.is_empty() {
        Ok(numbered_session(alloc, &scene)?)
    } else {
        Err(SessionFault::Broken(broken))
    }
}
