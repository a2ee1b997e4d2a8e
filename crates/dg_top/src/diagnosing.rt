//! The diagnostics of a document: the whole list of the first stage that finds anything. There is
//! one function for each stage; it goes on to those behind it where its own finds nothing.

ghost use Rattle.std.specs.Prelude.{◌≡◌, ◌≢◌, ◌∷◌, [], true, false, IfOk};
ghost use Rattle.dg_decl.specs.Bounds.{IsBounded};
ghost use Rattle.dg_decl.specs.Components.{component_classes};
ghost use Rattle.dg_decl.specs.Diagnostics.{PassesDependencies, first_found};
ghost use Rattle.dg_decl.specs.Diagnostics as spec;
ghost use Rattle.dg_decl.specs.Stages.Names.{names_stage};
ghost use Rattle.dg_decl.specs.Stages.Types.{types_stage};
ghost use Rattle.dg_decl.specs.Stages.Components.{components_stage};
ghost use Rattle.dg_decl.specs.Stages.Bindings.{bindings_stage};
ghost use Rattle.dg_decl.specs.Stages.Sizes.{sizes_stage};
ghost use Rattle.dg_decl.specs.Stages.Session.{session_stage};

use dg_binds::bindings;
use dg_compdep::{LinkFault, depends, exposed, links};
use dg_comps::{TreeFault, tree};
use dg_decl::{CompTree, Doc, Violation};
use dg_deps::Dependencies;
use dg_graph::graph_of;
use dg_rules::{sizes, violations_of};
use dg_session::{SessionFault, session};
use dg_types::NoMemory;
use dg_typing::{names, types};
use std::alloc::Global;

/// Whether a stage finds something.
pub fn is_found(broken: &[Violation]) -> bool
    ensures found { result ≡ true → broken.now ≢ [] }
    ensures nothing { result ≡ false → broken.now ≡ [] }
{
    !broken.is_empty()
}

/// What a document breaks, in the first stage that finds anything.
pub fn diagnostics(alloc: Global, d: &Doc) -> Result<Vec<Violation>, NoMemory>
    requires bounded { IsBounded d.now }
    ensures exact { IfOk result (λ broken. broken.items ≡ spec.diagnostics d.now) }
{
    let broken = names(alloc, d)?;
    if is_found(broken.as_slice()) {
        return Ok(broken);
    }
    from_types(alloc, d)
}

fn from_types(alloc: Global, d: &Doc) -> Result<Vec<Violation>, NoMemory>
    requires bounded { IsBounded d.now }
    requires names { names_stage d.now ≡ [] }
    ensures exact { IfOk result (λ broken. broken.items ≡ spec.diagnostics d.now) }
{
    let broken = types(alloc, d)?;
    if is_found(broken.as_slice()) {
        return Ok(broken);
    }
    from_components(alloc, d)
}

fn from_components(alloc: Global, d: &Doc) -> Result<Vec<Violation>, NoMemory>
    requires bounded { IsBounded d.now }
    requires names { names_stage d.now ≡ [] }
    requires types { types_stage d.now ≡ [] }
    ensures exact { IfOk result (λ broken. broken.items ≡ spec.diagnostics d.now) }
{
    match tree(alloc, d) {
        Ok(t) => from_dependencies(alloc, d, &t),
        Err(TreeFault::Broken(broken)) => Ok(broken),
        Err(TreeFault::NoMemory) => Err(NoMemory),
    }
}

fn from_dependencies(alloc: Global, d: &Doc, t: &CompTree) -> Result<Vec<Violation>, NoMemory>
    requires bounded { IsBounded d.now }
    requires names { names_stage d.now ≡ [] }
    requires types { types_stage d.now ≡ [] }
    requires components { components_stage d.now ≡ [] }
    requires classes { t.now.classes ≡ component_classes d.now }
    ensures exact { IfOk result (λ broken. broken.items ≡ spec.diagnostics d.now) }
{
    let broken = depends(alloc, d, t)?;
    if is_found(broken.as_slice()) {
        return Ok(broken);
    }
    from_bindings(alloc, d, t)
}

fn from_bindings(alloc: Global, d: &Doc, t: &CompTree) -> Result<Vec<Violation>, NoMemory>
    requires bounded { IsBounded d.now }
    requires passes { PassesDependencies d.now }
    requires classes { t.now.classes ≡ component_classes d.now }
    ensures exact { IfOk result (λ broken. broken.items ≡ spec.diagnostics d.now) }
{
    let broken = in_graph(alloc, d, t)?;
    if is_found(broken.as_slice()) {
        return Ok(broken);
    }
    from_session(alloc, d, t)
}

/// The stages of bindings and of sizes. The graph is let go behind them.
fn in_graph(alloc: Global, d: &Doc, t: &CompTree) -> Result<Vec<Violation>, NoMemory>
    requires bounded { IsBounded d.now }
    requires passes { PassesDependencies d.now }
    requires classes { t.now.classes ≡ component_classes d.now }
    ensures exact { IfOk result (λ broken.
        broken.items ≡ first_found (bindings_stage d.now ∷ sizes_stage d.now ∷ [])) }
{
    let binds = bindings(alloc, d)?;
    let exposed = exposed(alloc, d, t)?;
    let dependencies = Dependencies::of(alloc, d, t, binds.as_slice(), exposed.as_slice())?;
    let graph = graph_of(alloc, &dependencies)?;
    let broken = violations_of(alloc, &dependencies, &graph)?;
    if is_found(broken.as_slice()) {
        return Ok(broken);
    }
    sizes(alloc, d, t, &graph)
}

fn from_session(alloc: Global, d: &Doc, t: &CompTree) -> Result<Vec<Violation>, NoMemory>
    requires bounded { IsBounded d.now }
    requires passes { PassesDependencies d.now }
    requires bindings { bindings_stage d.now ≡ [] }
    requires sizes { sizes_stage d.now ≡ [] }
    requires classes { t.now.classes ≡ component_classes d.now }
    ensures exact { IfOk result (λ broken. broken.items ≡ spec.diagnostics d.now) }
{
    match session(alloc, d, t) {
        Ok(_) => from_links(alloc, d, t),
        Err(SessionFault::Broken(broken)) => Ok(broken),
        Err(SessionFault::NoMemory) => Err(NoMemory),
    }
}

fn from_links(alloc: Global, d: &Doc, t: &CompTree) -> Result<Vec<Violation>, NoMemory>
    requires bounded { IsBounded d.now }
    requires passes { PassesDependencies d.now }
    requires bindings { bindings_stage d.now ≡ [] }
    requires sizes { sizes_stage d.now ≡ [] }
    requires session { session_stage d.now ≡ [] }
    requires classes { t.now.classes ≡ component_classes d.now }
    ensures exact { IfOk result (λ broken. broken.items ≡ spec.diagnostics d.now) }
{
    match links(alloc, d, t) {
        Ok(_) => Ok(Vec::new(alloc)),
        Err(LinkFault::Broken(broken)) => Ok(broken),
        Err(LinkFault::NoMemory) => Err(NoMemory),
    }
}
