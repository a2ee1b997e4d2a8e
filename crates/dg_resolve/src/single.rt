ghost use Rattle.std.specs.Prelude.{◌≡◌, ◌<◌, IfOk};
ghost use Rattle.dg_decl.specs.Bounds.{IsBounded};
ghost use Rattle.dg_decl.specs.Components.{class_count, component_classes, exposed_by_class};
ghost use Rattle.dg_decl.specs.Diagnostics.{PassesDependencies};
ghost use Rattle.dg_decl.specs.Lookup as lookup;

use crate::lookups::Lookups;
use dg_decl::{Bind, CompTree, Doc, Exposed, Found};
use dg_types::{Key, NoMemory};
use sqlite_items::Items;
use std::alloc::Global;

/// What a component class finds for a key: one look-up in tables that are made for it. Whoever asks
/// more than once keeps a `Lookups`.
pub fn find(
    alloc: Global,
    d: &Doc,
    t: &CompTree,
    b: &[Bind],
    class: u32,
    key: &Key,
    x: &[Items<Exposed>],
) -> Result<Found, NoMemory>
    requires bounded { IsBounded d.now }
    requires passes { PassesDependencies d.now }
    requires classes { t.now.classes ≡ component_classes d.now }
    requires bindings { b.now ≡ lookup.bindings d.now }
    requires exposed { x.now ≡ exposed_by_class d.now }
    requires within { class < class_count d.now }
    ensures exact { IfOk result (λ found. found ≡ lookup.find d.now class key.now) }
{
    Lookups::of(alloc, d, t, b, x)?.find(alloc, class, key)
}
