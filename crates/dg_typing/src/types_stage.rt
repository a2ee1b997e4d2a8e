//! The stage of types.

mod fields;
mod given;
mod places;
mod rules;
mod shapes;
mod trees;
mod type_names;
mod typing;

ghost use Rattle.std.specs.Prelude.{◌≡◌, IfOk};
ghost use Rattle.dg_decl.specs.Bounds.{IsBounded};
ghost use Rattle.dg_decl.specs.Stages.Types.{types_stage};

pub use self::fields::{Fields, fields_of, type_of_field, type_of_param};
pub use self::given::{Given, class_of};
use self::rules::types_at;
pub use self::shapes::got;
pub use self::type_names::TypeNames;
pub use self::typing::{checks, inside_param, type_by_name};
use dg_decl::{Doc, Violation};
use dg_types::NoMemory;
use std::alloc::Global;

#[tactic(auto, unfolding(dg_decl::specs::Stages::Types::types_stage))]
fn broken_in(alloc: Global, names: &TypeNames<'_>) -> Result<Vec<Violation>, NoMemory>
    ensures exact { IfOk result (λ broken. broken.items ≡ types_stage names.now) }
{
    let mut broken = Vec::new(alloc);
    for s in names.names().statements() {
        types_at(alloc, names, s, &mut broken)?;
    }
    Ok(broken)
}

/// What a document breaks in the stage of types, in the order of lines and then of rules.
pub fn types(alloc: Global, d: &Doc) -> Result<Vec<Violation>, NoMemory>
    requires bounded { IsBounded d.now }
    ensures exact { IfOk result (λ broken. broken.items ≡ types_stage d.now) }
{
    let names = TypeNames::of(alloc, d)?;
    broken_in(alloc, &names)
}
