//! The stage of names.

mod expressions;
mod lines;
mod members;
mod mentions;
mod repeated;
mod wanted;

ghost use Rattle.std.specs.Prelude.{◌≡◌, ◌++◌, IfOk, OnOk};
ghost use Rattle.dg_decl.specs.Bounds.{IsBounded};
ghost use Rattle.dg_decl.specs.Stages.Names as spec;
ghost use Rattle.dg_decl.specs.Stages.Names.{names_stage};
ghost use Rattle.dg_typing.specs.NamesMembers.{is_member_again};

use self::lines::unknown_name;
use self::members::MemberNames;
use self::repeated::duplicate_name;
use dg_decl::{Doc, Violation};
use dg_names::{Names, Statement};
use dg_types::NoMemory;
use std::alloc::Global;

/// What a statement breaks, by rule. It is told whether an earlier member of the block has the name
/// of a member.
fn names_at(
    alloc: Global,
    names: &Names<'_>,
    s: &Statement<'_>,
    member_again: bool,
    out: &mut Vec<Violation>,
) -> Result<(), NoMemory>
    requires told { member_again ≡ is_member_again names.now s.now }
    ensures exact { OnOk result (out.new.items ≡ out.old.items
        ++ (spec.duplicate_name names.now s.now ++ spec.unknown_name names.now s.now)) }
{
    duplicate_name(alloc, names, s, member_again, out)?;
    unknown_name(alloc, names, s, out)
}

/// What the statements break, one after another.
#[tactic(auto, unfolding(dg_decl::specs::Stages::Names::names_stage))]
fn broken_in(alloc: Global, names: &Names<'_>) -> Result<Vec<Violation>, NoMemory>
    ensures exact { IfOk result (λ broken. broken.items ≡ names_stage names.now) }
{
    let mut members = MemberNames::new(alloc);
    let mut broken = Vec::new(alloc);
    for s in names.statements() {
        let again = members.note(s)?;
        names_at(alloc, names, s, again, &mut broken)?;
    }
    Ok(broken)
}

/// What a document breaks in the stage of names, in the order of lines and then of rules.
pub fn names(alloc: Global, d: &Doc) -> Result<Vec<Violation>, NoMemory>
    requires bounded { IsBounded d.now }
    ensures exact { IfOk result (λ broken. broken.items ≡ names_stage d.now) }
{
    let names = Names::of(alloc, d)?;
    broken_in(alloc, &names)
}
