//! The names that parts of lines mention, each judged where it stands: a function for each kind of
//! part, of the name of its definition.

ghost use Rattle.std.specs.Prelude.{◌≡◌, ◌++◌, ◌∷◌, [], OnOk, map, option_to_list};
ghost use Rattle.dg_decl.specs.Stages.Names as spec;
ghost use Rattle.dg_typing.specs.NamesJudged.{judged};
ghost use Rattle.dg_typing.specs.NamesWanted.{wanted_of};

use super::wanted::{Wanted, is_known, is_param};
use crate::violation::push_at_line;
use dg_decl::{Param, Rule, Violation};
use dg_names::{Names, Statement};
use dg_types::{Name, NoMemory, Qualifier, Shape, TypeUse};
use std::alloc::Global;

/// A name.
pub fn mention(
    alloc: Global,
    names: &Names<'_>,
    s: &Statement<'_>,
    wanted: Wanted,
    name: &Name,
    out: &mut Vec<Violation>,
) -> Result<(), NoMemory>
    ensures exact { OnOk result (out.new.items ≡ out.old.items
        ++ judged names.now s.now (spec.mention (wanted_of wanted) name.now ∷ [])) }
{
    if is_known(names, wanted, name.as_slice()) {
        return Ok(());
    }
    push_at_line(alloc, Rule::UnknownName, s, name, out)
}

/// The name of a parameter of the line.
pub fn param_mention(
    alloc: Global,
    _names: &Names<'_>,
    s: &Statement<'_>,
    name: &Name,
    out: &mut Vec<Violation>,
) -> Result<(), NoMemory>
    ensures exact { OnOk result (out.new.items ≡ out.old.items
        ++ judged _names.now s.now (spec.mention spec.Wanted.parameter name.now ∷ [])) }
{
    if is_param(s.item.params(), name.as_slice()) {
        return Ok(());
    }
    push_at_line(alloc, Rule::UnknownName, s, name, out)
}

/// A name, where there is one.
#[tactic(auto, using(crate::proofs::NamesJudged::two_more, crate::proofs::NamesJudged::adds_none))]
pub fn of_some(
    alloc: Global,
    names: &Names<'_>,
    s: &Statement<'_>,
    wanted: Wanted,
    name: &Option<Name>,
    out: &mut Vec<Violation>,
) -> Result<(), NoMemory>
    ensures exact { OnOk result (out.new.items ≡ out.old.items
        ++ judged names.now s.now (spec.of_some (wanted_of wanted) name.now)) }
{
    match name {
        Some(name) => mention(alloc, names, s, wanted, name, out),
        None => Ok(()),
    }
}

/// Some names.
#[tactic(auto, using(crate::proofs::NamesJudged::two_more, crate::proofs::NamesJudged::adds_none))]
pub fn of_each(
    alloc: Global,
    names: &Names<'_>,
    s: &Statement<'_>,
    wanted: Wanted,
    list: &[Name],
    out: &mut Vec<Violation>,
) -> Result<(), NoMemory>
    ensures exact { OnOk result (out.new.items ≡ out.old.items
        ++ judged names.now s.now (spec.of_each (wanted_of wanted) list.now)) }
{
    for name in list {
        mention(alloc, names, s, wanted, name, out)?;
    }
    Ok(())
}

/// What the name of a qualifier has to be.
fn wanted_qualifier(q: &Qualifier) -> Wanted
    ensures exact { spec.in_qualifier q.now ≡ spec.mention (wanted_of result) q.now.name }
{
    match q.member {
        Some(_) => Wanted::QualifierWithMember,
        None => Wanted::Qualifier,
    }
}

/// The name of a qualifier, where there is one.
#[tactic(auto, using(crate::proofs::NamesJudged::two_more, crate::proofs::NamesJudged::adds_none))]
fn in_qualifier(
    alloc: Global,
    names: &Names<'_>,
    s: &Statement<'_>,
    qualifier: &Option<Qualifier>,
    out: &mut Vec<Violation>,
) -> Result<(), NoMemory>
    ensures exact { OnOk result (out.new.items ≡ out.old.items
        ++ judged names.now s.now (map spec.in_qualifier (option_to_list qualifier.now))) }
{
    match qualifier {
        Some(q) => mention(alloc, names, s, wanted_qualifier(q), &q.name, out),
        None => Ok(()),
    }
}

/// The names in a type.
#[tactic(auto, using(crate::proofs::NamesFolds::shapes, crate::proofs::NamesJudged::two_more, crate::proofs::NamesJudged::adds_none))]
fn in_shape(
    alloc: Global,
    names: &Names<'_>,
    s: &Statement<'_>,
    shape: &Shape,
    out: &mut Vec<Violation>,
) -> Result<(), NoMemory>
    ensures exact { OnOk result (out.new.items ≡ out.old.items
        ++ judged names.now s.now (spec.in_shape shape.now)) }
{
    match shape {
        Shape::Text | Shape::Int => Ok(()),
        Shape::Named(name) => mention(alloc, names, s, Wanted::Type, name, out),
        Shape::Map(key, value) => {
            in_shape(alloc, names, s, key.get(), out)?;
            in_shape(alloc, names, s, value.get(), out)
        }
        Shape::Set(inner)
        | Shape::Optional(inner)
        | Shape::Provider(inner)
        | Shape::Lazy(inner)
        | Shape::Producer(inner)
        | Shape::Produced(inner) => in_shape(alloc, names, s, inner.get(), out),
    }
}

/// The names in a use of a type.
#[tactic(auto, using(crate::proofs::NamesJudged::two_more, crate::proofs::NamesJudged::adds_none))]
pub fn in_use(
    alloc: Global,
    names: &Names<'_>,
    s: &Statement<'_>,
    used: &TypeUse,
    out: &mut Vec<Violation>,
) -> Result<(), NoMemory>
    ensures exact { OnOk result (out.new.items ≡ out.old.items
        ++ judged names.now s.now (spec.in_use used.now)) }
{
    in_qualifier(alloc, names, s, &used.qualifier, out)?;
    in_shape(alloc, names, s, &used.shape, out)
}

/// The names in the types of parameters.
#[tactic(auto, using(crate::proofs::NamesJudged::two_more, crate::proofs::NamesJudged::adds_none))]
pub fn in_params(
    alloc: Global,
    names: &Names<'_>,
    s: &Statement<'_>,
    params: &[Param],
    out: &mut Vec<Violation>,
) -> Result<(), NoMemory>
    ensures exact { OnOk result (out.new.items ≡ out.old.items
        ++ judged names.now s.now (spec.in_params params.now)) }
{
    for param in params {
        in_use(alloc, names, s, &param.shape, out)?;
    }
    Ok(())
}
