//! Names that are declared again: a function for each kind of names.

ghost use Rattle.std.specs.Prelude.{◌≡◌, ◌++◌, ◌∷◌, ◌||◌, [], OnOk, map, option_map, nat_lt, false, if◌then◌else◌, option_to_list};
ghost use Rattle.std.specs.Option.{option_map_or};
ghost use Rattle.dg_lex.specs.Bytes.{is_among};
ghost use Rattle.dg_hilt.specs.Names.{predefined_names};
ghost use Rattle.dg_decl.specs.declared.violation.Rule.TheVariants as rule;
ghost use Rattle.dg_decl.specs.Names.{member_name, declared};
ghost use Rattle.dg_decl.specs.Stages.Components.{at_line};
ghost use Rattle.dg_decl.specs.Stages.Names as spec;
ghost use Rattle.dg_typing.specs.NamesMembers.{is_member_again};
ghost use Rattle.dg_typing.specs.NamesWanted.{is_param};

use super::wanted::is_param;
use crate::violation::push_at_line;
use dg_decl::{Item, Param, Rule, Violation};
use dg_hilt::is_predefined;
use dg_names::{Names, Statement};
use dg_types::{Name, NoMemory};
use std::alloc::Global;

/// Whether the first statement that has a name stands before this one.
fn stands_before(first: Option<u32>, s: &Statement<'_>) -> bool
    ensures exact { result ≡ option_map_or (λ i. nat_lt i s.now.index) first false }
{
    match first {
        Some(index) => index < s.index,
        None => false,
    }
}

/// Whether a name is predefined.
fn is_predefined_name(name: &Name) -> bool
    ensures exact { result ≡ is_among name.now predefined_names }
{
    is_predefined(name.as_slice())
}

/// Whether the first declaration of a name stands before this statement.
fn is_declared_first(names: &Names<'_>, s: &Statement<'_>, name: &Name) -> bool
    ensures exact { result ≡ option_map_or (λ i. nat_lt i s.now.index)
        (option_map (λ t. t.index) (declared names.now name.now)) false }
{
    stands_before(names.declared(name.as_slice()), s)
}

/// Whether a name is predefined, or an earlier statement declares it outside blocks.
fn is_declared_before(names: &Names<'_>, s: &Statement<'_>, name: &Name) -> bool
    ensures exact { result
        ≡ (is_among name.now predefined_names || option_map_or (λ i. nat_lt i s.now.index)
        (option_map (λ t. t.index) (declared names.now name.now)) false) }
{
    is_predefined_name(name) || is_declared_first(names, s, name)
}

/// Whether an earlier `open` line opens an instance of this name.
fn is_opened_before(names: &Names<'_>, s: &Statement<'_>, name: &Name) -> bool
    ensures exact { result
        ≡ spec.has_earlier spec.instance_name spec.anywhere names.now s.now name.now }
{
    stands_before(names.opened(name.as_slice()), s)
}

/// Adds a name that is declared again, where it is.
fn push_repeated(
    alloc: Global,
    s: &Statement<'_>,
    again: bool,
    name: &Name,
    out: &mut Vec<Violation>,
) -> Result<(), NoMemory>
    ensures exact { OnOk result (out.new.items ≡ out.old.items
        ++ map (at_line rule.DuplicateName s.now) (if again then name.now ∷ [] else [])) }
{
    if again {
        push_at_line(alloc, Rule::DuplicateName, s, name, out)?;
    }
    Ok(())
}

/// The name that a statement declares outside blocks, where it is declared again.
fn repeated_outer(
    alloc: Global,
    names: &Names<'_>,
    s: &Statement<'_>,
    out: &mut Vec<Violation>,
) -> Result<(), NoMemory>
    ensures exact { OnOk result (out.new.items ≡ out.old.items
        ++ map (at_line rule.DuplicateName s.now) (spec.repeated_outer names.now s.now)) }
{
    match s.item.outer_name() {
        Some(name) => {
            let again = is_declared_before(names, s, name);
            push_repeated(alloc, s, again, name, out)
        }
        None => Ok(()),
    }
}

/// The name of the instance that a line opens.
fn instance_name(item: &Item) -> Option<&Name>
    ensures exact { option_map (λ n. n.now) result ≡ spec.instance_name item.now }
{
    match item {
        Item::OpenLine { name, .. } => Some(name),
        _ => None,
    }
}

/// The name of an instance, where it is opened again.
fn repeated_instance(
    alloc: Global,
    names: &Names<'_>,
    s: &Statement<'_>,
    out: &mut Vec<Violation>,
) -> Result<(), NoMemory>
    ensures exact { OnOk result (out.new.items ≡ out.old.items
        ++ map (at_line rule.DuplicateName s.now) (spec.repeated_instance names.now s.now)) }
{
    match instance_name(s.item) {
        Some(name) => {
            let again = is_opened_before(names, s, name);
            push_repeated(alloc, s, again, name, out)
        }
        None => Ok(()),
    }
}

/// The names of parameters that earlier ones of their list have.
fn repeated_among(
    alloc: Global,
    s: &Statement<'_>,
    params: &[Param],
    out: &mut Vec<Violation>,
) -> Result<(), NoMemory>
    ensures exact { OnOk result (out.new.items ≡ out.old.items
        ++ map (at_line rule.DuplicateName s.now)
        (spec.repeated_among [] (map (λ p. p.name) params.now))) }
{
    for (place, param) in params.iter().enumerate() {
        let again = is_param(&params[..place], param.name.as_slice());
        push_repeated(alloc, s, again, &param.name, out)?;
    }
    Ok(())
}

/// The names of the parameters of a statement that are declared again.
fn repeated_params(
    alloc: Global,
    s: &Statement<'_>,
    out: &mut Vec<Violation>,
) -> Result<(), NoMemory>
    ensures exact { OnOk result (out.new.items ≡ out.old.items
        ++ map (at_line rule.DuplicateName s.now) (spec.repeated_params s.now)) }
{
    repeated_among(alloc, s, s.item.params(), out)
}

/// The name of a member, where it is declared again in its block.
fn repeated_member(
    alloc: Global,
    s: &Statement<'_>,
    again: bool,
    out: &mut Vec<Violation>,
) -> Result<(), NoMemory>
    ensures exact { OnOk result (out.new.items ≡ out.old.items ++ map (at_line rule.DuplicateName s.now)
        (if again then option_to_list (member_name s.now.item) else [])) }
{
    match s.item.member_name() {
        Some(name) => push_repeated(alloc, s, again, name, out),
        None => Ok(()),
    }
}

/// Adds each name that a statement declares again. Of a member it is told whether it does.
pub fn duplicate_name(
    alloc: Global,
    names: &Names<'_>,
    s: &Statement<'_>,
    member_again: bool,
    out: &mut Vec<Violation>,
) -> Result<(), NoMemory>
    requires told { member_again ≡ is_member_again names.now s.now }
    ensures exact { OnOk result (out.new.items ≡ out.old.items
        ++ spec.duplicate_name names.now s.now) }
{
    repeated_outer(alloc, names, s, out)?;
    repeated_member(alloc, s, member_again, out)?;
    repeated_params(alloc, s, out)?;
    repeated_instance(alloc, names, s, out)?;
    Ok(())
}
