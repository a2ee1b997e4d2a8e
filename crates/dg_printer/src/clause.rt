//! What stands in the line of an item besides types and expressions.

ghost use Rattle.std.specs.Prelude.{◌≡◌, OnOk, false};
ghost use Rattle.dg_decl.specs.Canonical.{clause_tokens, optional_tokens, install_tokens, optional_install, scope_tokens, inject_tokens, map_key_token, mark_tokens, open_args_tokens};
ghost use Rattle.dg_decl.specs.Canonical as canonical;
ghost use Rattle.dg_decl.specs.Written.{name_token};
ghost use Rattle.dg_printer.specs.Output as spec;

use crate::expression::push_expression;
use crate::line::Line;
use dg_decl::{AskStep, Mark, OpenArg};
use dg_types::{MapKeyVal, Name, NoMemory};

fn push_names(line: &mut Line, names: &[Name]) -> Result<(), NoMemory>
    ensures exact { OnOk result (line.new ≡ spec.with_list spec.with_name line.old names.now) }
{
    let [first, others @ ..] = names else {
        return Ok(());
    };
    line.push(first.as_slice())?;
    for other in others {
        line.push(b",")?;
        line.push(other.as_slice())?;
    }
    Ok(())
}

/// Appends a keyword or `:` and names behind it, where there are names.
#[tactic(auto, using(crate::proofs::ItemLemmas::clause_lines))]
pub fn push_clause(line: &mut Line, word: &[u8], names: &[Name]) -> Result<(), NoMemory>
    ensures exact { OnOk result (line.new
        ≡ spec.spelled line.old (clause_tokens (name_token word.now) names.now)) }
{
    if !names.is_empty() {
        line.push(word)?;
    }
    push_names(line, names)
}

/// Appends a keyword and a name, where there is one.
pub fn push_optional(line: &mut Line, word: &[u8], name: &Option<Name>) -> Result<(), NoMemory>
    ensures exact { OnOk result (line.new
        ≡ spec.spelled line.old (optional_tokens word.now name.now)) }
{
    match name {
        None => Ok(()),
        Some(name) => line.push_keyword(word, name),
    }
}

/// Appends an at-name with a name in parentheses.
pub fn push_install(line: &mut Line, word: &[u8], name: &Name) -> Result<(), NoMemory>
    ensures exact { OnOk result (line.new
        ≡ spec.spelled line.old (install_tokens word.now name.now)) }
{
    line.push_at(word)?;
    line.push(b"(")?;
    line.push(name.as_slice())?;
    line.push(b")")
}

/// Appends where a module is installed, if it is.
pub fn push_optional_install(line: &mut Line, name: &Option<Name>) -> Result<(), NoMemory>
    ensures exact { OnOk result (line.new ≡ spec.spelled line.old (optional_install name.now)) }
{
    match name {
        None => Ok(()),
        Some(name) => push_install(line, b"InstallIn", name),
    }
}

/// Appends a scope, if there is one.
pub fn push_scope(line: &mut Line, scope: &Option<Name>) -> Result<(), NoMemory>
    ensures exact { OnOk result (line.new ≡ spec.spelled line.old (scope_tokens scope.now)) }
{
    match scope {
        None => Ok(()),
        Some(scope) => line.push_at(scope.as_slice()),
    }
}

/// Appends scopes, one after another.
pub fn push_scopes(line: &mut Line, scopes: &[Name]) -> Result<(), NoMemory>
    ensures exact { OnOk result (line.new ≡ spec.with_all spec.with_scope line.old scopes.now) }
{
    for scope in scopes {
        line.push_at(scope.as_slice())?;
    }
    Ok(())
}

/// Appends `@Inject`, where it is wanted.
pub fn push_inject(line: &mut Line, inject: bool) -> Result<(), NoMemory>
    ensures exact { OnOk result (line.new ≡ spec.spelled line.old (inject_tokens inject)) }
{
    if inject {
        line.push_at(b"Inject")?;
    }
    Ok(())
}

fn map_key_name(key: &MapKeyVal) -> &'static [u8]
    ensures exact { result.now ≡ canonical.map_key_name key.now }
{
    match key {
        MapKeyVal::Text(_) => b"StringKey",
        MapKeyVal::Int(_) => b"IntKey",
    }
}

fn push_map_key(line: &mut Line, key: &MapKeyVal) -> Result<(), NoMemory>
    ensures exact { OnOk result (line.new
        ≡ spec.with_token line.old false (map_key_token key.now).spelling) }
{
    match key {
        MapKeyVal::Text(text) => line.push_text(text),
        MapKeyVal::Int(n) => line.push_integer(*n),
    }
}

/// Appends how a member contributes to a set or a map, if it does.
pub fn push_mark(line: &mut Line, mark: &Option<Mark>) -> Result<(), NoMemory>
    ensures exact { OnOk result (line.new ≡ spec.spelled line.old (mark_tokens mark.now)) }
{
    match mark {
        None => Ok(()),
        Some(Mark::IntoSet) => line.push_at(b"IntoSet"),
        Some(Mark::ElementsIntoSet) => line.push_at(b"ElementsIntoSet"),
        Some(Mark::IntoMap(key)) => {
            line.push_at(b"IntoMap")?;
            line.push_at(map_key_name(key))?;
            line.push(b"(")?;
            push_map_key(line, key)?;
            line.push(b")")
        }
    }
}

fn push_open_arg(line: &mut Line, arg: &OpenArg) -> Result<(), NoMemory>
    ensures exact { OnOk result (line.new ≡ spec.with_argument line.old arg.now) }
{
    line.push(arg.name.as_slice())?;
    line.push(b"=")?;
    push_expression(line, &arg.value)
}

fn push_open_arg_list(line: &mut Line, args: &[OpenArg]) -> Result<(), NoMemory>
    ensures exact { OnOk result (line.new
        ≡ spec.with_list spec.with_argument line.old args.now) }
{
    let [first, others @ ..] = args else {
        return Ok(());
    };
    push_open_arg(line, first)?;
    for other in others {
        line.push(b",")?;
        push_open_arg(line, other)?;
    }
    Ok(())
}

/// Appends `with` and arguments, where there are any.
#[tactic(auto, using(crate::proofs::ItemLemmas::open_args_lines))]
pub fn push_open_args(line: &mut Line, args: &[OpenArg]) -> Result<(), NoMemory>
    ensures exact { OnOk result (line.new ≡ spec.spelled line.old (open_args_tokens args.now)) }
{
    if !args.is_empty() {
        line.push(b"with")?;
    }
    push_open_arg_list(line, args)
}

fn push_step(line: &mut Line, step: &AskStep) -> Result<(), NoMemory>
    ensures exact { OnOk result (line.new ≡ spec.with_step line.old step.now) }
{
    match step {
        AskStep::Field(name) => {
            line.push(b".")?;
            line.push(name.as_slice())
        }
        AskStep::Get => line.push(b"!"),
        AskStep::Inside => line.push(b"?"),
        AskStep::At(key) => {
            line.push(b"[")?;
            push_map_key(line, key)?;
            line.push(b"]")
        }
    }
}

/// Appends steps, one after another.
pub fn push_steps(line: &mut Line, steps: &[AskStep]) -> Result<(), NoMemory>
    ensures exact { OnOk result (line.new ≡ spec.with_all spec.with_step line.old steps.now) }
{
    for step in steps {
        push_step(line, step)?;
    }
    Ok(())
}
