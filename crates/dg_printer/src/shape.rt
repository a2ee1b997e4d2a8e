//! Types, uses of types and parameters.

ghost use Rattle.std.specs.Prelude.{◌≡◌, OnOk};
ghost use Rattle.dg_decl.specs.Canonical.{member_tokens, qualifier_tokens, use_tokens, params_tokens, result_tokens};
ghost use Rattle.dg_decl.specs.Written.{written_type};
ghost use Rattle.dg_printer.specs.Output as spec;

use crate::line::Line;
use dg_decl::Param;
use dg_types::{NoMemory, Qualifier, Shape, Text, TypeUse};

/// Appends a type. `close`: it stands right behind what is before it.
#[tactic(auto, using(crate::proofs::TypeLemmas::type_lines))]
fn push_type(line: &mut Line, close: bool, shape: &Shape) -> Result<(), NoMemory>
    ensures exact { OnOk result (line.new ≡ spec.with_type line.old close shape.now) }
{
    match shape {
        Shape::Text => return line.push_token(close, b"Text"),
        Shape::Int => return line.push_token(close, b"Int"),
        Shape::Named(name) => return line.push_token(close, name.as_slice()),
        Shape::Map(keys, values) => {
            line.push_constructor(close, b"Map")?;
            push_type(line, true, keys.get())?;
            line.push_token(true, b",")?;
            push_type(line, true, values.get())?;
        }
        Shape::Set(of) => {
            line.push_constructor(close, b"Set")?;
            push_type(line, true, of.get())?;
        }
        Shape::Optional(of) => {
            line.push_constructor(close, b"Optional")?;
            push_type(line, true, of.get())?;
        }
        Shape::Provider(of) => {
            line.push_constructor(close, b"Provider")?;
            push_type(line, true, of.get())?;
        }
        Shape::Lazy(of) => {
            line.push_constructor(close, b"Lazy")?;
            push_type(line, true, of.get())?;
        }
        Shape::Producer(of) => {
            line.push_constructor(close, b"Producer")?;
            push_type(line, true, of.get())?;
        }
        Shape::Produced(of) => {
            line.push_constructor(close, b"Produced")?;
            push_type(line, true, of.get())?;
        }
    }
    line.push_token(true, b">")
}

fn push_member(line: &mut Line, member: &Option<Text>) -> Result<(), NoMemory>
    ensures exact { OnOk result (line.new ≡ spec.spelled line.old (member_tokens member.now)) }
{
    match member {
        None => Ok(()),
        Some(text) => {
            line.push(b"(")?;
            line.push_text(text)?;
            line.push(b")")
        }
    }
}

fn push_qualifier(line: &mut Line, qualifier: &Option<Qualifier>) -> Result<(), NoMemory>
    ensures exact { OnOk result (line.new
        ≡ spec.spelled line.old (qualifier_tokens qualifier.now)) }
{
    match qualifier {
        None => Ok(()),
        Some(qualifier) => {
            line.push_at(qualifier.name.as_slice())?;
            push_member(line, &qualifier.member)
        }
    }
}

/// Appends a type with its qualifier.
#[tactic(auto, using(crate::proofs::TypeLemmas::use_line))]
fn push_use(line: &mut Line, asked: &TypeUse) -> Result<(), NoMemory>
    ensures exact { OnOk result (line.new ≡ spec.pushed line.old (use_tokens asked.now)) }
{
    push_qualifier(line, &asked.qualifier)?;
    push_type(line, false, &asked.shape)
}

/// Appends `: USE`.
pub fn push_result(line: &mut Line, asked: &TypeUse) -> Result<(), NoMemory>
    ensures exact { OnOk result (line.new ≡ spec.pushed line.old (result_tokens asked.now)) }
{
    line.push(b":")?;
    push_use(line, asked)
}

fn push_param(line: &mut Line, param: &Param) -> Result<(), NoMemory>
    ensures exact { OnOk result (line.new ≡ spec.with_param line.old param.now) }
{
    line.push(param.name.as_slice())?;
    line.push_token(true, b":")?;
    push_use(line, &param.shape)
}

fn push_param_list(line: &mut Line, params: &[Param]) -> Result<(), NoMemory>
    ensures exact { OnOk result (line.new
        ≡ spec.with_list spec.with_param line.old params.now) }
{
    let [first, others @ ..] = params else {
        return Ok(());
    };
    push_param(line, first)?;
    for other in others {
        line.push(b",")?;
        push_param(line, other)?;
    }
    Ok(())
}

/// Appends parameters in parentheses.
#[tactic(auto, using(crate::proofs::TypeLemmas::params_line))]
pub fn push_params(line: &mut Line, params: &[Param]) -> Result<(), NoMemory>
    ensures exact { OnOk result (line.new ≡ spec.pushed line.old (params_tokens params.now)) }
{
    line.push(b"(")?;
    push_param_list(line, params)?;
    line.push(b")")
}
