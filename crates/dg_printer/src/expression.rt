//! Expressions, conditions and trees.

ghost use Rattle.std.specs.Prelude.{◌≡◌, map, OnOk};
ghost use Rattle.dg_decl.specs.ExpressionForms as forms;
ghost use Rattle.dg_decl.specs.Written.{written, tight, loose, list_tokens};
ghost use Rattle.dg_printer.specs.Output as spec;

use crate::line::Line;
use dg_decl::{CallName, Cond, Expr, ParamCall, Tree};
use dg_types::{Name, NoMemory};

fn call_name(f: CallName) -> &'static [u8]
    ensures exact { result.now ≡ forms.call_name f }
{
    match f {
        CallName::Cat => b"cat",
        CallName::TextOf => b"text",
        CallName::Size => b"size",
        CallName::SetOf => b"set",
        CallName::Fail => b"fail",
    }
}

fn param_call_name(f: ParamCall) -> &'static [u8]
    ensures exact { result.now ≡ forms.param_call_name f }
{
    match f {
        ParamCall::Get => b"get",
        ParamCall::Value => b"value",
        ParamCall::Values => b"values",
        ParamCall::Failure => b"failure",
    }
}

/// Whether an expression needs no parentheses as the base of a field or to the right of `+`.
#[tactic(auto, using(dg_decl::proofs::WrittenEquations::written_equations))]
fn is_tight(e: &Expr) -> bool
    ensures exact { result ≡ spec.is_tight (written e.now).level }
{
    match e {
        Expr::Sum(_, _) | Expr::If { .. } => false,
        Expr::Text(_)
        | Expr::Int(_)
        | Expr::Param(_)
        | Expr::New { .. }
        | Expr::Field { .. }
        | Expr::Call { .. }
        | Expr::ByName { .. }
        | Expr::OrElse { .. } => true,
    }
}

/// Whether an expression needs no parentheses as an operand or as a leaf.
#[tactic(auto, using(dg_decl::proofs::WrittenEquations::written_equations))]
fn is_loose(e: &Expr) -> bool
    ensures exact { result ≡ spec.is_loose (written e.now).level }
{
    match e {
        Expr::If { .. } => false,
        Expr::Text(_)
        | Expr::Int(_)
        | Expr::Param(_)
        | Expr::New { .. }
        | Expr::Field { .. }
        | Expr::Sum(_, _)
        | Expr::Call { .. }
        | Expr::ByName { .. }
        | Expr::OrElse { .. } => true,
    }
}

/// Appends a function's name and a parameter's in parentheses.
fn push_by_name(line: &mut Line, f: &[u8], param: &Name) -> Result<(), NoMemory>
    ensures exact { OnOk result (line.new ≡ spec.with_by_name line.old f.now param.now) }
{
    line.push(f)?;
    line.push(b"(")?;
    line.push(param.as_slice())?;
    line.push(b")")
}

/// Appends an expression.
#[cycle(printing)]
#[tactic(auto, using(crate::proofs::ExpressionLemmas::expression_lines))]
pub fn push_expression(line: &mut Line, e: &Expr) -> Result<(), NoMemory>
    ensures exact { OnOk result (line.new ≡ spec.with_expression line.old e.now) }
{
    match e {
        Expr::Text(text) => line.push_text(text),
        Expr::Int(n) => line.push_integer(*n),
        Expr::Param(name) => line.push(name.as_slice()),
        Expr::New { class, args } => {
            line.push(b"new")?;
            line.push(class.as_slice())?;
            push_arguments(line, args.as_slice())
        }
        Expr::Field { of, field } => {
            push_tight(line, of.get())?;
            line.push(b".")?;
            line.push(field.as_slice())
        }
        Expr::Sum(a, b) => {
            push_loose(line, a.get())?;
            line.push(b"+")?;
            push_tight(line, b.get())
        }
        Expr::If { cond, yes, no } => {
            line.push(b"if")?;
            push_condition(line, cond.get())?;
            line.push(b"then")?;
            push_expression(line, yes.get())?;
            line.push(b"else")?;
            push_expression(line, no.get())
        }
        Expr::Call { f, args } => {
            line.push(call_name(*f))?;
            push_arguments(line, args.as_slice())
        }
        Expr::ByName { f, param } => push_by_name(line, param_call_name(*f), param),
        Expr::OrElse { param, other } => {
            line.push(b"orElse")?;
            line.push(b"(")?;
            line.push(param.as_slice())?;
            line.push(b",")?;
            push_expression(line, other.get())?;
            line.push(b")")
        }
    }
}

/// Appends an expression as the base of a field or to the right of `+`.
#[cycle(printing)]
#[tactic(auto, using(crate::proofs::ExpressionLemmas::tight_lines))]
fn push_tight(line: &mut Line, e: &Expr) -> Result<(), NoMemory>
    ensures exact { OnOk result (line.new ≡ spec.spelled line.old (tight (written e.now)).tokens) }
{
    if is_tight(e) {
        return push_expression(line, e);
    }
    line.push(b"(")?;
    push_expression(line, e)?;
    line.push(b")")
}

/// Appends an expression as an operand of a condition, to the left of `+`, or as a leaf of a tree.
#[cycle(printing)]
#[tactic(auto, using(crate::proofs::ExpressionLemmas::loose_lines))]
fn push_loose(line: &mut Line, e: &Expr) -> Result<(), NoMemory>
    ensures exact { OnOk result (line.new ≡ spec.spelled line.old (loose (written e.now)).tokens) }
{
    if is_loose(e) {
        return push_expression(line, e);
    }
    line.push(b"(")?;
    push_expression(line, e)?;
    line.push(b")")
}

/// Appends arguments with commas between.
#[cycle(printing)]
fn push_argument_list(line: &mut Line, args: &[Expr]) -> Result<(), NoMemory>
    ensures exact { OnOk result (line.new
        ≡ spec.with_list spec.with_expression line.old args.now) }
{
    let [first, others @ ..] = args else {
        return Ok(());
    };
    push_expression(line, first)?;
    for other in others {
        line.push(b",")?;
        push_expression(line, other)?;
    }
    Ok(())
}

/// Appends arguments in parentheses.
#[cycle(printing)]
#[tactic(auto, using(crate::proofs::ExpressionLemmas::arguments_line))]
fn push_arguments(line: &mut Line, args: &[Expr]) -> Result<(), NoMemory>
    ensures exact { OnOk result (line.new
        ≡ spec.spelled line.old (list_tokens (map written args.now))) }
{
    line.push(b"(")?;
    push_argument_list(line, args)?;
    line.push(b")")
}

/// Appends a condition.
#[cycle(printing)]
#[tactic(auto, using(crate::proofs::ExpressionLemmas::condition_lines))]
fn push_condition(line: &mut Line, cond: &Cond) -> Result<(), NoMemory>
    ensures exact { OnOk result (line.new ≡ spec.with_condition line.old cond.now) }
{
    match cond {
        Cond::Equal(a, b) => {
            push_loose(line, a.get())?;
            line.push(b"==")?;
            push_loose(line, b.get())
        }
        Cond::Less(a, b) => {
            push_loose(line, a.get())?;
            line.push(b"<")?;
            push_loose(line, b.get())
        }
        Cond::Has(param) => push_by_name(line, b"has", param),
        Cond::IsOk(param) => push_by_name(line, b"ok", param),
    }
}

/// Appends a tree.
#[tactic(auto, using(crate::proofs::ExpressionLemmas::tree_lines))]
pub fn push_tree(line: &mut Line, tree: &Tree) -> Result<(), NoMemory>
    ensures exact { OnOk result (line.new ≡ spec.with_tree line.old tree.now) }
{
    match tree {
        Tree::Leaf(e) => push_loose(line, e),
        Tree::Await(param) => {
            line.push(b"await")?;
            line.push(param.as_slice())
        }
        Tree::If { cond, yes, no } => {
            line.push(b"if")?;
            push_condition(line, cond)?;
            line.push(b"then")?;
            push_tree(line, yes.get())?;
            line.push(b"else")?;
            push_tree(line, no.get())
        }
    }
}
