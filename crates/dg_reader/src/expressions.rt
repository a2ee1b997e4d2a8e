//! Expressions. Those that nest too deep are given up on the way, so that no line is read deeper
//! than items may nest; and parentheses that stand one behind another are counted, so that they
//! take no stack.

ghost use Rattle.std.specs.Prelude.{◌≡◌, ◌<◌, ◌≤◌, length, drop, codes};
ghost use Rattle.std.specs.List.{prefix_len};
ghost use Rattle.dg_lex.specs.declared.token.TokenKind.TheVariants as kind;
ghost use Rattle.dg_decl.specs.Readers as readers;
ghost use Rattle.dg_decl.specs.ExpressionForms as forms;
ghost use Rattle.dg_reader.specs.Budgets as budgets;
ghost use Rattle.dg_reader.specs.Gives.{Gives};

use crate::constants::{NESTING_LIMIT, integer_constant, text_constant};
use crate::fault::FormFault;
use crate::lexemes::Lexemes;
use crate::parts::{LIST_LIMIT, enclosed_name, keyword, name, sign, word};
use dg_decl::{CallName, Cond, Expr, ParamCall};
use dg_lex::TokenKind;
use dg_types::Name;
use sqlite_items::{Boxed, Items};
use std::alloc::Global;

// In what follows `depth` is how many expressions may still stand around one another, parentheses
// counted, and `budget` how deep what is read may nest.

/// A function of the name of a parameter.
#[tactic(auto, unfolding(dg_decl::specs::ExpressionForms::call_by_name))]
fn call_by_name(alloc: Global, tokens: &mut Lexemes<'_>, f: ParamCall) -> Result<Expr, FormFault>
    ensures exact { Gives (forms.call_by_name f tokens.old) result tokens.new }
{
    let param = enclosed_name(alloc, tokens)?;
    Ok(Expr::ByName { f, param })
}

/// One expression or more, with commas between.
#[cycle(reading)]
fn expression_list(
    alloc: Global,
    tokens: &mut Lexemes<'_>,
    depth: usize,
    budget: usize,
) -> Result<Items<Expr>, FormFault>
    ensures exact { Gives (readers.list_of (budgets.expression_to depth budget)
        readers.list_limit tokens.old) result tokens.new }
{
    let mut found = Items::new(alloc);
    for _turn in 0..LIST_LIMIT {
        found.push(expression(alloc, tokens, depth, budget)?)?;
        if !tokens.eat(TokenKind::Sign, b",") {
            return Ok(found);
        }
    }
    Err(FormFault::NoForm)
}

#[cycle(reading)]
#[tactic(auto, unfolding(dg_decl::specs::Readers::in_parentheses))]
fn in_parentheses(
    alloc: Global,
    tokens: &mut Lexemes<'_>,
    depth: usize,
    budget: usize,
) -> Result<Items<Expr>, FormFault>
    ensures exact { Gives (readers.in_parentheses (budgets.expression_to depth budget)
        tokens.old) result tokens.new }
{
    sign(tokens, b"(")?;
    if tokens.eat(TokenKind::Sign, b")") {
        return Ok(Items::new(alloc));
    }
    let found = expression_list(alloc, tokens, depth, budget)?;
    sign(tokens, b")")?;
    Ok(found)
}

#[cycle(reading)]
#[tactic(auto, unfolding(dg_decl::specs::Readers::some_in_parentheses, dg_decl::specs::Readers::enclosed))]
fn some_in_parentheses(
    alloc: Global,
    tokens: &mut Lexemes<'_>,
    depth: usize,
    budget: usize,
) -> Result<Items<Expr>, FormFault>
    ensures exact { Gives (readers.some_in_parentheses (budgets.expression_to depth budget)
        tokens.old) result tokens.new }
{
    sign(tokens, b"(")?;
    let found = expression_list(alloc, tokens, depth, budget)?;
    sign(tokens, b")")?;
    Ok(found)
}

/// `new N(..)`
#[cycle(reading)]
#[tactic(auto, unfolding(dg_decl::specs::ExpressionForms::object))]
fn object(
    alloc: Global,
    tokens: &mut Lexemes<'_>,
    depth: usize,
    budget: usize,
) -> Result<Expr, FormFault>
    ensures exact { Gives (forms.object (budgets.expression_to depth budget) tokens.old) result
        tokens.new }
{
    word(tokens, b"new")?;
    let class = name(alloc, tokens)?;
    let args = in_parentheses(alloc, tokens, depth, budget)?;
    Ok(Expr::New { class, args })
}

#[cycle(reading)]
#[tactic(auto, unfolding(dg_decl::specs::ExpressionForms::call_of_one, dg_decl::specs::Readers::enclosed))]
fn call_of_one(
    alloc: Global,
    tokens: &mut Lexemes<'_>,
    f: CallName,
    depth: usize,
    budget: usize,
) -> Result<Expr, FormFault>
    ensures exact { Gives (forms.call_of_one f (budgets.expression_to depth budget) tokens.old)
        result tokens.new }
{
    sign(tokens, b"(")?;
    let mut args = Items::new(alloc);
    args.push(expression(alloc, tokens, depth, budget)?)?;
    sign(tokens, b")")?;
    Ok(Expr::Call { f, args })
}

#[cycle(reading)]
#[tactic(auto, unfolding(dg_decl::specs::ExpressionForms::or_else))]
fn or_else(
    alloc: Global,
    tokens: &mut Lexemes<'_>,
    depth: usize,
    budget: usize,
) -> Result<Expr, FormFault>
    ensures exact { Gives (forms.or_else (budgets.expression_to depth budget) tokens.old) result
        tokens.new }
{
    sign(tokens, b"(")?;
    let param = name(alloc, tokens)?;
    sign(tokens, b",")?;
    let other = Boxed::new(alloc, expression(alloc, tokens, depth, budget)?)?;
    sign(tokens, b")")?;
    Ok(Expr::OrElse { param, other })
}

/// What stands behind the name of a function of expressions, where this is one.
#[cycle(reading)]
#[tactic(auto, unfolding(dg_decl::specs::ExpressionForms::call_of))]
fn call_of(
    alloc: Global,
    tokens: &mut Lexemes<'_>,
    f: &Name,
    depth: usize,
    budget: usize,
) -> Result<Expr, FormFault>
    ensures exact { Gives (forms.call_of (budgets.expression_to depth budget) f.now tokens.old)
        result tokens.new }
{
    if f.is(b"cat") {
        let args = some_in_parentheses(alloc, tokens, depth, budget)?;
        Ok(Expr::Call {
            f: CallName::Cat,
            args,
        })
    } else if f.is(b"text") {
        call_of_one(alloc, tokens, CallName::TextOf, depth, budget)
    } else if f.is(b"size") {
        call_of_one(alloc, tokens, CallName::Size, depth, budget)
    } else if f.is(b"set") {
        let args = in_parentheses(alloc, tokens, depth, budget)?;
        Ok(Expr::Call {
            f: CallName::SetOf,
            args,
        })
    } else if f.is(b"fail") {
        call_of_one(alloc, tokens, CallName::Fail, depth, budget)
    } else {
        Err(FormFault::NoForm)
    }
}

/// What stands behind the name of any function, where this is one.
#[cycle(reading)]
#[tactic(auto, unfolding(dg_decl::specs::ExpressionForms::function))]
fn function(
    alloc: Global,
    tokens: &mut Lexemes<'_>,
    f: &Name,
    depth: usize,
    budget: usize,
) -> Result<Expr, FormFault>
    ensures exact { Gives (forms.function (budgets.expression_to depth budget) f.now tokens.old)
        result tokens.new }
{
    if f.is(b"get") {
        call_by_name(alloc, tokens, ParamCall::Get)
    } else if f.is(b"value") {
        call_by_name(alloc, tokens, ParamCall::Value)
    } else if f.is(b"values") {
        call_by_name(alloc, tokens, ParamCall::Values)
    } else if f.is(b"failure") {
        call_by_name(alloc, tokens, ParamCall::Failure)
    } else if f.is(b"orElse") {
        or_else(alloc, tokens, depth, budget)
    } else {
        call_of(alloc, tokens, f, depth, budget)
    }
}

/// A name: a function where `(` stands behind it, else a parameter.
#[cycle(reading)]
#[tactic(auto, unfolding(dg_decl::specs::ExpressionForms::named, dg_decl::specs::ExpressionForms::named_as))]
fn named(
    alloc: Global,
    tokens: &mut Lexemes<'_>,
    depth: usize,
    budget: usize,
) -> Result<Expr, FormFault>
    ensures exact { Gives (forms.named (budgets.expression_to depth budget) tokens.old) result
        tokens.new }
{
    let name = name(alloc, tokens)?;
    if tokens.comes(TokenKind::Sign, b"(") {
        return function(alloc, tokens, &name, depth, budget);
    }
    Ok(Expr::Param(name))
}

/// An atom without parentheses of its own.
#[cycle(reading)]
#[tactic(auto, unfolding(crate::specs::Budgets::plain_atom))]
fn plain_atom(
    alloc: Global,
    tokens: &mut Lexemes<'_>,
    depth: usize,
    budget: usize,
) -> Result<Expr, FormFault>
    ensures exact { Gives (budgets.plain_atom (budgets.expression_to depth budget) tokens.old)
        result tokens.new }
{
    if tokens.comes_kind(TokenKind::Text) {
        text_constant(alloc, tokens)
    } else if tokens.comes_kind(TokenKind::Integer) {
        integer_constant(tokens)
    } else if tokens.comes(TokenKind::Word, b"new") {
        object(alloc, tokens, depth, budget)
    } else {
        named(alloc, tokens, depth, budget)
    }
}

/// The fields behind an expression.
fn fields(alloc: Global, tokens: &mut Lexemes<'_>, of: Expr) -> Result<Expr, FormFault>
    ensures exact { Gives (forms.fields forms.nesting_limit of tokens.old) result tokens.new }
{
    let mut read = of;
    for _turn in 0..NESTING_LIMIT {
        if !tokens.eat(TokenKind::Sign, b".") {
            return Ok(read);
        }
        let field = name(alloc, tokens)?;
        read = Expr::Field {
            of: Boxed::new(alloc, read)?,
            field,
        };
    }
    Ok(read)
}

/// The `)` behind an expression, and its fields.
#[tactic(auto, unfolding(crate::specs::Budgets::closing))]
fn closing(alloc: Global, tokens: &mut Lexemes<'_>, inner: Expr) -> Result<Expr, FormFault>
    ensures exact { Gives (budgets.closing inner tokens.old) result tokens.new }
{
    sign(tokens, b")")?;
    fields(alloc, tokens, inner)
}

/// An operand without parentheses of its own.
#[cycle(reading)]
#[tactic(auto, unfolding(crate::specs::Budgets::plain_prim))]
fn plain_prim(
    alloc: Global,
    tokens: &mut Lexemes<'_>,
    depth: usize,
    budget: usize,
) -> Result<Expr, FormFault>
    ensures exact { Gives (budgets.plain_prim (budgets.expression_to depth budget) tokens.old)
        result tokens.new }
{
    let atom = plain_atom(alloc, tokens, depth, budget)?;
    fields(alloc, tokens, atom)
}

/// What stands within parentheses, the `)`, and the fields behind it.
#[cycle(reading)]
#[tactic(auto, unfolding(crate::specs::Budgets::closed_to))]
fn closed(
    alloc: Global,
    tokens: &mut Lexemes<'_>,
    depth: usize,
    budget: usize,
) -> Result<Expr, FormFault>
    ensures exact { Gives (budgets.closed_to (budgets.expression_to depth) budget tokens.old)
        result tokens.new }
{
    let inner = expression(alloc, tokens, depth, budget)?;
    closing(alloc, tokens, inner)
}

/// What stands behind an operand in parentheses: further terms, the `)` and fields.
#[cycle(reading)]
#[tactic(auto, unfolding(crate::specs::Budgets::around_to))]
fn around(
    alloc: Global,
    tokens: &mut Lexemes<'_>,
    operand: Expr,
    depth: usize,
    budget: usize,
) -> Result<Expr, FormFault>
    ensures exact { Gives (budgets.around_to (budgets.expression_to depth) budget operand
        tokens.old) result tokens.new }
{
    let sum = added(alloc, tokens, operand, depth, budget)?;
    closing(alloc, tokens, sum)
}

/// An operand with so many `(` in front.
#[cycle(reading)]
fn in_opens(
    alloc: Global,
    tokens: &mut Lexemes<'_>,
    opens: usize,
    depth: usize,
    budget: usize,
) -> Result<Expr, FormFault>
    requires some { 0 < opens }
    requires count { opens ≡ prefix_len (readers.is_spelled kind.Sign (codes "(")) tokens.old }
    requires within { opens ≤ depth }
    requires budget { 0 < budget }
    ensures exact { Gives (budgets.prim_to (budgets.expression_to depth) budget tokens.old)
        result tokens.new }
{
    tokens.skip_many(opens);
    let mut level = depth - (opens - 1);
    let mut read = closed(alloc, tokens, level, budget)?;
    while level < depth {
        read = around(alloc, tokens, read, level, budget)?;
        level += 1;
    }
    Ok(read)
}

/// PRIM
#[cycle(reading)]
fn prim(
    alloc: Global,
    tokens: &mut Lexemes<'_>,
    depth: usize,
    budget: usize,
) -> Result<Expr, FormFault>
    ensures exact { Gives (budgets.prim_to (budgets.expression_to depth) budget tokens.old)
        result tokens.new }
{
    let opens = tokens.opens();
    if opens == 0 {
        return plain_prim(alloc, tokens, depth, budget.saturating_sub(1));
    }
    if depth < opens {
        return Err(FormFault::NoForm);
    }
    if budget == 0 {
        return Err(FormFault::NoForm);
    }
    in_opens(alloc, tokens, opens, depth, budget)
}

/// What is added to an expression.
#[cycle(reading)]
fn added(
    alloc: Global,
    tokens: &mut Lexemes<'_>,
    to: Expr,
    depth: usize,
    budget: usize,
) -> Result<Expr, FormFault>
    ensures exact { Gives (budgets.added_to (budgets.expression_to depth) budget
        forms.nesting_limit to tokens.old) result tokens.new }
{
    let mut read = to;
    for _turn in 0..NESTING_LIMIT {
        if !tokens.eat(TokenKind::Sign, b"+") {
            return Ok(read);
        }
        let term = prim(alloc, tokens, depth, budget.saturating_sub(1))?;
        read = Expr::Sum(Boxed::new(alloc, read)?, Boxed::new(alloc, term)?);
    }
    Ok(read)
}

/// SUM
#[cycle(reading)]
#[tactic(auto, unfolding(crate::specs::Budgets::sum_to))]
pub fn sum(
    alloc: Global,
    tokens: &mut Lexemes<'_>,
    depth: usize,
    budget: usize,
) -> Result<Expr, FormFault>
    ensures exact { Gives (budgets.sum_to (budgets.expression_to depth) budget tokens.old) result
        tokens.new }
{
    let first = prim(alloc, tokens, depth, budget)?;
    added(alloc, tokens, first, depth, budget)
}

/// SUM == SUM | SUM < SUM
#[cycle(reading)]
#[tactic(auto, unfolding(crate::specs::Budgets::comparison_to))]
fn comparison(
    alloc: Global,
    tokens: &mut Lexemes<'_>,
    depth: usize,
    budget: usize,
) -> Result<Cond, FormFault>
    ensures exact { Gives (budgets.comparison_to (budgets.expression_to depth) budget tokens.old)
        result tokens.new }
{
    let first = Boxed::new(alloc, sum(alloc, tokens, depth, budget)?)?;
    if tokens.eat(TokenKind::Sign, b"==") {
        let second = Boxed::new(alloc, sum(alloc, tokens, depth, budget)?)?;
        return Ok(Cond::Equal(first, second));
    }
    sign(tokens, b"<")?;
    let second = Boxed::new(alloc, sum(alloc, tokens, depth, budget)?)?;
    Ok(Cond::Less(first, second))
}

#[tactic(auto, unfolding(dg_decl::specs::ExpressionForms::has))]
fn has(alloc: Global, tokens: &mut Lexemes<'_>) -> Result<Cond, FormFault>
    ensures exact { Gives (forms.has tokens.old) result tokens.new }
{
    keyword(tokens, b"has")?;
    Ok(Cond::Has(enclosed_name(alloc, tokens)?))
}

#[tactic(auto, unfolding(dg_decl::specs::ExpressionForms::is_ok))]
fn is_ok(alloc: Global, tokens: &mut Lexemes<'_>) -> Result<Cond, FormFault>
    ensures exact { Gives (forms.is_ok tokens.old) result tokens.new }
{
    keyword(tokens, b"ok")?;
    Ok(Cond::IsOk(enclosed_name(alloc, tokens)?))
}

/// COND
#[cycle(reading)]
#[tactic(auto, unfolding(crate::specs::Budgets::condition_to))]
pub fn condition(
    alloc: Global,
    tokens: &mut Lexemes<'_>,
    depth: usize,
    budget: usize,
) -> Result<Cond, FormFault>
    ensures exact { Gives (budgets.condition_to (budgets.expression_to depth) budget tokens.old)
        result tokens.new }
{
    if tokens.comes_call(b"has") {
        has(alloc, tokens)
    } else if tokens.comes_call(b"ok") {
        is_ok(alloc, tokens)
    } else {
        comparison(alloc, tokens, depth, budget.saturating_sub(1))
    }
}

/// if COND then EXPR else EXPR
#[cycle(reading)]
#[tactic(auto, unfolding(crate::specs::Budgets::choice_to))]
fn choice(
    alloc: Global,
    tokens: &mut Lexemes<'_>,
    depth: usize,
    budget: usize,
) -> Result<Expr, FormFault>
    ensures exact { Gives (budgets.choice_to (budgets.expression_to depth) budget tokens.old)
        result tokens.new }
{
    word(tokens, b"if")?;
    let cond = Boxed::new(alloc, condition(alloc, tokens, depth, budget)?)?;
    word(tokens, b"then")?;
    let yes = Boxed::new(alloc, expression(alloc, tokens, depth, budget)?)?;
    word(tokens, b"else")?;
    let no = Boxed::new(alloc, expression(alloc, tokens, depth, budget)?)?;
    Ok(Expr::If { cond, yes, no })
}

/// EXPR over those within it.
#[cycle(reading)]
#[tactic(auto, unfolding(crate::specs::Budgets::whole_to))]
fn whole(
    alloc: Global,
    tokens: &mut Lexemes<'_>,
    depth: usize,
    budget: usize,
) -> Result<Expr, FormFault>
    ensures exact { Gives (budgets.whole_to (budgets.expression_to depth) budget tokens.old)
        result tokens.new }
{
    if tokens.comes(TokenKind::Word, b"if") {
        choice(alloc, tokens, depth, budget.saturating_sub(1))
    } else {
        sum(alloc, tokens, depth, budget)
    }
}

/// EXPR
#[cycle(reading)]
pub fn expression(
    alloc: Global,
    tokens: &mut Lexemes<'_>,
    depth: usize,
    budget: usize,
) -> Result<Expr, FormFault>
    ensures exact { Gives (budgets.expression_to depth budget tokens.old) result tokens.new }
{
    if depth == 0 {
        return Err(FormFault::NoForm);
    }
    if budget == 0 {
        return Err(FormFault::NoForm);
    }
    whole(alloc, tokens, depth - 1, budget)
}
