//! The bodies of members: expressions and decision trees.

ghost use Rattle.std.specs.Prelude.{◌≡◌};
ghost use Rattle.dg_lex.specs.Bytes.{line_limit};
ghost use Rattle.dg_decl.specs.ExpressionForms as forms;
ghost use Rattle.dg_reader.specs.Budgets as budgets;
ghost use Rattle.dg_reader.specs.Gives.{Gives};

use crate::constants::NESTING_LIMIT;
use crate::expressions::{condition, expression, sum};
use crate::fault::FormFault;
use crate::lexemes::Lexemes;
use crate::nesting::{nests_within, tree_nests_within};
use crate::parts::{name, word};
use dg_decl::{Cond, Expr, Tree};
use dg_lex::TokenKind;
use sqlite_items::Boxed;
use std::alloc::Global;

/// As many expressions stand around one another in a line as it has bytes, at most.
const DEPTH_LIMIT: usize = 4096;

/// The body of a member that gives a value.
pub fn body(alloc: Global, tokens: &mut Lexemes<'_>) -> Result<Expr, FormFault>
    ensures exact { Gives (forms.body tokens.old) result tokens.new }
{
    let read = expression(alloc, tokens, DEPTH_LIMIT, NESTING_LIMIT)?;
    if !nests_within(&read, NESTING_LIMIT) {
        return Err(FormFault::NoForm);
    }
    Ok(read)
}

#[tactic(auto, unfolding(dg_decl::specs::ExpressionForms::awaited))]
fn awaited(alloc: Global, tokens: &mut Lexemes<'_>) -> Result<Tree, FormFault>
    ensures exact { Gives (forms.awaited tokens.old) result tokens.new }
{
    word(tokens, b"await")?;
    Ok(Tree::Await(name(alloc, tokens)?))
}

#[tactic(auto, unfolding(crate::specs::Budgets::leaf_to))]
fn leaf(alloc: Global, tokens: &mut Lexemes<'_>) -> Result<Tree, FormFault>
    ensures exact { Gives (budgets.leaf_to tokens.old) result tokens.new }
{
    Ok(Tree::Leaf(sum(alloc, tokens, DEPTH_LIMIT, NESTING_LIMIT)?))
}

/// if COND then TREE else TREE
#[cycle(trees)]
#[tactic(auto, unfolding(crate::specs::Budgets::tree_choice_to))]
fn tree_choice(alloc: Global, tokens: &mut Lexemes<'_>, depth: usize) -> Result<Tree, FormFault>
    ensures exact { Gives (budgets.tree_choice_to (budgets.tree_to depth) tokens.old) result
        tokens.new }
{
    word(tokens, b"if")?;
    let cond = condition(alloc, tokens, DEPTH_LIMIT, NESTING_LIMIT)?;
    word(tokens, b"then")?;
    let yes = tree(alloc, tokens, depth)?;
    word(tokens, b"else")?;
    let no = tree(alloc, tokens, depth)?;
    Ok(Tree::If {
        cond,
        yes: Boxed::new(alloc, yes)?,
        no: Boxed::new(alloc, no)?,
    })
}

/// TREE over those within it.
#[cycle(trees)]
#[tactic(auto, unfolding(crate::specs::Budgets::tree_over_to))]
fn tree_over(alloc: Global, tokens: &mut Lexemes<'_>, depth: usize) -> Result<Tree, FormFault>
    ensures exact { Gives (budgets.tree_over_to (budgets.tree_to depth) tokens.old) result
        tokens.new }
{
    if tokens.comes(TokenKind::Word, b"if") {
        tree_choice(alloc, tokens, depth)
    } else if tokens.comes(TokenKind::Word, b"await") {
        awaited(alloc, tokens)
    } else {
        leaf(alloc, tokens)
    }
}

/// TREE, with at most so many others around one another in it.
#[cycle(trees)]
fn tree(alloc: Global, tokens: &mut Lexemes<'_>, depth: usize) -> Result<Tree, FormFault>
    ensures exact { Gives (budgets.tree_to depth tokens.old) result tokens.new }
{
    if depth == 0 {
        return Err(FormFault::NoForm);
    }
    tree_over(alloc, tokens, depth - 1)
}

/// The body of a producer.
pub fn tree_body(alloc: Global, tokens: &mut Lexemes<'_>) -> Result<Tree, FormFault>
    ensures exact { Gives (forms.tree_body tokens.old) result tokens.new }
{
    let read = tree(alloc, tokens, NESTING_LIMIT)?;
    if !tree_nests_within(&read, NESTING_LIMIT) {
        return Err(FormFault::NoForm);
    }
    Ok(read)
}
