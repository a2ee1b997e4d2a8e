//! The replies to asks, and their lines.

ghost use Rattle.std.specs.Prelude.{◌≡◌, ◌≤◌, ◌<◌, ◌^◌, suc, Some, length, slice_get, IfOk};
ghost use Rattle.dg_eval.specs.Asks.{answer_to};
ghost use Rattle.dg_report.specs.Held.{HoldsReply};
ghost use Rattle.dg_requests.specs.Contexts.{IsContextOf};
ghost use Rattle.dg_slots.specs.Sessions.{asks_of};
ghost use Rattle.dg_tree.specs.Stores.{IsSound};
ghost use Rattle.dg_value.specs.Contents.{content_in};
ghost use Rattle.dg_top.specs.Progress.{first_lines, AreAsked, AreLinesBetween};

use crate::marker::{Of, RunsDoc};
use dg_eval::World;
use dg_evaluator::eval_ask;
use dg_promises::{asks_are_answered, held_are_used, replies_are_whole, uses_end};
use dg_report::{ClassNames, Numbers, reply_text};
use dg_slots::{Ask, Plan};
use dg_tree::Tree;
use dg_types::NoMemory;
use dg_value::Reply;
use std::alloc::Global;

/// How many cells a tree stores. All that it stores is what the document says.
pub fn count_of<D: RunsDoc>(tree: &Tree<Of<D>>) -> usize
    ensures exact { result ≡ length tree.now.cells }
    ensures sound { IsSound D.document tree.now }
{
    tree.count()
}

/// The reply to the ask of this index. The tree stores all cells to which it comes.
fn reply_to<D: RunsDoc>(
    alloc: Global,
    plan: &Plan,
    world: &World,
    index: u32,
    ask: &Ask,
    tree: &mut Tree<Of<D>>,
) -> Result<Reply, NoMemory>
    requires context { IsContextOf D.document plan.now world.now }
    requires few { index < 2 ^ 31 }
    requires ask { slice_get (asks_of D.document) index ≡ Some ask.now }
    requires asked { AreAsked D.document index tree.old.asked }
    ensures exact { IfOk result (λ r. answer_to D.document (suc index) ask.now ≡ Some r) }
    ensures held { IfOk result (λ r. HoldsReply D.document (content_in tree.new.cells) r) }
    ensures sound { IfOk result (λ _. IsSound D.document tree.new) }
    ensures asked { IfOk result (λ _. AreAsked D.document (suc index) tree.new.asked) }
{
    asks_are_answered();
    uses_end();
    held_are_used();
    replies_are_whole();
    let reply = eval_ask(alloc, plan, world, index + 1, ask, tree)?;
    let _stored = count_of::<D>(tree);
    Ok(reply)
}

/// The line of the reply to the ask of this index, behind the lines of those before it.
fn ask_line<D: RunsDoc>(
    alloc: Global,
    plan: &Plan,
    world: &World,
    names: &ClassNames<'_>,
    index: u32,
    ask: &Ask,
    tree: &mut Tree<Of<D>>,
    numbers: &mut Numbers,
) -> Result<Vec<u8>, NoMemory>
    requires context { IsContextOf D.document plan.now world.now }
    requires names { names.now ≡ D.document }
    requires few { index < 2 ^ 31 }
    requires ask { slice_get (asks_of D.document) index ≡ Some ask.now }
    requires asked { AreAsked D.document index tree.old.asked }
    requires appeared { numbers.old ≡ (first_lines D.document index).seen }
    ensures exact { IfOk result (λ line.
        AreLinesBetween D.document index (suc index) line.items) }
    ensures asked { IfOk result (λ _. AreAsked D.document (suc index) tree.new.asked) }
    ensures appeared { IfOk result (λ _.
        numbers.new ≡ (first_lines D.document (suc index)).seen) }
{
    let reply = reply_to::<D>(alloc, plan, world, index, ask, tree)?;
    let line = reply_text(alloc, numbers, names, plan, tree, index + 1, &reply)?;
    tree.settle();
    Ok(line)
}

/// The lines of the replies to the asks from one index up to another, behind the lines of those
/// before them.
pub fn lines_between<D: RunsDoc>(
    alloc: Global,
    plan: &Plan,
    world: &World,
    names: &ClassNames<'_>,
    asks: &[Ask],
    from: usize,
    to: usize,
    tree: &mut Tree<Of<D>>,
    numbers: &mut Numbers,
) -> Result<Vec<u8>, NoMemory>
    requires context { IsContextOf D.document plan.now world.now }
    requires names { names.now ≡ D.document }
    requires asks { asks.now ≡ asks_of D.document }
    requires few { length asks.now < 2 ^ 31 }
    requires within { (from ≤ to) × (to ≤ length asks.now) }
    requires asked { AreAsked D.document from tree.old.asked }
    requires appeared { numbers.old ≡ (first_lines D.document from).seen }
    ensures exact { IfOk result (λ text. AreLinesBetween D.document from to text.items) }
    ensures asked { IfOk result (λ _. AreAsked D.document to tree.new.asked) }
    ensures appeared { IfOk result (λ _. numbers.new ≡ (first_lines D.document to).seen) }
{
    let mut text = Vec::new(alloc);
    for index in from..to {
        let line = ask_line::<D>(
            alloc,
            plan,
            world,
            names,
            index as u32,
            &asks[index],
            tree,
            numbers,
        )?;
        text.extend_from_slice(line.as_slice())?;
    }
    Ok(text)
}
