//! How a reply is written.

ghost use Rattle.std.specs.Prelude.{◌≡◌, [], None, IfOk, OnErr, OnOk, slice_get};
ghost use Rattle.std.specs.Option.{option_map_or};
ghost use Rattle.dg_eval.specs.Report as report;
ghost use Rattle.dg_report.specs.Held.{HoldsReply};
ghost use Rattle.dg_report.specs.Output as spec;
ghost use Rattle.dg_slots.specs.Plans.{plan_of};
ghost use Rattle.dg_value.specs.declared.value.Reply.TheVariants as reply;

use crate::classes::ClassNames;
use crate::numbers::Numbers;
use crate::output::Output;
use crate::values::push_value;
use dg_slots::Plan;
use dg_types::NoMemory;
use dg_value::{Contents, Failure, Reply, Value};
use std::alloc::Global;
use std::mem;

/// Through how many cells the content of a cell leads at most.
const MOST_CELLS: u32 = 128;

/// Appends the value of a reply, cut where it is longer than a reply may be. The part that is cut
/// off takes no memory but that of its objects' numbers.
fn push_cut<C: Contents>(
    names: &ClassNames<'_>,
    cells: &C,
    v: &Value,
    out: &mut Output,
) -> Result<(), NoMemory>
    requires held { HoldsReply names.now (C.content cells.now) (reply.Value v.now) }
    requires whole { out.old.limit ≡ None }
    ensures exact { OnOk result (out.new
        ≡ spec.followed out.old (report.reply_text names.now (reply.Value v.now))) }
    ensures kept { out.new.before ≡ out.old.before }
{
    let start = out.begin_value();
    push_value(names, cells, MOST_CELLS, v, out)?;
    out.cut_behind(start)?;
    Ok(())
}

/// Appends the name of the slot whose body failed.
fn push_origin(p: &Plan, f: &Failure, out: &mut Output) -> Result<(), NoMemory>
    ensures exact { OnOk result (out.new ≡ spec.with_text out.old
        (option_map_or (λ s. s.name) (slice_get p.now.slots f.now.origin) [])) }
    ensures kept { out.new.before ≡ out.old.before }
{
    match p.slots.as_slice().get(f.origin as usize) {
        Some(slot) => out.push(slot.name.as_slice()),
        None => out.push(b""),
    }
}

/// Appends a failure.
fn push_failure<'a>(
    names: &ClassNames<'a>,
    p: &Plan,
    f: &Failure,
    out: &mut Output,
) -> Result<(), NoMemory>
    requires plan { p.now ≡ plan_of names.now }
    ensures exact { OnOk result (out.new
        ≡ spec.with_text out.old (report.failure_text names.now f.now)) }
    ensures kept { out.new.before ≡ out.old.before }
{
    out.push(b"failed ")?;
    push_origin(p, f, out)?;
    out.push(b" ")?;
    out.push_quoted(f.message.get().as_slice())?;
    Ok(())
}

/// Appends a reply.
#[tactic(auto, using(crate::proofs::ReplyLemmas::reply_forms))]
fn push_reply<C: Contents>(
    names: &ClassNames<'_>,
    p: &Plan,
    cells: &C,
    r: &Reply,
    out: &mut Output,
) -> Result<(), NoMemory>
    requires plan { p.now ≡ plan_of names.now }
    requires held { HoldsReply names.now (C.content cells.now) r.now }
    requires whole { out.old.limit ≡ None }
    ensures exact { OnOk result (out.new
        ≡ spec.followed out.old (report.reply_text names.now r.now)) }
    ensures kept { out.new.before ≡ out.old.before }
{
    match r {
        Reply::Value(v) => push_cut(names, cells, v, out),
        Reply::Failed(f) => push_failure(names, p, f, out),
        Reply::Absent => out.push(b"absent"),
    }
}

/// Appends the line of a reply.
#[tactic(auto, unfolding(crate::specs::Output::with_text))]
fn push_line<C: Contents>(
    names: &ClassNames<'_>,
    p: &Plan,
    cells: &C,
    number: u32,
    r: &Reply,
    out: &mut Output,
) -> Result<(), NoMemory>
    requires plan { p.now ≡ plan_of names.now }
    requires held { HoldsReply names.now (C.content cells.now) r.now }
    requires whole { out.old.limit ≡ None }
    ensures exact { OnOk result (out.new
        ≡ spec.followed out.old (report.reply_line names.now number r.now)) }
    ensures kept { out.new.before ≡ out.old.before }
{
    out.push_decimal(number as usize)?;
    out.push(b" ")?;
    push_reply(names, p, cells, r, out)?;
    out.push(b"\n")?;
    Ok(())
}

/// The line of the reply to the ask of this number, counted from 1, behind the replies whose
/// objects are `n`. Objects that appear in it are in `n` afterwards, also those of the part of a
/// long value that is cut off. After NoMemory `n` is as before.
#[tactic(auto, unfolding(crate::specs::Output::taken))]
pub fn reply_text<C: Contents>(
    alloc: Global,
    n: &mut Numbers,
    names: &ClassNames<'_>,
    p: &Plan,
    c: &C,
    number: u32,
    r: &Reply,
) -> Result<Vec<u8>, NoMemory>
    requires plan { p.now ≡ plan_of names.now }
    requires held { HoldsReply names.now (C.content c.now) r.now }
    ensures exact { IfOk result (λ text.
        (text.items ≡ (report.reply_line names.now number r.now n.old).text)
        × (n.new ≡ (report.reply_line names.now number r.now n.old).seen)) }
    ensures kept { OnErr result (n.new ≡ n.old) }
{
    let mut out = Output::behind(alloc, mem::replace(n, Numbers::new(alloc)));
    match push_line(names, p, c, number, r, &mut out) {
        Ok(()) => {
            let (text, numbers) = out.into_parts();
            *n = numbers;
            Ok(text)
        }
        Err(fault) => {
            *n = out.into_numbers();
            Err(fault)
        }
    }
}
