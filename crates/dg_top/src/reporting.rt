//! The report of an accepted document, written in windows: what is made of it at a time is the
//! lines of at most 256 replies.

ghost use Rattle.std.specs.Prelude.{◌≡◌, ◌≤◌, ◌<◌, ◌^◌, [], length, IfOk, IfErr, OnOk};
ghost use Rattle.std.specs.Io.KnownBytes.{Appends};
ghost use Rattle.dg_decl.specs.Bounds.{IsBounded};
ghost use Rattle.dg_decl.specs.Diagnostics.{IsAccepted};
ghost use Rattle.dg_eval.specs.Report.{cells_line, report};
ghost use Rattle.dg_requests.specs.Contexts.{IsContextOf};
ghost use Rattle.dg_slots.specs.Sessions.{asks_of};
ghost use Rattle.dg_tree.specs.Stores.{nothing};
ghost use Rattle.dg_top.specs.Ends.{StopsEarly};
ghost use Rattle.dg_top.specs.Prepared.{IsPrepared};
ghost use Rattle.dg_top.specs.Progress.{first_lines, AreAsked};

use crate::asking::{count_of, lines_between};
use crate::marker::{Of, RunsDoc};
use crate::output::write_all;
use crate::preparing::{Prepared, prepare};
use crate::stream_fault::StreamFault;
use dg_decl::Doc;
use dg_eval::World;
use dg_io::Sink;
use dg_names::Names;
use dg_report::{ClassNames, Numbers};
use dg_slots::{Ask, Plan};
use dg_tree::{Tree, world_from};
use dg_types::NoMemory;
use itoa::Buffer;
use std::alloc::Global;
use std::marker::Brand;

/// How many replies are made before their lines are written.
const WINDOW: usize = 256;

/// Writes the lines of the replies to all asks.
fn write_lines<D: RunsDoc, K: Sink>(
    alloc: Global,
    plan: &Plan,
    world: &World,
    names: &ClassNames<'_>,
    asks: &[Ask],
    tree: &mut Tree<Of<D>>,
    sink: &mut K,
) -> Result<(), StreamFault>
    requires context { IsContextOf D.document plan.now world.now }
    requires names { names.now ≡ D.document }
    requires asks { asks.now ≡ asks_of D.document }
    requires few { length asks.now < 2 ^ 31 }
    requires empty { tree.old ≡ nothing }
    ensures exact { OnOk result (Appends (K.written sink.old) (K.written sink.new)
        (first_lines D.document (length asks.now)).text) }
    ensures asked { OnOk result (AreAsked D.document (length asks.now) tree.new.asked) }
    ensures kept { OnOk result (K.faults sink.new ≡ K.faults sink.old) }
    ensures cause { IfErr result (StopsEarly (report D.document) (K.written sink.old)
        (K.written sink.new) (K.faults sink.old) (K.faults sink.new)) }
    ensures faults { K.faults sink.old ≤ K.faults sink.new }
{
    let mut numbers = Numbers::new(alloc);
    let mut start = 0;
    while start < asks.len() {
        let end = asks.len().min(start + WINDOW);
        let text = lines_between::<D>(
            alloc,
            plan,
            world,
            names,
            asks,
            start,
            end,
            tree,
            &mut numbers,
        )?;
        write_all(sink, text.as_slice())?;
        start = end;
    }
    Ok(())
}

/// The last line of a report.
fn count_line(alloc: Global, count: usize) -> Result<Vec<u8>, NoMemory>
    ensures exact { IfOk result (λ line. line.items ≡ cells_line count) }
{
    let mut buffer = Buffer::new();
    let mut line = Vec::from_slice(alloc, b"cells ")?;
    line.extend_from_slice(buffer.format(count).as_bytes())?;
    line.push(b'\n')?;
    Ok(line)
}

/// Writes the lines of the replies to all asks, and how many cells they use.
fn write_replies<D: RunsDoc, K: Sink>(
    alloc: Global,
    plan: &Plan,
    world: &World,
    names: &ClassNames<'_>,
    asks: &[Ask],
    tree: &mut Tree<Of<D>>,
    sink: &mut K,
) -> Result<(), StreamFault>
    requires context { IsContextOf D.document plan.now world.now }
    requires names { names.now ≡ D.document }
    requires asks { asks.now ≡ asks_of D.document }
    requires few { length asks.now < 2 ^ 31 }
    requires empty { tree.old ≡ nothing }
    ensures exact { OnOk result (Appends (K.written sink.old) (K.written sink.new)
        (report D.document)) }
    ensures kept { OnOk result (K.faults sink.new ≡ K.faults sink.old) }
    ensures cause { IfErr result (StopsEarly (report D.document) (K.written sink.old)
        (K.written sink.new) (K.faults sink.old) (K.faults sink.new)) }
    ensures faults { K.faults sink.old ≤ K.faults sink.new }
{
    write_lines::<D, K>(alloc, plan, world, names, asks, tree, sink)?;
    let line = count_line(alloc, count_of::<D>(tree))?;
    write_all(sink, line.as_slice())?;
    Ok(())
}

/// Writes the report of the document of this name.
fn write_named<D: RunsDoc, K: Sink>(
    alloc: Global,
    d: &Doc,
    p: &Prepared,
    sink: &mut K,
) -> Result<(), StreamFault>
    requires named { d.now ≡ D.document }
    requires bounded { IsBounded D.document }
    requires accepted { IsAccepted D.document }
    requires prepared { IsPrepared D.document p.now }
    ensures exact { OnOk result (Appends (K.written sink.old) (K.written sink.new)
        (report D.document)) }
    ensures kept { OnOk result (K.faults sink.new ≡ K.faults sink.old) }
    ensures cause { IfErr result (StopsEarly (report D.document) (K.written sink.old)
        (K.written sink.new) (K.faults sink.old) (K.faults sink.new)) }
    ensures faults { K.faults sink.old ≤ K.faults sink.new }
{
    let declared = Names::of(alloc, d)?;
    let names = ClassNames::of(alloc, &declared)?;
    let world = world_from(alloc, &p.session, p.links.as_slice())?;
    let mut tree = Tree::<Of<D>>::new(alloc, &p.session, p.links.as_slice())?;
    let asks = p.session.asks.as_slice();
    write_replies::<D, K>(alloc, &p.plan, &world, &names, asks, &mut tree, sink)
}

/// Writes the report of an accepted document.
pub fn write_report<K: Sink>(alloc: Global, d: &Doc, sink: &mut K) -> Result<(), StreamFault>
    requires bounded { IsBounded d.now }
    requires accepted { IsAccepted d.now }
    ensures exact { OnOk result (Appends (K.written sink.old) (K.written sink.new)
        (report d.now)) }
    ensures kept { OnOk result (K.faults sink.new ≡ K.faults sink.old) }
    ensures cause { IfErr result (StopsEarly (report d.now) (K.written sink.old)
        (K.written sink.new) (K.faults sink.old) (K.faults sink.new)) }
    ensures faults { K.faults sink.old ≤ K.faults sink.new }
{
    let prepared = prepare(alloc, d)?;
    write_named::<Brand, K>(alloc, d, &prepared, sink)
}
