//! The jobs of a document.

ghost use Rattle.std.specs.Prelude.{
  ◌≡◌,
  ◌<◌,
  ◌^◌,
  ◌+◌,
  ◌++◌,
  length,
  vec_len,
  map,
  Some,
  All,
  IfOk,
  OnOk,
};
ghost use Rattle.std.specs.List.{filter_map};
ghost use Rattle.dg_decl.specs.declared.document.Doc.{Doc};
ghost use Rattle.dg_decl.specs.declared.graph.Node.{Node};
ghost use Rattle.dg_slots.specs.Links.{links_of};
ghost use Rattle.dg_slots.specs.Plans.{plan_of};
ghost use Rattle.dg_slots.specs.Sessions.{session_of};
ghost use Rattle.dg_decl.specs.Diagnostics.{IsAccepted};
ghost use Rattle.dg_eval.specs.Meaning.{node_in};
ghost use Rattle.dg_requests.specs.Contexts.{IsContextOf};
ghost use Rattle.dg_exec.specs.Jobs as spec;
ghost use Rattle.dg_exec.specs.Numbers as numbers;
ghost use Rattle.dg_exec.specs.Tables.{as_cell};

use crate::cells::{CellName, producer_cells, table_of};
use crate::walks::reached;
use dg_eval::World;
use dg_slots::{Ask, Plan, Session};
use dg_tree::world_from;
use dg_types::NoMemory;
use indexmap::IndexSet;
use sqlite_items::Items;
use std::alloc::Global;

/// The jobs of a document: those of its asks, in order, and then those of its producers' cells.
#[derive(Drop)]
pub struct Jobs {
    /// For each job the numbers of those that it needs.
    pub inputs: Vec<Vec<u32>>,
    /// The cells that the jobs behind those of the asks make.
    pub cells: Vec<CellName>,
}

/// The number of the job of the cell at a place, behind so many asks. A document of at most 4 MiB
/// never comes to 2^32 jobs.
fn number(asks: usize, place: usize) -> Result<u32, NoMemory>
    ensures exact { IfOk result (λ n. n ≡ asks + place) }
{
    if asks <= u32::MAX as usize && place <= u32::MAX as usize - asks {
        Ok((asks + place) as u32)
    } else {
        Err(NoMemory)
    }
}

/// The number of the job of a cell, where it is among those of producers.
fn job_of(table: &IndexSet<CellName>, asks: usize, cell: CellName) -> Result<Option<u32>, NoMemory>
    ensures exact { IfOk result (λ job. job ≡ numbers.job_in asks table.now.keys cell) }
{
    match table.get_index_of(&cell) {
        Some(place) => Ok(Some(number(asks, place)?)),
        None => Ok(None),
    }
}

/// The numbers of the jobs of cells.
fn jobs_of_cells(
    alloc: Global,
    table: &IndexSet<CellName>,
    asks: usize,
    cells: &[CellName],
) -> Result<Vec<u32>, NoMemory>
    ensures exact { IfOk result (λ jobs. jobs.items
        ≡ filter_map (numbers.job_in asks table.now.keys) cells.now) }
{
    let mut jobs = Vec::new(alloc);
    for cell in cells {
        if let Some(job) = job_of(table, asks, *cell)? {
            jobs.push(job)?;
        }
    }
    Ok(jobs)
}

/// The jobs that a slot in an instance needs.
fn needed(
    alloc: Global,
    plan: &Plan,
    world: &World,
    table: &IndexSet<CellName>,
    asks: usize,
    inst: u32,
    slot: u32,
) -> Result<Vec<u32>, NoMemory>
    ensures exact { IfOk result (λ jobs. (doc : Doc) → IsContextOf doc plan.now world.now
        → numbers.IsTable doc asks table.now.keys → (n : Node) → node_in doc inst slot ≡ Some n
        → jobs.items ≡ spec.needed doc inst n) }
{
    let found = reached(alloc, plan, world, inst, slot)?;
    let jobs = jobs_of_cells(alloc, table, asks, found.as_slice())?;
    Ok(jobs)
}

/// The slot of the entry that an ask asks for, by lists.
fn entry_slot(plan: &Plan, world: &World, ask: &Ask) -> Option<u32>
    ensures exact { result ≡ numbers.entry_there plan.now world.now ask.now }
{
    let Some(class) = world.class.get(ask.inst as usize) else {
        return None;
    };
    match plan.entries.get(*class as usize) {
        Some(slots) => slots.get(ask.entry as usize).copied(),
        None => None,
    }
}

/// The jobs that an ask needs.
fn needed_by_ask(
    alloc: Global,
    plan: &Plan,
    world: &World,
    table: &IndexSet<CellName>,
    asks: usize,
    ask: &Ask,
) -> Result<Vec<u32>, NoMemory>
    ensures exact { IfOk result (λ jobs. (doc : Doc) → IsContextOf doc plan.now world.now
        → numbers.IsTable doc asks table.now.keys → jobs.items ≡ spec.needed_by_ask doc ask.now) }
{
    match entry_slot(plan, world, ask) {
        Some(slot) => {
            let jobs = needed(alloc, plan, world, table, asks, ask.inst, slot)?;
            Ok(jobs)
        }
        None => Ok(Vec::new(alloc)),
    }
}

/// The jobs that each ask needs.
fn needed_by_asks(
    alloc: Global,
    plan: &Plan,
    world: &World,
    table: &IndexSet<CellName>,
    session: &Session,
) -> Result<Vec<Vec<u32>>, NoMemory>
    ensures exact { IfOk result (λ rows. (doc : Doc) → IsContextOf doc plan.now world.now
        → numbers.IsTable doc (length session.now.asks) table.now.keys
        → map (λ row. row.items) rows.items ≡ map (spec.needed_by_ask doc) session.now.asks) }
{
    let asks = session.asks.len();
    let mut rows = Vec::new(alloc);
    for ask in session.asks.as_slice() {
        rows.push(needed_by_ask(alloc, plan, world, table, asks, ask)?)?;
    }
    Ok(rows)
}

/// Adds the jobs that the job of each cell needs.
fn add_needed_by_cells(
    alloc: Global,
    plan: &Plan,
    world: &World,
    table: &IndexSet<CellName>,
    asks: usize,
    cells: &[CellName],
    rows: &mut Vec<Vec<u32>>,
) -> Result<(), NoMemory>
    ensures exact { OnOk result ((doc : Doc) → IsContextOf doc plan.now world.now
        → numbers.IsTable doc asks table.now.keys → numbers.AreProducers doc cells.now
        → map (λ row. row.items) rows.new.items ≡ map (λ row. row.items) rows.old.items
        ++ map (numbers.needed_by doc) cells.now) }
{
    for cell in cells {
        rows.push(needed(alloc, plan, world, table, asks, cell.inst, cell.slot)?)?;
    }
    Ok(())
}

/// The jobs of a document, over its world. 2^32 jobs or more are a lack of memory, as in `number`.
fn jobs_over(alloc: Global, plan: &Plan, world: &World, session: &Session) -> Result<Jobs, NoMemory>
    ensures exact { IfOk result (λ jobs. (doc : Doc) → IsContextOf doc plan.now world.now
        → session.now ≡ session_of doc
        → (map (λ row. row.items) jobs.inputs.items ≡ spec.inputs_of_jobs doc)
        × (map as_cell jobs.cells.items ≡ spec.producer_cells doc)) }
    ensures small { IfOk result (λ jobs. vec_len jobs.inputs < 2 ^ 32) }
{
    let cells = producer_cells(alloc, plan, world)?;
    let table = table_of(alloc, cells.as_slice())?;
    let asks = session.asks.len();
    let mut inputs = needed_by_asks(alloc, plan, world, &table, session)?;
    add_needed_by_cells(
        alloc,
        plan,
        world,
        &table,
        asks,
        cells.as_slice(),
        &mut inputs,
    )?;
    if inputs.len() > u32::MAX as usize {
        return Err(NoMemory);
    }
    Ok(Jobs { inputs, cells })
}

/// The jobs of an accepted document, of which these are the plan, the session and the links. Their
/// inputs are such as the core of jobs takes.
pub fn jobs_of(alloc: Global, p: &Plan, s: &Session, links: &[Items<u32>]) -> Result<Jobs, NoMemory>
    ensures exact { IfOk result (λ jobs. (doc : Doc) → IsAccepted doc → p.now ≡ plan_of doc
        → s.now ≡ session_of doc → links.now ≡ links_of doc
        → (map (λ row. row.items) jobs.inputs.items ≡ spec.inputs_of_jobs doc)
        × (map as_cell jobs.cells.items ≡ spec.producer_cells doc)) }
    ensures small { IfOk result (λ jobs. vec_len jobs.inputs < 2 ^ 32) }
    ensures in_range { IfOk result (λ jobs. (doc : Doc) → IsAccepted doc → p.now ≡ plan_of doc
        → s.now ≡ session_of doc → links.now ≡ links_of doc
        → All (λ row. All (λ input. input < vec_len jobs.inputs) row.items) jobs.inputs.items) }
{
    let world = world_from(alloc, s, links)?;
    jobs_over(alloc, p, &world, s)
}
