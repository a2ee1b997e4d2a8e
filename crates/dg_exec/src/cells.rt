//! The cells of producers, in order of instance and slot.

ghost use Rattle.std.specs.Prelude.{◌≡◌, ◌++◌, [], suc, map, IfOk, OnOk};
ghost use Rattle.dg_exec.specs.Tables as spec;

use dg_eval::World;
use dg_slots::{CellKind, Plan, Slot};
use dg_types::NoMemory;
use indexmap::IndexSet;
use std::alloc::Global;

/// A cell: a slot in an instance, by their numbers.
#[derive(Clone, Copy, PartialEq, Eq, Hash)]
pub struct CellName {
    pub inst: u32,
    pub slot: u32,
}

/// The next number. A document of at most 4 MiB never comes to 2^32 of what is counted here.
fn next(number: u32) -> Result<u32, NoMemory>
    ensures exact { IfOk result (λ n. n ≡ suc number) }
{
    number.checked_add(1).ok_or(NoMemory)
}

/// Whether a slot is a producer of this class.
fn is_producer_of(slot: &Slot, class: u32) -> bool
    ensures exact { result ≡ spec.is_producer_slot class slot.now }
{
    slot.class == class && matches!(slot.cell, CellKind::Producing)
}

/// The producers of a class, by the numbers of their slots.
fn producers_of(alloc: Global, plan: &Plan, class: u32) -> Result<Vec<u32>, NoMemory>
    ensures exact { IfOk result (λ v. v.items ≡ spec.producers_of class plan.now.slots) }
{
    let mut producers = Vec::new(alloc);
    let mut number = 0;
    for slot in plan.slots.as_slice() {
        if is_producer_of(slot, class) {
            producers.push(number)?;
        }
        number = next(number)?;
    }
    Ok(producers)
}

/// The producers of each of so many classes.
fn producers_by_class(alloc: Global, plan: &Plan, classes: u32) -> Result<Vec<Vec<u32>>, NoMemory>
    ensures exact { IfOk result (λ rows. spec.AreRows plan.now.slots
        (map (λ row. row.items) rows.items)) }
{
    let mut rows = Vec::new(alloc);
    for class in 0..classes {
        rows.push(producers_of(alloc, plan, class)?)?;
    }
    Ok(rows)
}

/// Adds the cells of these slots in an instance.
fn add_cells(inst: u32, slots: &[u32], cells: &mut Vec<CellName>) -> Result<(), NoMemory>
    ensures exact { OnOk result (cells.new.items
        ≡ cells.old.items ++ map (spec.cell_at inst) slots.now) }
{
    for slot in slots {
        cells.push(CellName { inst, slot: *slot })?;
    }
    Ok(())
}

/// Adds the cells of an instance of this class. The rows have the producers of most classes.
fn add_cells_of(
    alloc: Global,
    plan: &Plan,
    rows: &[Vec<u32>],
    inst: u32,
    class: u32,
    cells: &mut Vec<CellName>,
) -> Result<(), NoMemory>
    requires rows { spec.AreRows plan.now.slots (map (λ row. row.items) rows.now) }
    ensures exact { OnOk result (cells.new.items
        ≡ cells.old.items ++ spec.cells_of plan.now.slots (inst, class)) }
{
    if let Some(row) = rows.get(class as usize) {
        add_cells(inst, row.as_slice(), cells)?;
        return Ok(());
    }
    let row = producers_of(alloc, plan, class)?;
    add_cells(inst, row.as_slice(), cells)?;
    Ok(())
}

/// The cells of all producers.
pub(crate) fn producer_cells(
    alloc: Global,
    plan: &Plan,
    world: &World,
) -> Result<Vec<CellName>, NoMemory>
    ensures exact { IfOk result (λ cells. cells.items
        ≡ spec.all_cells plan.now.slots world.now.class) }
{
    let count = plan.entries.len().min(u32::MAX as usize) as u32;
    let rows = producers_by_class(alloc, plan, count)?;
    let mut cells = Vec::new(alloc);
    let mut inst = 0;
    for class in world.class.as_slice() {
        add_cells_of(alloc, plan, rows.as_slice(), inst, *class, &mut cells)?;
        inst = next(inst)?;
    }
    Ok(cells)
}

/// Adds a cell, unless it is there.
pub(crate) fn add(cells: &mut IndexSet<CellName>, cell: CellName) -> Result<(), NoMemory>
    ensures exact { OnOk result (cells.new.keys ≡ spec.with_cell cells.old.keys cell) }
{
    cells.insert(cell)?;
    Ok(())
}

/// Whether a cell is there.
pub(crate) fn has(cells: &IndexSet<CellName>, cell: CellName) -> bool
    ensures exact { result ≡ spec.has_cell cells.now.keys cell }
{
    cells.contains(&cell)
}

/// The same cells, each once.
pub(crate) fn table_of(alloc: Global, cells: &[CellName]) -> Result<IndexSet<CellName>, NoMemory>
    ensures exact { IfOk result (λ table. table.keys ≡ spec.with_cells [] cells.now) }
{
    let mut table = IndexSet::new(alloc);
    for cell in cells {
        add(&mut table, *cell)?;
    }
    Ok(table)
}
