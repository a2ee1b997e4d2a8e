use crate::{CellName, jobs_of};
use dg_slots::{Ask, Body, CellKind, Input, Inst, Plan, Session, Slot};
use dg_types::{Mode, NoMemory, Text};
use sqlite_items::Items;
use std::alloc::Global;
use std::test::Fail;

/// A slot of class 0 with these inputs.
fn slot(alloc: Global, cell: CellKind, inputs: &[Input]) -> Result<Slot, NoMemory> {
    Ok(Slot {
        class: 0,
        name: Text::from_slice(alloc, b"")?,
        cell,
        inputs: Items::from_slice(alloc, inputs)?,
        body: Body::EntryOf,
    })
}

/// A request for another slot in the same instance.
fn input(mode: Mode, slot: u32) -> Input {
    Input {
        mode,
        slot,
        level: 0,
        dep: None,
    }
}

/// A class with an entry point, two plain slots and two producers. The entry asks for the first
/// plain slot, and that one for the other and for the producers; one way to each is deferred.
fn plan(alloc: Global) -> Result<Plan, NoMemory> {
    let instance = Mode::Instance;
    let produced = Mode::Produced;
    let mut slots = Items::new(alloc);
    slots.push(slot(alloc, CellKind::Plain, &[input(instance, 1)])?)?;
    let first = [
        input(Mode::Provider, 4),
        input(produced, 3),
        input(instance, 2),
    ];
    slots.push(slot(alloc, CellKind::Plain, &first)?)?;
    slots.push(slot(alloc, CellKind::Plain, &[input(instance, 3)])?)?;
    slots.push(slot(alloc, CellKind::Producing, &[input(instance, 4)])?)?;
    slots.push(slot(alloc, CellKind::Producing, &[])?)?;
    let mut entries = Items::new(alloc);
    entries.push(Items::from_slice(alloc, &[0])?)?;
    Ok(Plan { slots, entries })
}

/// Two instances of the class, the second asked twice.
fn session(alloc: Global) -> Result<Session, NoMemory> {
    let mut insts = Items::new(alloc);
    let mut asks = Items::new(alloc);
    for _ in 0..2 {
        insts.push(Inst {
            class: 0,
            parent: None,
            bound: Items::new(alloc),
        })?;
        asks.push(Ask {
            inst: 1,
            entry: 0,
            steps: Items::new(alloc),
        })?;
    }
    Ok(Session { insts, asks })
}

#[test]
fn jobs_need_the_first_producers_on_direct_walks(rt: HostRuntime) -> Result<(), Fail> {
    let plan = plan(rt.alloc())?;
    let session = session(rt.alloc())?;
    let links = [Items::new(rt.alloc()), Items::new(rt.alloc())];
    let jobs = jobs_of(rt.alloc(), &plan, &session, &links)?;
    assert_eq!(rt; jobs.cells.len(), 4);
    assert!(rt; jobs.cells[2] == CellName { inst: 1, slot: 3 });
    assert_eq!(rt; jobs.inputs.len(), 6);
    assert_eq!(rt; jobs.inputs[0].as_slice(), [4].as_slice());
    assert_eq!(rt; jobs.inputs[1].as_slice(), [4].as_slice());
    assert_eq!(rt; jobs.inputs[2].as_slice(), [3].as_slice());
    assert!(rt; jobs.inputs[3].is_empty());
    assert_eq!(rt; jobs.inputs[4].as_slice(), [5].as_slice());
    Ok(())
}
