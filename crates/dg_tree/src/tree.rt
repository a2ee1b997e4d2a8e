//! The store of one thread.

ghost use Rattle.std.specs.Prelude.{◌≡◌, [], ◌∷◌, ◌++◌, length, Some, Contains, IfOk, OnOk, OnErr, slice_get};
ghost use Rattle.dg_slots.specs.Links.{links_of};
ghost use Rattle.dg_slots.specs.Sessions.{session_of};
ghost use Rattle.dg_value.specs.Contents.{content_in};
ghost use Rattle.dg_eval.specs.Runs.{Asked, cell, lazy as lazy_at};
ghost use Rattle.dg_eval.specs.Asks.{asked_by};
ghost use Rattle.dg_eval.specs.World.{chain_of_inst, world_of};
ghost use Rattle.dg_promises.specs.Uses.{used_by_asks};
ghost use Rattle.dg_requests.specs.Scopes.{IsContent};
ghost use Rattle.dg_tree.specs.Stores.{nothing, settled, IsSound};
ghost use Rattle.dg_tree.specs.Tables.{LooksUp};

use crate::keys::{CellKey, LazyKey, Noted};
use crate::parents::up;
use crate::world::world_from;
use dg_eval::World;
use dg_requests::Cells;
use dg_slots::{OfDoc, Session};
use dg_types::NoMemory;
use dg_value::{Build, Contents, Kept, Place};
use indexmap::IndexMap;
use sqlite_items::Items;
use std::alloc::Global;
use std::marker::{Model, PhantomData};

/// The contents of the cells and of the Lazies of a document's instances, each made once, for one
/// thread. Contracts see them in the order in which they were made, and the list of what was asked
/// for: first what `settle` counts as asked for, and then each later call in order, whether it made
/// a content or found one. A content takes the memory of its entry and of its own parts, and each
/// call since the last `settle` 16 bytes. To look one up takes the time of hashing its name, as a
/// rule.
#[derive(Drop)]
pub struct Tree<D: OfDoc> {
    world: World,
    cells: IndexMap<CellKey, Kept>,
    lazies: IndexMap<LazyKey, Kept>,
    /// How many of the cells count as asked for.
    settled_cells: usize,
    /// How many of the Lazies count as asked for.
    settled_lazies: usize,
    /// What was asked for since.
    notes: Vec<Noted>,
    of: PhantomData<D>,
}

impl<D: OfDoc> Model for Tree<D> {
    ghost use Rattle.std.specs.Coded.{codes};
    ghost use Rattle.std.specs.Prelude.{◌≡◌};
    ghost use Rattle.dg_value.specs.contracts.value.Kept as of_kept;
    ghost use Rattle.dg_tree.specs.Stores.{Stored};

    ghost Value = { Stored };

    ghost coded = { Prim.hlevel (codes, of_kept.the_row.coded) };

    ghost use Rattle.dg_eval.specs.World.{world_of as the_world};
    ghost use Rattle.dg_tree.specs.Tables.{stored_in, IsStore};

    ghost view = { λ t. stored_in t.cells.entries t.lazies.entries t.settled_cells t.settled_lazies t.notes.items };

    ghost invariant = { λ t. IsStore D.document t.cells.entries t.lazies.entries t.settled_cells t.settled_lazies t.notes.items × (t.world ≡ the_world D.document) };
}

impl<D: OfDoc> Tree<D> {
    /// A store with no contents. The session and the links are those of the document; of the links
    /// a copy is made.
    pub fn new(alloc: Global, s: &Session, links: &[Items<u32>]) -> Result<Tree<D>, NoMemory>
        requires session { s.now ≡ session_of D.document }
        requires links { links.now ≡ links_of D.document }
        ensures exact { IfOk result (λ t. t ≡ nothing) }
    {
        Ok(Tree {
            world: world_from(alloc, s, links)?,
            cells: IndexMap::new(alloc),
            lazies: IndexMap::new(alloc),
            settled_cells: 0,
            settled_lazies: 0,
            notes: Vec::new(alloc),
            of: PhantomData,
        })
    }

    /// The world of the document.
    pub fn world(&self) -> &World
        ensures exact { result.now ≡ world_of D.document }
    {
        &self.world
    }

    /// The instance so many parents up from another one: itself at 0.
    pub fn up(&self, inst: u32, level: u32) -> Option<u32>
        ensures exact { result ≡ slice_get (chain_of_inst D.document inst) level }
    {
        up(&self.world, inst, level)
    }

    /// How many cells are stored.
    pub fn count(&self) -> usize
        ensures exact { result ≡ length self.now.cells }
        ensures sound { IsSound D.document self.now }
    {
        self.cells.len()
    }

    /// Forgets the order of what was asked for, which makes room: each cell and each Lazy that is
    /// stored counts as asked for once.
    pub fn settle(&mut self)
        ensures exact { self.new ≡ settled self.old }
    {
        self.settled_cells = self.cells.len();
        self.settled_lazies = self.lazies.len();
        self.notes.clear();
    }

    /// The content of a cell, where it is held: it is asked for then.
    fn asked_cell(&mut self, inst: u32, slot: u32) -> Result<Option<Kept>, NoMemory>
        ensures exact { LooksUp D.document (cell inst slot) self.old.asked self.new.asked result }
    {
        let Some(kept) = self.cells.get(&CellKey { inst, slot }) else {
            return Ok(None);
        };
        let copy = kept.copy()?;
        self.notes.push(Noted::Cell { inst, slot })?;
        Ok(Some(copy))
    }

    /// The content of a Lazy, where it is held: it is asked for then.
    fn asked_lazy(&mut self, key: &LazyKey) -> Result<Option<Kept>, NoMemory>
        ensures exact { LooksUp D.document (lazy_at key.now.inst key.now.slot key.now.place)
            self.old.asked self.new.asked result }
    {
        let Some((index, _, kept)) = self.lazies.get_full(key) else {
            return Ok(None);
        };
        let copy = kept.copy()?;
        self.notes.push(Noted::Lazy(index))?;
        Ok(Some(copy))
    }

    /// Stores the content of a cell, which was made after all that it asks for was.
    fn keep_cell(&mut self, inst: u32, slot: u32, kept: &Kept) -> Result<(), NoMemory>
        requires content { IsContent D.document (cell inst slot) kept.now }
        requires used { Contains (used_by_asks D.document) (cell inst slot) }
        requires closed { (y : Asked) → Contains (asked_by D.document (cell inst slot)) y
            → Contains self.old.asked y }
        ensures exact { OnOk result (self.new.asked ≡ self.old.asked ++ cell inst slot ∷ []) }
        ensures kept { OnErr result (self.new.asked ≡ self.old.asked) }
    {
        let copy = kept.copy()?;
        self.notes.reserve(1)?;
        drop(self.cells.insert(CellKey { inst, slot }, copy)?);
        self.notes.push(Noted::Cell { inst, slot })?;
        Ok(())
    }

    /// Stores the content of a Lazy, which was made after all that it asks for was.
    fn keep_lazy(&mut self, key: LazyKey, kept: &Kept) -> Result<(), NoMemory>
        requires content { IsContent D.document (lazy_at key.inst key.slot key.place) kept.now }
        requires used { Contains (used_by_asks D.document) (lazy_at key.inst key.slot key.place) }
        requires closed { (y : Asked)
            → Contains (asked_by D.document (lazy_at key.inst key.slot key.place)) y
            → Contains self.old.asked y }
        ensures exact { OnOk result
            (self.new.asked ≡ self.old.asked ++ lazy_at key.inst key.slot key.place ∷ []) }
        ensures kept { OnErr result (self.new.asked ≡ self.old.asked) }
    {
        let copy = kept.copy()?;
        self.notes.reserve(1)?;
        let (index, old) = self.lazies.insert_full(key, copy)?;
        drop(old);
        self.notes.push(Noted::Lazy(index))?;
        Ok(())
    }
}

impl<D: OfDoc> Contents for Tree<D> {
    ghost content = { λ t inst slot. content_in t.cells inst slot };

    fn kept(&self, inst: u32, slot: u32) -> Option<&Kept> {
        self.cells.get(&CellKey { inst, slot })
    }
}

impl<D: OfDoc> Cells for Tree<D> {
    ghost scope = { λ t. record { doc = D.document; may = used_by_asks D.document } };

    ghost asked = { λ t. Some t.asked };

    fn held_or<B: Build<Self>>(
        &mut self,
        inst: u32,
        slot: u32,
        build: B,
    ) -> Result<Kept, NoMemory> {
        match self.asked_cell(inst, slot)? {
            Some(held) => Ok(held),
            None => {
                let kept = build.build(self)?;
                self.keep_cell(inst, slot, &kept)?;
                Ok(kept)
            }
        }
    }

    fn lazy_or<B: Build<Self>>(
        &mut self,
        inst: u32,
        slot: u32,
        place: &Place,
        build: B,
    ) -> Result<Kept, NoMemory> {
        let key = LazyKey {
            inst,
            slot,
            place: place.copy()?,
        };
        match self.asked_lazy(&key)? {
            Some(kept) => Ok(kept),
            None => {
                let kept = build.build(self)?;
                self.keep_lazy(key, &kept)?;
                Ok(kept)
            }
        }
    }
}
