//! What keeps contents.

ghost use Rattle.std.specs.Prelude.{◌≡◌, [], ◌∷◌, List, Option, Contains};
ghost use Rattle.std.specs.Fn.{FnOnceTakesAtMut, FnOnceReturnsAtMut};
ghost use Rattle.dg_eval.specs.Runs.{Asked, cell, lazy as lazy_at};
ghost use Rattle.dg_eval.specs.Asks.{asked_by};
ghost use Rattle.dg_requests.specs.Scopes.{Scope, Answers, IsMadeOnce};

use dg_types::NoMemory;
use dg_value::{Build, Call, Kept, Place};

/// What keeps the contents of cells and of Lazies. Each call answers a content that is held, or
/// makes it by its argument: so the evaluator alone recurs. No call changes the scope.
pub trait Cells {
    /// Its document, and which cells and Lazies may be asked of it.
    ghost scope: { Self → Scope };

    /// Which it was asked for so far, in order, where it tells so.
    ghost asked: { Self → Option (List Asked) };

    /// The content of the cell of a slot in an instance, held or made.
    fn held_or<B: Build<Self>>(&mut self, inst: u32, slot: u32, build: B) -> Result<Kept, NoMemory>
        requires may { Contains (scope self.old).may (cell inst slot) }
        requires can { (s : Self) → scope s ≡ scope self.old → B.can_build build s }
        requires gives { (s t : Self) (r : _) → scope s ≡ scope self.old
            → B.build_gives build s r t → Answers (cell inst slot) (asked_by (scope s).doc (cell
            inst slot)) (scope s) (scope t) (asked s) (asked t) r }
        ensures exact { Answers (cell inst slot) (cell inst slot ∷ []) (scope self.old) (scope
            self.new) (asked self.old) (asked self.new) result }
        ensures once { IsMadeOnce (cell inst slot) (asked self.old) (asked self.new) result };

    /// The content of the Lazy that was made at a place, held or made.
    fn lazy_or<B: Build<Self>>(
        &mut self,
        inst: u32,
        slot: u32,
        place: &Place,
        build: B,
    ) -> Result<Kept, NoMemory>
        requires may { Contains (scope self.old).may (lazy_at inst slot place.now) }
        requires can { (s : Self) → scope s ≡ scope self.old → B.can_build build s }
        requires gives { (s t : Self) (r : _) → scope s ≡ scope self.old
            → B.build_gives build s r t → Answers (lazy_at inst slot place.now) (asked_by (scope
            s).doc (lazy_at inst slot place.now)) (scope s) (scope t) (asked s) (asked t) r }
        ensures exact { Answers (lazy_at inst slot place.now) (lazy_at inst slot place.now ∷ [])
            (scope self.old) (scope self.new) (asked self.old) (asked self.new) result }
        ensures once { IsMadeOnce (lazy_at inst slot place.now) (asked self.old) (asked self.new)
            result };

    /// The content of the cell of a slot in an instance, held or made by a closure.
    final fn kept<F: FnOnce(&mut Self) -> Result<Kept, NoMemory>>(
        &mut self,
        inst: u32,
        slot: u32,
        build: F,
    ) -> Result<Kept, NoMemory>
    where
        Self: Sized,
        requires may { Contains (scope self.old).may (cell inst slot) }
        requires can { (s : Self) → scope s ≡ scope self.old → FnOnceTakesAtMut F.FnOnce build s }
        requires gives { (s t : Self) (r : _) → scope s ≡ scope self.old
            → FnOnceReturnsAtMut F.FnOnce build s r t → Answers (cell inst slot) (asked_by (scope
            s).doc (cell inst slot)) (scope s) (scope t) (asked s) (asked t) r }
        ensures exact { Answers (cell inst slot) (cell inst slot ∷ []) (scope self.old) (scope
            self.new) (asked self.old) (asked self.new) result }
        ensures once { IsMadeOnce (cell inst slot) (asked self.old) (asked self.new) result }
    {
        self.held_or(inst, slot, Call { run: build })
    }

    /// The content of the Lazy that was made at a place, held or made by a closure.
    final fn lazy<F: FnOnce(&mut Self) -> Result<Kept, NoMemory>>(
        &mut self,
        inst: u32,
        slot: u32,
        place: &Place,
        build: F,
    ) -> Result<Kept, NoMemory>
    where
        Self: Sized,
        requires may { Contains (scope self.old).may (lazy_at inst slot place.now) }
        requires can { (s : Self) → scope s ≡ scope self.old → FnOnceTakesAtMut F.FnOnce build s }
        requires gives { (s t : Self) (r : _) → scope s ≡ scope self.old
            → FnOnceReturnsAtMut F.FnOnce build s r t → Answers (lazy_at inst slot place.now)
            (asked_by (scope s).doc (lazy_at inst slot place.now)) (scope s) (scope t) (asked s)
            (asked t) r }
        ensures exact { Answers (lazy_at inst slot place.now) (lazy_at inst slot place.now ∷ [])
            (scope self.old) (scope self.new) (asked self.old) (asked self.new) result }
        ensures once { IsMadeOnce (lazy_at inst slot place.now) (asked self.old) (asked self.new)
            result }
    {
        self.lazy_or(inst, slot, place, Call { run: build })
    }
}
