ghost use Rattle.std.specs.Prelude.{Result};
ghost use Rattle.std.specs.Fn.{FnOnceTakesAtMut, FnOnceReturnsAtMut};
ghost use Rattle.dg_types.specs.declared.memory.NoMemory.{NoMemory as no_memory};
ghost use Rattle.dg_value.specs.declared.value.Kept.{Kept as kept_type};

use crate::value::Kept;
use dg_types::NoMemory;

/// How the content of a cell or of a Lazy is made, where it isn't held: once, over what holds the
/// other contents. A `Call` makes one of a closure.
pub trait Build<C>: Drop {
    /// It may be made over these.
    ghost can_build: { Self → C → Type 0 };

    /// Made over these it may give this result, and leave those.
    ghost build_gives: { Self → C → Result kept_type no_memory → C → Type 0 };

    /// Makes the content. It may ask for other contents, and changes what holds them.
    fn build(self, cells: &mut C) -> Result<Kept, NoMemory>
        requires { can_build self cells.old }
        ensures { build_gives self cells.old result cells.new };
}

/// A closure that makes a content.
#[derive(Drop)]
pub struct Call<F> {
    pub run: F,
}

impl<C, F: FnOnce(&mut C) -> Result<Kept, NoMemory>> Build<C> for Call<F> {
    ghost can_build = { λ call cells. FnOnceTakesAtMut F.FnOnce call.run cells };

    ghost build_gives = { λ call cells result after. FnOnceReturnsAtMut F.FnOnce call.run cells result after };

    fn build(self, cells: &mut C) -> Result<Kept, NoMemory> {
        let Call { run } = self;
        run(cells)
    }
}
