ghost use Rattle.std.specs.Prelude.{◌≡◌};
ghost use Rattle.dg_comps.specs.declared.fault.TreeFault.TheVariants as fault;

use dg_decl::Violation;
use dg_types::NoMemory;

/// Why there is no component tree.
#[derive(Drop)]
pub enum TreeFault {
    /// What the document breaks in the stage of components, in the order of lines and then of
    /// rules.
    Broken(Vec<Violation>),
    /// There was no memory.
    NoMemory,
}

impl From<NoMemory> for TreeFault {
    ghost from_gives = { λ _ e. e ≡ fault.NoMemory };

    fn from(_: NoMemory) -> TreeFault {
        TreeFault::NoMemory
    }
}
