ghost use Rattle.std.specs.Prelude.{◌≡◌};
ghost use Rattle.dg_compdep.specs.declared.link_fault.LinkFault.TheVariants as fault;

use dg_decl::Violation;
use dg_types::NoMemory;

/// Why instances aren't linked.
#[derive(Drop)]
pub enum LinkFault {
    /// What the document breaks in the stage of links, in the order of lines.
    Broken(Vec<Violation>),
    /// There was no memory.
    NoMemory,
}

impl From<NoMemory> for LinkFault {
    ghost from_gives = { λ _ e. e ≡ fault.NoMemory };

    fn from(_: NoMemory) -> LinkFault {
        LinkFault::NoMemory
    }
}
