ghost use Rattle.std.specs.Prelude.{◌≡◌};
ghost use Rattle.dg_session.specs.declared.fault.SessionFault.TheVariants as fault;

use dg_decl::Violation;
use dg_types::NoMemory;

/// Why there is no session.
#[derive(Drop)]
pub enum SessionFault {
    /// What the document breaks in the stage of the session, in the order of lines.
    Broken(Vec<Violation>),
    /// There was no memory.
    NoMemory,
}

impl From<NoMemory> for SessionFault {
    ghost from_gives = { λ _ e. e ≡ fault.NoMemory };

    fn from(_: NoMemory) -> SessionFault {
        SessionFault::NoMemory
    }
}
