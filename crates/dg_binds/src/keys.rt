ghost use Rattle.std.specs.Prelude.{◌≡◌, IfOk};
ghost use Rattle.dg_decl.specs.Lookup as lookup;
ghost use Rattle.dg_binds.specs.Keys as keys;

use dg_types::{Core, Inner, Key, Mode, NoMemory, Request, TypeUse, request_of};
use std::alloc::Global;

/// Whether a request is for an instance of a core type.
fn asks_plainly(request: &Request) -> bool
    ensures exact { result ≡ keys.asks_plainly request.now }
{
    match (request.mode, &request.key.core) {
        (Mode::Instance, Core::Set(_, Inner::Produced) | Core::Map(_, _, Inner::Produced)) => false,
        (Mode::Instance, _) => true,
        _ => false,
    }
}

/// The key of a core type with its qualifier. None where the type is no core type, as `Provider<T>`
/// isn't.
#[tactic(auto, using(crate::proofs::KeyLemmas::key_by_request))]
pub fn key_of_use(alloc: Global, used: &TypeUse) -> Result<Option<Key>, NoMemory>
    ensures exact { IfOk result (λ key. key ≡ lookup.key_of_use used.now) }
{
    let Some(request) = request_of(alloc, used)? else {
        return Ok(None);
    };
    if !asks_plainly(&request) {
        return Ok(None);
    }
    let Request { mode: _, key } = request;
    Ok(Some(key))
}
