ghost use Rattle.std.specs.Prelude.{◌≡◌, IfOk};
ghost use Rattle.dg_diag.specs.Lines as spec;

use crate::head::head_of;
use dg_decl::Violation;
use dg_types::NoMemory;
use std::alloc::Global;

/// The line of a violation: its head, its site and its detail, with the LF that ends it.
#[tactic(auto, unfolding(crate::specs::Lines::line_of))]
pub fn line_of(alloc: Global, violation: &Violation) -> Result<Vec<u8>, NoMemory>
    ensures exact { IfOk result (λ line. line.items ≡ spec.line_of violation.now) }
{
    let mut line = Vec::from_slice(alloc, head_of(violation.rule))?;
    line.push(b' ')?;
    line.extend_from_slice(violation.site.as_slice())?;
    if let Some(detail) = &violation.detail {
        line.extend_from_slice(b": ")?;
        line.extend_from_slice(detail.as_slice())?;
    }
    line.push(b'\n')?;
    Ok(line)
}
