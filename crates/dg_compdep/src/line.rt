//! Violations of the rules on lines.

ghost use Rattle.std.specs.Prelude.{◌≡◌, IfOk};
ghost use Rattle.dg_decl.specs.Sites as sites;
ghost use Rattle.dg_decl.specs.Stages.Components as stage;

use dg_decl::{Rule, Violation};
use dg_names::Statement;
use dg_types::{NoMemory, Text};
use itoa::Buffer;
use std::alloc::Global;

/// The site of a line.
#[tactic(auto, unfolding(dg_decl::specs::Sites::site_of_line))]
fn site_of_line(alloc: Global, line: u32) -> Result<Text, NoMemory>
    ensures exact { IfOk result (λ site. site ≡ sites.site_of_line line) }
{
    let mut site = Vec::from_slice(alloc, b"line ")?;
    let mut buffer = Buffer::new();
    site.extend_from_slice(buffer.format(line).as_bytes())?;
    Ok(Text::from_vec(site))
}

/// A rule that a line breaks by a name.
pub fn at_line(
    alloc: Global,
    broken: Rule,
    s: &Statement<'_>,
    detail: &[u8],
) -> Result<Violation, NoMemory>
    ensures exact { IfOk result (λ violation. violation ≡ stage.at_line broken s.now detail.now) }
{
    Ok(Violation {
        rule: broken,
        site: site_of_line(alloc, s.line)?,
        detail: Some(Text::from_slice(alloc, detail)?),
    })
}
