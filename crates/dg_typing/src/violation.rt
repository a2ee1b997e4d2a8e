//! What a line breaks.

ghost use Rattle.std.specs.Prelude.{◌≡◌, ◌++◌, ◌∷◌, [], IfOk, OnOk, None};
ghost use Rattle.dg_decl.specs.Sites as sites;
ghost use Rattle.dg_decl.specs.Stages.Components as spec;

use dg_decl::{Rule, Violation};
use dg_names::Statement;
use dg_types::{Name, NoMemory, Text};
use std::alloc::Global;

/// The site of a line.
#[tactic(auto, unfolding(dg_decl::specs::Sites::site_of_line))]
fn site_of_line(alloc: Global, line: u32) -> Result<Text, NoMemory>
    ensures exact { IfOk result (λ site. site ≡ sites.site_of_line line) }
{
    let site = format!(in alloc; "line {line}")?;
    Ok(Text::from_vec(site.into_bytes()))
}

/// A rule that a line breaks by these bytes.
pub fn at_line(
    alloc: Global,
    rule: Rule,
    s: &Statement<'_>,
    detail: Vec<u8>,
) -> Result<Violation, NoMemory>
    ensures exact { IfOk result (λ v. v ≡ spec.at_line rule s.now detail.items) }
{
    Ok(Violation {
        rule,
        site: site_of_line(alloc, s.line)?,
        detail: Some(Text::from_vec(detail)),
    })
}

/// A rule that a line breaks.
pub fn of_line(alloc: Global, rule: Rule, s: &Statement<'_>) -> Result<Violation, NoMemory>
    ensures exact { IfOk result (λ v. v ≡ record {
      rule = rule;
      site = sites.site_of_line s.now.line;
      detail = None;
    }) }
{
    Ok(Violation {
        rule,
        site: site_of_line(alloc, s.line)?,
        detail: None,
    })
}

/// Adds a rule that a line breaks by a name.
pub fn push_at_line(
    alloc: Global,
    rule: Rule,
    s: &Statement<'_>,
    name: &Name,
    out: &mut Vec<Violation>,
) -> Result<(), NoMemory>
    ensures exact { OnOk result
        (out.new.items ≡ out.old.items ++ spec.at_line rule s.now name.now ∷ []) }
{
    let detail = Vec::from_slice(alloc, name.as_slice())?;
    out.push(at_line(alloc, rule, s, detail)?)?;
    Ok(())
}
