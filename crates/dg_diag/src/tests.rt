use crate::{head_of, line_of};
use dg_decl::{Rule, Violation};
use dg_types::Text;
use std::alloc::Global;
use std::test::Fail;

fn violation(
    alloc: Global,
    rule: Rule,
    site: &[u8],
    detail: Option<&[u8]>,
) -> Result<Violation, Fail> {
    let detail = match detail {
        Some(detail) => Some(Text::from_slice(alloc, detail)?),
        None => None,
    };
    Ok(Violation {
        rule,
        site: Text::from_slice(alloc, site)?,
        detail,
    })
}

#[test]
fn a_line_has_head_site_and_detail(rt: HostRuntime) -> Result<(), Fail> {
    let missing = violation(
        rt.alloc(),
        Rule::MissingBinding,
        b"App/M.x(n)",
        Some(b"Int".as_slice()),
    )?;
    let line = line_of(rt.alloc(), &missing)?;
    assert_eq!(rt;
        line.as_slice(),
        b"[Dagger/MissingBinding] App/M.x(n): Int\n".as_slice()
    );
    Ok(())
}

#[test]
fn a_line_without_a_detail_ends_with_its_site(rt: HostRuntime) -> Result<(), Fail> {
    let mismatch = violation(rt.alloc(), Rule::TypeMismatch, b"line 2", None)?;
    let line = line_of(rt.alloc(), &mismatch)?;
    assert_eq!(rt; line.as_slice(), b"[Own/TypeMismatch] line 2\n".as_slice());
    Ok(())
}

#[test]
fn two_rules_share_a_head(rt: HostRuntime) {
    assert_eq!(rt;
        head_of(Rule::IncompatiblyScopedMember),
        head_of(Rule::IncompatiblyScopedBindings)
    );
    assert_eq!(rt;
        head_of(Rule::UnknownLinked),
        head_of(Rule::UnknownInstance)
    );
    assert_eq!(rt; head_of(Rule::MapKeys), b"[Dagger/MapKeys]".as_slice());
}
