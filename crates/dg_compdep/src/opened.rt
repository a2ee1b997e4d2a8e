//! Which instances are opened before a line.

ghost use Rattle.std.specs.Prelude.{◌≡◌};
ghost use Rattle.std.specs.Option.{option_copied};
ghost use Rattle.dg_decl.specs.Stages.Session as stage;

use dg_decl::Item;
use dg_names::{Names, Statement};

/// The `open` line that opens an instance of this name before a statement.
pub fn opened_before<'n, 'a>(
    names: &'n Names<'a>,
    s: &Statement<'_>,
    name: &[u8],
) -> Option<&'n Statement<'a>>
    ensures exact { option_copied result ≡ stage.opened_before names.now s.now name.now }
{
    match names.opened(name) {
        Some(index) => {
            if index < s.index {
                names.statement(index)
            } else {
                None
            }
        }
        None => None,
    }
}

/// The number of the class of which an `open` line opens an instance.
pub fn class_opened(names: &Names<'_>, s: &Statement<'_>) -> Option<u32>
    ensures exact { result ≡ stage.class_opened names.now s.now }
{
    match s.item {
        Item::OpenLine { class, .. } => names.class_named(class.as_slice()),
        _ => None,
    }
}

/// The number of the class of an instance that is opened before a statement.
pub fn class_of_instance(names: &Names<'_>, s: &Statement<'_>, name: &[u8]) -> Option<u32>
    ensures exact { result ≡ stage.class_of_instance names.now s.now name.now }
{
    match opened_before(names, s, name) {
        Some(line) => class_opened(names, line),
        None => None,
    }
}
