//! The instances that a line names.

ghost use Rattle.std.specs.Prelude.{◌≡◌, is_none, option_and_then, option_map, option_to_list};
ghost use Rattle.dg_decl.specs.Stages.Session as stage;

use dg_compdep::{class_of_instance, opened_before};
use dg_decl::Item;
use dg_names::{Names, Statement};
use dg_types::Name;

/// The instance that a line names: behind `in`, or the one that is asked.
pub(crate) fn named_instance<'a>(s: &Statement<'a>) -> Option<&'a Name>
    ensures exact { option_to_list (option_map (λ n. n.now) result)
        ≡ stage.named_instances s.now.item }
{
    match s.item {
        Item::OpenLine { parent, .. } => parent.as_ref(),
        Item::AskLine { inst, .. } => Some(inst),
        _ => None,
    }
}

/// Whether an instance wasn't opened before a statement.
pub(crate) fn is_unknown(names: &Names<'_>, s: &Statement<'_>, name: &Name) -> bool
    ensures exact { result ≡ is_none (stage.opened_before names.now s.now name.now) }
{
    match opened_before(names, s, name.as_slice()) {
        Some(_) => false,
        None => true,
    }
}

/// The class of the instance of a name that is opened before a statement, where there is a name.
pub(crate) fn class_of_named(
    names: &Names<'_>,
    s: &Statement<'_>,
    name: &Option<Name>,
) -> Option<u32>
    ensures exact { result
        ≡ option_and_then (stage.class_of_instance names.now s.now) name.now }
{
    match name {
        Some(name) => class_of_instance(names, s, name.as_slice()),
        None => None,
    }
}

/// Whether a class that is opened, which has this parent, may be opened in an instance of this
/// class.
pub(crate) fn fits_parent(wanted: Option<u32>, given: Option<u32>) -> bool
    ensures exact { result ≡ stage.fits_parent wanted given }
{
    match (wanted, given) {
        (None, None) => true,
        (Some(wanted), Some(given)) => wanted == given,
        _ => false,
    }
}
