ghost use Rattle.std.specs.Prelude.{◌≡◌};
ghost use Rattle.dg_hilt.specs.Names as spec;

use crate::class::{class_of, default_class};

/// Whether the name is that of a type or of a constructor of types.
#[tactic(auto, unfolding(crate::specs::Names::is_among))]
fn is_type_name(name: &[u8]) -> bool
    ensures exact { result ≡ spec.is_among name.now spec.type_names }
{
    name == b"Text".as_slice()
        || name == b"Int".as_slice()
        || name == b"Set".as_slice()
        || name == b"Map".as_slice()
        || name == b"Optional".as_slice()
        || name == b"Provider".as_slice()
        || name == b"Lazy".as_slice()
        || name == b"Producer".as_slice()
        || name == b"Produced".as_slice()
}

/// Whether the name stands behind `@` as a word of the language, and as no scope and no qualifier.
#[tactic(auto, unfolding(crate::specs::Names::is_among))]
fn is_mark_name(name: &[u8]) -> bool
    ensures exact { result ≡ spec.is_among name.now spec.mark_names }
{
    name == b"Inject".as_slice()
        || name == b"InstallIn".as_slice()
        || name == b"TestInstallIn".as_slice()
        || name == b"IntoSet".as_slice()
        || name == b"ElementsIntoSet".as_slice()
        || name == b"IntoMap".as_slice()
        || name == b"StringKey".as_slice()
        || name == b"IntKey".as_slice()
}

/// Whether the name is that of one of Hilt's scopes.
#[tactic(auto, unfolding(crate::specs::Names::is_among))]
pub fn is_scope_name(name: &[u8]) -> bool
    ensures exact { result ≡ spec.is_among name.now spec.scope_names }
{
    name == b"Singleton".as_slice()
        || name == b"ActivityRetainedScoped".as_slice()
        || name == b"ServiceScoped".as_slice()
        || name == b"ViewModelScoped".as_slice()
        || name == b"ActivityScoped".as_slice()
        || name == b"FragmentScoped".as_slice()
        || name == b"ViewScoped".as_slice()
}

/// Whether the name is declared before any line of a document: the names of types and of their
/// constructors, JSR 330's `Named`, the words that stand behind `@`, and Hilt's components, scopes
/// and classes of bound values.
#[tactic(auto, using(crate::proofs::NameLemmas::predefined_by))]
pub fn is_predefined(name: &[u8]) -> bool
    ensures exact { result ≡ spec.is_among name.now spec.predefined_names }
{
    if is_type_name(name) || name == b"Named".as_slice() || is_mark_name(name) {
        return true;
    }
    class_of(name).is_some() || is_scope_name(name) || default_class(name).is_some()
}
