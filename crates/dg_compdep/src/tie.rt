//! What a `link` line ties.

ghost use Rattle.std.specs.Prelude.{◌≡◌, ◌==◌, None, Some, if◌then◌else◌};
ghost use Rattle.std.specs.List.{list_any};
ghost use Rattle.dg_decl.specs.Components as components;
ghost use Rattle.dg_decl.specs.Stages.Links as stage;

use crate::classes::Classes;
use crate::opened::class_of_instance;
use dg_decl::Item;
use dg_names::Statement;
use dg_types::Name;
use std::marker::Model;

/// An instance, and the class of the instance to which a line would tie it.
#[derive(Drop)]
pub(crate) struct Tie<'a> {
    pub(crate) from: &'a Name,
    pub(crate) class: u32,
}

impl<'a> Model for Tie<'a> {
    ghost use Rattle.std.specs.Coded.{codes};
    ghost use Rattle.dg_decl.specs.Stages.Links as stage;

    ghost Value = { stage.Tie };

    ghost coded = { Prim.hlevel codes };

    ghost view = { λ t. record { from = t.from.now; class = t.class } };
}

/// Whether a class is among some.
fn is_among(classes: &[u32], class: u32) -> bool
    ensures exact { result ≡ list_any (λ d. d == class) classes.now }
{
    classes.iter().any(|d| *d == class)
}

/// A tie to an instance of a class, where it is a dependency of the class of the instance.
fn dependent<'a>(classes: &Classes<'_>, from: &'a Name, of: u32, class: u32) -> Option<Tie<'a>>
    ensures exact { result ≡ (if list_any (λ d. d == class) (components.deps_of classes.now of)
        then Some (record { from = from.now; class = class }) else None) }
{
    if is_among(classes.deps(of), class) {
        Some(Tie { from, class })
    } else {
        None
    }
}

/// What a `link` line would tie, where both of its ends were opened before it and the class of the
/// one depends on that of the other.
#[tactic(auto, unfolding(dg_decl::specs::Stages::Links::tie_of))]
pub(crate) fn tie_of<'a>(classes: &Classes<'_>, s: &Statement<'a>) -> Option<Tie<'a>>
    ensures exact { result ≡ stage.tie_of classes.now s.now }
{
    let Item::Link { from, to } = s.item else {
        return None;
    };
    let Some(of) = class_of_instance(classes.names(), s, from.as_slice()) else {
        return None;
    };
    match class_of_instance(classes.names(), s, to.as_slice()) {
        Some(class) => dependent(classes, from, of, class),
        None => None,
    }
}
