//! The paths of `ask` lines.

ghost use Rattle.std.specs.Prelude.{◌≡◌, option_and_then, option_map};
ghost use Rattle.dg_types.specs.declared.shape.Shape.{out-Shape};
ghost use Rattle.dg_types.specs.declared.shape.Shape.TheVariants as shape;
ghost use Rattle.dg_decl.specs.Names as declared;
ghost use Rattle.dg_decl.specs.Names.{default_fields};
ghost use Rattle.dg_decl.specs.Typing as typing;
ghost use Rattle.dg_decl.specs.Stages.Session as stage;
ghost use Rattle.dg_slots.specs.Numbered as numbered;
ghost use Rattle.dg_typing.specs.TypesGiven.{class_at};

use dg_decl::{AskStep, Param};
use dg_names::Names;
use dg_types::{MapKeyVal, Name, Shape};
use dg_typing::{class_of, fields_of, got, type_of_param};
use std::marker::Model;

/// The type to which a path comes, without a copy. Contracts see the type.
#[derive(Drop)]
pub(crate) struct Spot<'a> {
    /// None for the text that an object has whose class Hilt binds by default.
    found: Option<&'a Shape>,
}

impl<'a> Model for Spot<'a> {
    ghost use Rattle.dg_types.specs.declared.shape.Shape.{Shape};
    ghost use Rattle.dg_types.specs.contracts.shape.Shape as shape;
    ghost use Rattle.dg_session.specs.Paths.{type_in};

    ghost Value = { Shape };

    ghost coded = { shape.the_row.coded };

    ghost view = { λ s. type_in s.found };
}

/// What is inside an optional.
fn inside(shape: &Shape) -> Option<&Shape>
    ensures exact { option_map (λ t. t.now) result ≡ stage.inside_of (out-Shape shape.now) }
{
    match shape {
        Shape::Optional(of) => Some(of.get()),
        _ => None,
    }
}

/// What a map has at a key.
fn value<'a>(shape: &'a Shape, key: &MapKeyVal) -> Option<&'a Shape>
    ensures exact { option_map (λ t. t.now) result ≡ stage.value_at (out-Shape shape.now) key.now }
{
    match shape {
        Shape::Map(keys, values) => match keys.get() {
            Shape::Text => match key {
                MapKeyVal::Text(_) => Some(values.get()),
                MapKeyVal::Int(_) => None,
            },
            Shape::Int => match key {
                MapKeyVal::Int(_) => Some(values.get()),
                MapKeyVal::Text(_) => None,
            },
            _ => None,
        },
        _ => None,
    }
}

impl<'a> Spot<'a> {
    fn text() -> Spot<'a>
        ensures exact { result ≡ shape.Text }
    {
        Spot { found: None }
    }

    pub(crate) fn whole(shape: &'a Shape) -> Spot<'a>
        ensures exact { result ≡ shape.now }
    {
        Spot { found: Some(shape) }
    }

    /// The name of the class or interface, where the type is one.
    #[tactic(auto, using(dg_typing::proofs::TypeEquations::out_text))]
    fn class(&self) -> Option<&'a Name>
        ensures exact { option_map (λ n. n.now) result ≡ class_at (out-Shape self.now) }
    {
        match self.found {
            Some(shape) => class_of(shape),
            None => None,
        }
    }

    /// The name of the class of an object.
    pub(crate) fn class_of_object(&self) -> Option<&'a Name>
        ensures exact { option_map (λ n. n.now) result ≡ numbered.class_at (out-Shape self.now) }
    {
        self.class()
    }

    /// What a Provider or Lazy gives.
    #[tactic(auto, using(dg_typing::proofs::TypeEquations::out_text))]
    fn got(&self) -> Option<Spot<'a>>
        ensures exact { result ≡ typing.got_at (out-Shape self.now) }
    {
        match self.found {
            Some(shape) => match got(shape) {
                Some(of) => Some(Spot::whole(of)),
                None => None,
            },
            None => None,
        }
    }

    /// What is inside an optional.
    #[tactic(auto, using(dg_typing::proofs::TypeEquations::out_text))]
    fn inside(&self) -> Option<Spot<'a>>
        ensures exact { result ≡ stage.inside_of (out-Shape self.now) }
    {
        match self.found {
            Some(shape) => match inside(shape) {
                Some(of) => Some(Spot::whole(of)),
                None => None,
            },
            None => None,
        }
    }

    /// What a map has at a key.
    #[tactic(auto, using(dg_typing::proofs::TypeEquations::out_text))]
    fn value(&self, key: &MapKeyVal) -> Option<Spot<'a>>
        ensures exact { result ≡ stage.value_at (out-Shape self.now) key.now }
    {
        match self.found {
            Some(shape) => match value(shape, key) {
                Some(of) => Some(Spot::whole(of)),
                None => None,
            },
            None => None,
        }
    }

    /// A field of an object.
    fn field(&self, names: &Names<'a>, field: &[u8]) -> Option<Spot<'a>>
        ensures exact { result ≡ typing.type_of_field names.now (out-Shape self.now) field.now }
    {
        match self.class() {
            Some(class) => field_of(names, class.as_slice(), field),
            None => None,
        }
    }

    /// The type behind a step, where the step fits.
    #[tactic(auto, unfolding(dg_decl::specs::Stages::Session::step_type))]
    pub(crate) fn behind(&self, names: &Names<'a>, step: &AskStep) -> Option<Spot<'a>>
        ensures exact { result ≡ stage.step_type names.now self.now step.now }
    {
        match step {
            AskStep::Field(field) => self.field(names, field.as_slice()),
            AskStep::Get => self.got(),
            AskStep::Inside => self.inside(),
            AskStep::At(key) => self.value(key),
        }
    }
}

/// The type of the field of a name among those that a document declares.
fn declared_field<'a>(params: &'a [Param], field: &[u8]) -> Option<Spot<'a>>
    ensures exact { result ≡ typing.type_of_param params.now field.now }
{
    match type_of_param(params, field) {
        Some(shape) => Some(Spot::whole(shape)),
        None => None,
    }
}

/// The type of the field of a name of the classes whose objects Hilt binds by default.
fn default_field<'a>(field: &[u8]) -> Option<Spot<'a>>
    ensures exact { result ≡ typing.type_of_param default_fields field.now }
{
    if field == b"name".as_slice() {
        Some(Spot::text())
    } else {
        None
    }
}

/// The type of a field of the class of a name.
fn field_of<'a>(names: &Names<'a>, class: &[u8], field: &[u8]) -> Option<Spot<'a>>
    ensures exact { result ≡ option_and_then (λ fields. typing.type_of_param fields field.now)
        (declared.fields_of names.now class.now) }
{
    match fields_of(names, class) {
        Some(fields) => match fields.declared() {
            Some(params) => declared_field(params, field),
            None => default_field(field),
        },
        None => None,
    }
}

/// The number of the first of some steps that doesn't fit the type before it, counted from 1.
pub(crate) fn first_misfit<'a>(
    names: &Names<'a>,
    shape: &'a Shape,
    steps: &[AskStep],
) -> Option<usize>
    ensures exact { result ≡ stage.first_misfit names.now 1 shape.now steps.now }
{
    let mut spot = Spot::whole(shape);
    for (index, step) in steps.iter().enumerate() {
        match spot.behind(names, step) {
            Some(next) => spot = next,
            None => return Some(index + 1),
        }
    }
    None
}
