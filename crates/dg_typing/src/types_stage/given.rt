//! The types that expressions give.

ghost use Rattle.std.specs.Prelude.{◌≡◌, option_map, map};
ghost use Rattle.dg_types.specs.declared.shape.Shape.{out-Shape};
ghost use Rattle.dg_types.specs.declared.shape.Shape.TheVariants as shape;
ghost use Rattle.dg_types.specs.Equality.{same_shape};
ghost use Rattle.dg_decl.specs.Typing as spec;
ghost use Rattle.dg_typing.specs.TypesGiven.{class_at};

use super::shapes;
use dg_types::{Name, Shape};
use std::marker::Model;

/// A type as it is found in a document, or made of types and a name that stand there.
#[derive(Drop)]
pub enum Form<'a> {
    Text,
    Int,
    /// The class of this name.
    Object(&'a Name),
    Whole(&'a Shape),
    /// The set of this type.
    Set(&'a Shape),
    /// The map of these keys and values.
    Map(&'a Shape, &'a Shape),
}

/// A type that an expression gives, without a copy. Contracts see the type.
#[derive(Drop)]
pub struct Given<'a> {
    form: Form<'a>,
}

impl<'a> Model for Given<'a> {
    ghost use Rattle.dg_types.specs.declared.shape.Shape.{Shape};
    ghost use Rattle.dg_types.specs.contracts.shape.Shape as shape;
    ghost use Rattle.dg_typing.specs.TypesGiven.{shape_of};

    ghost Value = { Shape };

    ghost coded = { shape.the_row.coded };

    ghost view = { λ g. shape_of g.form };
}

impl<'a> Given<'a> {
    pub fn text() -> Given<'a>
        ensures exact { result ≡ shape.Text }
    {
        Given { form: Form::Text }
    }

    pub fn int() -> Given<'a>
        ensures exact { result ≡ shape.Int }
    {
        Given { form: Form::Int }
    }

    /// The class of this name.
    pub fn object(class: &'a Name) -> Given<'a>
        ensures exact { result ≡ shape.Named class.now }
    {
        Given {
            form: Form::Object(class),
        }
    }

    pub fn whole(shape: &'a Shape) -> Given<'a>
        ensures exact { result ≡ shape.now }
    {
        Given {
            form: Form::Whole(shape),
        }
    }

    pub fn set(of: &'a Shape) -> Given<'a>
        ensures exact { result ≡ shape.Set of.now }
    {
        Given {
            form: Form::Set(of),
        }
    }

    pub fn map(keys: &'a Shape, values: &'a Shape) -> Given<'a>
        ensures exact { result ≡ shape.Map keys.now values.now }
    {
        Given {
            form: Form::Map(keys, values),
        }
    }

    /// Whether the two are one type.
    #[tactic(auto, using(crate::proofs::TypeEquations::same_shapes))]
    pub fn is(&self, other: &Shape) -> bool
        ensures exact { result ≡ same_shape self.now other.now }
    {
        match &self.form {
            Form::Text => matches!(other, Shape::Text),
            Form::Int => matches!(other, Shape::Int),
            Form::Object(class) => is_named(class, other),
            Form::Whole(shape) => shape.is(other),
            Form::Set(of) => is_set(of, other),
            Form::Map(keys, values) => is_map(keys, values, other),
        }
    }

    /// The name of the class or interface, where the type is one.
    pub fn class(&self) -> Option<&'a Name>
        ensures exact { option_map (λ n. n.now) result ≡ class_at (out-Shape self.now) }
    {
        match &self.form {
            Form::Object(class) => Some(class),
            Form::Whole(shape) => class_of(shape),
            _ => None,
        }
    }

    /// Whether `size` takes a value of the type.
    pub fn has_size(&self) -> bool
        ensures exact { result ≡ spec.has_size_at (out-Shape self.now) }
    {
        match &self.form {
            Form::Text | Form::Set(_) | Form::Map(_, _) => true,
            Form::Whole(shape) => has_size(shape),
            _ => false,
        }
    }
}

#[tactic(auto, using(crate::proofs::TypeEquations::same_shapes))]
fn is_named(class: &Name, other: &Shape) -> bool
    ensures exact { result ≡ same_shape (shape.Named class.now) other.now }
{
    match other {
        Shape::Named(name) => class == name,
        _ => false,
    }
}

#[tactic(auto, using(crate::proofs::TypeEquations::same_shapes))]
fn is_set(of: &Shape, other: &Shape) -> bool
    ensures exact { result ≡ same_shape (shape.Set of.now) other.now }
{
    match other {
        Shape::Set(t) => of.is(t.get()),
        _ => false,
    }
}

#[tactic(auto, using(crate::proofs::TypeEquations::same_shapes))]
fn is_map(keys: &Shape, values: &Shape, other: &Shape) -> bool
    ensures exact { result ≡ same_shape (shape.Map keys.now values.now) other.now }
{
    match other {
        Shape::Map(k, t) => keys.is(k.get()) && values.is(t.get()),
        _ => false,
    }
}

/// The name of the class or interface, where the type is one.
pub fn class_of(shape: &Shape) -> Option<&Name>
    ensures exact { option_map (λ n. n.now) result ≡ class_at (out-Shape shape.now) }
{
    match shape {
        Shape::Named(name) => Some(name),
        _ => None,
    }
}

fn has_size(shape: &Shape) -> bool
    ensures exact { result ≡ spec.has_size_at (out-Shape shape.now) }
{
    matches!(shape, Shape::Text | Shape::Set(_) | Shape::Map(_, _))
}

/// What `values` gives of a parameter of this type.
pub fn values(shape: &Shape) -> Option<Given<'_>>
    ensures exact { result ≡ spec.values_at (out-Shape shape.now) }
{
    match shape {
        Shape::Set(of) => match shapes::produced(of.get()) {
            Some(b) => Some(Given::set(b)),
            None => None,
        },
        Shape::Map(keys, values) if shapes::is_kind(keys.get()) => {
            match shapes::produced(values.get()) {
                Some(b) => Some(Given::map(keys.get(), b)),
                None => None,
            }
        }
        _ => None,
    }
}
