//! The fields of classes, and what else is looked up by the name of a class.

ghost use Rattle.std.specs.Prelude.{◌≡◌, option_map, option_and_then};
ghost use Rattle.dg_lex.specs.Bytes.{is_among};
ghost use Rattle.dg_hilt.specs.Table.{default_classes};
ghost use Rattle.dg_types.specs.declared.shape.Shape.{out-Shape};
ghost use Rattle.dg_decl.specs.Names as declared;
ghost use Rattle.dg_decl.specs.Typing as spec;
ghost use Rattle.dg_typing.specs.TypesFields.{fields_in};

use super::given::{Given, class_of};
use super::type_names::TypeNames;
use dg_decl::{Item, Param};
use dg_hilt::default_class;
use dg_names::Names;
use dg_types::Shape;
use std::marker::Model;

/// The fields of a class, in declared order. Contracts see the list of them.
#[derive(Drop)]
pub struct Fields<'a> {
    /// None for a class whose objects Hilt binds by default.
    declared: Option<&'a [Param]>,
}

impl<'a> Model for Fields<'a> {
    ghost use Rattle.std.specs.Prelude.{List};
    ghost use Rattle.std.specs.Coded.{codes};
    ghost use Rattle.dg_types.specs.contracts.shape.Shape as shape;
    ghost use Rattle.dg_decl.specs.declared.item.Param.{Param};
    ghost use Rattle.dg_typing.specs.TypesFields.{fields_in};

    ghost Value = { List Param };

    ghost coded = { Prim.hlevel (codes, shape.the_row.coded) };

    ghost view = { λ f. fields_in f.declared };
}

/// The type of a parameter, among those of its line.
pub fn type_of_param<'a>(params: &'a [Param], name: &[u8]) -> Option<&'a Shape>
    ensures exact { option_map (λ t. t.now) result ≡ spec.type_of_param params.now name.now }
{
    match params.iter().find(|p| p.name.as_slice() == name) {
        Some(param) => Some(&param.shape.shape),
        None => None,
    }
}

impl<'a> Fields<'a> {
    /// Those that the document declares; None for a class whose objects Hilt binds by default.
    pub fn declared(&self) -> Option<&'a [Param]>
        ensures exact { self.now ≡ fields_in result }
    {
        self.declared
    }

    /// The type of the field of this name.
    pub fn type_of(&self, name: &[u8]) -> Option<Given<'a>>
        ensures exact { result ≡ spec.type_of_param self.now name.now }
    {
        match self.declared {
            None => if name == b"name".as_slice() {
                Some(Given::text())
            } else {
                None
            },
            Some(params) => match type_of_param(params, name) {
                Some(shape) => Some(Given::whole(shape)),
                None => None,
            },
        }
    }
}

/// Whether the class is one whose objects Hilt binds by default.
fn is_default(class: &[u8]) -> bool
    ensures exact { result ≡ is_among class.now default_classes }
{
    default_class(class).is_some()
}

/// The `class` item of this name.
pub fn class_item<'a>(names: &Names<'a>, class: &[u8]) -> Option<&'a Item>
    ensures exact { option_map (λ i. i.now) result
        ≡ option_and_then (declared.item_at names.now)
        (declared.class_item_named names.now class.now) }
{
    match names.class_item_named(class) {
        Some(index) => names.doc().items.as_slice().get(index as usize),
        None => None,
    }
}

/// The fields of a class, one of Hilt's included.
#[tactic(auto, unfolding(dg_decl::specs::Names::fields_of))]
pub fn fields_of<'a>(names: &Names<'a>, class: &[u8]) -> Option<Fields<'a>>
    ensures exact { result ≡ declared.fields_of names.now class.now }
{
    if is_default(class) {
        return Some(Fields { declared: None });
    }
    match class_item(names, class) {
        Some(item) => Some(Fields {
            declared: Some(item.params()),
        }),
        None => None,
    }
}

/// The type of a field of an object of this type.
pub fn type_of_field<'a>(names: &Names<'a>, of: &Given<'a>, field: &[u8]) -> Option<Given<'a>>
    ensures exact { result ≡ spec.type_of_field names.now (out-Shape of.now) field.now }
{
    match of.class() {
        Some(class) => match fields_of(names, class.as_slice()) {
            Some(fields) => fields.type_of(field),
            None => None,
        },
        None => None,
    }
}

/// Whether the one is a class whose list has the other.
fn implements(names: &TypeNames<'_>, from: &Given<'_>, to: &Shape) -> bool
    ensures exact { result ≡ spec.implements names.now (out-Shape from.now) (out-Shape to.now) }
{
    match (from.class(), class_of(to)) {
        (Some(class), Some(interface)) => names.lists(class.as_slice(), interface.as_slice()),
        _ => false,
    }
}

/// Whether a value of the one type may stand where the other is wanted.
#[tactic(auto, unfolding(dg_decl::specs::Typing::is_assignable))]
pub fn is_assignable(names: &TypeNames<'_>, from: &Given<'_>, to: &Shape) -> bool
    ensures exact { result ≡ spec.is_assignable names.now from.now to.now }
{
    from.is(to) || implements(names, from, to)
}
