//! Expressions, conditions and decision trees by numbers.

ghost use Rattle.std.specs.Prelude.{◌≡◌, ◌<◌, ◌≤◌, ◌+◌, ◌-◌, ◌^◌, None, Some, IfOk, length, map, option_and_then, option_map, slice_get, unwrap_or};
ghost use Rattle.dg_types.specs.declared.shape.Shape.{out-Shape};
ghost use Rattle.dg_types.specs.declared.shape.Shape.TheOpen.{Shape-F};
ghost use Rattle.dg_decl.specs.Names as declared;
ghost use Rattle.dg_decl.specs.Typing as typing;
ghost use Rattle.dg_slots.specs.Numbered as spec;
ghost use Rattle.dg_session.specs.Numbers.{number_behind, numbers_from};

use dg_decl::{Cond, Expr, Item, Param, ParamCall, Tree};
use dg_hilt::default_class;
use dg_names::{Names, Statement};
use dg_slots::{NCond, NExpr, NTree};
use dg_types::{Name, NoMemory, Shape};
use dg_typing::{
    Fields, Given, fields_of, inside_param, type_by_name, type_of_field, type_of_param,
};
use sqlite_items::{Boxed, Items};
use std::alloc::Global;
use std::marker::Model;

/// The numbers of the classes of a document, with its names. Contracts see the document.
#[derive(Drop)]
pub struct Numbers<'n, 'a> {
    names: &'n Names<'a>,
    /// By the index of a statement, the number that a class declared there would have.
    classes: Vec<u32>,
}

impl<'n, 'a> Model for Numbers<'n, 'a> {
    ghost use Rattle.std.specs.Coded.{codes};
    ghost use Rattle.dg_decl.specs.contracts.document.Doc as code;
    ghost use Rattle.dg_decl.specs.declared.document.Doc.{Doc};
    ghost use Rattle.dg_session.specs.Numbers.{AreClassNumbers};

    ghost Value = { Doc };

    ghost coded = { Prim.hlevel (codes, code.the_row.coded) };

    ghost view = { λ n. n.names.now };

    ghost invariant = { λ n. AreClassNumbers n.names.now n.classes.items };
}

/// Whether the item is a class.
fn is_class(item: &Item) -> bool
    ensures exact { result ≡ declared.is_class item.now }
{
    matches!(item, Item::Class { .. })
}

/// The number of the next class, behind a statement.
fn next_number(number: u32, s: &Statement<'_>) -> u32
    requires small { number < 2 ^ 32 - 1 }
    ensures exact { result ≡ number_behind number s.now }
    ensures bound { result ≤ number + 1 }
{
    if is_class(s.item) { number + 1 } else { number }
}

/// The numbers that classes declared by each of some statements would have.
fn class_numbers(alloc: Global, statements: &[Statement<'_>]) -> Result<Vec<u32>, NoMemory>
    requires few { length statements.now < 2 ^ 31 }
    ensures exact { IfOk result (λ numbers. numbers.items
        ≡ numbers_from 6 statements.now) }
{
    let mut numbers = Vec::with_capacity(alloc, statements.len())?;
    let mut number = 6;
    for s in statements {
        numbers.push(number)?;
        number = next_number(number, s);
    }
    Ok(numbers)
}

/// The number at an index.
fn number_at(numbers: &[u32], index: u32) -> Option<u32>
    ensures exact { result ≡ slice_get numbers.now index }
{
    numbers.get(index as usize).copied()
}

/// A place as a number; a place that is past all numbers counts as a lack of memory.
pub(crate) fn as_number(place: usize) -> Result<u32, NoMemory>
    ensures exact { IfOk result (λ number. number ≡ place) }
{
    match u32::try_from(place) {
        Ok(number) => Ok(number),
        Err(_) => Err(NoMemory),
    }
}

/// The place of the parameter of a name.
fn param_index(params: &[Param], name: &[u8]) -> Option<usize>
    ensures exact { result ≡ spec.param_index params.now name.now }
{
    params.iter().position(|p| p.name.as_slice() == name)
}

/// The number of a parameter: its index among those of its line.
fn param_number(params: &[Param], name: &[u8]) -> Result<u32, NoMemory>
    ensures exact { IfOk result (λ number. number ≡ spec.param_number params.now name.now) }
{
    match param_index(params, name) {
        Some(place) => as_number(place),
        None => Ok(0),
    }
}

/// The number of the field of a name among those of its class.
fn number_among(fields: &Fields<'_>, field: &[u8]) -> Result<u32, NoMemory>
    ensures exact { IfOk result (λ number. number ≡ spec.param_number fields.now field.now) }
{
    match fields.declared() {
        Some(params) => param_number(params, field),
        None => Ok(0),
    }
}

impl<'n, 'a> Numbers<'n, 'a> {
    /// The numbers of the classes of a document.
    pub fn of(alloc: Global, names: &'n Names<'a>) -> Result<Numbers<'n, 'a>, NoMemory>
        ensures exact { IfOk result (λ numbers. numbers ≡ names.now) }
    {
        let classes = class_numbers(alloc, names.statements())?;
        Ok(Numbers { names, classes })
    }

    /// The names of the document.
    pub fn names(&self) -> &'n Names<'a>
        ensures exact { result.now ≡ self.now }
    {
        self.names
    }

    /// The number of the class that the document declares under a name.
    fn declared_number(&self, name: &[u8]) -> Option<u32>
        ensures exact { result ≡ option_and_then (spec.number_of_class_item self.now)
            (declared.class_item_named self.now name.now) }
    {
        match self.names.class_item_named(name) {
            Some(index) => number_at(self.classes.as_slice(), index),
            None => None,
        }
    }

    /// The number of a class: 0 to 5 for those whose objects Hilt binds by default, and from 6 on
    /// by the `class` lines in order. A name that no line declares has the number 0.
    #[tactic(auto, unfolding(dg_slots::specs::Numbered::class_number))]
    pub fn class_number(&self, name: &[u8]) -> u32
        ensures exact { result ≡ spec.class_number self.now name.now }
    {
        match default_class(name) {
            Some(number) => number,
            None => match self.declared_number(name) {
                Some(number) => number,
                None => 0,
            },
        }
    }

    /// The number of a field of the class of a name.
    fn number_in_class(&self, class: &[u8], field: &[u8]) -> Result<u32, NoMemory>
        ensures exact { IfOk result (λ number. number ≡ unwrap_or (option_and_then
            (λ fields. spec.param_index fields field.now)
            (declared.fields_of self.now class.now)) 0) }
    {
        match fields_of(self.names, class) {
            Some(fields) => number_among(&fields, field),
            None => Ok(0),
        }
    }

    /// The number of a field: its index among the fields of its class. Where no class is known, it
    /// is 0.
    #[tactic(auto, unfolding(dg_slots::specs::Numbered::field_number))]
    pub fn field_number(&self, class: Option<&Name>, field: &[u8]) -> Result<u32, NoMemory>
        ensures exact { IfOk result (λ number. number ≡ spec.field_number self.now
            (option_map (λ n. n.now) class.entry) field.now) }
    {
        match class {
            Some(class) => self.number_in_class(class.as_slice(), field),
            None => Ok(0),
        }
    }
}

/// The class that the type of a parameter names.
fn class_of_param<'a>(params: &'a [Param], name: &[u8]) -> Option<&'a Name>
    ensures exact { option_map (λ n. n.now) result
        ≡ spec.class_in (typing.type_of_param params.now name.now) }
{
    match type_of_param(params, name) {
        Some(shape) => class_named_by(shape),
        None => None,
    }
}

/// The class that a type names.
pub(crate) fn class_named_by(shape: &Shape) -> Option<&Name>
    ensures exact { option_map (λ n. n.now) result ≡ spec.class_at (out-Shape shape.now) }
{
    match shape {
        Shape::Named(name) => Some(name),
        _ => None,
    }
}

/// The class that a type names.
fn class_of_given<'a>(given: &Given<'a>) -> Option<&'a Name>
    ensures exact { option_map (λ n. n.now) result ≡ spec.class_at (out-Shape given.now) }
{
    given.class()
}

/// The type of a field of a class.
fn field_of_class<'a>(names: &Names<'a>, class: &'a Name, field: &[u8]) -> Option<Given<'a>>
    ensures exact { result ≡ typing.type_of_field names.now (Shape-F.Named class.now) field.now }
{
    let given = Given::object(class);
    type_of_field(names, &given, field)
}

/// The class that the type of a field of a class names.
fn class_of_field<'a>(names: &Names<'a>, class: &'a Name, field: &[u8]) -> Option<&'a Name>
    ensures exact { option_map (λ n. n.now) result
        ≡ spec.class_in (spec.field_type names.now (Some class.now) field.now) }
{
    match field_of_class(names, class, field) {
        Some(given) => class_of_given(&given),
        None => None,
    }
}

/// The class that the type of a call by the name of a parameter names.
fn class_by_name<'a>(params: &'a [Param], f: ParamCall, name: &[u8]) -> Option<&'a Name>
    ensures exact { option_map (λ n. n.now) result
        ≡ spec.class_in (typing.type_by_name params.now f name.now) }
{
    match type_by_name(params, f, name) {
        Some(given) => class_of_given(&given),
        None => None,
    }
}

/// The class that the B of a parameter with `Optional<B>` names.
fn class_inside<'a>(params: &'a [Param], name: &[u8]) -> Option<&'a Name>
    ensures exact { option_map (λ n. n.now) result
        ≡ spec.class_in (typing.part typing.inside_at (typing.type_of_param params.now name.now)) }
{
    match inside_param(params, name) {
        Some(shape) => class_named_by(shape),
        None => None,
    }
}

/// The class that the type of an expression names. It takes time in the depth of fields.
#[tactic(auto, using(crate::proofs::NumberedForms::classes))]
fn class_of_expr<'a>(names: &Names<'a>, params: &'a [Param], e: &'a Expr) -> Option<&'a Name>
    ensures exact { option_map (λ n. n.now) result
        ≡ (spec.numbered names.now params.now e.now).class }
{
    match e {
        Expr::Param(name) => class_of_param(params, name.as_slice()),
        Expr::New { class, .. } => Some(class),
        Expr::Field { of, field } => match class_of_expr(names, params, of.get()) {
            Some(class) => class_of_field(names, class, field.as_slice()),
            None => None,
        },
        Expr::ByName { f, param } => class_by_name(params, *f, param.as_slice()),
        Expr::OrElse { param, .. } => class_inside(params, param.as_slice()),
        Expr::Text(_) => None,
        Expr::Int(_) => None,
        Expr::Sum(_, _) => None,
        Expr::If { .. } => None,
        Expr::Call { .. } => None,
    }
}

/// An expression of a line with these parameters by numbers.
#[tactic(auto, using(crate::proofs::NumberedForms::expressions))]
#[cycle(numbering)]
pub fn numbered_expr<'a>(
    alloc: Global,
    numbers: &Numbers<'_, 'a>,
    params: &'a [Param],
    e: &'a Expr,
) -> Result<NExpr, NoMemory>
    ensures exact { IfOk result (λ n. n ≡ spec.numbered_expr numbers.now params.now e.now) }
{
    match e {
        Expr::Text(text) => Ok(NExpr::Text(text.copy(alloc)?)),
        Expr::Int(n) => Ok(NExpr::Int(*n)),
        Expr::Param(name) => Ok(NExpr::Param(param_number(params, name.as_slice())?)),
        Expr::New { class, args } => {
            let class = numbers.class_number(class.as_slice());
            let args = numbered_args(alloc, numbers, params, args.as_slice())?;
            Ok(NExpr::New { class, args })
        }
        Expr::Field { of, field } => {
            let class = class_of_expr(numbers.names, params, of.get());
            let field = numbers.field_number(class, field.as_slice())?;
            let of = numbered_box(alloc, numbers, params, of.get())?;
            Ok(NExpr::Field { of, field })
        }
        Expr::Sum(a, b) => {
            let a = numbered_box(alloc, numbers, params, a.get())?;
            let b = numbered_box(alloc, numbers, params, b.get())?;
            Ok(NExpr::Sum(a, b))
        }
        Expr::If { cond, yes, no } => {
            let cond = Boxed::new(alloc, numbered_cond(alloc, numbers, params, cond.get())?)?;
            let yes = numbered_box(alloc, numbers, params, yes.get())?;
            let no = numbered_box(alloc, numbers, params, no.get())?;
            Ok(NExpr::If { cond, yes, no })
        }
        Expr::Call { f, args } => {
            let args = numbered_args(alloc, numbers, params, args.as_slice())?;
            Ok(NExpr::Call { f: *f, args })
        }
        Expr::ByName { f, param } => {
            let param = param_number(params, param.as_slice())?;
            Ok(NExpr::ByName { f: *f, param })
        }
        Expr::OrElse { param, other } => {
            let param = param_number(params, param.as_slice())?;
            let other = numbered_box(alloc, numbers, params, other.get())?;
            Ok(NExpr::OrElse { param, other })
        }
    }
}

/// An expression by numbers, in a box.
#[cycle(numbering)]
fn numbered_box<'a>(
    alloc: Global,
    numbers: &Numbers<'_, 'a>,
    params: &'a [Param],
    e: &'a Expr,
) -> Result<Boxed<NExpr>, NoMemory>
    ensures exact { IfOk result (λ n. n ≡ spec.numbered_expr numbers.now params.now e.now) }
{
    Ok(Boxed::new(alloc, numbered_expr(alloc, numbers, params, e)?)?)
}

/// Expressions by numbers.
#[cycle(numbering)]
fn numbered_args<'a>(
    alloc: Global,
    numbers: &Numbers<'_, 'a>,
    params: &'a [Param],
    args: &'a [Expr],
) -> Result<Items<NExpr>, NoMemory>
    ensures exact { IfOk result (λ list. list
        ≡ spec.exprs (map (spec.numbered numbers.now params.now) args.now)) }
{
    let mut list = Items::new(alloc);
    for arg in args {
        list.push(numbered_expr(alloc, numbers, params, arg)?)?;
    }
    Ok(list)
}

/// A condition of a line with these parameters by numbers.
#[tactic(auto, using(crate::proofs::NumberedForms::conditions))]
#[cycle(numbering)]
pub fn numbered_cond<'a>(
    alloc: Global,
    numbers: &Numbers<'_, 'a>,
    params: &'a [Param],
    cond: &'a Cond,
) -> Result<NCond, NoMemory>
    ensures exact { IfOk result (λ n. n ≡ spec.numbered_cond numbers.now params.now cond.now) }
{
    match cond {
        Cond::Equal(a, b) => {
            let a = numbered_box(alloc, numbers, params, a.get())?;
            let b = numbered_box(alloc, numbers, params, b.get())?;
            Ok(NCond::Equal(a, b))
        }
        Cond::Less(a, b) => {
            let a = numbered_box(alloc, numbers, params, a.get())?;
            let b = numbered_box(alloc, numbers, params, b.get())?;
            Ok(NCond::Less(a, b))
        }
        Cond::Has(name) => Ok(NCond::Has(param_number(params, name.as_slice())?)),
        Cond::IsOk(name) => Ok(NCond::IsOk(param_number(params, name.as_slice())?)),
    }
}

/// A decision tree of a line with these parameters by numbers.
#[tactic(auto, using(crate::proofs::NumberedForms::trees))]
pub fn numbered_tree<'a>(
    alloc: Global,
    numbers: &Numbers<'_, 'a>,
    params: &'a [Param],
    tree: &'a Tree,
) -> Result<NTree, NoMemory>
    ensures exact { IfOk result (λ n. n ≡ spec.numbered_tree numbers.now params.now tree.now) }
{
    match tree {
        Tree::Leaf(e) => Ok(NTree::Leaf(numbered_expr(alloc, numbers, params, e)?)),
        Tree::Await(name) => Ok(NTree::Await(param_number(params, name.as_slice())?)),
        Tree::If { cond, yes, no } => {
            let yes = Boxed::new(alloc, numbered_tree(alloc, numbers, params, yes.get())?)?;
            let no = Boxed::new(alloc, numbered_tree(alloc, numbers, params, no.get())?)?;
            let cond = numbered_cond(alloc, numbers, params, cond)?;
            Ok(NTree::If { cond, yes, no })
        }
    }
}
