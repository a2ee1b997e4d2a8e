//! The names of the classes of objects and of their fields.

ghost use Rattle.std.specs.Prelude.{◌≡◌, [], IfOk, filter, option_map, slice_get, unwrap_or};
ghost use Rattle.std.specs.Option.{option_copied, option_map_or};
ghost use Rattle.dg_decl.specs.Names as declared;
ghost use Rattle.dg_eval.specs.Report.{value_class_name, value_fields};
ghost use Rattle.dg_hilt.specs.Table.{default_classes};
ghost use Rattle.dg_slots.specs.Numbered.{class_lines};

use dg_decl::{Doc, Item, Param};
use dg_names::{Names, Statement};
use dg_types::{Name, NoMemory};
use std::alloc::Global;
use std::marker::Model;

/// How many of the classes are those of the values that Hilt's components have bound.
const DEFAULT_COUNT: u32 = 6;

/// The names of the classes of a document and of their fields, by the number of the class.
/// Contracts see the document. To look one up takes the same time in any document.
#[derive(Drop)]
pub struct ClassNames<'a> {
    doc: &'a Doc,
    /// The `class` lines, in order.
    lines: Vec<Statement<'a>>,
}

impl<'a> Model for ClassNames<'a> {
    ghost use Rattle.std.specs.Prelude.{◌≡◌};
    ghost use Rattle.std.specs.Coded.{codes};
    ghost use Rattle.dg_decl.specs.contracts.expression.Expr as expr;
    ghost use Rattle.dg_decl.specs.contracts.expression.Tree as tree;
    ghost use Rattle.dg_decl.specs.declared.document.Doc.{Doc as doc_type};
    ghost use Rattle.dg_slots.specs.Numbered.{class_lines};
    ghost use Rattle.dg_types.specs.contracts.shape.Shape as shape;

    ghost Value = { doc_type };

    ghost coded = { Prim.hlevel (
      codes,
      shape.the_row.coded,
      expr.the_row.coded,
      tree.the_row.coded,
    ) };

    ghost view = { λ n. n.doc.now };

    ghost invariant = { λ n. n.lines.items ≡ class_lines n.doc.now };
}

/// Whether the item is a class.
fn is_class(item: &Item) -> bool
    ensures exact { result ≡ declared.is_class item.now }
{
    matches!(item, Item::Class { .. })
}

/// Those of some statements that are `class` lines, in order.
fn lines_of<'a>(alloc: Global, statements: &[Statement<'a>]) -> Result<Vec<Statement<'a>>, NoMemory>
    ensures exact { IfOk result (λ lines. lines.items
        ≡ filter (λ s. declared.is_class s.item) statements.now) }
{
    let mut lines = Vec::new(alloc);
    for s in statements {
        if is_class(s.item) {
            lines.push(Statement {
                index: s.index,
                line: s.line,
                block: s.block,
                item: s.item,
            })?;
        }
    }
    Ok(lines)
}

/// The name of a class that no document declares.
fn default_name(class: u32) -> &'static [u8]
    ensures exact { result.now ≡ unwrap_or (slice_get default_classes class) [] }
{
    match class {
        0 => b"Application",
        1 => b"Service",
        2 => b"SavedStateHandle",
        3 => b"Activity",
        4 => b"Fragment",
        5 => b"View",
        _ => b"",
    }
}

/// The name that a line declares.
fn name_in<'s>(lines: &'s [Statement<'_>], place: u32) -> &'s [u8]
    ensures exact { result.now ≡ option_map_or
        (λ s. option_map_or (λ n. n) (declared.outer_name s.item) [])
        (slice_get lines.now place) [] }
{
    match lines.get(place as usize) {
        Some(s) => match s.item.outer_name() {
            Some(name) => name.as_slice(),
            None => &[],
        },
        None => &[],
    }
}

/// The fields of the class that a line declares.
fn fields_in<'s>(lines: &'s [Statement<'_>], place: u32) -> &'s [Param]
    ensures exact { result.now ≡ option_map_or (λ s. declared.params_of s.item)
        (slice_get lines.now place) [] }
{
    match lines.get(place as usize) {
        Some(s) => s.item.params(),
        None => &[],
    }
}

/// The name of the field of this index.
fn field_in(fields: &[Param], index: usize) -> Option<&[u8]>
    ensures exact { option_map (λ n. n.now) result
        ≡ option_map (λ p. p.name) (slice_get fields.now index) }
{
    match fields.get(index) {
        Some(field) => Some(field.name.as_slice()),
        None => None,
    }
}

/// The name of the field of this index of a class that no document declares.
fn default_field(index: usize) -> Option<&'static [u8]>
    ensures exact { option_map (λ n. n.now) result
        ≡ option_map (λ p. p.name) (slice_get declared.default_fields index) }
{
    if index == 0 { Some(b"name") } else { None }
}

impl<'a> ClassNames<'a> {
    /// From the names that a document declares. Time and memory grow with its items.
    pub fn of(alloc: Global, names: &Names<'a>) -> Result<ClassNames<'a>, NoMemory>
        ensures exact { IfOk result (λ classes. classes ≡ names.now) }
    {
        let lines = lines_of(alloc, names.statements())?;
        Ok(ClassNames {
            doc: names.doc(),
            lines,
        })
    }

    /// The name of the class of this number.
    pub fn name(&self, class: u32) -> &[u8]
        ensures exact { result.now ≡ value_class_name self.now class }
    {
        if class < DEFAULT_COUNT {
            default_name(class)
        } else {
            name_in(self.lines.as_slice(), class - DEFAULT_COUNT)
        }
    }

    /// The name of the field of this index of the class of this number.
    pub fn field(&self, class: u32, index: usize) -> Option<&[u8]>
        ensures exact { option_map (λ n. n.now) result
            ≡ option_map (λ p. p.name) (slice_get (value_fields self.now class) index) }
    {
        if class < DEFAULT_COUNT {
            default_field(index)
        } else {
            field_in(
                fields_in(self.lines.as_slice(), class - DEFAULT_COUNT),
                index,
            )
        }
    }
}
