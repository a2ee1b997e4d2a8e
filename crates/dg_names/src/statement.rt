use dg_decl::Item;
use std::marker::Model;

/// An item where it stands.
#[derive(Drop)]
pub struct Statement<'a> {
    /// The index of the item.
    pub index: u32,
    /// The number of its line, counted from 1.
    pub line: u32,
    /// The index of the header in whose block it stands.
    pub block: Option<u32>,
    pub item: &'a Item,
}

impl<'a> Model for Statement<'a> {
    ghost use Rattle.std.specs.Coded.{codes};
    ghost use Rattle.dg_decl.specs.Document as document;
    ghost use Rattle.dg_decl.specs.contracts.expression.Expr as expr;
    ghost use Rattle.dg_decl.specs.contracts.expression.Tree as tree;
    ghost use Rattle.dg_types.specs.contracts.shape.Shape as shape;

    ghost Value = { document.Statement };

    ghost coded = { Prim.hlevel (
      codes,
      shape.the_row.coded,
      expr.the_row.coded,
      tree.the_row.coded,
    ) };

    ghost view = { λ s. record { index = s.index; line = s.line; block = s.block; item = s.item.now } };
}
