ghost use Rattle.dg_decl.specs.declared.document.Doc.{Doc};

/// Names one document in contracts: types that take a marker of this trait speak of that document
/// alone.
pub trait OfDoc {
    ghost document: { Doc };
}
