//! How a run names its document in contracts.

ghost use Rattle.std.specs.Prelude.{[]};
ghost use Rattle.dg_decl.specs.declared.document.Doc.{Doc};

use dg_slots::OfDoc;
use std::marker::{Brand, PhantomData};

/// Names the document of a run. The outermost call picks it.
pub trait RunsDoc {
    ghost document: { Doc };
}

impl RunsDoc for Brand {
    ghost document = { record { items = []; lines = [] } };
}

/// Names the same document for what keeps contents.
pub struct Of<D>(PhantomData<D>);

impl<D: RunsDoc> OfDoc for Of<D> {
    ghost document = { D.document };
}
