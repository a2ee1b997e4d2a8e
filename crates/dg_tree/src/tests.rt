ghost use Rattle.std.specs.Prelude.{[]};

use crate::Tree;
use dg_slots::{OfDoc, Session};
use dg_value::Contents;
use sqlite_items::Items;
use std::test::Fail;

/// Names the document without lines.
struct Empty;

impl OfDoc for Empty {
    ghost document = { record { items = []; lines = [] } };
}

#[test]
#[tactic(auto, unfolding(dg_decl::specs::Document::statements, dg_slots::specs::Sessions::session_of, dg_slots::specs::Sessions::insts_of, dg_slots::specs::Sessions::asks_of, dg_slots::specs::Links::links_of))]
fn a_store_begins_with_nothing(rt: HostRuntime) -> Result<(), Fail> {
    let session = Session {
        insts: Items::new(rt.alloc()),
        asks: Items::new(rt.alloc()),
    };
    let mut tree: Tree<Empty> = Tree::new(rt.alloc(), &session, &[])?;
    tree.settle();
    assert_eq!(rt; tree.count(), 0);
    assert!(rt; tree.kept(0, 0).is_none());
    assert!(rt; tree.up(0, 0).is_none());
    assert!(rt; tree.world().parent.is_empty());
    Ok(())
}
