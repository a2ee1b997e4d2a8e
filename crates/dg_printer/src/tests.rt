use crate::print_doc;
use dg_decl::{AskStep, Doc, Expr, Item, Param};
use dg_types::{Name, NoMemory, Shape, Text, TypeUse};
use sqlite_items::{Boxed, Items};
use std::alloc::Global;
use std::test::Fail;

fn named(alloc: Global, letter: u8) -> Result<Name, NoMemory> {
    Name::from_slice(alloc, &[letter])
}

fn asked(shape: Shape) -> TypeUse {
    TypeUse {
        qualifier: None,
        shape,
    }
}

/// `provides N() : TYPE = BODY`
fn providing(alloc: Global, name: u8, shape: Shape, body: Expr) -> Result<Item, NoMemory> {
    Ok(Item::Provides {
        mark: None,
        scope: None,
        name: named(alloc, name)?,
        params: Items::<Param>::new(alloc),
        result: asked(shape),
        body,
    })
}

fn sum(alloc: Global, a: Expr, b: Expr) -> Result<Expr, NoMemory> {
    let a = Boxed::new(alloc, a)?;
    Ok(Expr::Sum(a, Boxed::new(alloc, b)?))
}

/// The least integer, and a sum to the right of another.
fn number(alloc: Global) -> Result<Item, NoMemory> {
    let right = sum(alloc, Expr::Int(i64::MAX), Expr::Int(0))?;
    let body = sum(alloc, Expr::Int(i64::MIN), right)?;
    providing(alloc, b'n', Shape::Int, body)
}

/// A text of a quote and a `\`.
fn escapes(alloc: Global) -> Result<Item, NoMemory> {
    let text = Text::from_slice(alloc, b"\"\\")?;
    providing(alloc, b't', Shape::Text, Expr::Text(text))
}

fn header(alloc: Global) -> Result<Item, NoMemory> {
    Ok(Item::Module {
        install: None,
        name: named(alloc, b'M')?,
        includes: Items::new(alloc),
    })
}

fn ask(alloc: Global) -> Result<Item, NoMemory> {
    let inst = named(alloc, b'a')?;
    let mut steps = Items::new(alloc);
    steps.push(AskStep::Get)?;
    Ok(Item::AskLine {
        inst,
        entry: named(alloc, b'e')?,
        steps,
    })
}

fn items(alloc: Global) -> Result<Items<Item>, NoMemory> {
    let mut items = Items::new(alloc);
    items.push(header(alloc)?)?;
    items.push(number(alloc)?)?;
    items.push(escapes(alloc)?)?;
    items.push(Item::End)?;
    items.push(ask(alloc)?)?;
    Ok(items)
}

fn printed(alloc: Global, items: Items<Item>) -> Result<Vec<u8>, NoMemory> {
    let lines = Items::new(alloc);
    print_doc(alloc, &Doc { items, lines })
}

#[test]
fn a_document_is_printed(rt: HostRuntime) -> Result<(), Fail> {
    let text = printed(rt.alloc(), items(rt.alloc())?)?;
    let expected = r#"module M {
  provides n() : Int = -9223372036854775808 +(9223372036854775807 + 0)
  provides t() : Text = "\"\\"
}
ask a.e!
"#;
    assert_eq!(rt; text.as_slice(), expected.as_bytes());
    Ok(())
}

#[test]
fn no_items_are_no_text(rt: HostRuntime) -> Result<(), Fail> {
    assert!(rt; printed(rt.alloc(), Items::new(rt.alloc()))?.is_empty());
    Ok(())
}
