//! Reads a document, line by line.

ghost use Rattle.std.specs.Prelude.{◌≤◌, length, IfOk, IfErr, OnErr};
ghost use Rattle.dg_decl.specs.Bounds.{IsBounded};
ghost use Rattle.dg_decl.specs.Reading.{Reads};
ghost use Rattle.dg_reader.specs.Adding.{Adds, IsOfTokens};
ghost use Rattle.dg_reader.specs.Faults.{IsFaultOf};

use crate::draft::Draft;
use crate::fault::ReadDocFault;
use crate::meaning::meaning_of;
use crate::split::first_line;
use dg_decl::{Doc, LineMeaning};
use dg_types::NoMemory;
use sqlite_items::Items;
use std::alloc::Global;

/// Adds the item of a line, if it has one, with the line's number, and says whether the line is
/// good. A bad line adds nothing.
fn add_line(
    alloc: Global,
    line: &[u8],
    number: u32,
    draft: &mut Draft,
    places: &mut Vec<u32>,
) -> Result<bool, NoMemory>
    ensures exact { IfOk result (λ good. Adds line.now number draft.old draft.new
        places.old.items places.new.items good) }
    ensures cause { OnErr result (IsOfTokens line.now) }
{
    match meaning_of(alloc, line)? {
        LineMeaning::Bad => Ok(false),
        LineMeaning::Nothing => Ok(true),
        LineMeaning::Says(item) => {
            let good = draft.may_follow(&item);
            if good {
                draft.push(item)?;
                places.push(number)?;
            }
            Ok(good)
        }
    }
}

/// Reads a document of at most 4,194,304 bytes.
pub fn read_doc(alloc: Global, bytes: &[u8]) -> Result<Doc, ReadDocFault>
    requires { length bytes.now ≤ 4194304 }
    ensures exact { IfOk result (Reads bytes.now) }
    ensures bounded { IfOk result IsBounded }
    // BadLine names the first bad line; of NoMemory no clause says when it comes.
    ensures cause { IfErr result (IsFaultOf bytes.now) }
{
    let mut draft = Draft::new(alloc);
    let mut places = Vec::new(alloc);
    let mut number = 0;
    let mut rest = bytes;
    while let Some((line, more)) = first_line(rest) {
        number += 1;
        if !add_line(alloc, line, number, &mut draft, &mut places)? {
            return Err(ReadDocFault::BadLine { line: number });
        }
        rest = more;
    }
    if !rest.is_empty() || draft.open_block().is_some() {
        return Err(ReadDocFault::BadLine { line: number + 1 });
    }
    Ok(Doc {
        items: Items::from_vec(draft.into_items()),
        lines: Items::from_vec(places),
    })
}
