ghost use Rattle.std.specs.Prelude.{◌≡◌, ℕ, Option};
ghost use Rattle.std.specs.Option.{option_copied};
ghost use Rattle.dg_value.specs.declared.value.Kept.{Kept};
ghost use Rattle.dg_value.specs.Contents.{content_in, is_cell};

use crate::value::Kept;
use sqlite_items::Items;

/// What cells hold.
pub trait Contents {
    // The content of the cell of a slot in an instance, where it is held.
    ghost content: { Self → ℕ → ℕ → Option Kept };

    /// The content of the cell of this slot in this instance, or None where the object holds none.
    fn kept(&self, inst: u32, slot: u32) -> Option<&Kept>
        ensures exact { option_copied result ≡ content self.now inst slot };
}

/// The contents of some cells, each with its instance and its slot. Of several contents of one cell
/// the first counts.
#[derive(Drop)]
pub struct Known {
    pub cells: Items<(u32, u32, Kept)>,
}

/// Whether an entry is of the cell of this slot in this instance.
fn is_of(entry: &(u32, u32, Kept), inst: u32, slot: u32) -> bool
    ensures exact { result ≡ is_cell inst slot entry.now }
{
    entry.0 == inst && entry.1 == slot
}

/// The content in the first entry of the cell of this slot in this instance.
fn first_of(entries: &[(u32, u32, Kept)], inst: u32, slot: u32) -> Option<&Kept>
    ensures exact { option_copied result ≡ content_in entries.now inst slot }
{
    for entry in entries {
        if is_of(entry, inst, slot) {
            return Some(&entry.2);
        }
    }
    None
}

impl Contents for Known {
    ghost content = { λ known. content_in known.cells };

    fn kept(&self, inst: u32, slot: u32) -> Option<&Kept> {
        first_of(self.cells.as_slice(), inst, slot)
    }
}
