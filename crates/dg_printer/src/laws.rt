//! What holds of canonical text.

ghost use Rattle.dg_printer.specs.Laws.{ReadsBack};

/// Of each document that some bytes read to, the canonical text reads to a document with the same
/// items, where none of its lines is longer than a line may be, 4,096 bytes. A line may grow, since
/// spaces are printed where none stood. How many bytes a document may have in all is no premise:
/// what bytes read to doesn't depend on it.
pub fn reads_back()
    ensures exact { ReadsBack }
{}
