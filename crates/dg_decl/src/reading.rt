//! The laws of reading.

ghost use Rattle.dg_decl.specs.Lines.{LinesAndRest};
ghost use Rattle.dg_decl.specs.Reading.{OneReading};

/// A document's bytes are its lines, each with the LF that ends it, and then a rest; neither a line
/// nor the rest holds an LF. So there is one way to part bytes into lines.
pub fn lines_and_rest()
    ensures exact { LinesAndRest }
{}

/// Each list of bytes has exactly one reading or exactly one first bad line, and not both. So 'what
/// is read' and 'the first bad line' each mean one thing.
pub fn one_reading()
    ensures exact { OneReading }
{}
