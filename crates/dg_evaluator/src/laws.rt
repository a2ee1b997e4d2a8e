//! The law of ends.

ghost use Rattle.dg_evaluator.specs.Ends.{EvaluationEnds};

/// Evaluation of a slot ends in a value, or in the cell of a producer, of which the content is then
/// asked for.
pub fn evaluation_ends()
    ensures exact { EvaluationEnds }
{}
