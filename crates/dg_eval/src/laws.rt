//! The laws of evaluation.

ghost use Rattle.dg_eval.specs.Inputs.{InputsAreLookUps, InputsLeadToSlots, NoInputIsLeftOut};
ghost use Rattle.dg_eval.specs.Laws.{EvaluationIsTotal, LazyPlaces, MoreDepthChangesNothing};

/// More depth changes nothing, in any document: where evaluation at a depth has a result, it is the
/// same at every greater depth.
pub fn more_depth_changes_nothing()
    ensures exact { MoreDepthChangesNothing }
{}

/// Evaluation is total: in an accepted document each slot that is no entry has a result at a depth
/// of 128 in each instance of its class, whatever the place and the mode, and the same result at
/// every greater depth.
pub fn evaluation_is_total()
    ensures exact { EvaluationIsTotal }
{}

/// No look-up is left for the run: in an accepted document each input of each slot of the plan
/// leads by its numbers to a slot and, in each instance of the class of the slot that asks, to an
/// instance. They are the slot and the instance that evaluation looks up, for slots of entry points
/// too. Each dependency of a node has its input, at the same index.
pub fn inputs_lead_to_slots()
    ensures exact { InputsLeadToSlots }
    ensures look_ups { InputsAreLookUps }
    ensures all { NoInputIsLeftOut }
{}

/// Each Lazy stands at its place: in an accepted document, for every Lazy of a slot and an instance
/// in a value that evaluation gives, in a content or in a reply, what stands at its place is that
/// slot in that instance, as a Lazy. The same holds for each Lazy that is asked for. So a place has
/// at most one Lazy, and a table of Lazies by place loses none.
pub fn lazy_places()
    ensures exact { LazyPlaces }
{}
