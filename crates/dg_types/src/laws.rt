ghost use Rattle.dg_types.specs.Equality as spec;
ghost use Rattle.dg_types.specs.Laws as law;
ghost use Rattle.dg_types.specs.declared.shape.TypeUse.{TypeUse};

/// The tests of equality tell what is equal.
pub fn tests_tell_equal()
    ensures bases { law.TellsEqual spec.same_base }
    ensures cores { law.TellsEqual spec.same_core }
    ensures qualifiers { law.TellsEqual spec.same_qualifier }
    ensures keys { law.TellsEqual spec.same_key }
    ensures requests { law.TellsEqual spec.same_request }
    ensures map_keys { law.TellsEqual spec.same_map_key }
    ensures shapes { law.TellsEqual spec.same_shape }
    ensures uses { law.TellsEqual spec.same_use }
{}

/// The type that makes a request is the one that the request is written as, so no two types make
/// one request.
pub fn requests_lose_nothing()
    ensures law { (asked : TypeUse) → law.IsWrittenBack asked }
{}
