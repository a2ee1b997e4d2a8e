ghost use Rattle.dg_value.specs.Places.{PlacesTellEqual};

/// The test of places is true exactly where the two are one.
pub fn places_tell_equal()
    ensures law { PlacesTellEqual }
{}
