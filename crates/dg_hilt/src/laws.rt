ghost use Rattle.std.specs.Prelude.{◌≡◌, ◌<◌, ℕ, IfSome};
ghost use Rattle.dg_hilt.specs.Classes as spec;
ghost use Rattle.dg_hilt.specs.Laws as law;
ghost use Rattle.dg_hilt.specs.declared.class.HiltClass.{HiltClass};

/// The parent of a component stands before it in the table, so no component is its own ancestor.
pub fn parents_come_first()
    ensures law { (c : HiltClass) → law.ParentComesFirst c }
{}

/// Each component is found by its name and by its number: no two rows of the table have one name.
pub fn names_are_distinct()
    ensures by_name { (c : HiltClass) → law.IsFoundByName c }
    ensures by_number { (c : HiltClass) → law.IsFoundByNumber c }
{}
