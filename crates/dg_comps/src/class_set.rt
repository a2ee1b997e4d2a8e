//! Sets of component classes, of which there are at most 128: bit n stands for the class n.

ghost use Rattle.std.specs.Prelude.{◌≡◌, ◌<◌, ◌==◌, ◌||◌, ℕ, List, false, nat_eq};
ghost use Rattle.std.specs.List.{list_any};
ghost use Rattle.dg_comps.specs.ClassSets.{has, IsSetOf};

/// Whether a class is in the set.
pub(crate) fn holds(set: u128, class: u32) -> bool
    requires class { class < 128 }
    ensures exact { result ≡ has set class }
{
    (set >> class) & 1 == 1
}

/// The set with one class more.
pub(crate) fn with(set: u128, class: u32) -> u128
    requires class { class < 128 }
    ensures exact { (other : ℕ) → has result other ≡ (nat_eq other class || has set other) }
{
    set | (1 << class)
}

/// Whether two sets share a class.
pub(crate) fn meet(first: u128, second: u128) -> bool
    ensures exact { (classes : List ℕ) → IsSetOf (λ c. list_any (nat_eq c) classes) second
        → result ≡ list_any (has first) classes }
{
    first & second != 0
}
