ghost use Rattle.std.specs.Prelude.{◌≡◌, ◌+◌, ℕ, List, sum_by};
ghost use mathlib.Core.Option.{some};
ghost use lib.ListN.{get_elem?};
ghost use Rattle.dg_steal.specs.declared.tally.Tally.{Tally};
ghost use Rattle.dg_steal.specs.Rule.{Keeps, times};

/// What was pushed to a deque is what it holds and what its passes took, each ask as often as it
/// was pushed. It is a law of the rule that each call of a hand keeps, at any moment.
pub fn each_ask_once()
    ensures { (items : List ℕ) (tallies : List Tally) (owner : Tally)
        → Keeps items tallies → get_elem? tallies 0 ≡ some owner
        → (ask : ℕ) → times ask owner.pushed
        ≡ times ask items + sum_by (λ t. times ask t.taken) tallies }
{}
