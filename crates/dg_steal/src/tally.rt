// What a pass of a deque knows, the rule of a deque, and what each kind of step tells its pass.

use crossbeam_deque::protocol::{Outcome, Protocol, Split};
use std::collections::LinkedList;

// What a pass knows: its number, what it took and, where it is the owner's, which has the number
// 0, what it pushed and how many passes there are. The lists are first to last. No value of it is
// made.
pub struct Tally {
    pub number: u64,
    pub passes: u64,
    pub pushed: LinkedList<u32>,
    pub taken: LinkedList<u32>,
}

// The rule, which every step keeps.
pub struct EachOnce;

impl Protocol<u32, Tally> for EachOnce {
    ghost use Rattle.std.specs.Prelude.{[]};
    ghost use Rattle.dg_steal.specs.Rule.{Keeps, owner, other};

    ghost holds = { Keeps };

    ghost first = { owner 1 };

    ghost guest = { other 0 };
}

// An ask joins the deque at the back.
pub struct Push;

impl Outcome<u32, Tally> for Push {
    ghost use Rattle.dg_steal.specs.Rule.{Pushed};

    ghost then = { λ t asks u. Pushed asks t u };
}

// An ask leaves the deque at the front.
pub struct Take;

impl Outcome<u32, Tally> for Take {
    ghost use Rattle.dg_steal.specs.Rule.{Took, WasEmpty};

    ghost then = { λ t asks u. Took asks t u };

    ghost empty = { WasEmpty };
}

// A pass is made for another worker.
pub struct Open;

impl Split<Tally> for Open {
    ghost use Rattle.dg_steal.specs.Rule.{opening, other};

    ghost left = { opening };

    ghost right = { λ t. other t.passes };
}
