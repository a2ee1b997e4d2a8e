/// A step of a run.
#[derive(Clone, Copy, Debug, PartialEq, Eq)]
pub enum Step {
    /// The evaluation of the ask with this number begins.
    AskStart { ask: u32 },

    /// The reply to the ask with this number is known.
    AskDone { ask: u32 },

    /// The evaluation of the producer at this slot of this component instance begins.
    Run { inst: u32, slot: u32 },

    /// The cell at this slot of this component instance was filled.
    Filled { inst: u32, slot: u32 },
}

/// An observer of a run, which is told of its steps one after another.
pub trait Gate {
    ghost use Rattle.std.specs.Prelude.{List};
    ghost use Rattle.std.specs.declared.option.Option.{Option};
    ghost use Rattle.dg_io.specs.declared.gate.Step.{Step};
    ghost use Rattle.dg_io.specs.Heard.{Hears};

    // The steps that were told, the first one first, where they are known.
    ghost heard: { Self → Option (List Step) };

    /// Tells of one step. After a step that a gate cannot keep, the list is no longer known.
    fn told(&mut self, step: Step)
        ensures exact { Hears (heard self.old) (heard self.new) step };
}

/// A gate that does nothing, and of which nothing is known.
#[derive(Clone, Copy, Debug, PartialEq, Eq)]
pub struct QuietGate;

impl Gate for QuietGate {
    ghost use Rattle.std.specs.Prelude.{None};

    ghost heard = { λ _. None };

    fn told(&mut self, _step: Step) {}
}
