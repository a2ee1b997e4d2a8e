ghost use Rattle.std.specs.Prelude.{◌≡◌, ◌+◌, ◌↔◌, Contains, IsTrue};
ghost use Rattle.dg_io.specs.Causes.{raised};

/// The calls of an object in memory: which are to fail, and how many were made and failed.
#[derive(Debug, Drop)]
pub(crate) struct Calls {
    /// The numbers, from 1, of the calls that are to fail.
    pub(crate) bad: Vec<u64>,

    /// How many calls were made. The count stops at 2^64 - 1.
    pub(crate) made: u64,

    /// How many calls failed. The count stops at 2^64 - 1.
    pub(crate) failed: u64,
}

impl Calls {
    /// Counts a call, and says whether it is to fail.
    pub(crate) fn begin(&mut self) -> bool
        ensures exact { IsTrue result ↔ Contains self.old.bad.items (self.old.made + 1) }
        ensures faults { self.new ≡ record self.old { made = raised self.old.made } }
    {
        let is_bad = next_is_bad(&self.bad, self.made);
        self.made = self.made.saturating_add(1);
        is_bad
    }

    /// Counts a call that failed.
    pub(crate) fn fail(&mut self)
        ensures faults { self.new ≡ record self.old { failed = raised self.old.failed } }
    {
        self.failed = self.failed.saturating_add(1);
    }
}

/// Whether the call after so many calls is to fail. A call past number 2^64 - 1 cannot stand in
/// the list.
fn next_is_bad(bad: &[u64], made: u64) -> bool
    ensures exact { IsTrue result ↔ Contains bad.now (made + 1) }
{
    match made.checked_add(1) {
        Some(number) => bad.contains(&number),
        None => false,
    }
}
