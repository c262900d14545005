//! The calls of a source or a sink in memory.

ghost use Rattle.std.specs.Prelude.{◌≡◌, ◌≤◌, ◌+◌, ◌-◌, ◌^◌, min};
ghost use Rattle.cgs_io.specs.Causes.{Rose};
ghost use Rattle.cgs_io.specs.Memory.{is_listed};

use crate::source::Failed;

/// Counts calls from 0, knows which of them are to fail, and counts those that failed. Both counts stand still at the
/// last value of their type.
#[derive(Drop)]
pub(crate) struct Calls {
    fails: Vec<u64>,
    made: u64,
    faults: u64,
}

impl Calls {
    pub(crate) fn new(fails: Vec<u64>) -> Calls
        ensures { result ≡ record { fails = fails; made = 0; faults = 0 } }
    {
        Calls {
            fails,
            made: 0,
            faults: 0,
        }
    }

    /// Counts a call, and says whether it is listed to fail.
    pub(crate) fn next(&mut self) -> bool
        ensures listed { result ≡ is_listed self.old.fails.items self.old.made }
        ensures counted { self.new ≡ record self.old { made = min (self.old.made + 1) (2 ^ 64 - 1) } }
    {
        let listed = self.fails.contains(&self.made);
        self.made = self.made.saturating_add(1);
        listed
    }

    /// Counts a fault.
    pub(crate) fn fail(&mut self) -> Failed
        ensures never_falls { self.old.faults ≤ self.new.faults }
        ensures rose { Rose self.old.faults self.new.faults }
        ensures counted { self.new ≡ record self.old { faults = min (self.old.faults + 1) (2 ^ 64 - 1) } }
    {
        self.faults = self.faults.saturating_add(1);
        Failed
    }
}
