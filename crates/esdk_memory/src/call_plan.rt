//! Which calls of a memory form are to fail.

ghost use Rattle.std.specs.Prelude.{◌≡◌, ◌||◌, false, is_err};
ghost use Rattle.esdk_memory.specs.CallPlan.{plan_after_call, fails_next};
ghost use Rattle.esdk_fields.specs.Counts.{HasCause};

use esdk_base::Failed;
use std::marker::Model;

/// The numbers of the calls that are to fail, from 1, and the counts of calls and of faults.
#[derive(Drop)]
pub(crate) struct CallPlan {
    failing: Vec<u64>,
    calls: u64,
    faults: u64,
}

impl Model for CallPlan {
    ghost use Rattle.esdk_memory.specs.CallPlan.{Plan};

    ghost Value = { Plan };

    ghost view = { λ p. record { failing = p.failing.items; calls = p.calls; faults = p.faults } };
}

impl CallPlan {
    /// No call came yet.
    pub(crate) fn new(failing: Vec<u64>) -> CallPlan
        ensures { result ≡ record { failing = failing.items; calls = 0; faults = 0 } }
    {
        CallPlan {
            failing,
            calls: 0,
            faults: 0,
        }
    }

    /// Counts a call, which fails where its number is planned, or where it is `refused` anyway.
    pub(crate) fn begin(&mut self, refused: bool) -> Result<(), Failed>
        ensures failed { is_err result ≡ (fails_next self.old || refused) }
        ensures cause { HasCause self.old.faults self.new.faults result }
        ensures plan { self.new ≡ plan_after_call (fails_next self.old || refused) self.old }
    {
        self.count();
        if self.failing.contains(&self.calls) || refused {
            self.faults = self.faults.saturating_add(1);
            return Err(Failed);
        }
        Ok(())
    }

    /// Counts a call, whether it is planned to fail or not. That alone is no fault.
    pub(crate) fn count(&mut self)
        ensures { self.new ≡ plan_after_call false self.old }
    {
        self.calls = self.calls.saturating_add(1);
    }
}
