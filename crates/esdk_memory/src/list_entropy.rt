//! An entropy over a list of bytes.

ghost use Rattle.std.specs.Prelude.{◌≡◌, ◌≤◌, [], Some, is_err, length};
ghost use Rattle.esdk_fields.specs.Counts.{HasCause};
ghost use Rattle.esdk_base.specs.Entropy.{FillConsumes};
ghost use Rattle.esdk_base.specs.Told.{FillDraws};
ghost use Rattle.esdk_memory.specs.ListEntropy.{after_fill, fill_fails};

use crate::call_plan::CallPlan;
use esdk_base::{Entropy, Failed};
use esdk_fields::Blob;
use esdk_seen::SeenBytes;
use std::marker::Model;

/// An entropy that gives the bytes of a `Blob`, in their order.
#[derive(Drop)]
pub struct ListEntropy {
    bytes: Blob,
    at: usize,
    plan: CallPlan,
    drawn: SeenBytes,
}

impl Model for ListEntropy {
    ghost use Rattle.std.specs.Prelude.{drop, ◌≤◌, length};
    ghost use Rattle.esdk_memory.specs.ListEntropy.{ListEntropyState};

    ghost Value = { ListEntropyState };

    ghost view = { λ e. record {
      to_come = drop e.at e.bytes;
      plan = e.plan;
      drawn = e.drawn.bytes;
    } };

    ghost invariant = { λ e. e.at ≤ length e.bytes };
}

impl ListEntropy {
    /// An entropy of these bytes. The fills whose numbers `failing` lists, counted from 1, fail,
    /// and those that want more bytes than are left; no other does.
    pub fn new(bytes: Blob, failing: Vec<u64>) -> ListEntropy
        ensures { result ≡ record {
          to_come = bytes;
          plan = record { failing = failing.items; calls = 0; faults = 0 };
          drawn = [];
        } }
    {
        ListEntropy {
            bytes,
            at: 0,
            plan: CallPlan::new(failing),
            drawn: SeenBytes::new(),
        }
    }

    /// What is left to be given.
    pub fn left(&self) -> &[u8]
        ensures { result.now ≡ self.now.to_come }
    {
        &self.bytes.bytes()[self.at..]
    }
}

impl Entropy for ListEntropy {
    ghost state = { λ e. record {
      to_come = Some e.to_come;
      faults = e.plan.faults;
      drawn = e.drawn;
    } };

    fn fill(&mut self, out: &mut [u8]) -> Result<(), Failed>
        ensures bytes { FillConsumes (Some self.old.to_come)
            (Some self.new.to_come) result out.new }
        ensures cause { HasCause self.old.plan.faults self.new.plan.faults result }
        ensures drawn { FillDraws self.old.drawn self.new.drawn result out.new }
        ensures failed { is_err result ≡ fill_fails self.old (length out.old) }
        ensures entropy { self.new ≡ record (after_fill self.old (length out.old))
            { drawn = self.new.drawn } }
    {
        let left = &self.bytes.bytes()[self.at..];
        let Ok(()) = self.plan.begin(left.len() < out.len()) else {
            return Err(Failed);
        };
        out.copy_from_slice(&left[..out.len()]);
        self.at += out.len();
        self.drawn.see(out);
        Ok(())
    }
}
