//! A source in memory.

ghost use Rattle.std.specs.Prelude.{◌≡◌, ◌≤◌, ⊤, [], false, IfOk, Some, is_err, length};
ghost use Rattle.std.specs.Io.{ReadsAtMost};
ghost use Rattle.std.specs.Io.KnownBytes.{ReadConsumes};
ghost use Rattle.esdk_memory.specs.CallPlan.{fails_next};
ghost use Rattle.esdk_base.specs.Told.{ReadComes, ReadSeesEnd};
ghost use Rattle.esdk_fields.specs.Counts.{CountsGiven, HasCause};
ghost use Rattle.esdk_memory.specs.MemSource.{source_after_read, source_read_count};

use crate::call_plan::CallPlan;
use crate::fronts::give_front;
use esdk_base::{Failed, Source, sees_end};
use esdk_fields::Blob;
use esdk_seen::SeenBytes;
use std::marker::Model;

/// A source that gives the bytes of a `Blob`, at most so many for each read.
#[derive(Drop)]
pub struct MemSource {
    bytes: Blob,
    at: usize,
    most: usize,
    given: u64,
    plan: CallPlan,
    came: SeenBytes,
    ended: bool,
}

impl Model for MemSource {
    ghost use Rattle.std.specs.Prelude.{drop, ◌≤◌, length};
    ghost use Rattle.esdk_memory.specs.MemSource.{MemSourceState};

    ghost Value = { MemSourceState };

    ghost view = { λ s. record {
      left = drop s.at s.bytes;
      most = s.most;
      given = s.given;
      plan = s.plan;
      came = s.came.bytes;
      ended = s.ended;
    } };

    ghost invariant = { λ s. (s.at ≤ length s.bytes) × (1 ≤ s.most) };
}

impl MemSource {
    /// A source of these bytes. A read gives at most `most` bytes, and the reads whose numbers
    /// `failing` lists, counted from 1, fail; no other does.
    pub fn new(bytes: Blob, most: usize, failing: Vec<u64>) -> MemSource
        requires { 1 ≤ most }
        ensures { result ≡ record {
          left = bytes;
          most = most;
          given = 0;
          plan = record { failing = failing.items; calls = 0; faults = 0 };
          came = [];
          ended = false;
        } }
    {
        MemSource {
            bytes,
            at: 0,
            most,
            given: 0,
            plan: CallPlan::new(failing),
            came: SeenBytes::new(),
            ended: false,
        }
    }

    /// What is left to be read.
    pub fn left(&self) -> &[u8]
        ensures { result.now ≡ self.now.left }
    {
        &self.bytes.bytes()[self.at..]
    }
}

impl Source for MemSource {
    ghost state = { λ s. record {
      left = Some s.left;
      given = s.given;
      faults = s.plan.faults;
      came = s.came;
      ended = s.ended;
    } };

    ghost lasts = { λ _ _. ⊤ };

    ghost lasts_none = { λ _. tt };

    ghost lasts_more = { λ _ _ _ _ _. tt };

    fn read(&mut self, out: &mut [u8]) -> Result<usize, Failed>
        ensures bound { ReadsAtMost result out.new }
        ensures bytes { ReadConsumes (Some self.old.left) (Some self.new.left) result out.new }
        ensures given { CountsGiven self.old.given self.new.given result }
        ensures cause { HasCause self.old.plan.faults self.new.plan.faults result }
        ensures came { ReadComes self.old.came self.new.came result out.new }
        ensures ended { ReadSeesEnd self.old.ended self.new.ended result out.new }
        ensures failed { is_err result ≡ fails_next self.old.plan }
        ensures count { IfOk result (λ n. n ≡ source_read_count (length out.old) self.old) }
        ensures source { self.new ≡ record (source_after_read (length out.old) self.old)
            { came = self.new.came; ended = self.new.ended } }
    {
        let Ok(()) = self.plan.begin(false) else {
            return Err(Failed);
        };
        let count = give_front(&self.bytes.bytes()[self.at..], self.most, out);
        self.at += count;
        self.given = self.given.saturating_add(count as u64);
        self.came.see(&out[..count]);
        self.ended = sees_end(self.ended, out.len(), count);
        Ok(count)
    }
}
