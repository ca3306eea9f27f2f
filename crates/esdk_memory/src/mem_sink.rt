//! A sink in memory.

ghost use Rattle.std.specs.Prelude.{◌≡◌, [], IfOk, Some, is_err};
ghost use Rattle.esdk_fields.specs.Counts.{HasCause};
ghost use Rattle.esdk_memory.specs.MemSink.{after_put, put_fails};
ghost use Rattle.esdk_base.specs.Sink.{PutAppends};

use crate::call_plan::CallPlan;
use esdk_base::{Failed, Sink};
use std::alloc::{AllocError, Global};
use std::marker::Model;

/// A sink that keeps what is written, up to a room that is taken when it is made.
#[derive(Drop)]
pub struct MemSink {
    bytes: Vec<u8>,
    room: usize,
    plan: CallPlan,
}

impl Model for MemSink {
    ghost use Rattle.std.specs.Prelude.{◌≤◌, vec_len, vec_capacity};
    ghost use Rattle.esdk_memory.specs.MemSink.{MemSinkState};

    ghost Value = { MemSinkState };

    ghost view = { λ s. record { written = s.bytes.items; room = s.room; plan = s.plan } };

    ghost invariant = { λ s. (vec_len s.bytes ≤ s.room) × (s.room ≤ vec_capacity s.bytes) };
}

impl MemSink {
    /// An empty sink for at most `room` bytes. The puts whose numbers `failing` lists, counted
    /// from 1, fail, and those that would write more than `room` bytes in all; no other does.
    pub fn new(alloc: Global, room: usize, failing: Vec<u64>) -> Result<MemSink, AllocError>
        ensures { IfOk result (λ sink. sink ≡ record {
          written = [];
          room = room;
          plan = record { failing = failing.items; calls = 0; faults = 0 };
        }) }
    {
        Ok(MemSink {
            bytes: Vec::with_capacity(alloc, room)?,
            room,
            plan: CallPlan::new(failing),
        })
    }

    /// What was written so far.
    pub fn written(&self) -> &[u8]
        ensures { result.now ≡ self.now.written }
    {
        &self.bytes
    }
}

impl Sink for MemSink {
    ghost state = { λ s. record { written = Some s.written; faults = s.plan.faults } };

    fn put(&mut self, bytes: &[u8]) -> Result<(), Failed>
        ensures bytes { PutAppends (Some self.old.written)
            (Some self.new.written) result bytes.now }
        ensures cause { HasCause self.old.plan.faults self.new.plan.faults result }
        ensures failed { is_err result ≡ put_fails self.old bytes.now }
        ensures sink { self.new ≡ after_put self.old bytes.now }
    {
        let too_long = self.room - self.bytes.len() < bytes.len();
        let Ok(()) = self.plan.begin(too_long) else {
            return Err(Failed);
        };
        self.bytes.extend_from_slice(bytes).unwrap();
        Ok(())
    }
}
