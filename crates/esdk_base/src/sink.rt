//! Where bytes go.

ghost use Rattle.esdk_fields.specs.Counts.{HasCause};
ghost use Rattle.esdk_base.specs.Sink.{PutAppends};

use crate::Failed;

/// A stream of bytes that is written once, from its front to its end.
pub trait Sink {
    ghost use Rattle.esdk_base.specs.Streams.{SinkState};

    /// The bytes written, where the sink tells them; and how often it failed so far, at most 2^64 -
    /// 1.
    ghost state: { Self → SinkState };

    /// Appends `bytes`. After `Failed` a front of them, which may be empty or all, was appended.
    fn put(&mut self, bytes: &[u8]) -> Result<(), Failed>
        ensures bytes { PutAppends (state self.old).written
            (state self.new).written result bytes.now }
        ensures cause { HasCause (state self.old).faults (state self.new).faults result };
}
