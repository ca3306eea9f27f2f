//! Where random bytes come from.

ghost use Rattle.esdk_fields.specs.Counts.{HasCause};
ghost use Rattle.esdk_base.specs.Entropy.{FillConsumes};
ghost use Rattle.esdk_base.specs.Told.{FillDraws};

use crate::Failed;

/// A stream of bytes that nobody should be able to guess. Nothing is claimed of how they are
/// spread.
pub trait Entropy {
    ghost use Rattle.esdk_base.specs.Streams.{EntropyState};

    /// The bytes to come, where the entropy tells them; how often it failed so far, at most
    /// 2^64 - 1; and the bytes that were drawn from it so far.
    ghost state: { Self → EntropyState };

    /// Fills all of `out` with the first of the bytes to come, and takes them away. After `Failed`
    /// the bytes to come are as before.
    fn fill(&mut self, out: &mut [u8]) -> Result<(), Failed>
        ensures bytes { FillConsumes (state self.old).to_come
            (state self.new).to_come result out.new }
        ensures cause { HasCause (state self.old).faults (state self.new).faults result }
        ensures drawn { FillDraws (state self.old).drawn (state self.new).drawn result out.new };
}
