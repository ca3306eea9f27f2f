//! What takes the bytes that a machine gives.

ghost use Rattle.std.specs.Prelude.{MatchResult};

use crate::{Failed, Sink};

/// Takes the bytes that a machine gives, as they come. Each sink is one; so can a file of a shelf
/// be, a buffer, or another machine. Whoever implements it says what taking bytes makes of it, and
/// what an error leaves.
pub trait Receiver {
    ghost use Rattle.std.specs.Prelude.{List, ℕ, [], ◌++◌};

    /// Why it took no more.
    type Error: Drop;

    /// It took all of these bytes.
    ghost takes: { Self → Self → List ℕ → Type 0 };

    /// It failed with this error while it was given these bytes.
    ghost fails: { Self → Self → List ℕ → Self.Error → Type 0 };

    /// Takes all of these bytes, or fails.
    fn take(&mut self, bytes: &[u8]) -> Result<(), Self::Error>
        ensures { MatchResult result (λ _. takes self.old self.new bytes.now)
            (λ error. fails self.old self.new bytes.now error) };

    /// Taking nothing leaves it as it is.
    ghost takes_none: { (r : Self) → takes r r [] };

    /// Taking one piece after another is taking both.
    ghost takes_more: { (r s t : Self) (first second : List ℕ)
        → takes r s first → takes s t second → takes r t (first ++ second) };

    /// What fails behind a piece fails at both.
    ghost fails_behind: { (r s t : Self) (first second : List ℕ) (error : Self.Error)
        → takes r s first → fails s t second error → fails r t (first ++ second) error };
}

/// Why a machine isn't fed to the end of a piece.
#[derive(Drop)]
pub enum FeedError<M, R> {
    /// The machine failed. What it gave until then was taken.
    Machine(M),
    /// The receiver failed at what the machine gave.
    Receiver(R),
}

/// A sink takes bytes by one put.
impl<O: Sink> Receiver for O {
    ghost use Rattle.esdk_base.specs.Receiver.{SinkFails, SinkTakes};
    ghost use Rattle.esdk_base.specs.ReceiverLaws.{fails_behind, takes_more, takes_none};

    type Error = Failed;

    ghost takes = { λ old new bytes. SinkTakes (O.state old) (O.state new) bytes };

    ghost fails = { λ old new bytes _. SinkFails (O.state old) (O.state new) bytes };

    fn take(&mut self, bytes: &[u8]) -> Result<(), Failed> {
        self.put(bytes)
    }

    ghost takes_none = { λ r. takes_none (O.state r) };

    ghost takes_more = { λ r s t first second.
        takes_more (O.state r) (O.state s) (O.state t) first second };

    ghost fails_behind = { λ r s t first second _.
        fails_behind (O.state r) (O.state s) (O.state t) first second };
}
