//! Why a call of a sealer fails.

ghost use Rattle.std.specs.Prelude.{◌≡◌};
ghost use Rattle.stream_seal.specs.declared.errors.SealError.TheVariants.{Memory};

use context_codec::PairError;
use esdk_fields::Refusal;
use std::alloc::AllocError;
use std::error::Error;
use std::fmt;

/// Why a call of a sealer fails.
#[derive(Drop)]
pub enum SealError {
    /// No message can be made of the materials (Q7, Q8) or of the text (Q9, Q10).
    Refusal(Refusal),
    /// An earlier call answered an error, or `finish` was called before.
    Stopped,
    /// Memory ran out.
    Memory,
}

impl fmt::Display for SealError {
    ghost use Rattle.std.specs.Prelude.{Some};
    ghost use Rattle.stream_seal.specs.Errors.{seal_error_text};

    ghost output = { λ e. Some (seal_error_text e) };

    #[tactic(auto, unfolding(crate::specs::Errors::seal_error_text))]
    fn fmt<W: fmt::Write>(&self, f: &mut fmt::Formatter<W>) -> fmt::Result {
        match self {
            SealError::Refusal(refusal) => fmt::Display::fmt(refusal, f),
            SealError::Stopped => f.write_str("the sealer has stopped"),
            SealError::Memory => f.write_str("memory ran out"),
        }
    }
}

impl fmt::Debug for SealError {
    fn fmt<W: fmt::Write>(&self, f: &mut fmt::Formatter<W>) -> fmt::Result {
        fmt::Display::fmt(self, f)
    }
}

impl Error for SealError {}

impl From<AllocError> for SealError {
    ghost from_gives = { λ _ error. error ≡ Memory };

    fn from(_: AllocError) -> SealError {
        SealError::Memory
    }
}
