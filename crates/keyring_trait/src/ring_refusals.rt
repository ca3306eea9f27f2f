//! Why a keyring makes or finds no data key.

ghost use Rattle.std.specs.Prelude.{◌≡◌};
ghost use Rattle.keyring_trait.specs.RingRefusals.{ring_refusal_text};

use std::alloc::{AllocError, AllocFailed};
use std::error::Error;
use std::fmt;

/// What a keyring refuses, whatever the context.
#[derive(Clone, Copy, PartialEq, Eq)]
pub enum RingRefusal {
    /// No data key was handed over, and there is no keyring that generates one.
    NoGenerator,
    /// A data key was handed over, and there is a keyring that generates one.
    GeneratorHasKey,
}

impl RingRefusal {
    /// What is wrong, as one line says it.
    #[tactic(auto, unfolding(crate::specs::RingRefusals::ring_refusal_text))]
    fn text(&self) -> &'static str
        ensures { result.now ≡ ring_refusal_text self.now }
    {
        match self {
            RingRefusal::NoGenerator => "no keyring generates a data key",
            RingRefusal::GeneratorHasKey => "the generator was handed a data key",
        }
    }
}

impl fmt::Display for RingRefusal {
    ghost use Rattle.std.specs.Prelude.{Some};
    ghost use Rattle.keyring_trait.specs.RingRefusals.{ring_refusal_text};

    ghost output = { λ e. Some (ring_refusal_text e) };

    fn fmt<W: fmt::Write>(&self, f: &mut fmt::Formatter<W>) -> fmt::Result {
        f.write_str(self.text())
    }
}

impl fmt::Debug for RingRefusal {
    fn fmt<W: fmt::Write>(&self, f: &mut fmt::Formatter<W>) -> fmt::Result {
        fmt::Display::fmt(self, f)
    }
}

impl Error for RingRefusal {}

/// Why a keyring makes or finds no data key.
#[derive(Drop)]
pub enum RingError {
    /// It refuses to.
    Refused(RingRefusal),
    /// It failed, and counted that.
    KeyringFault,
    /// Memory ran out.
    Memory,
}

impl fmt::Display for RingError {
    ghost use Rattle.std.specs.Prelude.{Some};
    ghost use Rattle.keyring_trait.specs.RingRefusals.{ring_error_text};

    ghost output = { λ e. Some (ring_error_text e) };

    #[tactic(auto, unfolding(crate::specs::RingRefusals::ring_error_text))]
    fn fmt<W: fmt::Write>(&self, f: &mut fmt::Formatter<W>) -> fmt::Result {
        match self {
            RingError::Refused(refusal) => fmt::Display::fmt(refusal, f),
            RingError::KeyringFault => f.write_str("the keyring failed"),
            RingError::Memory => f.write_str("memory ran out"),
        }
    }
}

impl fmt::Debug for RingError {
    fn fmt<W: fmt::Write>(&self, f: &mut fmt::Formatter<W>) -> fmt::Result {
        fmt::Display::fmt(self, f)
    }
}

impl Error for RingError {}

impl From<AllocError> for RingError {
    ghost use Rattle.std.specs.Prelude.{◌≡◌};
    ghost use Rattle.keyring_trait.specs.declared.ring_refusals.RingError.TheVariants.{Memory};

    ghost from_gives = { λ _ e. e ≡ Memory };

    fn from(_: AllocError) -> RingError {
        RingError::Memory
    }
}

impl<T: Drop> From<AllocFailed<T>> for RingError {
    ghost use Rattle.std.specs.Prelude.{◌≡◌};
    ghost use Rattle.keyring_trait.specs.declared.ring_refusals.RingError.TheVariants.{Memory};

    ghost from_gives = { λ _ e. e ≡ Memory };

    fn from(_: AllocFailed<T>) -> RingError {
        RingError::Memory
    }
}
