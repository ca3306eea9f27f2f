//! Why a message isn't resealed.

ghost use Rattle.std.specs.Prelude.{◌≡◌};
ghost use Rattle.reseal_core.specs.declared.errors.InputError.TheVariants as inputs;
ghost use Rattle.reseal_core.specs.declared.errors.ResealError.TheVariants as reseals;
ghost use Rattle.reseal_core.specs.Errors.{given_as, open_error_as};

use esdk_fields::{Fault, Outside, Refusal};
use keyring_trait::ManagerError;
use std::alloc::AllocError;
use std::error::Error;
use std::fmt;
use stream_open::OpenError;

/// Why a call of a resealer fails.
#[derive(Drop)]
pub enum ResealError {
    /// The message that is opened has this fault.
    Fault(Fault),
    /// The new message is refused: by its manager (Q1, Q4, Q5, Q6), or since its header would be
    /// too long (Q8) or its text is (Q9).
    Refusal(Refusal),
    /// A keyring failed when one of the managers was asked.
    KeyringFault,
    /// The sink failed.
    SinkFault,
    /// An earlier call answered an error, or `finish` was called before.
    Stopped,
    /// Memory ran out.
    Memory,
}

impl fmt::Display for ResealError {
    ghost use Rattle.std.specs.Prelude.{Some};
    ghost use Rattle.reseal_core.specs.Errors.{reseal_error_text};

    ghost output = { λ e. Some (reseal_error_text e) };

    #[tactic(auto, unfolding(crate::specs::Errors::reseal_error_text))]
    fn fmt<W: fmt::Write>(&self, f: &mut fmt::Formatter<W>) -> fmt::Result {
        match self {
            ResealError::Fault(fault) => fmt::Display::fmt(fault, f),
            ResealError::Refusal(refusal) => fmt::Display::fmt(refusal, f),
            ResealError::KeyringFault => f.write_str("a keyring failed"),
            ResealError::SinkFault => f.write_str("the sink failed"),
            ResealError::Stopped => f.write_str("the resealer has stopped"),
            ResealError::Memory => f.write_str("memory ran out"),
        }
    }
}

impl fmt::Debug for ResealError {
    fn fmt<W: fmt::Write>(&self, f: &mut fmt::Formatter<W>) -> fmt::Result {
        fmt::Display::fmt(self, f)
    }
}

impl Error for ResealError {}

/// What an opener's error is called here.
pub(crate) fn opened_as(error: OpenError) -> ResealError
    ensures { result ≡ open_error_as error }
{
    match error {
        OpenError::Fault(fault) => ResealError::Fault(fault),
        OpenError::KeyringFault => ResealError::KeyringFault,
        OpenError::Stopped => ResealError::Stopped,
        OpenError::Memory => ResealError::Memory,
    }
}

/// What an error of the manager of the new message is called here.
pub(crate) fn given_as(error: ManagerError) -> ResealError
    ensures { result ≡ given_as error }
{
    match error {
        ManagerError::Fault(fault) => ResealError::Fault(fault),
        ManagerError::Refusal(refusal) => ResealError::Refusal(refusal),
        ManagerError::KeyringFault => ResealError::KeyringFault,
        ManagerError::Memory => ResealError::Memory,
    }
}

/// Why an input isn't resealed.
#[derive(Drop)]
pub enum InputError {
    /// The message has this fault.
    Fault(Fault),
    /// The new message is refused: by its manager (Q1, Q4, Q5, Q6), or since its header would be
    /// too long (Q8) or its text is (Q9).
    Refusal(Refusal),
    /// The input, the output, the entropy or a keyring failed, or the input is too long.
    Outside(Outside),
    /// Memory ran out.
    Memory,
}

impl fmt::Display for InputError {
    ghost use Rattle.std.specs.Prelude.{Some};
    ghost use Rattle.reseal_core.specs.Errors.{input_error_text};

    ghost output = { λ e. Some (input_error_text e) };

    #[tactic(auto, unfolding(crate::specs::Errors::input_error_text))]
    fn fmt<W: fmt::Write>(&self, f: &mut fmt::Formatter<W>) -> fmt::Result {
        match self {
            InputError::Fault(fault) => fmt::Display::fmt(fault, f),
            InputError::Refusal(refusal) => fmt::Display::fmt(refusal, f),
            InputError::Outside(outside) => fmt::Display::fmt(outside, f),
            InputError::Memory => f.write_str("memory ran out"),
        }
    }
}

impl fmt::Debug for InputError {
    fn fmt<W: fmt::Write>(&self, f: &mut fmt::Formatter<W>) -> fmt::Result {
        fmt::Display::fmt(self, f)
    }
}

impl Error for InputError {}

impl From<AllocError> for InputError {
    ghost from_gives = { λ _ error. error ≡ inputs.Memory };

    fn from(_: AllocError) -> InputError {
        InputError::Memory
    }
}
