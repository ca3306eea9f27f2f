//! Why a run ends without its result.
ghost use Rattle.std.specs.Prelude.{◌≡◌};
ghost use Rattle.esdk_report.specs.declared.failure.Failure.TheVariants.{Memory};

use esdk_args::{OptionName, option_text};
use esdk_fields::{Fault, FileRefusal, Outside, Refusal};
use std::alloc::{AllocError, AllocFailed};
use std::error::Error;
use std::fmt;

/// Why a run ends without its result.
#[derive(Drop)]
pub enum Failure {
    /// The words name no command, or the command doesn't take the others.
    NotRead,
    /// The number of this option isn't one that it takes.
    BadNumber(OptionName),
    /// The pair word of this number, counted from 1, is none.
    BadPair(u32),
    /// The input has this fault.
    Fault(Fault),
    /// A keyring file, a job file or an audit file is refused.
    File(FileRefusal),
    /// The input, the output, the shelf, the entropy or a keyring failed, or the input is too long.
    Outside(Outside),
    /// What was asked for is refused.
    Refusal(Refusal),
    /// Memory ran out.
    Memory,
}

impl fmt::Display for Failure {
    ghost use Rattle.std.specs.Prelude.{Some};
    ghost use Rattle.esdk_report.specs.Report.{failure_text};

    ghost output = { λ e. Some (failure_text e) };

    #[tactic(auto, unfolding(crate::specs::Report::failure_text))]
    fn fmt<W: fmt::Write>(&self, f: &mut fmt::Formatter<W>) -> fmt::Result {
        match self {
            Failure::NotRead => f.write_str("words NotRead"),
            Failure::BadNumber(option) => write!(f, "words BadNumber {}", option_text(*option)),
            Failure::BadPair(number) => write!(f, "words BadPair {number}"),
            Failure::Fault(fault) => fmt::Display::fmt(fault, f),
            Failure::File(refusal) => fmt::Display::fmt(refusal, f),
            Failure::Outside(outside) => fmt::Display::fmt(outside, f),
            Failure::Refusal(refusal) => fmt::Display::fmt(refusal, f),
            Failure::Memory => f.write_str("memory ran out"),
        }
    }
}

impl fmt::Debug for Failure {
    fn fmt<W: fmt::Write>(&self, f: &mut fmt::Formatter<W>) -> fmt::Result {
        fmt::Display::fmt(self, f)
    }
}

impl Error for Failure {}

impl From<AllocError> for Failure {
    ghost from_gives = { λ _ failure. failure ≡ Memory };

    fn from(_: AllocError) -> Failure {
        Failure::Memory
    }
}

impl<T: Drop> From<AllocFailed<T>> for Failure {
    ghost from_gives = { λ _ failure. failure ≡ Memory };

    fn from(_: AllocFailed<T>) -> Failure {
        Failure::Memory
    }
}
