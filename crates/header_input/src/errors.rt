//! Why no header came from a source.
ghost use Rattle.std.specs.Prelude.{◌≡◌};
ghost use Rattle.header_input.specs.declared.errors.NoHeader.TheVariants.{Memory};

use esdk_fields::Fault;
use std::alloc::AllocError;
use std::error::Error;
use std::fmt;
use whole_input::End;

/// Why no header came from a source.
#[derive(Drop)]
pub enum NoHeader {
    /// The bytes that came have this fault.
    Fault(Fault),
    /// No more bytes came, and those that did are the beginning of a header.
    End(End),
    /// Memory ran out.
    Memory,
}

impl fmt::Display for NoHeader {
    ghost use Rattle.std.specs.Prelude.{Some};
    ghost use Rattle.header_input.specs.Errors.{no_header_text};

    ghost output = { λ e. Some (no_header_text e) };

    #[tactic(auto, unfolding(crate::specs::Errors::no_header_text))]
    fn fmt<W: fmt::Write>(&self, f: &mut fmt::Formatter<W>) -> fmt::Result {
        match self {
            NoHeader::Fault(fault) => fmt::Display::fmt(fault, f),
            NoHeader::End(End::Seen) => f.write_str("the input ends before its header"),
            NoHeader::End(End::Failed) => f.write_str("a read failed"),
            NoHeader::End(End::TooLong) => f.write_str("the header is too long"),
            NoHeader::Memory => f.write_str("memory ran out"),
        }
    }
}

impl fmt::Debug for NoHeader {
    fn fmt<W: fmt::Write>(&self, f: &mut fmt::Formatter<W>) -> fmt::Result {
        fmt::Display::fmt(self, f)
    }
}

impl Error for NoHeader {}

impl From<AllocError> for NoHeader {
    ghost from_gives = { λ _ error. error ≡ Memory };

    fn from(_: AllocError) -> NoHeader {
        NoHeader::Memory
    }
}
