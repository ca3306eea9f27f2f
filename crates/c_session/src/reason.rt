//! Why a session ended.

ghost use Rattle.std.specs.Prelude.{◌≡◌, ◌≤◌, IfOk};
ghost use Rattle.c_session.specs.declared.reason.Reason.TheVariants.{Memory};
ghost use Rattle.c_session.specs.Reason.{code_of_reason, fault_number, file_number, reason_line};
ghost use Rattle.c_session.specs.Reason.{name_of, refusal_number};

use esdk_fields::{Blob, Fault, FileRefusal, Outside, Refusal};
use esdk_report::{fault_text, file_text, outside_text, refusal_text};
use std::alloc::{AllocError, Global};

/// Why a session ended.
#[derive(Drop)]
pub enum Reason {
    /// The keyring file is refused.
    File(FileRefusal),
    /// The message has this fault.
    Fault(Fault),
    /// The request, or the text, is refused.
    Refusal(Refusal),
    /// A keyring failed.
    Keyring,
    /// Memory ran out.
    Memory,
}

impl Reason {
    /// Its code: a thousand times the program's exit status, and the number of the line.
    pub fn code(&self) -> u32
        ensures code { result ≡ code_of_reason self.now }
        ensures few { result ≤ 9999 }
    {
        match self {
            Reason::File(refusal) => 3000 + file_number(refusal),
            Reason::Fault(fault) => 1000 + fault_number(fault),
            Reason::Refusal(refusal) => 6000 + refusal_number(refusal),
            Reason::Keyring => 4005,
            Reason::Memory => 5000,
        }
    }

    /// The number and the name, with which its line begins.
    pub fn name(&self) -> &'static str
        ensures { result.now ≡ name_of self.now }
    {
        match self {
            Reason::File(refusal) => refusal.name(),
            Reason::Fault(fault) => fault.name(),
            Reason::Refusal(refusal) => refusal.name(),
            Reason::Keyring => Outside::KeyringFault.name(),
            Reason::Memory => "Memory",
        }
    }

    /// Its line, as the program prints it behind `esdk: `. Fails only where memory runs out.
    pub fn line(&self, alloc: Global) -> Result<Blob, AllocError>
        ensures { IfOk result (λ line. line ≡ reason_line self.now) }
    {
        match self {
            Reason::File(refusal) => file_text(alloc, refusal),
            Reason::Fault(fault) => fault_text(alloc, fault),
            Reason::Refusal(refusal) => refusal_text(alloc, refusal),
            Reason::Keyring => outside_text(alloc, &Outside::KeyringFault),
            Reason::Memory => only_name(alloc),
        }
    }
}

/// The line of want of memory.
fn only_name(alloc: Global) -> Result<Blob, AllocError>
    ensures { IfOk result (λ line. line ≡ reason_line Memory) }
{
    let mut line = Blob::new(alloc);
    line.push_all(b"Memory")?;
    Ok(line)
}

/// The number of a fault's line.
#[tactic(auto, unfolding(crate::specs::Reason::fault_number))]
fn fault_number(fault: &Fault) -> u32
    ensures number { result ≡ fault_number fault.now }
    ensures few { result ≤ 27 }
{
    match fault {
        Fault::BadVersion(_) => 1,
        Fault::UnsupportedSuite(_) => 2,
        Fault::BadContext(_) => 3,
        Fault::NoDataKeys => 4,
        Fault::TooManyDataKeys(_) => 5,
        Fault::BadContentType(_) => 6,
        Fault::BadFrameLength(_) => 7,
        Fault::HeaderTooLong(_) => 8,
        Fault::UnitTooLong(_) => 9,
        Fault::Truncated => 10,
        Fault::ReservedKey => 11,
        Fault::ContextMismatch(_) => 12,
        Fault::MissingRequired(_) => 13,
        Fault::ContextTooLong(_) => 14,
        Fault::NoKeyOpens => 15,
        Fault::Commitment => 16,
        Fault::HeaderTag => 17,
        Fault::WrongSequence { .. } => 18,
        Fault::FinalTooLong(_) => 19,
        Fault::UnitTag(_) => 20,
        Fault::BlockTooLong(_) => 21,
        Fault::TrailingBytes => 22,
        Fault::Uncommitted(_) => 23,
        Fault::BadType(_) => 24,
        Fault::BadReserved(_) => 25,
        Fault::BadIvLength(_) => 26,
        Fault::BadArmour(_) => 27,
    }
}

/// The number of the line of a refused request.
#[tactic(auto, unfolding(crate::specs::Reason::refusal_number))]
fn refusal_number(refusal: &Refusal) -> u32
    ensures number { result ≡ refusal_number refusal.now }
    ensures few { result ≤ 10 }
{
    match refusal {
        Refusal::ReservedPrefix(_) => 1,
        Refusal::ContextTooLong(_) => 2,
        Refusal::DuplicateKey(_) => 3,
        Refusal::RequiredAbsent(_) => 4,
        Refusal::NoGenerator => 5,
        Refusal::GeneratorHasKey => 6,
        Refusal::TooManyDataKeys(_) => 7,
        Refusal::HeaderTooLong(_) => 8,
        Refusal::TooManyFrames => 9,
        Refusal::OverDeclared(_) => 10,
    }
}

/// The number of the line of a refused file.
#[tactic(auto, unfolding(crate::specs::Reason::file_number))]
fn file_number(refusal: &FileRefusal) -> u32
    ensures number { result ≡ file_number refusal.now }
    ensures few { result ≤ 11 }
{
    match refusal {
        FileRefusal::NotJson => 1,
        FileRefusal::BadShape(_) => 2,
        FileRefusal::BadKey(_) => 3,
        FileRefusal::ReservedNamespace => 4,
        FileRefusal::ClashingKeys(_, _) => 5,
        FileRefusal::TooDeep => 6,
        FileRefusal::TooManyLeaves => 7,
        FileRefusal::NoSuchPlug(_) => 8,
        FileRefusal::NamesClash(_) => 9,
        FileRefusal::FileTooLong => 10,
        FileRefusal::NotRaw(_) => 11,
    }
}
