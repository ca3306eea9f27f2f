//! The names of the errors. A printed line begins with a number and a name, such as `M16
//! Commitment`.

ghost use Rattle.std.specs.Prelude.{◌≡◌};
ghost use Rattle.esdk_fields.specs.Names.{kind_name, fault_name, refusal_name, file_name};
ghost use Rattle.esdk_fields.specs.Names.{outside_name};

use crate::faults::{ContextFault, Fault};
use crate::refusals::{FileRefusal, Outside, Refusal};

impl ContextFault {
    /// Its name, which follows that of M3.
    #[tactic(auto, unfolding(crate::specs::Names::kind_name))]
    pub fn name(&self) -> &'static str
        ensures { result.now ≡ kind_name self.now }
    {
        match self {
            ContextFault::Length => "Length",
            ContextFault::Utf8 => "Utf8",
            ContextFault::Duplicate => "Duplicate",
        }
    }
}

impl Fault {
    /// The number and the name, with which the fault's printed line begins.
    #[tactic(auto, unfolding(crate::specs::Names::fault_name))]
    pub fn name(&self) -> &'static str
        ensures { result.now ≡ fault_name self.now }
    {
        match self {
            Fault::BadVersion(_) => "M1 BadVersion",
            Fault::UnsupportedSuite(_) => "M2 UnsupportedSuite",
            Fault::BadContext(_) => "M3 BadContext",
            Fault::NoDataKeys => "M4 NoDataKeys",
            Fault::TooManyDataKeys(_) => "M5 TooManyDataKeys",
            Fault::BadContentType(_) => "M6 BadContentType",
            Fault::BadFrameLength(_) => "M7 BadFrameLength",
            Fault::HeaderTooLong(_) => "M8 HeaderTooLong",
            Fault::UnitTooLong(_) => "M9 UnitTooLong",
            Fault::Truncated => "M10 Truncated",
            Fault::ReservedKey => "M11 ReservedKey",
            Fault::ContextMismatch(_) => "M12 ContextMismatch",
            Fault::MissingRequired(_) => "M13 MissingRequired",
            Fault::ContextTooLong(_) => "M14 ContextTooLong",
            Fault::NoKeyOpens => "M15 NoKeyOpens",
            Fault::Commitment => "M16 Commitment",
            Fault::HeaderTag => "M17 HeaderTag",
            Fault::WrongSequence { .. } => "M18 WrongSequence",
            Fault::FinalTooLong(_) => "M19 FinalTooLong",
            Fault::UnitTag(_) => "M20 UnitTag",
            Fault::BlockTooLong(_) => "M21 BlockTooLong",
            Fault::TrailingBytes => "M22 TrailingBytes",
            Fault::Uncommitted(_) => "M23 Uncommitted",
            Fault::BadType(_) => "M24 BadType",
            Fault::BadReserved(_) => "M25 BadReserved",
            Fault::BadIvLength(_) => "M26 BadIvLength",
            Fault::BadArmour(_) => "M27 BadArmour",
        }
    }
}

impl Refusal {
    /// The number and the name, with which the refusal's printed line begins.
    #[tactic(auto, unfolding(crate::specs::Names::refusal_name))]
    pub fn name(&self) -> &'static str
        ensures { result.now ≡ refusal_name self.now }
    {
        match self {
            Refusal::ReservedPrefix(_) => "Q1 ReservedPrefix",
            Refusal::ContextTooLong(_) => "Q2 ContextTooLong",
            Refusal::DuplicateKey(_) => "Q3 DuplicateKey",
            Refusal::RequiredAbsent(_) => "Q4 RequiredAbsent",
            Refusal::NoGenerator => "Q5 NoGenerator",
            Refusal::GeneratorHasKey => "Q6 GeneratorHasKey",
            Refusal::TooManyDataKeys(_) => "Q7 TooManyDataKeys",
            Refusal::HeaderTooLong(_) => "Q8 HeaderTooLong",
            Refusal::TooManyFrames => "Q9 TooManyFrames",
            Refusal::OverDeclared(_) => "Q10 OverDeclared",
        }
    }
}

impl FileRefusal {
    /// The number and the name, with which the refusal's printed line begins.
    #[tactic(auto, unfolding(crate::specs::Names::file_name))]
    pub fn name(&self) -> &'static str
        ensures { result.now ≡ file_name self.now }
    {
        match self {
            FileRefusal::NotJson => "K1 NotJson",
            FileRefusal::BadShape(_) => "K2 BadShape",
            FileRefusal::BadKey(_) => "K3 BadKey",
            FileRefusal::ReservedNamespace => "K4 ReservedNamespace",
            FileRefusal::ClashingKeys(_, _) => "K5 ClashingKeys",
            FileRefusal::TooDeep => "K6 TooDeep",
            FileRefusal::TooManyLeaves => "K7 TooManyLeaves",
            FileRefusal::NoSuchPlug(_) => "K8 NoSuchPlug",
            FileRefusal::NamesClash(_) => "K9 NamesClash",
            FileRefusal::FileTooLong => "K10 FileTooLong",
            FileRefusal::NotRaw(_) => "K11 NotRaw",
        }
    }
}

impl Outside {
    /// The number and the name, with which the failure's printed line begins.
    #[tactic(auto, unfolding(crate::specs::Names::outside_name))]
    pub fn name(&self) -> &'static str
        ensures { result.now ≡ outside_name self.now }
    {
        match self {
            Outside::SourceFault => "X1 SourceFault",
            Outside::SinkFault => "X2 SinkFault",
            Outside::ShelfFault => "X3 ShelfFault",
            Outside::EntropyFault => "X4 EntropyFault",
            Outside::KeyringFault => "X5 KeyringFault",
            Outside::InputTooLong => "X6 InputTooLong",
        }
    }
}
