//! Why a request, a read or a run is refused.

ghost use Rattle.std.specs.Prelude.{◌≡◌, IfOk};

use crate::faults::Fault;
use crate::texts::Text;
use std::alloc::{AllocError, AllocFailed, Global};

/// Why a request to encrypt is refused. Its number is the one on the printed line.
#[derive(Drop)]
pub enum Refusal {
    /// Q1: the context has a key that starts with `aws-crypto-`; such a key, and the least of them
    /// by an exact manager.
    ReservedPrefix(Text),
    /// Q2: an inserted pair would make the context's text longer than 65,535 bytes; that length.
    ContextTooLong(u128),
    /// Q3: an inserted key is there already; the key.
    DuplicateKey(Text),
    /// Q4: a required key isn't in the context; such a key, and the least of them by an exact
    /// manager.
    RequiredAbsent(Text),
    /// Q5: the keyring has no generator for a data key.
    NoGenerator,
    /// Q6: the generator was handed a data key that is there already.
    GeneratorHasKey,
    /// Q7: there are more encrypted data keys than the request allows; their number.
    TooManyDataKeys(u32),
    /// Q8: the encrypted data keys would end beyond offset 2^24; that offset.
    HeaderTooLong(u64),
    /// Q9: the plaintext is longer than 2^32 - 1 frames.
    TooManyFrames,
    /// Q10: more bytes came than were declared; the declared number.
    OverDeclared(u64),
}

/// Why a keyring file, a job file or an audit file is refused. Its number is the one on the printed
/// line. A place is a node's, a job's or a message's number from 1, and 0 for the file itself.
#[derive(Drop)]
pub enum FileRefusal {
    /// K1: the bytes are no JSON.
    NotJson,
    /// K2: what stands there has none of the forms that it may have; its place.
    BadShape(u32),
    /// K3: the key there isn't one of 32 bytes, spelled as the file's form asks; its place.
    BadKey(u32),
    /// K4: a raw key's namespace is `aws-kms`, which is kept for others.
    ReservedNamespace,
    /// K5: two raw keys have this namespace and this name, and differ.
    ClashingKeys(Text, Text),
    /// K6: a node stands on the ninth level.
    TooDeep,
    /// K7: the tree has more than 64 leaves.
    TooManyLeaves,
    /// K8: no ring of this name, or no more of them, was handed in; the name.
    NoSuchPlug(Text),
    /// K9: a job is to write a file that another job writes, or that is read; its name.
    NamesClash(Text),
    /// K10: the file is longer than a file may be.
    FileTooLong,
    /// K11: the node of this number, which is to be retired, is no raw key, or there is none; its
    /// number.
    NotRaw(u32),
}

impl FileRefusal {
    /// A second refusal, equal to this one. Fails only where memory runs out.
    pub fn copy(&self, alloc: Global) -> Result<FileRefusal, AllocError>
        ensures { IfOk result (λ made. made ≡ self.now) }
    {
        match self {
            FileRefusal::NotJson => Ok(FileRefusal::NotJson),
            FileRefusal::BadShape(place) => Ok(FileRefusal::BadShape(*place)),
            FileRefusal::BadKey(place) => Ok(FileRefusal::BadKey(*place)),
            FileRefusal::ReservedNamespace => Ok(FileRefusal::ReservedNamespace),
            FileRefusal::ClashingKeys(namespace, name) => {
                let namespace = Text::new(alloc, namespace.as_str())?;
                let name = Text::new(alloc, name.as_str())?;
                Ok(FileRefusal::ClashingKeys(namespace, name))
            }
            FileRefusal::TooDeep => Ok(FileRefusal::TooDeep),
            FileRefusal::TooManyLeaves => Ok(FileRefusal::TooManyLeaves),
            FileRefusal::NoSuchPlug(name) => Ok(FileRefusal::NoSuchPlug(Text::new(
                alloc,
                name.as_str(),
            )?)),
            FileRefusal::NamesClash(name) => Ok(FileRefusal::NamesClash(Text::new(
                alloc,
                name.as_str(),
            )?)),
            FileRefusal::FileTooLong => Ok(FileRefusal::FileTooLong),
            FileRefusal::NotRaw(place) => Ok(FileRefusal::NotRaw(*place)),
        }
    }
}

/// What failed outside of the library. Its number is the one on the printed line.
#[derive(Debug, Clone, Copy, PartialEq, Eq)]
pub enum Outside {
    /// X1: the input couldn't be read.
    SourceFault,
    /// X2: the output couldn't be written.
    SinkFault,
    /// X3: a file couldn't be read or isn't there.
    ShelfFault,
    /// X4: no random bytes came.
    EntropyFault,
    /// X5: a keyring failed.
    KeyringFault,
    /// X6: 2^62 bytes of one input came before its end.
    InputTooLong,
}

/// Why a reader of fields answers no value.
#[derive(Drop)]
pub enum FieldError {
    /// The bytes have this fault.
    Fault(Fault),
    /// An earlier call answered an error.
    Stopped,
    /// Memory ran out.
    Memory,
}

impl From<AllocError> for FieldError {
    ghost use Rattle.std.specs.Prelude.{◌≡◌};
    ghost use Rattle.esdk_fields.specs.declared.refusals.FieldError.TheVariants.{Memory};

    ghost from_gives = { λ _ e. e ≡ Memory };

    fn from(_: AllocError) -> FieldError {
        FieldError::Memory
    }
}

impl<T: Drop> From<AllocFailed<T>> for FieldError {
    ghost use Rattle.std.specs.Prelude.{◌≡◌};
    ghost use Rattle.esdk_fields.specs.declared.refusals.FieldError.TheVariants.{Memory};

    ghost from_gives = { λ _ e. e ≡ Memory };

    fn from(_: AllocFailed<T>) -> FieldError {
        FieldError::Memory
    }
}
