//! What can be wrong with a message.

ghost use Rattle.std.specs.Prelude.{◌≡◌, IfOk};

use crate::texts::Text;
use std::alloc::{AllocError, Global};

/// What is wrong with the bytes of an encryption context.
#[derive(Debug, Clone, Copy, PartialEq, Eq)]
pub enum ContextFault {
    /// The counts and lengths don't fit the number of bytes.
    Length,
    /// A key or a value isn't UTF-8.
    Utf8,
    /// A key stands twice.
    Duplicate,
}

/// A fault of a message. Its number is the one on the printed line.
#[derive(Drop)]
pub enum Fault {
    /// M1: the version byte is neither 1 nor 2; that byte.
    BadVersion(u8),
    /// M2: the algorithm suite isn't the one that is read in that version; its id.
    UnsupportedSuite(u16),
    /// M3: the bytes of the encryption context spell none; what is wrong with them.
    BadContext(ContextFault),
    /// M4: the header holds no encrypted data key.
    NoDataKeys,
    /// M5: the header holds more encrypted data keys than the caller allows; their number.
    TooManyDataKeys(u16),
    /// M6: the content type is neither single block nor framed; that byte.
    BadContentType(u8),
    /// M7: the frame length doesn't fit the content type; that length.
    BadFrameLength(u32),
    /// M8: a part of an encrypted data key would end beyond offset 2^24; that offset.
    HeaderTooLong(u32),
    /// M9: a frame or the single block is longer than the caller allows; its length.
    UnitTooLong(u64),
    /// M10: the message ends before it is whole.
    Truncated,
    /// M11: the header stores the key that the format keeps for itself.
    ReservedKey,
    /// M12: the caller's context has another value than the message's; the key.
    ContextMismatch(Text),
    /// M13: a required key is missing; the key.
    MissingRequired(Text),
    /// M14: the whole context is longer than a header can hold; its length.
    ContextTooLong(u32),
    /// M15: no key opens one of the encrypted data keys.
    NoKeyOpens,
    /// M16: the data key isn't the one that the header commits to.
    Commitment,
    /// M17: the header's authentication tag is wrong.
    HeaderTag,
    /// M18: a frame has another sequence number than is due.
    WrongSequence {
        /// The number that is due.
        want: u32,
        /// The number that stands there.
        got: u32,
    },
    /// M19: the final frame is longer than the frame length; its length.
    FinalTooLong(u32),
    /// M20: the tag of a frame or of the single block is wrong; its sequence number.
    UnitTag(u32),
    /// M21: the single block is longer than AES-GCM allows; its length.
    BlockTooLong(u64),
    /// M22: bytes follow the end of the message.
    TrailingBytes,
    /// M23: the algorithm suite doesn't commit to its data key, and the caller doesn't allow that;
    /// its id.
    Uncommitted(u16),
    /// M24: the type of a message of version 1 isn't 0x80; that byte.
    BadType(u8),
    /// M25: the reserved bytes of a message of version 1 aren't zeros; their number.
    BadReserved(u32),
    /// M26: the length of the initialization vectors of a message of version 1 isn't 12; that byte.
    BadIvLength(u8),
    /// M27: a group of the base64 armour is wrong; its number, from 1.
    BadArmour(u64),
}

impl Fault {
    /// A second fault, equal to this one. Fails only where memory runs out.
    pub fn copy(&self, alloc: Global) -> Result<Fault, AllocError>
        ensures { IfOk result (λ made. made ≡ self.now) }
    {
        match self {
            Fault::BadVersion(version) => Ok(Fault::BadVersion(*version)),
            Fault::UnsupportedSuite(suite) => Ok(Fault::UnsupportedSuite(*suite)),
            Fault::BadContext(kind) => Ok(Fault::BadContext(*kind)),
            Fault::NoDataKeys => Ok(Fault::NoDataKeys),
            Fault::TooManyDataKeys(count) => Ok(Fault::TooManyDataKeys(*count)),
            Fault::BadContentType(kind) => Ok(Fault::BadContentType(*kind)),
            Fault::BadFrameLength(frame) => Ok(Fault::BadFrameLength(*frame)),
            Fault::HeaderTooLong(end) => Ok(Fault::HeaderTooLong(*end)),
            Fault::UnitTooLong(unit) => Ok(Fault::UnitTooLong(*unit)),
            Fault::Truncated => Ok(Fault::Truncated),
            Fault::ReservedKey => Ok(Fault::ReservedKey),
            Fault::ContextMismatch(key) => Ok(Fault::ContextMismatch(Text::new(
                alloc,
                key.as_str(),
            )?)),
            Fault::MissingRequired(key) => Ok(Fault::MissingRequired(Text::new(
                alloc,
                key.as_str(),
            )?)),
            Fault::ContextTooLong(total) => Ok(Fault::ContextTooLong(*total)),
            Fault::NoKeyOpens => Ok(Fault::NoKeyOpens),
            Fault::Commitment => Ok(Fault::Commitment),
            Fault::HeaderTag => Ok(Fault::HeaderTag),
            Fault::WrongSequence { want, got } => Ok(Fault::WrongSequence {
                want: *want,
                got: *got,
            }),
            Fault::FinalTooLong(length) => Ok(Fault::FinalTooLong(*length)),
            Fault::UnitTag(sequence) => Ok(Fault::UnitTag(*sequence)),
            Fault::BlockTooLong(length) => Ok(Fault::BlockTooLong(*length)),
            Fault::TrailingBytes => Ok(Fault::TrailingBytes),
            Fault::Uncommitted(suite) => Ok(Fault::Uncommitted(*suite)),
            Fault::BadType(kind) => Ok(Fault::BadType(*kind)),
            Fault::BadReserved(reserved) => Ok(Fault::BadReserved(*reserved)),
            Fault::BadIvLength(length) => Ok(Fault::BadIvLength(*length)),
            Fault::BadArmour(group) => Ok(Fault::BadArmour(*group)),
        }
    }
}
