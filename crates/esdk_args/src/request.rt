//! What the words can ask for, and why they may ask for nothing.

use crate::options::{OptionName, option_text};
use crate::pair_words::PairWords;
use esdk_fields::Text;
use std::alloc::{AllocError, AllocFailed};
use std::error::Error;
use std::fmt;

/// What the words ask for.
#[derive(Drop)]
pub enum Request {
    /// A listing of the header.
    List(ListWords),
    /// An encryption.
    Encrypt(EncryptWords),
    /// A decryption.
    Decrypt(DecryptWords),
    /// A batch: the name of its job file.
    Batch(Text),
    /// A generation: a message of bytes that follow from a seed.
    Gen {
        /// The seed of the bytes.
        seed: u64,
        /// How many bytes the text has, at most 67,108,864.
        size: u64,
    },
    /// An extraction of a range.
    Extract(ExtractWords),
    /// An audit: the name of its file.
    Audit(Text),
    /// A migration of a keyring file to version 2.
    Migrate(MigrateWords),
    /// A resealing: a message is opened and sealed anew.
    Reseal(ResealWords),
}

/// What the words say of a listing.
#[derive(Clone, Copy)]
pub struct ListWords {
    /// Whether a message without a commitment may be read.
    pub uncommitted: bool,
    /// Whether the input is the message as text, base64 in lines.
    pub armour: bool,
}

/// What the words say of an encryption.
#[derive(Drop)]
pub struct EncryptWords {
    /// The name of the keyring file.
    pub keyring: Text,
    /// The frame length in bytes, at least 1; 4,096 where the words give none.
    pub frame: u32,
    /// The greatest number of encrypted data keys, 1 to 65,535; None where the words give none.
    pub max_keys: Option<u16>,
    /// Whether the message is written as text, base64 in lines.
    pub armour: bool,
    /// The pairs of the context, and the keys that are required.
    pub pairs: PairWords,
}

/// What the words say of a decryption.
#[derive(Drop)]
pub struct DecryptWords {
    /// The name of the keyring file.
    pub keyring: Text,
    /// The greatest number of encrypted data keys, 1 to 65,535; None where the words give none.
    pub max_keys: Option<u16>,
    /// The greatest length in bytes of a frame or a single block, 1 to 68,719,476,704; None where
    /// the words give none.
    pub max_unit: Option<u64>,
    /// Whether a message without a commitment may be read.
    pub uncommitted: bool,
    /// Whether the input is the message as text, base64 in lines.
    pub armour: bool,
    /// The given pairs of the context, and the keys that are required.
    pub pairs: PairWords,
}

/// What the words say of an extraction.
#[derive(Drop)]
pub struct ExtractWords {
    /// The name of the keyring file.
    pub keyring: Text,
    /// The name of the message's file.
    pub from: Text,
    /// The first byte of the range, at most 2^62.
    pub at: u64,
    /// How many bytes the range has, at most 2^62.
    pub count: u64,
    /// The given pairs of the context, and the keys that are required.
    pub pairs: PairWords,
}

/// What the words say of a migration.
#[derive(Drop)]
pub struct MigrateWords {
    /// The name of the keyring file.
    pub keyring: Text,
    /// The number of the node that is to be retired, 1 to 1,048,576; None where the words give
    /// none.
    pub retire: Option<u32>,
}

/// What the words say of a resealing.
#[derive(Drop)]
pub struct ResealWords {
    /// The name of the keyring file whose tree unwraps the old message's key.
    pub keyring: Text,
    /// The name of the keyring file whose tree wraps the new message's key.
    pub to_keyring: Text,
    /// The new message's frame length in bytes, at least 1; 4,096 where the words give none.
    pub frame: u32,
    /// The greatest length in bytes of a frame or a single block, 1 to 68,719,476,704; None where
    /// the words give none.
    pub max_unit: Option<u64>,
    /// Whether a message without a commitment may be read.
    pub uncommitted: bool,
    /// The given pairs of the context, and the keys that are required.
    pub pairs: PairWords,
}

/// Why the words ask for nothing.
#[derive(Debug, Drop)]
pub enum WordsFault {
    /// There is no word, the first word names no command, or `clap` refuses the words behind it.
    NotRead,
    /// `clap` takes the words, and this option is the first whose word isn't 1 to 20 digits that
    /// write a number of its range.
    BadNumber(OptionName),
    /// `clap` takes the words, the numbers are good, and the pair word of this number is the first
    /// that has neither form or whose key is empty. Pair words are counted from 1, and the count
    /// stands still at 4,294,967,295.
    BadPair(u32),
    /// Memory ran out.
    Memory,
}

impl fmt::Display for WordsFault {
    ghost use Rattle.std.specs.Prelude.{Some};
    ghost use Rattle.esdk_args.specs.Faults.{words_fault_text};

    ghost output = { λ e. Some (words_fault_text e) };

    #[tactic(auto, unfolding(crate::specs::Faults::words_fault_text))]
    fn fmt<W: fmt::Write>(&self, f: &mut fmt::Formatter<W>) -> fmt::Result {
        match self {
            WordsFault::NotRead => f.write_str("the words are those of no command"),
            WordsFault::BadNumber(option) => {
                write!(f, "{} has no number of its range", option_text(*option))
            }
            WordsFault::BadPair(place) => write!(f, "pair word {place} is no pair"),
            WordsFault::Memory => f.write_str("memory ran out"),
        }
    }
}

impl Error for WordsFault {}

impl From<AllocError> for WordsFault {
    ghost use Rattle.std.specs.Prelude.{◌≡◌};
    ghost use Rattle.esdk_args.specs.declared.request.WordsFault.TheVariants.{Memory};

    ghost from_gives = { λ _ e. e ≡ Memory };

    fn from(_: AllocError) -> WordsFault {
        WordsFault::Memory
    }
}

impl<T: Drop> From<AllocFailed<T>> for WordsFault {
    ghost use Rattle.std.specs.Prelude.{◌≡◌};
    ghost use Rattle.esdk_args.specs.declared.request.WordsFault.TheVariants.{Memory};

    ghost from_gives = { λ _ e. e ≡ Memory };

    fn from(_: AllocFailed<T>) -> WordsFault {
        WordsFault::Memory
    }
}
