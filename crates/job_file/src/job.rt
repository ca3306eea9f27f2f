//! The jobs of a job file.

use context_codec::{Context, KeySet};
use esdk_fields::Text;

/// What a job does with its file.
#[derive(Drop)]
pub enum Work {
    /// Seals a message.
    Encrypt {
        /// How many bytes will be sealed, where that is declared: below 2^63.
        length: Option<u64>,
        /// How many bytes a frame has, 1 to 2^32 - 1.
        frame: u32,
        /// The encryption context.
        context: Context,
        /// The keys of the context that aren't to be stored in the header.
        required: KeySet,
    },
    /// Opens a message.
    Decrypt {
        /// The pairs that the caller gives.
        given: Context,
        /// The keys of the given pairs that the message must be bound to.
        required: KeySet,
    },
}

/// A job: what it does, and with which files.
#[derive(Drop)]
pub struct Job {
    /// What it does.
    pub work: Work,
    /// The name of the file that is read.
    pub from: Text,
    /// The name of the file that is written.
    pub to: Text,
}
