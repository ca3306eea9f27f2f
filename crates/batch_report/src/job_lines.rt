//! How a job ended.

use esdk_fields::{Fault, Outside, Refusal};
use keyring_trait::{Kind, Served};

/// How a job ended.
#[derive(Drop)]
pub enum JobEnd {
    /// The whole message was written, or the whole content of the message.
    Done,
    /// The message isn't sealed, or not whole.
    Refusal(Refusal),
    /// The message that is opened has this fault.
    Fault(Fault),
    /// A file, the entropy or a keyring failed, or the file is too long.
    Outside(Outside),
}

/// What is said of a job.
#[derive(Drop)]
pub struct JobLine {
    /// Whether it seals a message or opens one.
    pub kind: Kind,
    /// How it ended.
    pub end: JobEnd,
    /// How its materials were served, where the manager answered with some.
    pub served: Option<Served>,
}
