//! What is recorded of materials that were served.

use crate::served::Served;

/// What materials were served for.
#[derive(Debug, Clone, Copy, PartialEq, Eq)]
pub enum Kind {
    /// To encrypt.
    Seal,
    /// To decrypt.
    Unseal,
}

/// One answer of a materials manager, as it is recorded.
#[derive(Debug, Clone, Copy, PartialEq, Eq)]
pub struct JournalLine {
    /// The number of the session that asked.
    pub session: u64,
    /// What the materials are for.
    pub kind: Kind,
    /// How they were served.
    pub served: Served,
    /// The moment of the request, in seconds.
    pub now: u64,
    /// How many bytes are to be encrypted, where that was declared.
    pub length: Option<u64>,
}
