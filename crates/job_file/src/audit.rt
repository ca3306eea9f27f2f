//! What the file of an audit asks about.

ghost use Rattle.std.specs.Prelude.{◌≡◌, ◌≤◌, length};
ghost use Rattle.job_file.specs.AuditFile.{IsAuditFile};

use context_codec::Context;
use esdk_fields::Text;
use std::marker::Model;

/// A message that is asked about.
#[derive(Drop)]
pub struct AuditMessage {
    /// The name of its file.
    pub from: Text,
    /// The pairs that the caller gives.
    pub given: Context,
}

/// The messages that the file of an audit asks about, and the keyring file. A contract sees an
/// `AuditFile`.
#[derive(Drop)]
pub struct Audit {
    keyring: Text,
    messages: Vec<AuditMessage>,
}

impl Model for Audit {
    ghost use Rattle.job_file.specs.AuditFile.{AuditFile, IsAuditFile};

    ghost Value = { AuditFile };

    ghost view = { λ a. record { keyring = a.keyring; messages = a.messages.items } };

    ghost invariant = { λ a. IsAuditFile
        (record { keyring = a.keyring; messages = a.messages.items }) };
}

impl Audit {
    /// The audit of these messages with this keyring file.
    pub(crate) fn new(keyring: Text, messages: Vec<AuditMessage>) -> Audit
        requires { IsAuditFile (record { keyring = keyring; messages = messages.items }) }
        ensures { result ≡ record { keyring = keyring; messages = messages.items } }
    {
        Audit { keyring, messages }
    }

    /// The name of the keyring file.
    pub fn keyring(&self) -> &str
        ensures { result.now ≡ self.now.keyring }
    {
        self.keyring.as_str()
    }

    /// The messages, in their order: 1 to 1,000.
    pub fn messages(&self) -> &[AuditMessage]
        ensures messages { result.now ≡ self.now.messages }
        ensures file { IsAuditFile self.now }
    {
        self.messages.as_slice()
    }
}
