//! A header that was read.

ghost use Rattle.std.specs.Prelude.{◌≡◌, ◌+◌, ◌<◌, ◌≤◌, ◌^◌, length};
ghost use Rattle.header_codec.specs.Header.{IsContent, IsHeader, behind_keys, latest_end, lock_of};
ghost use Rattle.suite_table.specs.Suites.{data_length, format_version, id_length, suite_id};

use crate::lock::HeaderLock;
use context_codec::Context;
use edk_codec::DataKeyEntry;
use esdk_fields::Content;
use std::marker::Model;
use suite_table::Suite;

/// The header of a message and its authentication. A contract sees a `HeaderValue`.
#[derive(Drop)]
pub struct Header {
    pub(crate) context: Context,
    pub(crate) keys: Vec<DataKeyEntry>,
    pub(crate) lock: HeaderLock,
}

impl Model for Header {
    ghost use Rattle.header_codec.specs.Header.{HeaderValue, IsParted};

    ghost Value = { HeaderValue };

    ghost view = { λ a. record a.lock { stored = a.context; entries = a.keys.items } };

    ghost invariant = { λ a. IsParted
        (record a.lock { stored = a.context; entries = a.keys.items }) a.lock };
}

impl Header {
    /// The algorithm suite.
    pub fn algorithm(&self) -> Suite
        ensures { result ≡ self.now.suite }
    {
        self.lock.algorithm()
    }

    /// The algorithm suite's id.
    pub fn suite(&self) -> u16
        ensures { result ≡ suite_id self.now.suite }
    {
        self.lock.algorithm().id()
    }

    /// The version of the format, 1 or 2.
    pub fn version(&self) -> u8
        ensures { result ≡ format_version self.now.suite }
    {
        self.lock.algorithm().format_version()
    }

    /// The message id, as long as the suite says: 32 bytes, or 16 in version 1.
    pub fn message_id(&self) -> &[u8]
        ensures id { result.now ≡ self.now.message_id }
        ensures len { length self.now.message_id ≡ id_length self.now.suite }
    {
        self.lock.message_id()
    }

    /// The pairs of the encryption context that the header stores.
    pub fn stored(&self) -> &Context
        ensures { result.now ≡ self.now.stored }
    {
        &self.context
    }

    /// The encrypted data keys, in the header's order.
    pub fn entries(&self) -> &[DataKeyEntry]
        ensures entries { result.now ≡ self.now.entries }
        ensures some { 1 ≤ length self.now.entries }
        ensures few { length self.now.entries ≤ 65535 }
    {
        &self.keys
    }

    /// How the body's content is cut.
    pub fn content(&self) -> Content
        ensures content { result ≡ self.now.content }
        ensures is_content { IsContent self.now.content }
    {
        self.lock.content()
    }

    /// The algorithm suite data: the commitment to the data key, 32 bytes; none in version 1.
    pub fn commitment(&self) -> &[u8]
        ensures commitment { result.now ≡ self.now.commitment }
        ensures len { length self.now.commitment ≡ data_length self.now.suite }
    {
        self.lock.commitment()
    }

    /// The header body, byte for byte as it was read.
    pub fn raw(&self) -> &[u8]
        ensures body { result.now ≡ self.now.raw }
        ensures is_header { IsHeader self.now.raw self.now }
        ensures keys_end { length self.now.raw ≤ latest_end + behind_keys self.now.suite }
        ensures short { length self.now.raw < 2 ^ 25 }
    {
        self.lock.raw()
    }

    /// The header's initialization vector: twelve zeros in version 2, which stores none.
    pub fn iv(&self) -> &[u8; 12]
        ensures { result.now ≡ self.now.iv }
    {
        self.lock.iv()
    }

    /// The header's authentication tag.
    pub fn tag(&self) -> &[u8; 16]
        ensures { result.now ≡ self.now.tag }
    {
        self.lock.tag()
    }

    /// The header without its stored pairs and its encrypted data keys, lent.
    pub fn lock(&self) -> &HeaderLock
        ensures { result.now ≡ lock_of self.now }
    {
        &self.lock
    }

    /// The stored pairs, the encrypted data keys and what else the header has, handed out: nothing
    /// is copied.
    pub fn into_parts(self) -> (Context, Vec<DataKeyEntry>, HeaderLock)
        ensures stored { result.0 ≡ self.stored }
        ensures entries { result.1.items ≡ self.entries }
        ensures lock { result.2 ≡ lock_of self }
    {
        (self.context, self.keys, self.lock)
    }
}
