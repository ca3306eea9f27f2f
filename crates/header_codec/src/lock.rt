//! What is locked of a header, apart from its pairs and its encrypted data keys.

ghost use Rattle.std.specs.Prelude.{◌≡◌, ◌+◌, ◌<◌, ◌≤◌, ◌^◌, length};
ghost use Rattle.header_codec.specs.Header.{IsContent, behind_keys, latest_end};
ghost use Rattle.suite_table.specs.Suites.{data_length, id_length};

use esdk_fields::Content;
use std::marker::Model;
use suite_table::Suite;

/// A header without its stored pairs and its encrypted data keys: what a data key is tried on, and
/// what the body is read with. A contract sees a `HeaderValue` that has no pairs and no entries.
#[derive(Drop)]
pub struct HeaderLock {
    pub(crate) algorithm: Suite,
    pub(crate) id: Vec<u8>,
    pub(crate) body: Content,
    pub(crate) suite_data: Vec<u8>,
    pub(crate) text: Vec<u8>,
    pub(crate) vector: [u8; 12],
    pub(crate) authentication: [u8; 16],
}

impl Model for HeaderLock {
    ghost use Rattle.std.specs.Prelude.{[]};
    ghost use Rattle.header_codec.specs.Header.{HeaderValue, IsLock};

    ghost Value = { HeaderValue };

    ghost view = { λ a. record {
      suite = a.algorithm;
      message_id = a.id.items;
      stored = [];
      entries = [];
      content = a.body;
      commitment = a.suite_data.items;
      raw = a.text.items;
      iv = a.vector;
      tag = a.authentication;
    } };

    ghost invariant = { λ a. IsLock (record {
      suite = a.algorithm;
      message_id = a.id.items;
      stored = [];
      entries = [];
      content = a.body;
      commitment = a.suite_data.items;
      raw = a.text.items;
      iv = a.vector;
      tag = a.authentication;
    }) };
}

impl HeaderLock {
    /// The algorithm suite.
    pub fn algorithm(&self) -> Suite
        ensures { result ≡ self.now.suite }
    {
        self.algorithm
    }

    /// The message id, as long as the suite says: 32 bytes, or 16 in version 1.
    pub fn message_id(&self) -> &[u8]
        ensures id { result.now ≡ self.now.message_id }
        ensures len { length self.now.message_id ≡ id_length self.now.suite }
    {
        &self.id
    }

    /// How the body's content is cut.
    pub fn content(&self) -> Content
        ensures content { result ≡ self.now.content }
        ensures is_content { IsContent self.now.content }
    {
        self.body
    }

    /// The algorithm suite data: the commitment to the data key, 32 bytes; none in version 1.
    pub fn commitment(&self) -> &[u8]
        ensures commitment { result.now ≡ self.now.commitment }
        ensures len { length self.now.commitment ≡ data_length self.now.suite }
    {
        &self.suite_data
    }

    /// The header body, byte for byte as it was read.
    pub fn raw(&self) -> &[u8]
        ensures body { result.now ≡ self.now.raw }
        ensures keys_end { length self.now.raw ≤ latest_end + behind_keys self.now.suite }
        ensures short { length self.now.raw < 2 ^ 25 }
    {
        &self.text
    }

    /// The header's initialization vector: twelve zeros in version 2, which stores none.
    pub fn iv(&self) -> &[u8; 12]
        ensures { result.now ≡ self.now.iv }
    {
        &self.vector
    }

    /// The header's authentication tag.
    pub fn tag(&self) -> &[u8; 16]
        ensures { result.now ≡ self.now.tag }
    {
        &self.authentication
    }
}
