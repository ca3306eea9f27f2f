//! A header's fields as they are read from its bytes.

ghost use Rattle.std.specs.Prelude.{◌≤◌, length};

use esdk_fields::Content;
use suite_table::Suite;

/// An encrypted data key where it stands in the bytes.
#[derive(Clone, Copy)]
pub(crate) struct RawEntry<'a> {
    pub(crate) provider: &'a [u8],
    pub(crate) info: &'a [u8],
    pub(crate) cipher: &'a [u8],
    ghost provider_short: { length provider.now ≤ 65535 },
    ghost info_short: { length info.now ≤ 65535 },
    ghost cipher_short: { length cipher.now ≤ 65535 },
}

/// What a header begins with: the suite that its version and its suite id name, and the message id
/// where it stands in the bytes.
#[derive(Clone, Copy)]
pub(crate) struct RawOpening<'a> {
    pub(crate) suite: Suite,
    pub(crate) id: &'a [u8],
}

/// What follows the encrypted data keys, copied, and the size of the body.
#[derive(Drop)]
pub(crate) struct HeaderEnding {
    pub(crate) content: Content,
    pub(crate) commitment: Vec<u8>,
    pub(crate) size: usize,
    pub(crate) iv: [u8; 12],
    pub(crate) tag: [u8; 16],
}
