//! Wraps over the context with the one pair `tenant`=`acme`, made by AES-256-GCM of Python's
//! `cryptography` (over OpenSSL): the wrapping keys have the bytes 00 to 1f and 20 to 3f, the
//! namespace `ns` and the name `k`, and the data key and the initialization vector have the bytes
//! 22.

use context_codec::Context;
use edk_codec::DataKeyEntry;
use keyring_trait::{DataKey, Keyring, RingError, Wrapped};
use raw_aes_keyring::RawAes;
use std::alloc::Global;

/// The random bytes of the data key and the initialization vector of one wrap.
pub(crate) static RANDOM: [u8; 44] = [0x22; 44];

/// The bytes of the data key.
pub(crate) static DATA_KEY: [u8; 32] = [0x22; 32];

/// The bytes of the wrapping key.
pub(crate) static WRAPPING_KEY: [u8; 32] = [
    0x00, 0x01, 0x02, 0x03, 0x04, 0x05, 0x06, 0x07, 0x08, 0x09, 0x0a, 0x0b, 0x0c, 0x0d, 0x0e, 0x0f,
    0x10, 0x11, 0x12, 0x13, 0x14, 0x15, 0x16, 0x17, 0x18, 0x19, 0x1a, 0x1b, 0x1c, 0x1d, 0x1e, 0x1f,
];

/// The bytes of the other wrapping key.
pub(crate) static OTHER_KEY: [u8; 32] = [
    0x20, 0x21, 0x22, 0x23, 0x24, 0x25, 0x26, 0x27, 0x28, 0x29, 0x2a, 0x2b, 0x2c, 0x2d, 0x2e, 0x2f,
    0x30, 0x31, 0x32, 0x33, 0x34, 0x35, 0x36, 0x37, 0x38, 0x39, 0x3a, 0x3b, 0x3c, 0x3d, 0x3e, 0x3f,
];

/// The provider information of a wrap: the name, 128 bits of tag, 12 bytes of initialization
/// vector, and that vector.
static KNOWN_INFO: [u8; 21] = [
    0x6b, 0x00, 0x00, 0x00, 0x80, 0x00, 0x00, 0x00, 0x0c, 0x22, 0x22, 0x22, 0x22, 0x22, 0x22, 0x22,
    0x22, 0x22, 0x22, 0x22, 0x22,
];

/// The data key wrapped under the wrapping key, with the tag.
pub(crate) static KNOWN_CIPHER: [u8; 48] = [
    0x5f, 0x36, 0x1c, 0xe4, 0x4c, 0xd2, 0xb8, 0x38, 0xa5, 0xbf, 0xad, 0x88, 0xad, 0xdb, 0xc0, 0x5f,
    0xe4, 0x44, 0x45, 0x2f, 0x39, 0xa6, 0xf7, 0x95, 0x84, 0xd0, 0x06, 0x88, 0xaa, 0x8b, 0x93, 0x49,
    0xb5, 0x65, 0x9e, 0x7f, 0xa9, 0x62, 0x1e, 0xf1, 0xe5, 0x4a, 0xdf, 0x1c, 0xdd, 0xb1, 0xe9, 0x15,
];

/// The data key wrapped under the other wrapping key, with the tag.
pub(crate) static OTHER_CIPHER: [u8; 48] = [
    0xbe, 0x67, 0x9e, 0x41, 0x43, 0xb5, 0x0e, 0x04, 0xe0, 0xa2, 0xee, 0x7b, 0xe2, 0x54, 0xc4, 0x95,
    0x46, 0x76, 0xaa, 0xf6, 0x31, 0x54, 0xe5, 0x80, 0xc2, 0x2e, 0x13, 0x66, 0x7b, 0x63, 0x8c, 0x14,
    0xa2, 0xe8, 0xb2, 0x08, 0x0a, 0x5a, 0x55, 0xae, 0xd0, 0x96, 0xa4, 0x3d, 0x92, 0x24, 0xa9, 0x52,
];

/// The keyring of the wrapping key. None where memory runs out.
pub(crate) fn known_ring(alloc: Global) -> Option<RawAes> {
    match RawAes::new(alloc, "ns", "k", WRAPPING_KEY) {
        Ok(ring) => Some(ring),
        Err(_) => None,
    }
}

/// The pair that stands in the context of the known wraps.
pub(crate) static TENANT: [(&str, &str); 1] = [("tenant", "acme")];

/// The context of these pairs. None where memory runs out, or they make none.
pub(crate) fn context_of(alloc: Global, pairs: &[(&str, &str)]) -> Option<Context> {
    let mut context = Context::new(alloc);
    for (key, value) in pairs {
        if context.insert(alloc, key, value).is_err() {
            return None;
        }
    }
    Some(context)
}

/// This entry alone, in a row. None where memory runs out.
fn in_a_row(alloc: Global, entry: DataKeyEntry) -> Option<Vec<DataKeyEntry>> {
    let mut entries = Vec::new(alloc);
    match entries.push(entry) {
        Ok(()) => Some(entries),
        Err(_) => None,
    }
}

/// The entry of this ciphertext alone, in a row. None where memory runs out.
pub(crate) fn known_entries(alloc: Global, cipher: &[u8; 48]) -> Option<Vec<DataKeyEntry>> {
    match DataKeyEntry::new(alloc, b"ns", &KNOWN_INFO, cipher) {
        Ok(entry) => in_a_row(alloc, entry),
        Err(_) => None,
    }
}

/// There is one entry, which has this ciphertext.
pub(crate) fn are_known(entries: &[DataKeyEntry], cipher: &[u8; 48]) -> bool {
    match entries {
        [entry] => {
            entry.provider() == b"ns".as_slice()
                && entry.info() == KNOWN_INFO.as_slice()
                && entry.cipher() == cipher.as_slice()
        }
        _ => false,
    }
}

/// The wrap has the data key and the one entry of this ciphertext.
fn is_known_wrap(wrapped: &Wrapped, cipher: &[u8; 48]) -> bool {
    *wrapped.key().bytes() == DATA_KEY && are_known(wrapped.entries(), cipher)
}

/// Whether a keyring draws the data key and makes the one entry of this ciphertext.
pub(crate) fn wraps<K: Keyring>(alloc: Global, keyring: &mut K, cipher: &[u8; 48]) -> bool {
    let Some(context) = context_of(alloc, &TENANT) else {
        return false;
    };
    if keyring.wraps() != 1 {
        return false;
    }
    match keyring.on_encrypt(alloc, &context, &RANDOM, None) {
        Ok(wrapped) => is_known_wrap(&wrapped, cipher),
        Err(_) => false,
    }
}

/// Whether the answer is the data key, or no key. None where it is an error or another key.
fn found(answer: Result<Option<DataKey>, RingError>) -> Option<bool> {
    match answer {
        Ok(Some(key)) if *key.bytes() == DATA_KEY => Some(true),
        Ok(None) => Some(false),
        _ => None,
    }
}

/// Whether a keyring finds the data key in the entry of this ciphertext, or finds no key. None
/// where it fails, or finds another key.
pub(crate) fn opened<K: Keyring>(
    alloc: Global,
    keyring: &mut K,
    cipher: &[u8; 48],
) -> Option<bool> {
    let context = context_of(alloc, &TENANT)?;
    let entries = known_entries(alloc, cipher)?;
    found(keyring.on_decrypt(alloc, &context, &entries))
}
