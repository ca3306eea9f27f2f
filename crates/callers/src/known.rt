//! What the callers are called with: a message that another implementation of the format made over
//! OpenSSL, and its key.

use crate::own_keyring::CountedRing;
use cmm_default::DefaultCmm;
use esdk_memory::MemSink;
use raw_aes_keyring::RawAes;
use std::alloc::Global;

/// The keyring of one key, counted.
pub(crate) type Ring = CountedRing<RawAes>;

/// The bytes of the key of the message.
const KEY: [u8; 32] =
    *b"\x00\x01\x02\x03\x04\x05\x06\x07\x08\x09\x0a\x0b\x0c\x0d\x0e\x0f\x10\x11\x12\x13\x14\x15\x16\x17\x18\x19\x1a\x1b\x1c\x1d\x1e\x1f";

/// Nine bytes, `123456789`, in three frames of 4. The header ends at 169. The key has the namespace
/// `ns`, the name `k` and the bytes 00 to 1f; the message id, the data key and its initialization
/// vector are all bytes 22.
pub(crate) fn message() -> &'static [u8] {
    b"\x02\x04\x78\x22\x22\x22\x22\x22\x22\x22\x22\x22\x22\x22\x22\x22\x22\x22\x22\x22\x22\x22\x22\x22\
    \x22\x22\x22\x22\x22\x22\x22\x22\x22\x22\x22\x00\x00\x00\x01\x00\x02\x6e\x73\x00\x15\x6b\x00\x00\
    \x00\x80\x00\x00\x00\x0c\x22\x22\x22\x22\x22\x22\x22\x22\x22\x22\x22\x22\x00\x30\x5f\x36\x1c\xe4\
    \x4c\xd2\xb8\x38\xa5\xbf\xad\x88\xad\xdb\xc0\x5f\xe4\x44\x45\x2f\x39\xa6\xf7\x95\x84\xd0\x06\x88\
    \xaa\x8b\x93\x49\xff\xc7\xba\xe6\x98\xd7\xca\xb5\x8d\x86\x2c\x9d\xcd\x9d\x0c\xf3\x02\x00\x00\x00\
    \x04\xa3\x19\xaa\xa2\x2d\x81\x39\xaa\x4f\xce\x01\xe7\xb9\xdd\xa9\xfb\xa9\x52\x8d\x92\x7a\x49\x86\
    \x25\x6a\x01\xf0\x5c\x0d\x26\x80\x9f\x76\xb3\x5d\xa2\xe0\x66\x92\xe7\xaf\xab\xa9\x01\xc2\x24\x9d\
    \x0a\x00\x00\x00\x01\x00\x00\x00\x00\x00\x00\x00\x00\x00\x00\x00\x01\x53\x7e\x1d\x03\x7f\x91\xf7\
    \x67\xb2\x28\x9a\x63\x46\x57\xce\xa2\xec\x74\x8d\xb3\x00\x00\x00\x02\x00\x00\x00\x00\x00\x00\x00\
    \x00\x00\x00\x00\x02\x20\x31\x5d\xad\xfc\xa0\x07\xbb\xd1\x67\x9e\xd9\x91\xe8\xf4\x71\x97\x33\x3c\
    \x63\xff\xff\xff\xff\x00\x00\x00\x03\x00\x00\x00\x00\x00\x00\x00\x00\x00\x00\x00\x03\x00\x00\x00\
    \x01\xbd\x6f\xe3\x0c\x5c\x35\xcd\x3a\x7c\x2a\xb6\x0e\x6e\x1a\xfa\xe6\xdd"
}

/// A message in two pieces, of which the first has up to 100 bytes.
pub(crate) fn in_two(message: &[u8]) -> [&[u8]; 2] {
    let (front, back) = message.split_at(message.len().min(100));
    [front, back]
}

/// The keyring of the key of the message. None where memory runs out.
pub(crate) fn known_ring(alloc: Global) -> Option<Ring> {
    match RawAes::new(alloc, "ns", "k", KEY) {
        Ok(ring) => Some(CountedRing::new(ring)),
        Err(_) => None,
    }
}

/// The default manager of the same key. None where memory runs out.
pub(crate) fn known_manager(alloc: Global) -> Option<DefaultCmm<Ring>> {
    match known_ring(alloc) {
        Some(ring) => Some(DefaultCmm::new(ring)),
        None => None,
    }
}

/// That of another key. None where memory runs out.
pub(crate) fn other_manager(alloc: Global) -> Option<DefaultCmm<Ring>> {
    match RawAes::new(alloc, "ns", "other", [0x55; 32]) {
        Ok(ring) => Some(DefaultCmm::new(CountedRing::new(ring))),
        Err(_) => None,
    }
}

/// An empty sink with room for the message. None where memory runs out.
pub(crate) fn sink(alloc: Global) -> Option<MemSink> {
    MemSink::new(alloc, 512, Vec::new(alloc)).ok()
}
