//! A keyring over a file, whose file is read anew at each call. What a failing read does is shown
//! by the cases of plugs.

use crate::known_wraps::{KNOWN_CIPHER, OTHER_CIPHER, OTHER_KEY, WRAPPING_KEY, opened, wraps};
use crate::scratch_path::scratch_path;
use esdk_base::{Readers, Shelf};
use esdk_memory::MemShelf;
use esdk_system::FileShelf;
use keydir_keyring::KeydirKeyring;
use keyring_trait::Keyring;
use raw_aes_keyring::RawError;
use std::alloc::Global;
use std::fs;

/// Whether no keyring of the namespace `aws-kms` is made.
fn is_reserved(alloc: Global) -> bool {
    let shelf = MemShelf::new(alloc, Vec::new(alloc));
    matches!(
        KeydirKeyring::new(alloc, shelf, "esdk.key", "aws-kms", "k"),
        Err(RawError::ReservedNamespace)
    )
}

#[test]
fn a_namespace_is_reserved(rt: HostRuntime) {
    assert!(rt; is_reserved(rt.alloc()));
}

/// Makes the file hold this key alone.
fn places(rt: HostRuntime, path: &str, key: &[u8; 32]) -> bool {
    let mut shelf = FileShelf::new(rt);
    shelf.create(path).is_ok()
        && shelf.append(path, key).is_ok()
        && shelf.finish(path, Readers::Owner).is_ok()
}

/// Whether the keyring makes the wrap of the one ciphertext, and opens it, and not the other.
fn goes_by<K: Keyring>(alloc: Global, keyring: &mut K, one: &[u8; 48], other: &[u8; 48]) -> bool {
    wraps(alloc, keyring, one)
        && opened(alloc, keyring, one) == Some(true)
        && opened(alloc, keyring, other) == Some(false)
}

/// Whether a keyring goes by the wrapping key as long as that stands in the file at this path, and
/// then by the other one.
fn goes_by_the_file<K: Keyring>(rt: HostRuntime, path: &str, keyring: &mut K) -> bool {
    places(rt, path, &WRAPPING_KEY)
        && goes_by(rt.alloc(), keyring, &KNOWN_CIPHER, &OTHER_CIPHER)
        && places(rt, path, &OTHER_KEY)
        && goes_by(rt.alloc(), keyring, &OTHER_CIPHER, &KNOWN_CIPHER)
}

/// Whether the keyring of that file does; the file is taken away.
fn keyring_goes_by_the_file(rt: HostRuntime, path: &str) -> bool {
    match KeydirKeyring::new(rt.alloc(), FileShelf::new(rt), path, "ns", "k") {
        Ok(mut keyring) => {
            goes_by_the_file(rt, path, &mut keyring) && fs::remove_file(&rt, path).is_ok()
        }
        Err(_) => false,
    }
}

#[test]
fn another_key_in_the_file_is_gone_by_at_once(rt: HostRuntime) {
    let path = scratch_path(rt, "key").expect(&rt, "memory");
    assert!(rt; keyring_goes_by_the_file(rt, path.as_str()));
}
