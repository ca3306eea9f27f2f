//! The keys that are derived from a data key.

ghost use Rattle.std.specs.Prelude.{◌≡◌, ◌∷◌, [], ◌++◌, codes, length};
ghost use Rattle.sha2.specs.Sha512.{sha512};
ghost use Rattle.cipher_spec.specs.Hkdf.{expand};
ghost use Rattle.suite_table.specs.Suites.{id_length};
ghost use Rattle.suite_table.specs.Keys.{derived, commitment, key_length};
ghost use Rattle.suite_table.specs.declared.suite.Suite.TheVariants.{Committing};

use crate::suite::Suite;
use hkdf_core::{PseudorandomKey512, hkdf256};

/// The key under which the header's tag and the body stand, of the data key and the message id,
/// which is as long as the suite says.
#[tactic(auto, unfolding(crate::specs::Keys::derived, cipher_spec::specs::Hkdf::hkdf512, cipher_spec::specs::Hkdf::hkdf))]
pub fn derived(suite: Suite, key: &[u8; 32], message_id: &[u8]) -> [u8; 32]
    requires { length message_id.now ≡ id_length suite }
    ensures { result ≡ derived suite key.now message_id.now }
{
    match suite {
        Suite::Committing => encryption_key(&PseudorandomKey512::extract(message_id, key)),
        Suite::Uncommitted => {
            let info = uncommitted_info(message_id);
            let mut made = [0; 32];
            hkdf256(key, &[], &info, &mut made);
            made
        }
    }
}

/// The info of a derived key under suite 0x0178: the suite's id, and the message id.
fn uncommitted_info(message_id: &[u8]) -> [u8; 18]
    requires { length message_id.now ≡ 16 }
    ensures { result ≡ 0x01 ∷ 0x78 ∷ [] ++ message_id.now }
{
    let mut info = [0; 18];
    info[0] = 0x01;
    info[1] = 0x78;
    info[2..].copy_from_slice(message_id);
    info
}

/// The commitment to the data key under suite 0x0478, of that key and the message id, which has 32
/// bytes.
#[tactic(auto, unfolding(crate::specs::Keys::commitment, cipher_spec::specs::Hkdf::hkdf512, cipher_spec::specs::Hkdf::hkdf))]
pub fn commitment(key: &[u8; 32], message_id: &[u8]) -> [u8; 32]
    requires { length message_id.now ≡ id_length Committing }
    ensures { result ≡ commitment key.now message_id.now }
{
    commit_key(&PseudorandomKey512::extract(message_id, key))
}

/// What a message of suite 0x0478 derives from its data key.
#[derive(Drop)]
pub struct CommittedKeys {
    /// The key under which the header's tag and the body stand.
    pub key: [u8; 32],
    /// The commitment to the data key.
    pub commitment: [u8; 32],
}

/// All that a message of suite 0x0478 derives from the data key and the message id, which has 32
/// bytes: what `derived` and `commitment` answer, expanded from one pseudorandom key (RFC 5869,
/// sections 2.2 and 2.3), which is extracted once.
#[tactic(auto, unfolding(crate::specs::Keys::derived, crate::specs::Keys::commitment, cipher_spec::specs::Hkdf::hkdf512, cipher_spec::specs::Hkdf::hkdf))]
pub fn committed_keys(key: &[u8; 32], message_id: &[u8]) -> CommittedKeys
    requires { length message_id.now ≡ id_length Committing }
    ensures key { result.key ≡ derived Committing key.now message_id.now }
    ensures commitment { result.commitment ≡ commitment key.now message_id.now }
{
    let pseudorandom_key = PseudorandomKey512::extract(message_id, key);
    CommittedKeys {
        key: encryption_key(&pseudorandom_key),
        commitment: commit_key(&pseudorandom_key),
    }
}

/// The standard's "Encryption Key" under suite 0x0478, of the pseudorandom key that was extracted
/// from the data key.
fn encryption_key(pseudorandom_key: &PseudorandomKey512) -> [u8; 32]
    ensures { result ≡ expand sha512 128 64 pseudorandom_key.now
        (0x04 ∷ 0x78 ∷ [] ++ codes "DERIVEKEY") key_length }
{
    let mut made = [0; 32];
    pseudorandom_key.expand(b"\x04\x78DERIVEKEY", &mut made);
    made
}

/// The standard's "Commit Key" under suite 0x0478, of the pseudorandom key that was extracted from
/// the data key.
fn commit_key(pseudorandom_key: &PseudorandomKey512) -> [u8; 32]
    ensures { result ≡ expand sha512 128 64 pseudorandom_key.now (codes "COMMITKEY") key_length }
{
    let mut made = [0; 32];
    pseudorandom_key.expand(b"COMMITKEY", &mut made);
    made
}
