//! The lock of a header: the key that is derived from the data key, the header's tag under it, and
//! what unlocks a header.

ghost use Rattle.std.specs.Prelude.{◌≡◌, ◌+◌, ◌^◌, ◌<◌, ◌≤◌, true, false, [], ◌++◌, length, IfOk};
ghost use Rattle.std.specs.Prelude.{MatchOption};
ghost use Rattle.cipher_spec.specs.Gcm.{sealed};
ghost use Rattle.context_codec.specs.Context.{ctx_text};
ghost use Rattle.suite_table.specs.Keys.{derived};
ghost use Rattle.suite_table.specs.Suites.{id_length};
ghost use Rattle.message_format.specs.Message.{tag_under};
ghost use Rattle.message_format.specs.Judgement.{commits, UnlocksAs};

use context_codec::Context;
use esdk_fields::{Blob, Fault};
use gcm_core::{GcmKey, same};
use header_codec::HeaderLock;
use keyring_trait::DataKey;
use std::alloc::{AllocError, Global};
use suite_table::{Suite, committed_keys, derived};

/// The key of a message's header tag and units, ready for use: what the suite derives from the data
/// key and the message id, which is as long as the suite says. Fails only where memory runs out.
pub fn message_key(
    alloc: Global,
    suite: Suite,
    key: &DataKey,
    message_id: &[u8],
) -> Result<GcmKey, AllocError>
    requires id { length message_id.now ≡ id_length suite }
    ensures { IfOk result (λ made. made ≡ derived suite key.now message_id.now) }
{
    GcmKey::new(alloc, &derived(suite, key.bytes(), message_id))
}

/// The authentication tag of a header under the message's key: of its body, and of the pairs that
/// it doesn't store, with the header's initialization vector, which is twelve zero bytes under the
/// committing suite. Fails only where memory runs out.
pub fn header_tag(
    alloc: Global,
    message_key: &mut GcmKey,
    iv: &[u8; 12],
    raw: &[u8],
    only: &Context,
) -> Result<[u8; 16], AllocError>
    requires body { length raw.now < 2 ^ 25 }
    ensures tag { IfOk result (λ tag. tag ≡ tag_under message_key.old iv.now raw.now only.now) }
    ensures same { message_key.new ≡ message_key.old }
{
    let text = text_of(alloc, only)?;
    Ok(tag_of(message_key, iv, raw, text.bytes()))
}

/// The text of the pairs, which is never over 65,535 bytes long.
fn text_of(alloc: Global, only: &Context) -> Result<Blob, AllocError>
    ensures text { IfOk result (λ text. text ≡ ctx_text only.now) }
    ensures short { IfOk result (λ text. length text ≤ 65535) }
{
    let _short = only.length();
    only.text(alloc)
}

/// The tag of the empty text. What is authenticated is the header body, and then the text of pairs.
fn tag_of(message_key: &mut GcmKey, iv: &[u8; 12], raw: &[u8], only: &[u8]) -> [u8; 16]
    requires few { length raw.now + length only.now ≤ 2 ^ 32 }
    ensures tag { result ≡ (sealed message_key.old iv.now (raw.now ++ only.now) []).1 }
    ensures same { message_key.new ≡ message_key.old }
{
    message_key.seal_in_place(iv, raw, only, &mut [])
}

/// The key that is derived for the message of a header, where the header commits to the data key or
/// its suite has no commitments; else none. Key and commitment are derived in one call.
fn committed_key(header: &HeaderLock, key: &DataKey) -> Option<[u8; 32]>
    ensures { MatchOption result (commits header.now key.now ≡ false) (λ derived_key.
        (commits header.now key.now ≡ true)
        × (derived_key ≡ derived header.now.suite key.now header.now.message_id)) }
{
    match header.algorithm() {
        Suite::Committing => {
            let due = committed_keys(key.bytes(), header.message_id());
            if same(header.commitment(), &due.commitment) {
                Some(due.key)
            } else {
                None
            }
        }
        Suite::Uncommitted => {
            Some(derived(Suite::Uncommitted, key.bytes(), header.message_id()))
        }
    }
}

/// Unlocks a header with this data key: the message's key, with which the units of its body are
/// opened, or why the data key doesn't unlock it.
///
/// M16 `Commitment` where the header doesn't commit to the data key, and its suite has commitments;
/// else M17 `HeaderTag` where the header's tag isn't that of its body and of the pairs that it
/// doesn't store. The outer error comes only where memory runs out.
#[tactic(auto, unfolding(crate::specs::Judgement::lock_fault, crate::specs::Message::header_tag))]
pub fn unlocked_key(
    alloc: Global,
    header: &HeaderLock,
    only: &Context,
    key: &DataKey,
) -> Result<Result<GcmKey, Fault>, AllocError>
    ensures { IfOk result (UnlocksAs header.now only.now key.now) }
{
    let Some(derived) = committed_key(header, key) else {
        return Ok(Err(Fault::Commitment));
    };
    let mut key = GcmKey::new(alloc, &derived)?;
    let tag = header_tag(alloc, &mut key, header.iv(), header.raw(), only)?;
    if !same(header.tag(), &tag) {
        return Ok(Err(Fault::HeaderTag));
    }
    Ok(Ok(key))
}
