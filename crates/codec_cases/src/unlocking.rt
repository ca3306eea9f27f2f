//! What unlocks a header.

use crate::line::Line;
use crate::words::Words;
use context_codec::Context;
use esdk_fields::Stop;
use header_codec::{Header, Settings, header_in};
use keyring_trait::DataKey;
use message_format::{header_tag, message_key, unlocked_key};
use std::alloc::{AllocError, Global};

/// `unlock UNCOMMITTED BYTES KEY PAIRS`: the tag of the header that the bytes begin with, under a
/// data key and with pairs that are only authenticated, and why they don't unlock the header, or
/// `unlocked`; or the header's fault and the offset where its field ends, or `wanting`.
pub(crate) fn unlock(words: &mut Words<'_>, line: &mut Line) {
    let settings = Settings {
        max_keys: None,
        max_unit: None,
        uncommitted: words.flag(),
    };
    let bytes = words.bytes();
    let key = DataKey::new(words.array());
    let only = words.context();
    match header_in(words.alloc, settings, bytes.bytes()) {
        Ok(found) => put_unlocking(words.alloc, &found.header, &key, &only, line),
        Err(stop) => put_stop(&stop, line),
    }
}

/// Puts why there is no header.
fn put_stop(stop: &Stop, line: &mut Line) {
    match stop {
        Stop::Fault(fault, at) => {
            line.fault(fault);
            line.number(*at as u64);
        }
        Stop::Wanting => line.word("wanting"),
        Stop::Memory => line.cut(),
    }
}

/// Puts the tag of a header, and why it isn't unlocked.
fn put_unlocking(alloc: Global, header: &Header, key: &DataKey, only: &Context, line: &mut Line) {
    match tag_under(alloc, header, key, only) {
        Ok(tag) => line.bytes(&tag),
        Err(_) => line.cut(),
    }
    match unlocked_key(alloc, header.lock(), only, key) {
        Ok(Ok(_)) => line.word("unlocked"),
        Ok(Err(fault)) => line.fault(&fault),
        Err(_) => line.cut(),
    }
}

/// The tag of a header under a data key.
fn tag_under(
    alloc: Global,
    header: &Header,
    key: &DataKey,
    only: &Context,
) -> Result<[u8; 16], AllocError> {
    match message_key(alloc, header.algorithm(), key, header.message_id()) {
        Ok(mut message_key) => {
            header_tag(alloc, &mut message_key, header.iv(), header.raw(), only)
        }
        Err(error) => Err(error),
    }
}
