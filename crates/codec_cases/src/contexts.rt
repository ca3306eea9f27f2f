//! Contexts and sets of keys.

use crate::line::{Line, text_of};
use crate::words::Words;
use context_codec::{Context, KeySet, join, read_field};
use esdk_fields::Blob;
use std::alloc::{AllocError, Global};

/// `context BYTES`: the context that the bytes spell, and its text; or their fault.
pub(crate) fn read(words: &mut Words<'_>, line: &mut Line) {
    let bytes = words.few_bytes(65_535);
    match read_field(words.alloc, bytes.bytes()) {
        Ok(context) => put_context(words.alloc, &context, line),
        Err(error) => line.field_error(&error),
    }
}

/// Puts a context and its text.
fn put_context(alloc: Global, context: &Context, line: &mut Line) {
    line.context(context);
    line.blob(context.text(alloc));
}

/// `pairs PAIRS KEY VALUE`: the context of the pairs and of one more, or why that is refused and
/// then the copied context without it, each with its text.
pub(crate) fn insert(words: &mut Words<'_>, line: &mut Line) {
    let mut context = words.context();
    let key = words.text();
    let value = words.text();
    put_inserted(words.alloc, &mut context, &key, &value, line);
}

/// Inserts a pair, and puts why that is refused, and the copied context.
fn put_inserted(alloc: Global, context: &mut Context, key: &Blob, value: &Blob, line: &mut Line) {
    if let Err(error) = context.insert(alloc, text_of(key), text_of(value)) {
        line.pair_error(&error);
    }
    match context.copy(alloc) {
        Ok(copy) => put_context(alloc, &copy, line),
        Err(_) => line.cut(),
    }
}

/// `join PAIRS PAIRS`: stored pairs and given ones: the whole context, and the pairs that are only
/// given; or the fault.
pub(crate) fn join_two(words: &mut Words<'_>, line: &mut Line) {
    let stored = words.context();
    let given = words.context();
    match join(words.alloc, &stored, &given) {
        Ok(joined) => {
            line.context(&joined.whole);
            line.context(&joined.only);
        }
        Err(error) => line.field_error(&error),
    }
}

/// `pick PAIRS KEYS`: the context without the pairs of these keys, and those pairs alone.
pub(crate) fn pick(words: &mut Words<'_>, line: &mut Line) {
    let context = words.context();
    let keys = words.keys();
    put_made(context.without(words.alloc, &keys), line);
    put_made(context.only(words.alloc, &keys), line);
}

/// Puts a context that was made.
fn put_made(context: Result<Context, AllocError>, line: &mut Line) {
    match context {
        Ok(context) => line.context(&context),
        Err(_) => line.cut(),
    }
}

/// `keys KEYS KEYS KEY`: the first set, the copied union of both, and whether the union has the
/// key.
pub(crate) fn unite(words: &mut Words<'_>, line: &mut Line) {
    let first = words.keys();
    let second = words.keys();
    let key = words.text();
    put_keys(&first, line);
    match first.union(words.alloc, &second) {
        Ok(both) => put_union(words.alloc, &both, &key, line),
        Err(_) => line.cut(),
    }
}

/// Puts the copy of a union, and whether it has the key.
fn put_union(alloc: Global, both: &KeySet, key: &Blob, line: &mut Line) {
    match both.copy(alloc) {
        Ok(copy) => {
            put_keys(&copy, line);
            line.word(if copy.contains(text_of(key)) {
                "held"
            } else {
                "absent"
            });
        }
        Err(_) => line.cut(),
    }
}

/// Puts how many keys there are, and each.
fn put_keys(keys: &KeySet, line: &mut Line) {
    line.number(keys.keys().len() as u64);
    for key in keys.keys() {
        line.bytes(key.as_str().as_bytes());
    }
}
