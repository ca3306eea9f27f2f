//! Encrypted data keys.

use crate::line::Line;
use crate::words::Words;
use edk_codec::{DataKeyEntry, info_parts, raw_info, read_entry, write_entry};
use esdk_fields::{Blob, Cursor};
use std::alloc::Global;

/// `entry BYTES`: how many bytes are left behind the entry that the bytes begin with, its parts,
/// and the text of a copy; or `none` and how many are left.
pub(crate) fn read(words: &mut Words<'_>, line: &mut Line) {
    let bytes = words.bytes();
    let mut cursor = Cursor::new(bytes.bytes());
    match read_entry(words.alloc, &mut cursor) {
        Ok(found) => {
            line.number(cursor.left() as u64);
            put_found(words.alloc, &found, line);
        }
        Err(_) => line.cut(),
    }
}

/// Puts the parts of an entry, and the text of a copy; or `none`.
fn put_found(alloc: Global, found: &Option<DataKeyEntry>, line: &mut Line) {
    match found {
        Some(entry) => {
            line.entry(entry);
            put_copy(alloc, entry, line);
        }
        None => line.word("none"),
    }
}

/// Puts the text of a copy of the entry.
fn put_copy(alloc: Global, entry: &DataKeyEntry, line: &mut Line) {
    match entry.copy(alloc) {
        Ok(copy) => {
            let mut text = Blob::new(alloc);
            line.check(write_entry(alloc, &copy, &mut text));
            line.bytes(text.bytes());
        }
        Err(_) => line.cut(),
    }
}

/// `info NAME IV`: the information of a raw key.
pub(crate) fn info(words: &mut Words<'_>, line: &mut Line) {
    let name = words.few_bytes(1024);
    let iv = words.array();
    line.blob(raw_info(words.alloc, name.bytes(), &iv));
}

/// `info-iv BYTES NAME`: the initialization vector of the information of a raw key of this name, or
/// `none`.
pub(crate) fn info_iv(words: &mut Words<'_>, line: &mut Line) {
    let info = words.bytes();
    let name = words.bytes();
    match info_parts(info.bytes(), name.bytes()) {
        Some(iv) => line.bytes(&iv),
        None => line.word("none"),
    }
}
