//! Headers.

ghost use Rattle.std.specs.Prelude.{◌<◌};

use crate::line::Line;
use crate::words::Words;
use crate::wrong::Wrong;
use context_codec::PairError;
use esdk_fields::{Blob, Content};
use header_codec::{Header, HeaderReader, write_header, write_legacy_header};
use std::alloc::Global;

/// `header UNCOMMITTED MAX_KEYS MAX_UNIT PIECE BYTES`: the bytes in pieces of so many, stepped
/// through until the header is whole or refused: what the last step answers, and how many bytes
/// were used, or were there where the fault came; then what one more step over a byte answers, and
/// the header, or `none`.
pub(crate) fn read(words: &mut Words<'_>, line: &mut Line) {
    let settings = words.settings();
    let piece = words.number(usize::MAX);
    let bytes = words.bytes();
    if piece == 0 {
        return words.refuse(Wrong::Word);
    }
    let mut reader = HeaderReader::new(words.alloc, settings);
    let used = feed(words.alloc, &mut reader, bytes.bytes(), piece, line);
    line.number(used as u64);
    put_step(words.alloc, &mut reader, line);
    match reader.header() {
        Some(header) => put_header(header, line),
        None => line.word("none"),
    }
}

/// Steps through the pieces. The answer is how many bytes were used, or were there where the fault
/// came.
fn feed(
    alloc: Global,
    reader: &mut HeaderReader,
    bytes: &[u8],
    size: usize,
    line: &mut Line,
) -> usize
    requires { 0 < size }
{
    let mut used: usize = 0;
    for piece in bytes.chunks(size) {
        match reader.step(alloc, piece) {
            Ok(step) => {
                used = used.saturating_add(step.used);
                if step.ready {
                    line.word("ready");
                    return used;
                }
            }
            Err(error) => {
                line.field_error(&error);
                return used.saturating_add(piece.len());
            }
        }
    }
    line.word("going");
    used
}

/// Puts what a step over one byte more answers.
fn put_step(alloc: Global, reader: &mut HeaderReader, line: &mut Line) {
    match reader.step(alloc, &[0]) {
        Ok(step) => {
            line.word(if step.ready { "ready" } else { "going" });
            line.number(step.used as u64);
        }
        Err(error) => line.field_error(&error),
    }
}

/// Puts version and suite, the fields of a header, its body and its authentication.
fn put_header(header: &Header, line: &mut Line) {
    line.number(header.version() as u64);
    line.number(header.suite() as u64);
    line.bytes(header.message_id());
    line.context(header.stored());
    line.number(header.entries().len() as u64);
    for entry in header.entries() {
        line.entry(entry);
    }
    put_content(header.content(), line);
    line.bytes(header.commitment());
    line.bytes(header.raw());
    line.bytes(header.iv());
    line.bytes(header.tag());
}

/// Puts `single`, or a frame length.
fn put_content(content: Content, line: &mut Line) {
    match content {
        Content::Single => line.word("single"),
        Content::Framed(frame) => line.number(frame as u64),
    }
}

/// `write-header ID PAIRS ENTRIES FRAME COMMITMENT MAX_KEYS`: the header body, or why it is
/// refused.
pub(crate) fn write(words: &mut Words<'_>, line: &mut Line) {
    let id = words.array();
    let stored = words.context();
    let entries = words.entries();
    let frame = words.number32();
    let commitment = words.array();
    let max_keys = words.max_keys();
    if entries.is_empty() || entries.len() > 65_535 || frame == 0 {
        return words.refuse(Wrong::Word);
    }
    put_body(
        write_header(
            words.alloc,
            &id,
            &stored,
            &entries,
            frame,
            &commitment,
            max_keys,
        ),
        line,
    );
}

/// `write-legacy-header ID PAIRS ENTRIES CONTENT`: the header body of version 1, or why it is
/// refused.
pub(crate) fn write_legacy(words: &mut Words<'_>, line: &mut Line) {
    let id = words.array();
    let stored = words.context();
    let entries = words.entries();
    let content = words.content();
    if entries.is_empty() || entries.len() > 65_535 || matches!(content, Content::Framed(0)) {
        return words.refuse(Wrong::Word);
    }
    put_body(
        write_legacy_header(words.alloc, &id, &stored, &entries, content),
        line,
    );
}

/// Puts a header body, or why it is refused.
fn put_body(body: Result<Blob, PairError>, line: &mut Line) {
    match body {
        Ok(body) => line.bytes(body.bytes()),
        Err(error) => line.pair_error(&error),
    }
}
