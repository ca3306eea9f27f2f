//! Numbers, bytes and texts.

use crate::line::{Line, text_of};
use crate::words::Words;
use crate::wrong::Wrong;
use esdk_fields::{
    Blob, Cursor, FileRefusal, Refusal, Text, put_sized, put_u16, put_u32, put_u64, sized_of,
    u8_of, u16_of, u32_of, u64_of,
};
use esdk_report::{file_text, printed};
use std::alloc::{AllocError, Global};
use std::cmp::Ordering;

/// `put N16 N32 N64 BYTES`: two numbers of two and four bytes, one of eight, and bytes behind their
/// length.
pub(crate) fn put(words: &mut Words<'_>, line: &mut Line) {
    let mut out = Blob::new(words.alloc);
    line.check(put_u16(&mut out, words.number(65_535) as u16));
    line.check(put_u32(&mut out, words.number32()));
    line.check(put_u64(&mut out, words.number(usize::MAX) as u64));
    let bytes = words.few_bytes(65_535);
    line.check(put_sized(&mut out, bytes.bytes()));
    line.bytes(out.bytes());
}

/// `read BYTES`: a number of one byte, of two, four and eight, and bytes behind their length, up to
/// the first that isn't whole, and how many bytes were taken.
pub(crate) fn read(words: &mut Words<'_>, line: &mut Line) {
    let bytes = words.bytes();
    let mut cursor = Cursor::new(bytes.bytes());
    if !read_numbers(&mut cursor, line) || !read_bytes(&mut cursor, line) {
        line.word("wanting");
    }
    line.word("at");
    line.number(cursor.offset() as u64);
}

/// Puts the numbers that are whole, and answers whether all are.
fn read_numbers(cursor: &mut Cursor<'_>, line: &mut Line) -> bool {
    let Some(one) = u8_of(cursor).ok() else {
        return false;
    };
    line.number(one as u64);
    let Some(two) = u16_of(cursor).ok() else {
        return false;
    };
    line.number(two as u64);
    let Some(four) = u32_of(cursor).ok() else {
        return false;
    };
    line.number(four as u64);
    let Some(eight) = u64_of(cursor).ok() else {
        return false;
    };
    line.number(eight);
    true
}

/// Puts bytes that stand behind their length, and answers whether they are whole.
fn read_bytes(cursor: &mut Cursor<'_>, line: &mut Line) -> bool {
    match sized_of(cursor) {
        Ok(bytes) => {
            line.bytes(bytes);
            true
        }
        Err(_) => false,
    }
}

/// `texts TEXT TEXT`: how the first text, copied, compares with the second, and whether they are
/// equal.
pub(crate) fn compare(words: &mut Words<'_>, line: &mut Line) {
    let first = words.text();
    let second = words.text();
    match copied_text(words.alloc, text_of(&first)) {
        Ok(copy) => match Text::new(words.alloc, text_of(&second)) {
            Ok(other) => put_order(&copy, &other, line),
            Err(_) => line.cut(),
        },
        Err(_) => line.cut(),
    }
}

/// The copy of a text.
fn copied_text(alloc: Global, text: &str) -> Result<Text, AllocError> {
    match Text::new(alloc, text) {
        Ok(text) => text.copy(),
        Err(error) => Err(error),
    }
}

/// Puts how a text compares with another one, and whether they are equal.
fn put_order(text: &Text, other: &Text, line: &mut Line) {
    line.word(match text.cmp(other) {
        Ordering::Less => "less",
        Ordering::Equal => "equal",
        Ordering::Greater => "greater",
    });
    line.word(if text == other { "same" } else { "other" });
}

/// `refusal NUMBER TEXT`: a line that no other call and no run of `esdk` prints; behind K9's, the
/// bytes that are printed.
pub(crate) fn name(words: &mut Words<'_>, line: &mut Line) {
    let number = words.choice("Q6 Q9 Q10 K9");
    let text = words.text();
    match number {
        0 => line.refusal(&Refusal::GeneratorHasKey),
        1 => line.refusal(&Refusal::TooManyFrames),
        2 => line.refusal(&Refusal::OverDeclared(u64::MAX)),
        3 => put_clash(words.alloc, text_of(&text), line),
        _ => words.refuse(Wrong::Word),
    }
}

/// Puts K9 with this name, and its bytes as they are printed.
fn put_clash(alloc: Global, name: &str, line: &mut Line) {
    match clash_text(alloc, name) {
        Ok(text) => {
            let shown = printed(alloc, &text);
            line.text(Ok(text));
            line.blob(shown);
        }
        Err(_) => line.cut(),
    }
}

/// The text of K9 with a copy of this name.
fn clash_text(alloc: Global, name: &str) -> Result<Blob, AllocError> {
    match Text::new(alloc, name) {
        Ok(name) => match FileRefusal::NamesClash(name).copy(alloc) {
            Ok(copy) => file_text(alloc, &copy),
            Err(error) => Err(error),
        },
        Err(error) => Err(error),
    }
}
