//! Units of a body.

use crate::line::Line;
use crate::words::Words;
use crate::wrong::Wrong;
use frame_codec::{
    Head, UnitHead, UnitKind, final_head, judge_head, number_after, regular_head, unit_aad,
    write_single,
};

/// `unit CONTENT NUMBER MAX_UNIT BYTES`: what is known of the unit that begins with the bytes and
/// is to have the number.
pub(crate) fn judge(words: &mut Words<'_>, line: &mut Line) {
    let content = words.content();
    let want = words.number32();
    let max_unit = words.limit();
    let bytes = words.bytes();
    match judge_head(bytes.bytes(), content, want, max_unit) {
        Head::NeedMore(count) => {
            line.word("need");
            line.number(count as u64);
        }
        Head::Refused(fault) => line.fault(&fault),
        Head::Unit(head) => put_head(&head, line),
    }
}

/// Puts what stands before the content of a unit.
fn put_head(head: &UnitHead, line: &mut Line) {
    line.word(match head.kind {
        UnitKind::Regular => "regular",
        UnitKind::Final => "final",
        UnitKind::Single => "single",
    });
    line.number(head.number as u64);
    line.bytes(&head.iv);
    line.number(head.length);
    line.number(head.size as u64);
}

/// `after NUMBER`: the number of the next frame, or `none`.
pub(crate) fn after(words: &mut Words<'_>, line: &mut Line) {
    match number_after(words.number32()) {
        Some(number) => line.number(number as u64),
        None => line.word("none"),
    }
}

/// `aad ID KIND NUMBER LENGTH`: what is authenticated with the content of a unit.
pub(crate) fn aad(words: &mut Words<'_>, line: &mut Line) {
    let id = words.few_bytes(32);
    let kind = kind(words);
    let number = words.number32();
    let length = words.number(usize::MAX) as u64;
    line.bytes(unit_aad(id.bytes(), kind, number, length).bytes());
}

/// A kind of unit.
fn kind(words: &mut Words<'_>) -> UnitKind {
    match words.choice("regular final single") {
        0 => UnitKind::Regular,
        1 => UnitKind::Final,
        2 => UnitKind::Single,
        _ => {
            words.refuse(Wrong::Word);
            UnitKind::Single
        }
    }
}

/// `heads NUMBER LENGTH`: what stands before the content of a regular frame of this number, and of
/// a final one of so many bytes.
pub(crate) fn heads(words: &mut Words<'_>, line: &mut Line) {
    let number = words.number32();
    let length = words.number32();
    line.bytes(&regular_head(number));
    line.bytes(&final_head(number, length));
}

/// `single KEY ID IV TEXT`: a body of one block, under a derived key.
pub(crate) fn write_block(words: &mut Words<'_>, line: &mut Line) {
    let key = words.array();
    let id = words.few_bytes(32);
    let iv = words.array();
    let text = words.few_bytes(65_535);
    line.blob(write_single(words.alloc, &key, id.bytes(), &iv, text.bytes()));
}
