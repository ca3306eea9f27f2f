//! The calls by their names.

use crate::line::Line;
use crate::words::{Value, Words};
use crate::wrong::Wrong;
use crate::{contexts, entries, fields, headers, opening, sealing, units, unlocking};
use std::alloc::Global;

/// The names of the calls, in the order of their numbers.
const NAMES: &str = "put read texts refusal context pairs join pick keys entry info info-iv header \
    write-header write-legacy-header unit after heads aad single unlock open seal";

/// Answers a line: the answer to its call, or no text where it names bytes or is passed over.
pub(crate) fn answer_line(
    alloc: Global,
    values: &mut Vec<Value>,
    line: &str,
) -> Result<String, Wrong> {
    if line.is_empty() || line.starts_with('#') {
        return Ok(String::new(alloc));
    }
    match line.strip_prefix("value ") {
        Some(rest) => name_bytes(alloc, values, rest),
        None => answer_call(alloc, values, line),
    }
}

/// Names bytes.
fn name_bytes(alloc: Global, values: &mut Vec<Value>, rest: &str) -> Result<String, Wrong> {
    match value_of(alloc, values.as_slice(), rest) {
        Ok(value) => match values.push(value) {
            Ok(()) => Ok(String::new(alloc)),
            Err(_) => Err(Wrong::Memory),
        },
        Err(wrong) => Err(wrong),
    }
}

/// The bytes and the name that these words spell.
fn value_of(alloc: Global, values: &[Value], rest: &str) -> Result<Value, Wrong> {
    let mut words = Words::new(alloc, values, rest);
    let Ok(name) = String::from_str(alloc, words.word()) else {
        return Err(Wrong::Memory);
    };
    let bytes = words.bytes();
    match words.end() {
        Some(wrong) => Err(wrong),
        None => Ok(Value { name, bytes }),
    }
}

/// The answer to a call.
fn answer_call(alloc: Global, values: &[Value], line: &str) -> Result<String, Wrong> {
    let mut words = Words::new(alloc, values, line);
    let mut answer = Line::new(alloc);
    call(&mut words, &mut answer);
    if let Some(wrong) = words.end() {
        return Err(wrong);
    }
    answer.into_text().ok_or(Wrong::Memory)
}

/// Makes the call that the next word names.
fn call(words: &mut Words<'_>, line: &mut Line) {
    match words.choice(NAMES) {
        0 => fields::put(words, line),
        1 => fields::read(words, line),
        2 => fields::compare(words, line),
        3 => fields::name(words, line),
        4 => contexts::read(words, line),
        5 => contexts::insert(words, line),
        6 => contexts::join_two(words, line),
        7 => contexts::pick(words, line),
        8 => contexts::unite(words, line),
        9 => entries::read(words, line),
        10 => entries::info(words, line),
        11 => entries::info_iv(words, line),
        12 => headers::read(words, line),
        13 => headers::write(words, line),
        14 => headers::write_legacy(words, line),
        15 => units::judge(words, line),
        16 => units::after(words, line),
        17 => units::heads(words, line),
        18 => units::aad(words, line),
        19 => units::write_block(words, line),
        20 => unlocking::unlock(words, line),
        21 => opening::open(words, line),
        22 => sealing::seal(words, line),
        _ => words.refuse(Wrong::NoCall),
    }
}
