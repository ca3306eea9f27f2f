//! The words of a line.
use crate::fault::Fault;
use std::alloc::Global;

/// The largest number of bytes that is taken: 16 MiB.
const MOST_BYTES: usize = 16_777_216;

/// The text before its first space and the text behind it, or the whole text and nothing.
pub fn halves(text: &str) -> (&str, &str) {
    text.split_once(' ').unwrap_or((text, ""))
}

/// The text as a name.
pub fn name_of(alloc: Global, text: &str) -> Result<String, Fault> {
    if text.is_empty() || text.contains(' ') {
        return Err(Fault("a name is empty or has a space"));
    }
    Ok(String::from_str(alloc, text)?)
}

/// The text as a number of bytes, at least so many.
pub fn size(text: &str, least: usize) -> Result<usize, Fault> {
    match text.parse::<usize>() {
        Ok(size) if least <= size && size <= MOST_BYTES => Ok(size),
        _ => Err(Fault("no number, or one out of range")),
    }
}

/// Puts the numbers of the text, each at least so much, behind those that are there.
pub fn add_numbers(numbers: &mut Vec<u64>, text: &str, least: u64) -> Result<(), Fault> {
    for word in text.split(' ') {
        match word.parse::<u64>() {
            Ok(number) if least <= number => numbers.push(number)?,
            _ => return Err(Fault("no number, or one out of range")),
        }
    }
    Ok(())
}
