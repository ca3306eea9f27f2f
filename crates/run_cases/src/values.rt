//! Bytes as a case writes them.
use crate::fault::Fault;
use crate::named::{Named, append, index_of};
use crate::words::{halves, size};
use hex::FromHex;
use std::alloc::Global;

/// How many prefixes a value may have.
const MOST_PREFIXES: u8 = 8;

/// Takes in a name and its value. Where the line goes on from one that gave the same name, the
/// bytes go behind those of that.
pub fn name_value(
    alloc: Global,
    values: &mut Vec<Named>,
    rest: &str,
    goes_on: bool,
) -> Result<(), Fault> {
    let (name, text) = halves(rest);
    let bytes = bytes_of(alloc, values, text)?;
    let known = index_of(values, name);
    let is_last = known == values.len().checked_sub(1);
    if known.is_some() && !(goes_on && is_last) {
        return Err(Fault("the name was given before"));
    }
    append(alloc, values, name, &bytes)
}

/// The bytes that the text says.
pub fn bytes_of(alloc: Global, values: &[Named], text: &str) -> Result<Vec<u8>, Fault> {
    prefixed(alloc, values, text, MOST_PREFIXES)
}

/// The same, behind at most so many prefixes.
fn prefixed(alloc: Global, values: &[Named], text: &str, most: u8) -> Result<Vec<u8>, Fault> {
    let (verb, rest) = halves(text);
    if !matches!(verb, "first" | "from" | "flip") {
        return plain(alloc, values, verb, rest);
    }
    if most == 0 {
        return Err(Fault("too many prefixes"));
    }
    let (text, value) = halves(rest);
    let number = size(text, 0)?;
    let bytes = prefixed(alloc, values, value, most - 1)?;
    changed(alloc, verb, number, bytes)
}

/// What the prefix with this number makes of the bytes.
fn changed(alloc: Global, verb: &str, number: usize, bytes: Vec<u8>) -> Result<Vec<u8>, Fault> {
    let mut bytes = bytes;
    let Some(behind) = bytes.get(number..) else {
        return Err(Fault("the value has too few bytes"));
    };
    match verb {
        "from" => return Ok(Vec::from_slice(alloc, behind)?),
        "first" => bytes.truncate(number),
        _ => match bytes.get_mut(number) {
            Some(byte) => *byte ^= 1,
            None => return Err(Fault("the value has too few bytes")),
        },
    }
    Ok(bytes)
}

/// The bytes of a value without prefixes.
fn plain(alloc: Global, values: &[Named], verb: &str, rest: &str) -> Result<Vec<u8>, Fault> {
    match verb {
        "hex" => Ok(hex::decode(alloc, rest)?),
        "text" => joined(alloc, rest.as_bytes(), b""),
        "line" => joined(alloc, rest.as_bytes(), b"\n"),
        "byte" => repeated(alloc, rest),
        "made" => made(alloc, rest),
        "of" => held(alloc, values, rest),
        _ => Err(Fault("unknown form of a value")),
    }
}

/// The bytes under the name.
fn held(alloc: Global, values: &[Named], name: &str) -> Result<Vec<u8>, Fault> {
    for value in values {
        if value.name.as_str() == name
            && let Some(bytes) = &value.bytes
        {
            return Ok(Vec::from_slice(alloc, bytes)?);
        }
    }
    Err(Fault("unknown name"))
}

fn joined(alloc: Global, front: &[u8], end: &[u8]) -> Result<Vec<u8>, Fault> {
    let mut bytes = Vec::from_slice(alloc, front)?;
    bytes.extend_from_slice(end)?;
    Ok(bytes)
}

/// The byte of two digits, so many times.
fn repeated(alloc: Global, rest: &str) -> Result<Vec<u8>, Fault> {
    let (digits, count) = halves(rest);
    let [byte] = <[u8; 1] as FromHex>::from_hex(digits)?;
    Ok(vec![in alloc; byte; size(count, 0)?]?)
}

/// The high bytes of the numbers of a linear congruential generator, behind its seed, so many.
fn made(alloc: Global, rest: &str) -> Result<Vec<u8>, Fault> {
    let (seed, count) = halves(rest);
    let Ok(mut number) = seed.parse::<u64>() else {
        return Err(Fault("no number, or one out of range"));
    };
    let mut bytes = Vec::new(alloc);
    for _ in 0..size(count, 0)? {
        number = number
            .wrapping_mul(6364136223846793005)
            .wrapping_add(1442695040888963407);
        bytes.push(number.to_be_bytes()[0])?;
    }
    Ok(bytes)
}
