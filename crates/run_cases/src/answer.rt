//! What the top call left of a case, as one line.

use crate::case::Case;
use crate::fault::Fault;
use crate::named::Named;
use crate::objects::{Stores, Streams, plug_of, stores_of, streams_of};
use esdk_memory::MemShelf;
use esdk_run::run;
use keyring_file::Plug;
use keyring_trait::Keyring;
use sha2::{Digest, Sha512};
use std::alloc::{AllocError, Global};

/// How many bytes are printed as they are.
const MOST_SHOWN: usize = 64;

/// How many plugs a case may have.
const MOST_PLUGS: usize = 1_000;

/// Runs the case, and answers its line.
pub fn answer(alloc: Global, case: &Case) -> Result<String, Fault> {
    let mut streams = streams_of(alloc, case)?;
    let mut stores = stores_of(alloc, case)?;
    answer_over(alloc, case, &mut streams, &mut stores)
}

/// Runs the case over these objects, and answers its line.
fn answer_over(
    alloc: Global,
    case: &Case,
    streams: &mut Streams,
    stores: &mut Stores,
) -> Result<String, Fault> {
    let (status, has_tree) = run_over(alloc, case, streams, stores)?;
    let tree = if has_tree { "yes" } else { "no" };
    Ok(line(alloc, case, streams, stores, status, tree)?)
}

/// Runs the top call over the objects and the plugs, which are handed in as a caller does whose
/// keyrings differ in type. Answers the status, and whether a tree was given back.
fn run_over(
    alloc: Global,
    case: &Case,
    streams: &mut Streams,
    stores: &mut Stores,
) -> Result<(u8, bool), Fault> {
    let mut plugs = Vec::new(alloc);
    for plan in &case.plugs {
        let Plug { name, keyring } = plug_of(alloc, plan)?;
        let keyring: Box<dyn Keyring> = Box::new(alloc, keyring)?;
        plugs.push(Plug { name, keyring })?;
    }
    run_with(alloc, case, streams, stores, plugs)
}

/// Runs the top call with these plugs.
fn run_with<P: Keyring>(
    alloc: Global,
    case: &Case,
    streams: &mut Streams,
    stores: &mut Stores,
    plugs: Vec<Plug<P>>,
) -> Result<(u8, bool), Fault> {
    if plugs.len() > MOST_PLUGS {
        return Err(Fault("too many plugs"));
    }
    let ended = run(
        alloc,
        &case.words,
        &mut streams.input,
        &mut streams.output,
        &mut streams.report,
        &mut stores.shelf,
        &mut stores.entropy,
        &mut stores.clock,
        plugs,
    );
    Ok((ended.status.code, ended.tree.is_some()))
}

fn line(
    alloc: Global,
    case: &Case,
    streams: &Streams,
    stores: &Stores,
    status: u8,
    tree: &str,
) -> Result<String, AllocError> {
    let name = case.name.as_str();
    let taken = case.input.used(streams.input.left());
    let drawn = case.entropy.used(stores.entropy.left());
    let mut text = format!(in alloc;
        "{name} status {status} taken {taken} drawn {drawn} tree {tree} output "
    )?;
    put_objects(&mut text, case, streams, &stores.shelf)?;
    Ok(text)
}

/// Puts what stands in the output, the files and the report.
fn put_objects(
    text: &mut String,
    case: &Case,
    streams: &Streams,
    shelf: &MemShelf,
) -> Result<(), AllocError> {
    put_bytes(text, streams.output.written())?;
    text.push_str(" files ")?;
    put_changed(text, &case.files, shelf)?;
    text.push_str(" report ")?;
    put_report(text, streams.report.written())
}

/// Puts few bytes in hexadecimal, many as their number and their SHA-512.
fn put_bytes(text: &mut String, bytes: &[u8]) -> Result<(), AllocError> {
    if bytes.is_empty() {
        return text.push_str("-");
    }
    if bytes.len() <= MOST_SHOWN {
        return put_digits(text, bytes);
    }
    write!(text, "{}:", bytes.len())?;
    put_digits(text, &Sha512::digest(bytes))
}

/// Puts the hexadecimal digits of bytes.
fn put_digits(text: &mut String, bytes: &[u8]) -> Result<(), AllocError> {
    for byte in bytes {
        write!(text, "{byte:02x}")?;
    }
    Ok(())
}

/// Puts the files that were made or changed.
fn put_changed(text: &mut String, files: &[Named], shelf: &MemShelf) -> Result<(), AllocError> {
    let mut is_first = true;
    for file in files {
        if let Some(bytes) = changed(file, shelf) {
            text.push_str(if is_first { "" } else { " " })?;
            put_file(text, file.name.as_str(), bytes)?;
            is_first = false;
        }
    }
    text.push_str(if is_first { "-" } else { "" })
}

/// The bytes of the file, where it was made or changed.
fn changed<'a>(file: &Named, shelf: &'a MemShelf) -> Option<&'a [u8]> {
    let bytes = shelf.get(file.name.as_str())?;
    if file.holds(bytes) { None } else { Some(bytes) }
}

/// Puts a name and what its file holds.
fn put_file(text: &mut String, name: &str, bytes: &[u8]) -> Result<(), AllocError> {
    write!(text, "{name}=")?;
    put_bytes(text, bytes)
}

/// Puts a report of one line as it stands, any other as bytes.
fn put_report(text: &mut String, bytes: &[u8]) -> Result<(), AllocError> {
    if bytes.is_empty() {
        return text.push_str("-");
    }
    if let Some(line) = one_line(bytes) {
        return write!(text, "line {line}");
    }
    text.push_str("bytes ")?;
    put_bytes(text, bytes)
}

/// The text of the only line of the bytes, where they are one line of text that a line feed ends.
fn one_line(bytes: &[u8]) -> Option<&str> {
    let (text, rest) = str::from_utf8(bytes).ok()?.split_once('\n')?;
    if rest.is_empty() { Some(text) } else { None }
}
