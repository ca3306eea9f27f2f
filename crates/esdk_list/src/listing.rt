//! The listing of a header.
//!
//! Each group of lines is made as a text of its own, so that it is one list of appends.
ghost use Rattle.std.specs.Prelude.{◌≡◌, ◌+◌, ◌++◌, IfOk, OnOk, codes, decimal, length};
ghost use Rattle.std.specs.Prelude.{string_bytes};
ghost use Rattle.std.specs.Int.{w16};
ghost use Rattle.hex.specs.Hex.{encode_lower};
ghost use Rattle.esdk_fields.specs.Numbers.{to_big_endian};
ghost use Rattle.header_codec.specs.Header.{frame_length};
ghost use Rattle.esdk_list.specs.Listing.{closing_lines, content_word, entry_line, entry_lines};
ghost use Rattle.esdk_list.specs.Listing.{entry_text, format_line, line, list_of, opening_lines};

use esdk_fields::{Blob, Content};
use esdk_report::context_text;
use header_codec::{DataKeyEntry, Header, Suite};
use std::alloc::{AllocError, Global};

/// The listing of the header: ten lines or more, one for each data key among them.
///
/// Fails only where memory runs out.
#[tactic(auto, unfolding(crate::specs::Listing::list_of))]
pub fn list_text(alloc: Global, header: &Header) -> Result<Blob, AllocError>
    ensures { IfOk result (λ text. text ≡ list_of header.now) }
{
    let mut out = Blob::new(alloc);
    out.push_all(opening_text(alloc, header)?.bytes())?;
    push_entry_lines(alloc, &mut out, header.entries())?;
    out.push_all(closing_text(alloc, header)?.bytes())?;
    Ok(out)
}

/// The lines before those of the data keys.
#[tactic(auto, unfolding(crate::specs::Listing::opening_lines))]
fn opening_text(alloc: Global, header: &Header) -> Result<Blob, AllocError>
    ensures { IfOk result (λ text. text ≡ opening_lines header.now) }
{
    let version = decimal_of(alloc, usize::from(header.version()))?;
    let suite = hex_of(alloc, &suite_bytes(header.suite()))?;
    let message_id = hex_of(alloc, header.message_id())?;
    let context = context_text(alloc, header.stored().pairs())?;
    let count = decimal_of(alloc, header.entries().len())?;
    let mut out = Blob::new(alloc);
    push_line(&mut out, "version", version.as_bytes())?;
    push_line(&mut out, "suite", suite.as_bytes())?;
    push_line(&mut out, "message-id", message_id.as_bytes())?;
    push_line(&mut out, "context", context.bytes())?;
    push_line(&mut out, "data-keys", count.as_bytes())?;
    Ok(out)
}

/// The lines behind those of the data keys.
#[tactic(auto, unfolding(crate::specs::Listing::closing_lines))]
fn closing_text(alloc: Global, header: &Header) -> Result<Blob, AllocError>
    ensures { IfOk result (λ text. text ≡ closing_lines header.now) }
{
    let length = decimal_of(alloc, length_of(header.content()))?;
    let tag = hex_of(alloc, header.tag())?;
    let mut out = Blob::new(alloc);
    push_line(&mut out, "content", word_of(header.content()).as_bytes())?;
    push_line(&mut out, "frame-length", length.as_bytes())?;
    push_key_line(alloc, &mut out, header)?;
    push_line(&mut out, "tag", tag.as_bytes())?;
    Ok(out)
}

/// The line of what only one of the two formats has: the commitment to the data key, or the
/// header's initialization vector.
fn push_key_line(alloc: Global, out: &mut Blob, header: &Header) -> Result<(), AllocError>
    ensures { OnOk result (out.new ≡ out.old ++ format_line header.now.suite header.now) }
{
    match header.algorithm() {
        Suite::Committing => {
            let commitment = hex_of(alloc, header.commitment())?;
            push_line(out, "commitment", commitment.as_bytes())
        }
        Suite::Uncommitted => {
            let iv = hex_of(alloc, header.iv())?;
            push_line(out, "iv", iv.as_bytes())
        }
    }
}

/// One line for each data key, numbered from 1.
fn push_entry_lines(
    alloc: Global,
    out: &mut Blob,
    entries: &[DataKeyEntry],
) -> Result<(), AllocError>
    ensures { OnOk result (out.new ≡ out.old ++ entry_lines 1 entries.now) }
{
    for (i, entry) in entries.iter().enumerate() {
        push_entry_line(alloc, out, i + 1, entry)?;
    }
    Ok(())
}

/// The line of the data key with this number.
#[tactic(auto, unfolding(crate::specs::Listing::entry_line))]
fn push_entry_line(
    alloc: Global,
    out: &mut Blob,
    number: usize,
    entry: &DataKeyEntry,
) -> Result<(), AllocError>
    ensures { OnOk result (out.new ≡ out.old ++ entry_line number entry.now) }
{
    let name = entry_name(alloc, number)?;
    let text = entry_parts(alloc, entry)?;
    push_line(out, name.as_str(), text.bytes())
}

/// The name of the line of the data key with this number.
fn entry_name(alloc: Global, number: usize) -> Result<String, AllocError>
    ensures { IfOk result (λ name. string_bytes name ≡ codes "data-key " ++ decimal number) }
{
    format!(in alloc; "data-key {number}")
}

/// The parts of a data key, in hexadecimal.
#[tactic(auto, unfolding(crate::specs::Listing::entry_text))]
fn entry_parts(alloc: Global, entry: &DataKeyEntry) -> Result<Blob, AllocError>
    ensures { IfOk result (λ text. text ≡ entry_text entry.now) }
{
    let mut text = Blob::new(alloc);
    text.push_all(b"provider=")?;
    text.push_all(hex_of(alloc, entry.provider())?.as_bytes())?;
    text.push_all(b" info=")?;
    text.push_all(hex_of(alloc, entry.info())?.as_bytes())?;
    text.push_all(b" ciphertext=")?;
    text.push_all(hex_of(alloc, entry.cipher())?.as_bytes())?;
    Ok(text)
}

/// A line: the name, a colon and a space, the text.
#[tactic(auto, using(std::proofs::Common::append_assoc), unfolding(crate::specs::Listing::line))]
fn push_line(out: &mut Blob, name: &str, text: &[u8]) -> Result<(), AllocError>
    ensures { OnOk result (out.new ≡ out.old ++ line name.now text.now) }
{
    out.push_all(name.as_bytes())?;
    out.push_all(b": ")?;
    out.push_all(text)?;
    out.push_all(b"\n")
}

/// The bytes in lower-case hexadecimal.
fn hex_of(alloc: Global, bytes: &[u8]) -> Result<String, AllocError>
    ensures { IfOk result (λ text. string_bytes text ≡ encode_lower bytes.now) }
{
    hex::encode(alloc, bytes)
}

/// The number in decimal.
fn decimal_of(alloc: Global, number: usize) -> Result<String, AllocError>
    ensures { IfOk result (λ text. string_bytes text ≡ decimal number) }
{
    format!(in alloc; "{number}")
}

/// The two bytes of the suite id.
#[tactic(auto, unfolding(esdk_fields::specs::Numbers::to_big_endian))]
fn suite_bytes(suite: u16) -> [u8; 2]
    ensures { result ≡ to_big_endian w16 suite }
{
    suite.to_be_bytes()
}

/// How the content is cut, in a word.
fn word_of(content: Content) -> &'static str
    ensures { result.now ≡ content_word content }
{
    match content {
        Content::Single => "single",
        Content::Framed(_) => "framed",
    }
}

/// The frame length, 0 for a single block.
fn length_of(content: Content) -> usize
    ensures { result ≡ frame_length content }
{
    match content {
        Content::Single => 0,
        Content::Framed(length) => length as usize,
    }
}
