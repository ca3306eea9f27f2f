//! Writing a header.

ghost use Rattle.std.specs.Prelude.{◌≡◌, ◌≤◌, ◌*◌, ◌++◌, length, None, Err, IfOk, OnOk, IfErr};
ghost use Rattle.std.specs.List.{flat_map};
ghost use Rattle.suite_table.specs.Suites.{id_length};
ghost use Rattle.edk_codec.specs.Entry.{edk_text};
ghost use Rattle.esdk_fields.specs.Sized.{sized};
ghost use Rattle.context_codec.specs.Context.{ctx_text};
ghost use Rattle.context_codec.specs.Insert.{RefusesAs};
ghost use Rattle.context_codec.specs.declared.insert.PairError.TheVariants as errors;
ghost use Rattle.header_codec.specs.Header.{IsContent, version_text, opening_text, edks_text};
ghost use Rattle.header_codec.specs.Header.{reserved_text, content_text, content_type};
ghost use Rattle.header_codec.specs.Header.{frame_length};
ghost use Rattle.header_codec.specs.Parts.{raw_opening};
ghost use Rattle.header_codec.specs.Written.{body_of_parts, end_refusal, keys_end, header_refusal};
ghost use Rattle.header_codec.specs.Written.{legacy_header, longest_entry, uncommitted};
ghost use Rattle.header_codec.specs.Written.{written_header};

use crate::parts::RawOpening;
use crate::table::{IV_LENGTH, LATEST_END, MESSAGE_TYPE};
use context_codec::{Context, PairError};
use edk_codec::{DataKeyEntry, write_entry};
use esdk_fields::{Blob, Content, Refusal, is_over, put_u16, put_u32};
use std::alloc::{AllocError, Global};
use suite_table::Suite;

/// The header body of these parts, for frames of that many bytes, under the suite that commits to
/// its data key: the context's pairs stand in the order of their keys.
///
/// Q7 `TooManyDataKeys` with the number of the entries, where they are more than `max_keys`; else
/// Q8 `HeaderTooLong` with the offset where the entries would end, where that is beyond 2^24;
/// `Memory` where memory runs out.
pub fn write_header(
    alloc: Global,
    message_id: &[u8; 32],
    stored: &Context,
    entries: &[DataKeyEntry],
    frame_length: u32,
    commitment: &[u8; 32],
    max_keys: Option<u16>,
) -> Result<Blob, PairError>
    requires some { 1 ≤ length entries.now }
    requires few { length entries.now ≤ 65535 }
    requires frames { 1 ≤ frame_length }
    ensures written { IfOk result (λ body. body ≡ written_header message_id.now stored.now
        entries.now frame_length commitment.now) }
    ensures taken { OnOk result (header_refusal message_id.now stored.now entries.now max_keys
        ≡ None) }
    ensures cause { IfErr result (λ e. RefusesAs e
        (header_refusal message_id.now stored.now entries.now max_keys)) }
{
    let count = entries.len() as u16;
    if is_over(max_keys.map(u64::from), u64::from(count)) {
        return refused(Refusal::TooManyDataKeys(u32::from(count)));
    }
    let opening = RawOpening {
        suite: Suite::Committing,
        id: message_id,
    };
    let content = Content::Framed(frame_length);
    header_within(alloc, opening, stored, entries, content, commitment)
}

/// The header body of these parts in version 1, for tests: the context's pairs stand in the order
/// of their keys.
///
/// Q8 `HeaderTooLong` with the offset where the entries would end, where that is beyond 2^24;
/// `Memory` where memory runs out.
pub fn write_legacy_header(
    alloc: Global,
    message_id: &[u8; 16],
    stored: &Context,
    entries: &[DataKeyEntry],
    content: Content,
) -> Result<Blob, PairError>
    requires some { 1 ≤ length entries.now }
    requires few { length entries.now ≤ 65535 }
    requires is_content { IsContent content }
    ensures written { IfOk result (λ body. body ≡ legacy_header message_id.now stored.now
        entries.now content) }
    ensures taken { OnOk result (end_refusal (uncommitted message_id.now) stored.now entries.now
        ≡ None) }
    ensures cause { IfErr result (λ e. RefusesAs e
        (end_refusal (uncommitted message_id.now) stored.now entries.now)) }
{
    let opening = RawOpening {
        suite: Suite::Uncommitted,
        id: message_id,
    };
    header_within(alloc, opening, stored, entries, content, &[])
}

/// The header body of these parts, or Q8.
fn header_within(
    alloc: Global,
    opening: RawOpening<'_>,
    stored: &Context,
    entries: &[DataKeyEntry],
    content: Content,
    commitment: &[u8],
) -> Result<Blob, PairError>
    requires id { length opening.id.now ≡ id_length opening.suite }
    requires few { length entries.now ≤ 65535 }
    ensures written { IfOk result (λ body. body ≡ body_of_parts
        (record {
          opening = raw_opening opening.entry;
          stored = stored.now;
          entries = entries.now;
          content = content;
          commitment = commitment.now;
        })) }
    ensures taken { OnOk result (end_refusal (raw_opening opening.entry) stored.now entries.now
        ≡ None) }
    ensures cause { IfErr result (λ e. RefusesAs e
        (end_refusal (raw_opening opening.entry) stored.now entries.now)) }
{
    let end = keys_end(opening, stored, entries);
    if end > LATEST_END as u64 {
        return refused(Refusal::HeaderTooLong(end));
    }
    Ok(header_body(alloc, opening, stored, entries, content, commitment)?)
}

/// Answers this refusal.
fn refused(refusal: Refusal) -> Result<Blob, PairError>
    ensures { result ≡ Err (errors.Refusal refusal) }
{
    Err(PairError::Refusal(refusal))
}

/// The offset where the entries end.
#[tactic(auto, using(crate::proofs::WrittenHeaders::keys_end_is))]
fn keys_end(opening: RawOpening<'_>, stored: &Context, entries: &[DataKeyEntry]) -> u64
    requires id { length opening.id.now ≡ id_length opening.suite }
    requires few { length entries.now ≤ 65535 }
    ensures { result ≡ keys_end (raw_opening opening.entry) stored.now entries.now }
{
    let identity = version_len(opening.suite) + 2 + opening.id.len() as u64;
    let context = 2 + u64::from(stored.length());
    identity + context + 2 + entries_len(entries)
}

/// How many bytes version and type have.
#[tactic(auto, using(crate::proofs::Spelled::committing_version_length, crate::proofs::Spelled::uncommitted_version_length))]
fn version_len(suite: Suite) -> u64
    ensures len { result ≡ length (version_text suite) }
    ensures bound { result ≤ 2 }
{
    match suite {
        Suite::Committing => 1,
        Suite::Uncommitted => 2,
    }
}

/// The length of the entries' texts, one after another.
fn entries_len(entries: &[DataKeyEntry]) -> u64
    requires { length entries.now ≤ 65535 }
    ensures len { result ≡ length (flat_map edk_text entries.now) }
    ensures bound { result ≤ 65535 * longest_entry }
{
    let mut len = 0;
    for entry in entries {
        len += entry_len(entry);
    }
    len
}

/// The length of an entry's text.
#[tactic(auto, using(crate::proofs::WrittenHeaders::entry_text_len))]
fn entry_len(entry: &DataKeyEntry) -> u64
    ensures len { result ≡ length (edk_text entry.now) }
    ensures bound { result ≤ longest_entry }
{
    let parts = entry.provider().len() + entry.info().len() + entry.cipher().len();
    6 + parts as u64
}

/// The fields of the body in their order.
#[tactic(auto, unfolding(crate::specs::Written::body_of_parts, crate::specs::Header::header_text), using(std::proofs::Common::append_assoc))]
fn header_body(
    alloc: Global,
    opening: RawOpening<'_>,
    stored: &Context,
    entries: &[DataKeyEntry],
    content: Content,
    commitment: &[u8],
) -> Result<Blob, AllocError>
    requires { length entries.now ≤ 65535 }
    ensures { IfOk result (λ body. body ≡ body_of_parts
        (record {
          opening = raw_opening opening.entry;
          stored = stored.now;
          entries = entries.now;
          content = content;
          commitment = commitment.now;
        })) }
{
    let mut body = Blob::new(alloc);
    put_opening(&mut body, opening)?;
    put_context(alloc, &mut body, stored)?;
    put_entries(alloc, &mut body, entries)?;
    put_content(&mut body, opening.suite, content)?;
    body.push_all(commitment)?;
    Ok(body)
}

/// Appends version, type, suite id and message id.
#[tactic(auto, unfolding(crate::specs::Header::opening_text), using(std::proofs::Common::append_assoc))]
fn put_opening(body: &mut Blob, opening: RawOpening<'_>) -> Result<(), AllocError>
    ensures { OnOk result (body.new ≡ body.old ++ opening_text (raw_opening opening.entry)) }
{
    put_version(body, opening.suite)?;
    put_u16(body, opening.suite.id())?;
    body.push_all(opening.id)
}

/// Appends version and type.
#[tactic(auto, unfolding(crate::specs::Header::version_text, crate::specs::Header::type_text, esdk_fields::specs::Numbers::to_big_endian))]
fn put_version(body: &mut Blob, suite: Suite) -> Result<(), AllocError>
    ensures { OnOk result (body.new ≡ body.old ++ version_text suite) }
{
    match suite {
        Suite::Committing => body.push_all(&[2]),
        Suite::Uncommitted => body.push_all(&[1, MESSAGE_TYPE]),
    }
}

/// Appends the context's text behind its length.
#[tactic(auto, unfolding(esdk_fields::specs::Sized::sized), using(std::proofs::Common::append_assoc))]
fn put_context(alloc: Global, body: &mut Blob, stored: &Context) -> Result<(), AllocError>
    ensures { OnOk result (body.new ≡ body.old ++ sized (ctx_text stored.now)) }
{
    let text = stored.text(alloc)?;
    put_u16(body, stored.length() as u16)?;
    body.push_all(text.bytes())
}

/// Appends the count of the entries, and one after another.
#[tactic(auto, unfolding(crate::specs::Header::edks_text), using(std::proofs::Common::append_assoc))]
fn put_entries(alloc: Global, body: &mut Blob, entries: &[DataKeyEntry]) -> Result<(), AllocError>
    requires { length entries.now ≤ 65535 }
    ensures { OnOk result (body.new ≡ body.old ++ edks_text entries.now) }
{
    put_u16(body, entries.len() as u16)?;
    for entry in entries {
        write_entry(alloc, entry, body)?;
    }
    Ok(())
}

/// Appends content type, reserved bytes and frame length.
#[tactic(auto, unfolding(crate::specs::Header::content_text, esdk_fields::specs::Numbers::to_big_endian), using(std::proofs::Common::append_assoc))]
fn put_content(body: &mut Blob, suite: Suite, content: Content) -> Result<(), AllocError>
    ensures { OnOk result (body.new ≡ body.old ++ content_text suite content) }
{
    body.push_all(&[type_of(content)])?;
    put_reserved(body, suite)?;
    put_u32(body, length_of(content))
}

/// Appends the reserved bytes and the length of initialization vectors, which version 1 alone has.
#[tactic(auto, unfolding(crate::specs::Header::reserved_text, esdk_fields::specs::Numbers::to_big_endian))]
fn put_reserved(body: &mut Blob, suite: Suite) -> Result<(), AllocError>
    ensures { OnOk result (body.new ≡ body.old ++ reserved_text suite) }
{
    match suite {
        Suite::Committing => Ok(()),
        Suite::Uncommitted => body.push_all(&[0, 0, 0, 0, IV_LENGTH]),
    }
}

/// The content type.
fn type_of(content: Content) -> u8
    ensures { result ≡ content_type content }
{
    match content {
        Content::Single => 1,
        Content::Framed(_) => 2,
    }
}

/// The frame length.
fn length_of(content: Content) -> u32
    ensures { result ≡ frame_length content }
{
    match content {
        Content::Single => 0,
        Content::Framed(frame) => frame,
    }
}
