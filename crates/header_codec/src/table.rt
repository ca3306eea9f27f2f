//! Reading the fields of a header, each judged at its last byte.

ghost use Rattle.std.specs.Prelude.{◌≡◌, ◌+◌, ◌≤◌, length, IfOk, OnOk, ◌==◌, not, nat_lt};
ghost use Rattle.esdk_fields.specs.Gives.{Gives};
ghost use Rattle.esdk_fields.specs.Reading.{bytes};
ghost use Rattle.context_codec.specs.Split.{SpellsContext};
ghost use Rattle.header_codec.specs.Header.{latest_end, content_type, frame_length};
ghost use Rattle.header_codec.specs.Table.{is_version, suite_of_version, is_forbidden};
ghost use Rattle.header_codec.specs.Table.{is_content_type, is_frame_length, is_unit_over};
ghost use Rattle.header_codec.specs.Table.{content_of, type_field, suite_field, identity, opening};
ghost use Rattle.header_codec.specs.Table.{context_field, entry_part, entry, reserved};
ghost use Rattle.header_codec.specs.Table.{content_field, header_iv};
ghost use Rattle.header_codec.specs.Parts.{raw_entry, raw_opening, ending_fields};
ghost use Rattle.header_codec.specs.Rest.{keys_count, ending};

use crate::parts::{HeaderEnding, RawEntry, RawOpening};
use context_codec::{Context, read_field};
use esdk_fields::{
    Content, Cursor, Fault, FieldError, Stop, bytes_of, is_over, refused, sized_of, u8_of, u16_of,
    u32_of,
};
use std::alloc::Global;
use suite_table::{Suite, ZERO_IV};

/// The type of a message of version 1.
pub(crate) const MESSAGE_TYPE: u8 = 0x80;

/// How many bytes an initialization vector has.
pub(crate) const IV_LENGTH: u8 = 12;

/// Where the encrypted data keys end at the latest.
pub(crate) const LATEST_END: usize = 16_777_216;

/// A context where it stands in the bytes, and its pairs.
#[derive(Drop)]
pub(crate) struct ContextField<'a> {
    pub(crate) bytes: &'a [u8],
    pub(crate) stored: Context,
}

/// Whether messages of this version are read.
fn is_version(version: u8) -> bool
    ensures { result ≡ is_version version }
{
    version == 1 || version == 2
}

/// The suite of a version's messages.
fn suite_of_version(version: u8) -> Suite
    ensures { result ≡ suite_of_version version }
{
    if version == 1 {
        Suite::Uncommitted
    } else {
        Suite::Committing
    }
}

/// Whether it is the suite's own id, and the caller doesn't allow the suite.
fn is_forbidden(uncommitted: bool, suite: Suite, id: u16) -> bool
    ensures { result ≡ is_forbidden uncommitted suite id }
{
    match suite {
        Suite::Committing => false,
        Suite::Uncommitted => id == Suite::Uncommitted.id() && !uncommitted,
    }
}

/// The type of the message, which version 1 alone has.
#[tactic(auto, unfolding(crate::specs::Table::type_field))]
fn type_of(suite: Suite, cursor: &mut Cursor<'_>) -> Result<(), Stop>
    ensures reads { Gives (λ x. x) result cursor.new (type_field suite cursor.old) }
    ensures end { OnOk result (cursor.new.at ≤ cursor.old.at + 1) }
{
    match suite {
        Suite::Committing => Ok(()),
        Suite::Uncommitted => {
            let kind = u8_of(cursor)?;
            if kind != MESSAGE_TYPE {
                return refused(Fault::BadType(kind), cursor);
            }
            Ok(())
        }
    }
}

/// The suite id.
#[tactic(auto, unfolding(crate::specs::Table::suite_field))]
fn suite_id_of(uncommitted: bool, suite: Suite, cursor: &mut Cursor<'_>) -> Result<(), Stop>
    ensures reads { Gives (λ x. x) result cursor.new (suite_field uncommitted suite cursor.old) }
    ensures end { OnOk result (cursor.new.at ≡ cursor.old.at + 2) }
{
    let id = u16_of(cursor)?;
    if is_forbidden(uncommitted, suite, id) {
        return refused(Fault::Uncommitted(id), cursor);
    }
    if id != suite.id() {
        return refused(Fault::UnsupportedSuite(id), cursor);
    }
    Ok(())
}

/// What follows the version: type, suite id, message id.
#[tactic(auto, unfolding(crate::specs::Table::identity))]
fn identity_of<'a>(
    uncommitted: bool,
    suite: Suite,
    cursor: &mut Cursor<'a>,
) -> Result<RawOpening<'a>, Stop>
    ensures reads { Gives raw_opening result cursor.new (identity uncommitted suite cursor.old) }
    ensures end { OnOk result (cursor.new.at ≤ cursor.old.at + 35) }
{
    type_of(suite, cursor)?;
    suite_id_of(uncommitted, suite, cursor)?;
    let id = bytes_of(cursor, suite.id_length())?;
    Ok(RawOpening { suite, id })
}

/// Version, type, suite id, message id.
#[tactic(auto, unfolding(crate::specs::Table::opening))]
pub(crate) fn opening_of<'a>(
    uncommitted: bool,
    cursor: &mut Cursor<'a>,
) -> Result<RawOpening<'a>, Stop>
    ensures reads { Gives raw_opening result cursor.new (opening uncommitted cursor.old) }
    ensures end { OnOk result (cursor.new.at ≤ cursor.old.at + 36) }
{
    let version = u8_of(cursor)?;
    if !is_version(version) {
        return refused(Fault::BadVersion(version), cursor);
    }
    identity_of(uncommitted, suite_of_version(version), cursor)
}

/// Two bytes of length, and a context's text.
#[tactic(auto, unfolding(crate::specs::Table::context_field, esdk_fields::specs::Sized::sized_bytes))]
pub(crate) fn context_field_of<'a>(
    alloc: Global,
    cursor: &mut Cursor<'a>,
) -> Result<ContextField<'a>, Stop>
    ensures reads { Gives (λ x. x.bytes.now) result cursor.new (context_field cursor.old) }
    ensures spells { IfOk result (λ x. SpellsContext x.bytes.now x.stored) }
    ensures end { OnOk result (cursor.new.at ≤ cursor.old.at + 65537) }
{
    let bytes = sized_of(cursor)?;
    match read_field(alloc, bytes) {
        Ok(stored) => Ok(ContextField { bytes, stored }),
        Err(FieldError::Fault(fault)) => refused(fault, cursor),
        Err(FieldError::Stopped) => unreachable!(),
        Err(FieldError::Memory) => Err(Stop::Memory),
    }
}

/// A part of an entry. Its length says where it ends.
#[tactic(auto, unfolding(crate::specs::Table::entry_part))]
fn part_of<'a>(cursor: &mut Cursor<'a>) -> Result<&'a [u8], Stop>
    requires { cursor.old.at ≤ latest_end }
    ensures reads { Gives (λ part. part.now) result cursor.new (entry_part cursor.old) }
    ensures within { OnOk result (cursor.new.at ≤ latest_end) }
    ensures short { IfOk result (λ part. length part.now ≤ 65535) }
{
    let len = usize::from(u16_of(cursor)?);
    let end = cursor.offset() + len;
    if LATEST_END < end {
        return refused(Fault::HeaderTooLong(end as u32), cursor);
    }
    bytes_of(cursor, len)
}

/// The three parts of an entry.
#[tactic(auto, unfolding(crate::specs::Table::entry))]
pub(crate) fn entry_of<'a>(cursor: &mut Cursor<'a>) -> Result<RawEntry<'a>, Stop>
    requires { cursor.old.at ≤ latest_end }
    ensures reads { Gives raw_entry result cursor.new (entry cursor.old) }
    ensures within { OnOk result (cursor.new.at ≤ latest_end) }
{
    let provider = part_of(cursor)?;
    let info = part_of(cursor)?;
    let cipher = part_of(cursor)?;
    Ok(RawEntry {
        provider,
        info,
        cipher,
    })
}

/// How many entries there are.
#[tactic(auto, unfolding(crate::specs::Rest::keys_count))]
pub(crate) fn keys_count_of(max_keys: Option<u16>, cursor: &mut Cursor<'_>) -> Result<u16, Stop>
    ensures reads { Gives (λ n. n) result cursor.new (keys_count max_keys cursor.old) }
    ensures end { OnOk result (cursor.new.at ≡ cursor.old.at + 2) }
{
    let count = u16_of(cursor)?;
    if count == 0 {
        return refused(Fault::NoDataKeys, cursor);
    }
    if is_over(max_keys.map(u64::from), u64::from(count)) {
        return refused(Fault::TooManyDataKeys(count), cursor);
    }
    Ok(count)
}

/// Whether it is 01, a single block, or 02, frames.
fn is_content_type(kind: u8) -> bool
    ensures { result ≡ is_content_type kind }
{
    kind == 1 || kind == 2
}

/// Whether content of this type may have this frame length.
fn is_frame_length(kind: u8, frame: u32) -> bool
    ensures { result ≡ is_frame_length kind frame }
{
    if kind == 1 { frame == 0 } else { frame != 0 }
}

/// Whether content of this type has frames over the limit, where there is one.
fn is_unit_over(max_unit: Option<u64>, kind: u8, frame: u32) -> bool
    ensures { result ≡ is_unit_over max_unit kind frame }
{
    kind == 2 && is_over(max_unit, u64::from(frame))
}

/// The content of this type and frame length.
fn content_with(kind: u8, frame: u32) -> Content
    ensures { result ≡ content_of kind frame }
{
    if kind == 1 {
        Content::Single
    } else {
        Content::Framed(frame)
    }
}

/// Four zero bytes and the length of initialization vectors, which version 1 alone has.
#[tactic(auto, unfolding(crate::specs::Table::reserved))]
fn reserved_of(suite: Suite, cursor: &mut Cursor<'_>) -> Result<(), Stop>
    ensures { Gives (λ x. x) result cursor.new (reserved suite cursor.old) }
{
    match suite {
        Suite::Committing => Ok(()),
        Suite::Uncommitted => {
            let zeros = u32_of(cursor)?;
            if zeros != 0 {
                return refused(Fault::BadReserved(zeros), cursor);
            }
            let iv_length = u8_of(cursor)?;
            if iv_length != IV_LENGTH {
                return refused(Fault::BadIvLength(iv_length), cursor);
            }
            Ok(())
        }
    }
}

/// Content type, reserved bytes and frame length.
#[tactic(auto, unfolding(crate::specs::Table::content_field))]
fn content_of(suite: Suite, max_unit: Option<u64>, cursor: &mut Cursor<'_>) -> Result<Content, Stop>
    ensures { Gives (λ x. x) result cursor.new (content_field suite max_unit cursor.old) }
{
    let kind = u8_of(cursor)?;
    if !is_content_type(kind) {
        return refused(Fault::BadContentType(kind), cursor);
    }
    reserved_of(suite, cursor)?;
    let frame = u32_of(cursor)?;
    if !is_frame_length(kind, frame) {
        return refused(Fault::BadFrameLength(frame), cursor);
    }
    if is_unit_over(max_unit, kind, frame) {
        return refused(Fault::UnitTooLong(u64::from(frame)), cursor);
    }
    Ok(content_with(kind, frame))
}

/// The header's initialization vector: zeros, where it has none of its own.
#[tactic(auto, unfolding(crate::specs::Table::header_iv))]
fn header_iv_of(suite: Suite, cursor: &mut Cursor<'_>) -> Result<[u8; 12], Stop>
    ensures { Gives (λ iv. iv) result cursor.new (header_iv suite cursor.old) }
{
    match suite {
        Suite::Committing => Ok(ZERO_IV),
        Suite::Uncommitted => iv_of(cursor),
    }
}

/// An initialization vector that stands in the bytes.
fn iv_of(cursor: &mut Cursor<'_>) -> Result<[u8; 12], Stop>
    ensures { Gives (λ iv. iv) result cursor.new (bytes 12 cursor.old) }
{
    let bytes = bytes_of(cursor, 12)?;
    let mut iv = [0; 12];
    iv.copy_from_slice(bytes);
    Ok(iv)
}

/// A tag that stands in the bytes.
fn tag_of(cursor: &mut Cursor<'_>) -> Result<[u8; 16], Stop>
    ensures { Gives (λ tag. tag) result cursor.new (bytes 16 cursor.old) }
{
    let bytes = bytes_of(cursor, 16)?;
    let mut tag = [0; 16];
    tag.copy_from_slice(bytes);
    Ok(tag)
}

/// What follows the encrypted data keys: content, commitment, authentication.
#[tactic(auto, unfolding(crate::specs::Rest::ending))]
pub(crate) fn ending_of(
    alloc: Global,
    suite: Suite,
    max_unit: Option<u64>,
    cursor: &mut Cursor<'_>,
) -> Result<HeaderEnding, Stop>
    ensures { Gives ending_fields result cursor.new (ending suite max_unit cursor.old) }
{
    let content = content_of(suite, max_unit, cursor)?;
    let commitment = Vec::from_slice(alloc, bytes_of(cursor, suite.data_length())?)?;
    let size = cursor.offset();
    let iv = header_iv_of(suite, cursor)?;
    let tag = tag_of(cursor)?;
    Ok(HeaderEnding {
        content,
        commitment,
        size,
        iv,
        tag,
    })
}
