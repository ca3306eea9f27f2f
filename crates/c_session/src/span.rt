//! Where the bytes of a message stand that hold a range of its text.

ghost use Rattle.std.specs.Prelude.{◌≡◌, ◌≤◌, ◌+◌, ◌*◌, ◌^◌, IfNone, IfSome};
ghost use Rattle.esdk_fields.specs.declared.contents.Content.TheVariants.{Framed};
ghost use Rattle.header_codec.specs.Header.{IsContent};
ghost use Rattle.extract_core.specs.Extract.{body_begin, range_of};
ghost use Rattle.c_session.specs.Span.{IsSpan, IsTooFar, SpansFront};

use crate::front::front_of;
use crate::no_range::NoRange;
use esdk_fields::Content;
use header_codec::Header;
use session_parts::{frames_of, settings};
use std::alloc::Global;
use suite_table::Suite;

/// How many bytes a regular frame has beside its text.
const BESIDE_TEXT: u64 = 32;

/// How many bytes a final frame has beside that.
const MORE_AT_THE_END: u64 = 8;

/// How many bytes the tag of a header has.
const TAG: usize = 16;

/// How many bytes a header's initialization vector and its tag have, where it has both.
const IV_AND_TAG: usize = 28;

/// Where the bytes of a message stand that hold a range of its text.
#[derive(Clone, Copy)]
pub struct Span {
    /// How many bytes the header and its authentication have: there the body begins.
    pub header: u64,
    /// How many bytes of text a frame has; 0, where the body is a single block.
    pub frame: u32,
    /// Where the first byte stands that is wanted.
    pub offset: u64,
    /// How many are wanted, as far as the message has them.
    pub length: u64,
}

impl Span {
    /// Where there is none.
    pub fn none() -> Span
        ensures { result ≡ record { header = 0; frame = 0; offset = 0; length = 0 } }
    {
        Span {
            header: 0,
            frame: 0,
            offset: 0,
            length: 0,
        }
    }
}

/// Where the bytes stand of a message that begins so, which hold `count` bytes of its text from
/// byte `at` on. Its header alone is read, without a key. A message that doesn't commit to its data
/// key is a fault (M23), unless the caller allows these.
///
/// - `Reason`: the header's fault, or M10 where the bytes end before it is whole; memory ran out.
/// - `TooFar`: the range is empty, or ends behind all that 64 bits can tell.
pub fn front_span(
    alloc: Global,
    message: &[u8],
    uncommitted: bool,
    at: u64,
    count: u64,
) -> Result<Span, NoRange>
    ensures { SpansFront uncommitted message.now at count result }
{
    if count == 0 {
        return Err(NoRange::TooFar);
    }
    let header = match front_of(alloc, settings(0, 0, uncommitted), message) {
        Ok(header) => header,
        Err(reason) => return Err(NoRange::Reason(reason)),
    };
    let spanned = span_of(begin_of(&header), header.content(), at, count);
    drop(header);
    match spanned {
        Some(span) => Ok(span),
        None => Err(NoRange::TooFar),
    }
}

/// Where the slots of a range stand in a message whose body begins there.
fn span_of(begin: u64, content: Content, at: u64, count: u64) -> Option<Span>
    requires content { IsContent content }
    requires some { 1 ≤ count }
    ensures some { IfSome result (IsSpan begin content (range_of at count)) }
    ensures none { IfNone result (IsTooFar begin content (range_of at count)) }
{
    match content {
        Content::Single => Some(Span {
            header: begin,
            frame: 0,
            offset: begin,
            length: u64::MAX,
        }),
        Content::Framed(frame) => framed_span(begin, frame, at, count),
    }
}

/// The same of a message in frames of so many bytes.
fn framed_span(begin: u64, frame: u32, at: u64, count: u64) -> Option<Span>
    requires frame { 1 ≤ frame }
    requires some { 1 ≤ count }
    ensures some { IfSome result (IsSpan begin (Framed frame) (range_of at count)) }
    ensures none { IfNone result (IsTooFar begin (Framed frame) (range_of at count)) }
{
    let (first, many) = frames_of(frame, at, count)?;
    let width = u64::from(frame) + BESIDE_TEXT;
    let offset = bytes_of(first, width, begin)?;
    let length = bytes_of(many, width, MORE_AT_THE_END)?;
    Some(Span {
        header: begin,
        frame,
        offset,
        length,
    })
}

/// How many bytes so many frames of this width have, with these beside them; none, where 64 bits
/// can't tell it.
fn bytes_of(frames: u64, width: u64, beside: u64) -> Option<u64>
    ensures some { IfSome result (λ bytes. bytes ≡ frames * width + beside) }
    ensures none { IfNone result (2 ^ 64 ≤ frames * width + beside) }
{
    frames.checked_mul(width)?.checked_add(beside)
}

/// Where the body begins behind a header.
fn begin_of(header: &Header) -> u64
    ensures { result ≡ body_begin header.now }
{
    let authentication = match header.algorithm() {
        Suite::Committing => TAG,
        Suite::Uncommitted => IV_AND_TAG,
    };
    (header.raw().len() + authentication) as u64
}
