//! How it is told where the bytes stand that hold a range.

ghost use Rattle.std.specs.Prelude.{◌≡◌};

use c_session::Span;

/// Tells a span by four numbers.
pub fn tell_span(span: Span, header: &mut u64, frame: &mut u32, offset: &mut u64, size: &mut u64)
    ensures header { header.new ≡ span.header }
    ensures frame { frame.new ≡ span.frame }
    ensures offset { offset.new ≡ span.offset }
    ensures size { size.new ≡ span.length }
{
    *header = span.header;
    *frame = span.frame;
    *offset = span.offset;
    *size = span.length;
}
