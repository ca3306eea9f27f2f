//! Laws about headers. A law is a function that does nothing: its contract is what is proved.

ghost use Rattle.header_codec.specs.Laws.{JudgesHeadersInOrder, ReadsSpelledHeaders};
ghost use Rattle.header_codec.specs.Laws.{ReadsOneHeader, ReadsSomeHeader, RefusesTheFirstOffence};
ghost use Rattle.header_codec.specs.Laws.{WritesHeaders, WrittenHeadersAreRead};

/// A fault stays when bytes follow, and comes with the last byte of its field, no earlier and no
/// later; so does a whole header.
pub fn headers_are_judged_in_order()
    ensures { JudgesHeadersInOrder }
{}

/// A header is read exactly where the bytes begin with a spelling of it and its authentication, and
/// no limit is passed.
pub fn spelled_headers_are_read()
    ensures { ReadsSpelledHeaders }
{}

/// The same bytes begin with no two headers.
pub fn one_header_is_read()
    ensures { ReadsOneHeader }
{}

/// Where the fields are read to the end of the authentication, there is a header.
pub fn some_header_is_read()
    ensures { ReadsSomeHeader }
{}

/// A header is refused with the offence that ends first, exactly where its fields have one; of two
/// at one field it is the upper row's.
pub fn the_first_offence_is_the_fault()
    ensures { RefusesTheFirstOffence }
{}

/// What is written is the body of a header of the parts that were handed.
pub fn written_headers_are_headers()
    ensures { WritesHeaders }
{}

/// What is written is read back as its parts, with whatever authentication stands behind it and
/// whatever follows, under any limits that the parts keep.
pub fn written_headers_are_read()
    ensures { WrittenHeadersAreRead }
{}
