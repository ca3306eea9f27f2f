//! A header that is taken from a file of a shelf from an offset on. How a header is unlocked, and
//! the units behind it opened, is shown by the cases that extract a range.

use crate::known_message::{NINE_BYTES, part};
use esdk_base::Shelf;
use esdk_memory::MemShelf;
use header_codec::{Header, HeaderReader, Settings};
use header_input::{NoHeader, take_header};
use std::alloc::Global;
use whole_input::{End, FileSource};

/// Whether a shelf has a file of two bytes and, behind them, these.
fn has_file(alloc: Global, shelf: &mut MemShelf, bytes: &[u8]) -> bool {
    shelf.room(alloc, "m", 300).is_ok()
        && shelf.create("m").is_ok()
        && shelf.append("m", b"12").is_ok()
        && shelf.append("m", bytes).is_ok()
}

/// The header that stands in the file behind two bytes, or why there is none.
fn taken_behind_two(alloc: Global, shelf: &mut MemShelf) -> Result<HeaderReader, NoHeader> {
    take_header(alloc, &mut FileSource::new(shelf, "m", 2), Settings::none())
}

/// The header is the known message's: 153 bytes, and then the tag of 16.
fn is_known(header: Option<&Header>) -> bool {
    match header {
        Some(header) => header.raw() == part(0, 153) && header.tag().as_slice() == part(153, 169),
        None => false,
    }
}

/// Whether that header is taken behind two bytes.
fn takes_known(alloc: Global, shelf: &mut MemShelf) -> bool {
    match taken_behind_two(alloc, shelf) {
        Ok(reader) => is_known(reader.header()),
        Err(_) => false,
    }
}

/// Whether the file ends before its header does.
fn ends_before(alloc: Global, shelf: &mut MemShelf) -> bool {
    matches!(
        taken_behind_two(alloc, shelf),
        Err(NoHeader::End(End::Seen))
    )
}

/// Whether that header is taken from the whole message, and from itself alone, and none from all of
/// it but the last byte.
fn takes_whole_headers(alloc: Global, shelf: &mut MemShelf) -> bool {
    has_file(alloc, shelf, NINE_BYTES)
        && takes_known(alloc, shelf)
        && has_file(alloc, shelf, part(0, 169))
        && takes_known(alloc, shelf)
        && has_file(alloc, shelf, part(0, 168))
        && ends_before(alloc, shelf)
}

#[test]
fn a_header_is_taken_from_a_file_from_an_offset_on(rt: HostRuntime) {
    let mut shelf = MemShelf::new(rt.alloc(), Vec::new(rt.alloc()));
    assert!(rt; takes_whole_headers(rt.alloc(), &mut shelf));
}
