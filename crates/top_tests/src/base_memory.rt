//! The forms in memory of what lies outside: what they do behind a failure that ends each run of the
//! program, and a file that is placed again. What else they do is shown by the cases, which are run
//! over them.

use crate::base_streams::gives;
use crate::shelf_steps::gives as holds;
use esdk_base::{Shelf, Sink, Source};
use esdk_fields::Blob;
use esdk_memory::{MemShelf, MemSink, MemSource};
use std::alloc::Global;

/// Bytes that own themselves. None where memory runs out.
fn blob(alloc: Global, bytes: &[u8]) -> Option<Blob> {
    let mut blob = Blob::new(alloc);
    match blob.push_all(bytes) {
        Ok(()) => Some(blob),
        Err(_) => None,
    }
}

/// Whether a source gives its three bytes in turn, at most two a read, and its second read fails.
fn gives_in_turn<S: Source>(source: &mut S) -> bool {
    gives(source, &[1, 2])
        && source.read(&mut [0; 3]).is_err()
        && gives(source, &[3])
        && gives(source, &[])
}

/// Whether a sink of three bytes, whose second put fails, takes what fits, and keeps it.
fn keeps_what_fits(sink: &mut MemSink) -> bool {
    sink.put(&[1, 2]).is_ok()
        && sink.put(&[3]).is_err()
        && sink.put(&[3, 4]).is_err()
        && sink.put(&[3]).is_ok()
        && sink.put(&[]).is_ok()
        && sink.written() == [1, 2, 3].as_slice()
}

/// Whether a file that is placed again is replaced, and keeps its room of three bytes.
fn is_replaced(alloc: Global, shelf: &mut MemShelf) -> bool {
    shelf.place(alloc, "a", b"one").is_ok()
        && shelf.place(alloc, "a", b"x").is_ok()
        && holds(shelf, "a", 0, b"x")
        && shelf.append("a", b"yz").is_ok()
        && shelf.append("a", b".").is_err()
        && holds(shelf, "a", 0, b"xyz")
}

#[test]
fn streams_in_memory_go_on_behind_a_failure(rt: HostRuntime) {
    let bytes = blob(rt.alloc(), &[1, 2, 3]).expect(&rt, "memory");
    let failing = Vec::from_slice(rt.alloc(), &[2]).expect(&rt, "memory");
    assert!(rt; gives_in_turn(&mut MemSource::new(bytes, 2, failing)));
    let failing = Vec::from_slice(rt.alloc(), &[2]).expect(&rt, "memory");
    let mut sink = MemSink::new(rt.alloc(), 3, failing).expect(&rt, "memory");
    assert!(rt; keeps_what_fits(&mut sink));
}

#[test]
fn a_file_in_memory_that_is_placed_again_keeps_its_room(rt: HostRuntime) {
    let mut shelf = MemShelf::new(rt.alloc(), Vec::new(rt.alloc()));
    assert!(rt; is_replaced(rt.alloc(), &mut shelf));
}
