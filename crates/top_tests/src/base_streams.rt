//! Readers and writers of std, as sources and sinks. Files and standard streams are read and
//! written as such by the runs of `tests/outside`.

use esdk_base::{Sink, Source};
use esdk_system::{StdSink, StdSource};
use std::io;
use std::io::{ErrorKind, Read};

/// Whether a read, of at most four bytes, gives just these.
pub(crate) fn gives<S: Source>(source: &mut S, want: &[u8]) -> bool {
    let mut out = [0; 4];
    match source.read(&mut out) {
        Ok(count) => &out[..count] == want,
        Err(_) => false,
    }
}

/// Whether a read fails.
fn breaks<S: Source>(source: &mut S) -> bool {
    source.read(&mut [0; 4]).is_err()
}

/// A reader that is interrupted so often, then gives one byte, and fails from there on.
#[derive(Drop)]
struct Breaking {
    interrupts: u32,
    is_spent: bool,
}

impl Read for Breaking {
    fn read(&mut self, buf: &mut [u8]) -> io::Result<usize> {
        if self.interrupts > 0 {
            self.interrupts -= 1;
            return Err(io::Error::from(ErrorKind::Interrupted));
        }
        if self.is_spent || buf.is_empty() {
            return Err(io::Error::from(ErrorKind::Other));
        }
        self.is_spent = true;
        buf[0] = 7;
        Ok(1)
    }
}

/// That reader, as a source.
fn interrupted(interrupts: u32) -> StdSource<Breaking> {
    StdSource::new(Breaking {
        interrupts,
        is_spent: false,
    })
}

#[test]
fn a_read_that_is_interrupted_is_made_again(rt: HostRuntime) {
    assert!(rt; gives(&mut interrupted(999), &[7]) && breaks(&mut interrupted(1000)));
}

/// Whether a source gives one byte, and fails from there on.
fn gives_one_byte<S: Source>(source: &mut S) -> bool {
    gives(source, &[7]) && breaks(source) && breaks(source)
}

/// Whether a source gives five bytes in two reads, and ends.
fn gives_five_bytes<S: Source>(source: &mut S) -> bool {
    gives(source, &[1, 2, 3, 4]) && gives(source, &[5]) && gives(source, &[])
}

#[test]
fn a_reader_is_passed_through_up_to_its_failure(rt: HostRuntime) {
    let bytes = [1u8, 2, 3, 4, 5];
    assert!(rt; gives_five_bytes(&mut StdSource::new(bytes.as_slice())));
    assert!(rt; gives_one_byte(&mut interrupted(0)));
}

/// Whether two bytes are taken, and two more aren't.
fn takes_two<S: Sink>(sink: &mut S) -> bool {
    sink.put(b"ab").is_ok() && sink.put(b"cd").is_err()
}

#[test]
fn a_writer_is_passed_through_up_to_its_room(rt: HostRuntime) {
    let mut room = [0u8; 3];
    assert!(rt; takes_two(&mut StdSink::new(room.as_mut_slice())) && room == *b"abc");
}
