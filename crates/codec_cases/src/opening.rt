//! Messages that are opened piece by piece.

use crate::feeding::{Session, feed_all, manager_of};
use crate::line::Line;
use crate::words::{Cut, Words};
use crate::wrong::Wrong;
use cmm_default::DefaultCmm;
use esdk_fields::Blob;
use raw_aes_keyring::RawAes;
use std::alloc::Global;
use stream_open::{OpenError, Opener};

/// An opener, the manager that it asks, and how many bytes it has taken.
#[derive(Drop)]
struct Opening {
    alloc: Global,
    opener: Opener,
    manager: DefaultCmm<RawAes>,
    taken: usize,
    is_over: bool,
}

/// `open UNCOMMITTED MAX_KEYS MAX_UNIT CUT KEY PAIRS BYTES`: the bytes, opened in these pieces
/// under the raw key `k` of the namespace `ns`, the pairs being given. For each content how many
/// bytes were taken with the last of its unit, and the content; where there is a fault, its line,
/// and how many bytes were there; how the end is answered; and the whole context, or `locked`.
pub(crate) fn open(words: &mut Words<'_>, line: &mut Line) {
    let settings = words.settings();
    let cut = words.cut();
    let key = words.array();
    let opener = Opener::new(words.alloc, settings, words.context());
    let bytes = words.bytes();
    match manager_of(words.alloc, key) {
        Some(manager) => open_all(words.alloc, opener, manager, cut, &bytes, line),
        None => words.refuse(Wrong::Memory),
    }
}

/// Opens the bytes in these pieces.
fn open_all(
    alloc: Global,
    opener: Opener,
    manager: DefaultCmm<RawAes>,
    cut: Cut,
    bytes: &Blob,
    line: &mut Line,
) {
    let mut opening = Opening {
        alloc,
        opener,
        manager,
        taken: 0,
        is_over: false,
    };
    // Each step takes a byte at least.
    feed_all(&mut opening, cut, bytes.bytes(), 1, line);
    opening.end(line);
}

impl Session for Opening {
    fn step(&mut self, left: &[u8], line: &mut Line) -> usize {
        if self.is_over || left.is_empty() {
            return 0;
        }
        match self.opener.step(self.alloc, &mut self.manager, 0, left) {
            Ok(used) => {
                self.took(used, line);
                used
            }
            Err(error) => {
                put_error(&error, line);
                line.number(self.taken.saturating_add(left.len()) as u64);
                self.is_over = true;
                0
            }
        }
    }
}

impl Opening {
    /// Counts the bytes, and puts the content that a step over them gave, if there is one.
    fn took(&mut self, used: usize, line: &mut Line) {
        self.taken = self.taken.saturating_add(used);
        let out = self.opener.out();
        if !out.is_empty() {
            line.number(self.taken as u64);
            line.bytes(out);
        }
    }

    /// Puts how the end is answered, and the whole context.
    fn end(&mut self, line: &mut Line) {
        match self.opener.finish() {
            Ok(()) => line.word("whole"),
            Err(error) => put_error(&error, line),
        }
        match self.opener.context() {
            Some(context) => line.context(context),
            None => line.word("locked"),
        }
    }
}

/// Puts why a call failed.
fn put_error(error: &OpenError, line: &mut Line) {
    match error {
        OpenError::Fault(fault) => line.fault(fault),
        OpenError::KeyringFault => line.word("keyring-fault"),
        OpenError::Stopped => line.word("stopped"),
        OpenError::Memory => line.cut(),
    }
}
