//! Texts that are sealed piece by piece.

use crate::feeding::{Session, feed_all, manager_of};
use crate::line::Line;
use crate::words::{Cut, Words};
use crate::wrong::Wrong;
use esdk_fields::Blob;
use keyring_trait::{EncMaterials, EncRequest, Manager};
use std::alloc::Global;
use stream_seal::{SealError, Sealer};

/// A sealer, what it has given, and how many bytes it has taken.
#[derive(Drop)]
struct Sealing {
    sealer: Sealer,
    message: Blob,
    taken: usize,
    is_over: bool,
}

/// `seal KEY RANDOM ID PAIRS KEYS FRAME DECLARED MAX_KEYS CUT TEXT`: the text, sealed in these
/// pieces under the raw key `k` of the namespace `ns`; the data key and the initialization vector
/// of its wrap are RANDOM, the keys are required. For each frame how many bytes were taken before
/// it was given; where there is a refusal, its line; and the header with all that was given.
pub(crate) fn seal(words: &mut Words<'_>, line: &mut Line) {
    let key = words.array();
    let random = words.array();
    let id = words.array();
    match materials(words, key, &random) {
        Some(materials) => seal_with(words, &materials, &id, line),
        None => words.refuse(Wrong::Word),
    }
}

/// What the default manager of this key gives for the context and the required keys of the next
/// words. None where the request is refused or memory runs out.
fn materials(words: &mut Words<'_>, key: [u8; 32], random: &[u8; 44]) -> Option<EncMaterials> {
    let request = EncRequest::new(words.alloc, words.context(), None);
    match request.requiring(words.alloc, &words.keys()) {
        Ok(request) => match manager_of(words.alloc, key) {
            Some(mut manager) => drawn(words.alloc, &mut manager, &request, random),
            None => None,
        },
        Err(_) => None,
    }
}

/// What the manager of one key gives at this request.
fn drawn(
    alloc: Global,
    manager: &mut impl Manager,
    request: &EncRequest,
    random: &[u8; 44],
) -> Option<EncMaterials> {
    if manager.wraps() != 1 {
        return None;
    }
    match manager.for_encryption(alloc, request, 0, random) {
        Ok(materials) => Some(materials),
        Err(_) => None,
    }
}

/// Seals the text of the next words with these materials.
fn seal_with(words: &mut Words<'_>, materials: &EncMaterials, id: &[u8; 32], line: &mut Line) {
    let frame = words.number32().max(1);
    let declared = words.limit();
    let max_keys = words.max_keys();
    let cut = words.cut();
    let text = words.bytes();
    match Sealer::begin(words.alloc, materials, declared, frame, max_keys, id) {
        Ok(sealer) => seal_all(words.alloc, sealer, cut, &text, line),
        Err(error) => put_error(&error, line),
    }
}

/// Seals the text.
fn seal_all(alloc: Global, sealer: Sealer, cut: Cut, text: &Blob, line: &mut Line) {
    let mut message = Blob::new(alloc);
    line.check(message.push_all(sealer.header()));
    let mut sealing = Sealing {
        sealer,
        message,
        taken: 0,
        is_over: false,
    };
    // At each byte at most one step gives a frame, and one takes bytes.
    feed_all(&mut sealing, cut, text.bytes(), 2, line);
    sealing.end(line);
}

impl Session for Sealing {
    fn step(&mut self, left: &[u8], line: &mut Line) -> usize {
        if self.is_over || left.is_empty() {
            return 0;
        }
        match self.sealer.step(left) {
            Ok(used) => {
                self.took(used, line);
                used
            }
            Err(error) => {
                put_error(&error, line);
                self.is_over = true;
                0
            }
        }
    }
}

impl Sealing {
    /// Counts the bytes, and takes the frame that was given, if there is one.
    fn took(&mut self, used: usize, line: &mut Line) {
        let out = self.sealer.out();
        if !out.is_empty() {
            line.number(self.taken as u64);
        }
        line.check(self.message.push_all(out));
        self.taken = self.taken.saturating_add(used);
    }

    /// Ends the text, and puts all that was given.
    fn end(&mut self, line: &mut Line) {
        if self.sealer.finish().is_ok() {
            self.took(0, line);
        }
        line.bytes(self.message.bytes());
    }
}

/// Puts why a call failed.
fn put_error(error: &SealError, line: &mut Line) {
    match error {
        SealError::Refusal(refusal) => line.refusal(refusal),
        SealError::Stopped => line.word("stopped"),
        SealError::Memory => line.cut(),
    }
}
