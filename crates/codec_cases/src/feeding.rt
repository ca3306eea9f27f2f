//! Sessions that are fed piece by piece.

use crate::line::Line;
use crate::words::Cut;
use cmm_default::DefaultCmm;
use raw_aes_keyring::RawAes;
use std::alloc::Global;

/// What is fed.
pub(crate) trait Session {
    /// A step over what is left of a piece, and how many of its bytes were used: none once the
    /// session is over.
    fn step(&mut self, left: &[u8], line: &mut Line) -> usize;
}

/// Feeds the bytes in these pieces, by at most so many steps for each byte.
pub(crate) fn feed_all<S: Session>(
    session: &mut S,
    cut: Cut,
    bytes: &[u8],
    steps: usize,
    line: &mut Line,
) {
    let (front, rest) = bytes.split_at(cut.first.min(bytes.len()));
    feed(session, front, steps, line);
    for piece in rest.chunks(cut.rest.max(1)) {
        feed(session, piece, steps, line);
    }
}

/// Feeds a piece, by at most so many steps for each of its bytes.
fn feed<S: Session>(session: &mut S, piece: &[u8], steps: usize, line: &mut Line) {
    let mut left = piece;
    for _ in 0..piece.len().saturating_mul(steps) {
        let used = session.step(left, line);
        left = left.get(used..).unwrap_or(&[]);
    }
}

/// The default manager of the raw key `k` of the namespace `ns`. None where memory runs out.
pub(crate) fn manager_of(alloc: Global, key: [u8; 32]) -> Option<DefaultCmm<RawAes>> {
    match RawAes::new(alloc, "ns", "k", key) {
        Ok(keyring) => Some(DefaultCmm::new(keyring)),
        Err(_) => None,
    }
}
