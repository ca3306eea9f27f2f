//! Authenticated encryption of a text where it lies: AES-256 in Galois/Counter Mode (NIST SP
//! 800-38D), with initialization vectors of 12 bytes and tags of 16 bytes.
//!
//! A text is enciphered eight blocks at a time, or sixteen in a program that is built for vectors
//! of 32 bytes, and a short one or the end of a long one two at a time; it is hashed four at a
//! time, piece by piece, so that a piece is still in the first cache when it is hashed. The
//! functions whose names end in `by_blocks` do the same one block at a time: they serve last
//! blocks, and to measure the others by.
//!
//! `GcmKey` is for many texts under one key, such as the frames of a message: it holds what is made
//! of the key alone. A `GcmOpener` is for many texts under one key over the same associated data,
//! such as the wraps of a data key: it holds the hash of that data as well. `seal_in_place` and
//! `open_in_place` are for one text, and make all of it in the call.
//!
//! Nothing here copies the text, and nothing but `GcmKey::new` takes memory. The associated data is
//! given as two slices, which count as one text, so that a caller need not join them. One key must
//! never seal two texts under the same initialization vector. `same` compares two secrets, such as
//! tags, by all their bytes.
#![tactic(auto)]

mod absorbing;
mod authentication;
mod comparing;
mod counter_mode;
mod gcm_key;
mod gcm_opener;
mod masks;
mod seal;

pub use comparing::same;
pub use gcm_key::GcmKey;
pub use gcm_opener::GcmOpener;
pub use seal::{open_in_place, seal_in_place};
