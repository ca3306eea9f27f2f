//! What went through an object of the outside, as values that stand in proofs alone.
//!
//! A contract can't say what a file or a stream holds. It can say what was seen to pass: an adapter
//! that hands bytes to the system notes them here, and its contract says what the note is then.
//! Such a note takes no memory and no time.
#![tactic(auto)]

mod bytes;
mod calls;
mod moments;

pub use bytes::SeenBytes;
pub use calls::{Call, SeenCalls};
pub use moments::SeenMoments;
