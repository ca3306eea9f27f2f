//! A message's header, taken from a source: the standard input, a file of a shelf, or another.
//!
//! `specs/Taking.antt` says what a source gave where a header came, and why none came. Standard:
//! AWS Encryption SDK Specification, "Message header" and "Header authentication".
#![tactic(auto)]

mod errors;
mod taking;

pub use errors::NoHeader;
pub use taking::take_header;
