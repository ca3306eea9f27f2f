//! JSON values (RFC 8259), for all files of this library's formats: how the bytes of a file are
//! read as one, how its members are looked into, and why nothing is read.
//!
//! `specs/Values.antt` says what bytes and members are read as, and `specs/Errors.antt` when which
//! error is answered, and what is shown of it.
#![tactic(auto)]

mod errors;
mod values;

pub use errors::ReadError;
pub use values::{member_count, present, text_at, value_of};
