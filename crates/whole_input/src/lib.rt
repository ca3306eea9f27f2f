//! An input that is taken piece by piece, and a small file of a shelf that is taken whole.
//!
//! `Pieces` reads a source into one buffer, again and again, and says why no more came; `take_file`
//! takes a small file of a shelf into memory.
#![tactic(auto)]

mod buffer;
mod file;
mod file_source;
mod pieces;

pub use file::{FileError, take_file};
pub use file_source::FileSource;
pub use pieces::{End, Pieces};
