//! The real outside of `esdk`: the system's files, streams, generator and clock, behind the traits
//! of `esdk_base`.
//!
//! What a contract can say of a real file or stream is little: each adapter but the clock counts its
//! failures, and each tells what went through it since it was made: the bytes that came, were taken
//! or were drawn, the calls of a shelf, the moments given. What a file or a stream holds, and what
//! is to come, none of them tells. What they do beyond that is tested over the real system.
#![tactic(auto)]

mod file_shelf;
mod held_streams;
mod identity;
mod interrupts;
mod named;
mod part_names;
mod parts;
mod places;
mod read_files;
mod regular;
mod rights;
mod rng_entropy;
mod std_sink;
mod std_source;
mod system_clock;

pub use file_shelf::FileShelf;
pub use held_streams::HeldStreams;
pub use rng_entropy::RngEntropy;
pub use std_sink::StdSink;
pub use std_source::StdSource;
pub use system_clock::SystemClock;
