//! The outside of `esdk`: where bytes come from and where they go.
//!
//! What lies outside stands behind traits. A `Source` is read and a `Sink` is written once, from
//! the front to the end; a `Shelf` holds files by their names; an `Entropy` gives random bytes; a
//! `Clock` gives the moment. Each has a meaning, as the bytes left, the bytes written, the files,
//! the bytes to come or the moments to come, which an object may tell or not, and all but the clock
//! a count of their faults. What went through it each object tells, but a sink: the bytes that came,
//! the calls of a shelf, the bytes drawn, the moments given. The adapters over the system's files,
//! streams, generator and clock are a crate of their own, `esdk_system`; so are forms in memory
//! that tell everything, `esdk_memory`.
//!
//! A `Receiver` is what a machine's bytes go into, piece by piece: each sink is one, and what else
//! takes bytes can be one too.
#![tactic(auto)]

mod clock;
mod entropy;
mod receiver;
mod shelf;
mod sink;
mod source;

pub use clock::Clock;
pub use entropy::Entropy;
pub use receiver::{FeedError, Receiver};
pub use shelf::{Readers, Shelf};
pub use sink::Sink;
pub use source::{Failed, Source, sees_end};
