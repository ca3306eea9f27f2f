//! An output that gathers the bytes that go to it, and hands them on by few calls.
//!
//! A machine gives what comes of a piece of its input part by part, frame by frame. What takes each
//! part by a call of the system pays for each call. A `Gathering` is a receiver before another
//! receiver: it holds what it takes, as far as there is room, and `hand_on` hands all of it on by
//! one call, before more is read.
//!
//! `specs/Gathering.antt` says what the other receiver gains, and what is held; no byte is lost,
//! given twice or moved before another. `specs/GatheringLaws.antt` says that a `Gathering` keeps
//! the laws of receivers.
#![tactic(auto)]

mod gathered;
mod gathering;

pub use gathered::GatheredBytes;
pub use gathering::Gathering;
