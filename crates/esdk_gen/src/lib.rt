//! The program's self-test workload: a text that follows from a seed is sealed at a desk, and
//! opened at it again.
//!
//! `specs/Bytes.antt` has the bytes of a seed, `specs/Generator.antt` the message that is made of
//! them, and the one line that is told of it. `specs/Sealing.antt` and `specs/Opening.antt` say how
//! the desk stands while the message is sealed, and while it is opened.
#![tactic(auto)]

mod bytes;
mod laws;
mod line;
mod opening;
mod receivers;
mod sealing;
mod setting;
mod workload;

pub use laws::generated_messages_open;
pub use workload::gen_text;
