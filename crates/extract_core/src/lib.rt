//! A range of a message's content, extracted by the slots that hold it.
//!
//! `extract` takes a message's header from a file of a shelf, unlocks it with a materials manager,
//! and then reads the slots that hold the range, each at its own offset of the file. Each is opened
//! where it lies, and what it has of the range is written before the next one is read. What stands
//! before the first of these slots isn't read, and neither is what stands behind the last of them,
//! or behind the one that ends it: a final frame's, or one that has a fault.
//! Standard: AWS Encryption SDK Specification, message body, "Framed Data" and "Nonframed Data".
//!
//! `specs/Extracted.antt` says what an extraction comes to, by the bytes of the message;
//! `specs/Extract.antt` what the call does, and how much of the file it reads. `specs/Slots.antt`
//! says what is so within the loop.
#![tactic(auto)]

mod errors;
mod extraction;
mod laws;
mod read_ahead;
mod slots;

pub use errors::ExtractError;
pub use extraction::extract;
pub use laws::extractions_are_of_the_content;
