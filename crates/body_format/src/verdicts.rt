//! The verdict over a message.

use esdk_fields::Fault;

/// What is said of a message so far.
#[derive(Drop)]
pub enum Verdict {
    /// No fault stands, and the message isn't whole: more bytes are wanted.
    Going,
    /// The message is whole, and nothing follows it.
    Whole,
    /// The message has this fault.
    Faulty(Fault),
}
