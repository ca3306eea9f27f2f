//! Encryption of an input with the materials of a manager.
//!
//! `encrypt` draws a message id and what the manager makes a data key and its wraps of, asks the
//! manager for materials, and writes the message as the input comes: the header first, then each
//! frame once it is full. It holds one frame, one piece of the input and what that gives. Standard:
//! AWS Encryption SDK Specification, "Encrypt".
//!
//! `specs/Encrypt.antt` says over any manager what the message is, why a run ends, and what is
//! written then; `specs/Told.antt` says it over a manager that is exact and plain and tells its
//! keys: there the message is determined by the request, the keys and the bytes drawn.
//! `specs/Laws.antt` says what follows: an input that fits is encrypted unless memory runs out or
//! something outside fails, over bytes that are told the output has gained their message, and where
//! a run ends early, a front of it. `specs/Gaining.antt` says what an output gains, a receiver or a
//! sink; `specs/Writing.antt` how the text comes to a sealer, and `specs/Asking.antt` what asking
//! the manager comes to, which serves one message once.
#![tactic(auto)]

mod beginning;
mod draws;
mod encryption;
mod errors;
mod laws;
mod materials;
mod options;
mod writing;

pub use draws::{Draws, MOST_DRAWN, draw};
pub use encryption::encrypt;
pub use errors::EncryptError;
pub use laws::{
    a_sink_gains_what_it_takes, all_frames_but_the_last_are_written, an_early_end_leaves_a_front,
    the_output_gains_the_message, what_fits_is_encrypted,
};
pub use options::EncryptOptions;
