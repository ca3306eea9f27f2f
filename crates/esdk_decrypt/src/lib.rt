//! Decryption of an input with the materials of a manager.
//!
//! `decrypt` reads its input piece by piece, feeds each piece to an opener to its end, and writes
//! what it releases before more is read. It says why the input is no whole message, where it isn't
//! one. It holds one unit, one piece and what that releases. Standard: AWS Encryption SDK
//! Specification, "Decrypt".
//!
//! `specs/Decrypt.antt` says what a decryption comes to, by the judgement of all the bytes taken;
//! `specs/Told.antt` and `specs/Laws.antt` what follows where the manager tells its keys and the
//! input its bytes; `specs/Underway.antt` what is so at each moment of the loop.
#![tactic(auto)]

mod decryption;
mod errors;
mod laws;

pub use decryption::decrypt;
pub use errors::DecryptError;
pub use laws::{
    the_first_fault_is_named, whole_inputs_are_decrypted, written_messages_are_decrypted,
};
