//! A message that is opened and sealed anew, in one stream.
//!
//! A `Resealer` is an opener whose units go into a sealer: it holds one unit of the old message and
//! one frame of the new one. Once the old message is unlocked, the new one is begun, under other
//! keys, over the same whole context; the pairs that were only authenticated are required of its
//! reader. `reseal` is the loop over a source and a sink. Standard: AWS Encryption SDK
//! Specification, "Decrypt" and "Encrypt".
//!
//! `specs/Front.antt` says what is written of the new message, `specs/Session.antt` what a session
//! is worth, `specs/Stands.antt` which resealer stands for it and what each call comes to.
//! `specs/Reseal.antt` says what resealing an input comes to over any managers, and
//! `specs/Told.antt` over managers that tell their keys, and `specs/Laws.antt` what follows where
//! the input tells its bytes: which inputs are resealed, and who reads what they are resealed to.
#![tactic(auto)]

mod errors;
mod input;
mod laws;
mod new_message;
mod resealer;

pub use errors::{InputError, ResealError};
pub use input::{ResealOptions, reseal};
pub use laws::{
    a_front_is_no_message, random_bytes_are_kept, the_first_fault_is_named,
    whole_inputs_are_resealed, written_messages_are_rotated,
};
pub use resealer::Resealer;
