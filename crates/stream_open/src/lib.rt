//! A message that is opened piece by piece, as its bytes come.
//!
//! An `Opener` takes the header and asks a cryptographic materials manager at its end. From then on
//! it holds one unit: it takes the unit's bytes into a buffer, opens them there once its tag is
//! found right, and hands the content out as a slice of that buffer. Nothing is handed out before
//! it is checked, and nothing is held back. Standard: AWS Encryption SDK Specification, "Decrypt".
//!
//! `specs/Session.antt` says what each call answers, gives and leaves, by the judgement of the
//! bytes taken; `specs/Asking.antt` what is heard of the manager, and `specs/Stands.antt` which
//! opener is at which point of a session. `specs/Laws.antt` says what follows: however a message is
//! cut into pieces, what is given at any moment is the content of the units that are whole by then.
//! `specs/Feeding.antt` says what a loop of steps comes to, `specs/Receiving.antt` what feeding a
//! whole piece into a receiver does, and `specs/OpenUnit.antt` how much is held.
#![tactic(auto)]

mod body;
mod errors;
mod laws;
mod receiving;
mod session;
mod unlocked;

pub use errors::OpenError;
pub use laws::{
    answers_are_kept, any_cut_gives_the_content, errors_come_exactly, less_than_a_unit_is_held,
    pieces_are_fed_as_one, pieces_are_fed_to_their_end,
};
pub use session::Opener;
