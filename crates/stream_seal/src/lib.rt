//! A message that is sealed piece by piece, as its text comes.
//!
//! A `Sealer` holds one frame: it takes bytes of the text into a buffer, seals them there once the
//! frame is full and more bytes come, and hands the frame out as a slice of that buffer. The header
//! stands ready from the start, and `finish` gives the final frame. After the start no call answers
//! `Memory`. `feed` takes a whole piece, and hands each frame to a receiver; `finish_into` hands it
//! the final one. Standard: AWS Encryption SDK Specification, "Encrypt" and message body, "Framed
//! Data".
//!
//! `specs/Start.antt` says what a message begins with, `specs/Session.antt` what each call answers,
//! gives and leaves, and `specs/Stands.antt` which sealer is at which point of a session.
//! `specs/Laws.antt` says what follows: however the text is cut into pieces, what is given is the
//! message of that text. `specs/Feeding.antt` says what comes of a piece that is fed to its end, by
//! one step after another, and `specs/Receiving.antt` what of it a receiver takes.
#![tactic(auto)]

mod declared_length;
mod errors;
mod frame_buffer;
mod laws;
mod session;
mod start;

pub use errors::SealError;
pub use laws::{
    any_cut_gives_the_message, errors_come_exactly, fed_pieces_give_the_message,
    feeding_comes_to_its_end,
};
pub use session::Sealer;
