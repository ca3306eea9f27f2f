//! Many messages at once: sessions side by side over one materials manager, in one thread, in
//! turns.
//!
//! A `Desk` holds sessions by their numbers, each a `Sealer` or an `Opener`, and asks its manager
//! for each of them. It is proved for every order of calls that no session is handed what belongs
//! to another, that the journal has one line for each of the manager's answers, and that the
//! manager bears it, so that no cached key is served beyond its limits. Standard: AWS Encryption
//! SDK Specification, "Encrypt" and "Decrypt", of which each session is one.
//!
//! `specs/Session.antt` says what each call makes of its session, by that session's worth alone;
//! `specs/Desk.antt` what it makes of the desk, and what a list of calls hands to each session;
//! `specs/Stands.antt` which desk is worth what; `specs/Calls.antt` what the manager may say in a
//! call; `specs/Receiving.antt` what a whole piece that is fed, or a session's end, hands to a
//! receiver. `specs/Laws.antt` says what follows.
#![tactic(auto)]

mod beginning;
mod errors;
mod laws;
mod live_sessions;
mod receiving;
mod seal_request;
mod session;
mod steps;

pub use errors::DeskError;
pub use keyring_trait::{JournalLine, Kind};
pub use laws::{
    messages_are_unlocked_by_their_own, sessions_are_fed_as_their_machines, sessions_stand_apart,
};
pub use live_sessions::Desk;
pub use seal_request::SealRequest;
