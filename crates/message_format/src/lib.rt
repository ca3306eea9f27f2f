//! A whole message: what is written of a text, and how any bytes are judged once it is answered
//! what unlocks them. Standard: AWS Encryption SDK Specification, "AWS Encryption SDK Message
//! Format".
//!
//! `specs/Message.antt` says what is written, `specs/Judgement.antt` how bytes are judged,
//! `specs/Reading.antt` how a reader that holds wrapping keys judges them. `specs/Laws.antt` says
//! it a second time, line by line, and what follows: a written message is whole and has its text, a
//! fault stays when bytes follow, and what was released is never taken back. The code is what
//! writing and reading share: the message's key, the header's tag, and what unlocks a header.
//!
//! `unlock` asks a materials manager about a header, and tries what it finds on the header's lock;
//! `specs/Unlocking.antt` says what that comes to. `unlocked_key` is the lock alone, for who has
//! the data key by other ways.
#![tactic(auto)]

mod laws;
mod locks;
mod unlock_errors;
mod unlocking;

pub use laws::{
    faults_stay, fronts_go_on, judgement_goes_line_by_line, legacy_messages_are_judged,
    released_units_stay, trailing_bytes_are_refused, unlocking_stays, whole_frames_are_released,
    written_messages_are_read, written_messages_are_whole,
};
pub use locks::{header_tag, message_key, unlocked_key};
pub use unlock_errors::UnlockError;
pub use unlocking::{Asked, Unlocked, materials_for, unlock, unlocked_by};
