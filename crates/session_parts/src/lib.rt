//! The parts of a session that need no session: bytes that wait until a caller has room for them,
//! bytes of a message that a caller hands over, limits that are given as numbers, an opener whose
//! contents wait, the keys that a manager requires, an end and its reason, and the frames that hold
//! a range.
#![tactic(auto)]

mod ending;
mod frames;
mod handed_bytes;
mod keys;
mod limits;
mod opening;
mod waiting;

pub use ending::end_for;
pub use frames::frames_of;
pub use handed_bytes::{HandedBytes, left_at};
pub use keys::requiring;
pub use limits::{keys_limit, settings};
pub use opening::open_piece;
pub use waiting::Waiting;
