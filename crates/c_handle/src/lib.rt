//! What a caller of another language holds: a handle, with a session in it, or with none. A call
//! takes the session out of its handle, calls it, and puts it back.
#![tactic(auto)]

mod crossing;
mod handing;
mod handle;
mod held;
mod parts;
mod spanning;
mod taking;

pub use handing::{hand_out, no_session, silent_unless_done};
pub use handle::Handle;
pub use spanning::tell_span;
pub use taking::{NO_SESSION, give_back};
