//! One message at a time, sealed, opened or resealed by a caller who holds nothing but bytes: what
//! a program in another language holds of this library.
#![tactic(auto)]

mod answer;
mod asking;
mod beginning;
mod crossing;
mod file_session;
mod file_tree;
mod front;
mod gathered;
mod machine;
mod message_shelf;
mod new_keys;
mod no_range;
mod opening;
mod placing;
mod ranging;
mod reason;
mod resealing;
mod sealing;
mod session;
mod span;
mod telling;
mod tray;

pub use answer::Answer;
pub use asking::NoAnswer;
pub use file_session::FileSession;
pub use front::front_text;
pub use no_range::NoRange;
pub use reason::Reason;
pub use session::Session;
pub use session_parts::{HandedBytes, Waiting, keys_limit, settings};
pub use span::{Span, front_span};
pub use telling::{show, show_numbers};
