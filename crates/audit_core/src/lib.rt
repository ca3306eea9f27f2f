//! Which leaves of a tree of keyrings open which messages, so that it is known what rests on a
//! wrapping key before it is deleted.
//!
//! `specs/Openers.antt` says which leaves open a message and which messages a leaf is needed for,
//! `specs/Lines.antt` has the lines, to the byte, and `specs/Asking.antt` says what is known of
//! leaves that don't tell their keys. `specs/MessageFiles.antt` says how messages are taken from
//! files. `specs/Laws.antt` says what follows: who stands in a line unlocks the message by itself,
//! and what the tree without a leaf that is needed for none still opens.
#![tactic(auto)]

mod asking;
mod audited;
mod errors;
mod laws;
mod lines;
mod messages;

pub use asking::audit_one;
pub use audited::{Audited, Openers, all_opened};
pub use errors::AuditError;
pub use laws::{
    openers_unlock_by_themselves, trees_open_without_a_needless_leaf,
    unneeded_leaves_leave_openers, what_came_is_found, what_is_held_is_found, what_opens_is_named,
};
pub use lines::audit_text;
pub use messages::audit_messages;
