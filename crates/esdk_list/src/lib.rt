//! The command `list`: the header of a message, as lines of text. `specs/Listing.antt` has the
//! lines, `specs/List.antt` what `list` makes of its input.
#![tactic(auto)]

mod command;
mod listing;

pub use command::list;
pub use listing::list_text;
