//! Messages as text: base64 in lines, as `--armour` writes and reads it.
//!
//! An `Armour` takes bytes and gives lines of 76 characters; an `Unarmour` takes text and gives the
//! bytes of each group of four characters, as soon as the group is whole. Neither takes memory. The
//! groups are those of the kit's `base64`, with its strict standard alphabet. Standard: RFC 4648,
//! section 4.
//!
//! `specs/ArmourText.antt` says what text bytes become, and `specs/Unarmoured.antt` what any text
//! gives; `specs/Armouring.antt` and `specs/Unarmouring.antt` say what each call answers, gives and
//! leaves, and `specs/Stands.antt` which object is at which point of a session. `specs/Laws.antt`
//! says what follows, however bytes and text are cut into pieces.
//!
//! What goes into an `ArmouredOutput` comes out of it as armour text, and an `UnarmouredSource` is
//! a source of the bytes that the text of another one gives: so whoever puts and reads bytes puts
//! and reads armour. `specs/ArmouredOutput.antt` says what a receiver gains then, and
//! `specs/Outlook.antt` what is to come of a text, and how it ends. Both work in vectors (`lines`,
//! `vectors`), on full lines and on the symbols of lines of any length, and only on the rest byte
//! by byte.
#![tactic(auto)]

mod armour;
mod base64_groups;
mod errors;
mod filling;
mod laws;
mod lines;
mod output;
mod reader;
mod source;
mod text_end;
mod unarmour;
mod vectors;
mod widths;

pub use armour::Armour;
pub use errors::ArmourError;
pub use laws::{any_cut_gives_the_armour, any_cut_gives_the_bytes, armour_is_read_back};
pub use output::ArmouredOutput;
pub use source::UnarmouredSource;
pub use text_end::TextEnd;
pub use unarmour::Unarmour;
