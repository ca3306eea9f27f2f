//! The body of a message: its units one after another, and what is said of any bytes that are to be
//! one. Standard: AWS Encryption SDK Specification, message body.
//!
//! `specs/Body.antt` says how any bytes are judged, over the units' readers of `frame_codec`;
//! `specs/Table.antt` says it a second time by the fields alone; `specs/OneSlot.antt` says what one
//! slot, read alone, says of the whole; `specs/Written.antt` says how a text is written in frames.
//! The crate has no code but laws about these.
#![tactic(auto)]

mod laws;
mod verdicts;

pub use laws::{
    bodies_are_judged_by_the_table, faults_stay, fronts_go_on, released_units_stay,
    slots_are_read_alone, trailing_bytes_are_refused, whole_frames_are_released,
    written_bodies_are_whole,
};
pub use verdicts::Verdict;
