//! The units of a message body: frames and the single block.
//! Standard: AWS Encryption SDK Specification, message body.
//!
//! `specs/UnitHead.antt` and `specs/Unit.antt` say what reading a unit gives and which of its
//! fields has which fault; `specs/Written.antt` says what is written.
//!
//! To open a unit where it lies, fill a `UnitBuffer` as `judge_head` asks for more bytes, then up
//! to the end of the unit that it names, and call `UnitBuffer::open`: the content is lent once the
//! tag is found right. `specs/UnitBuffer.antt` says what the buffer holds and gives,
//! `specs/InPlace.antt` what a unit is read as by that.
#![tactic(auto)]

mod associated_data;
mod kinds;
mod laws;
mod message_id;
mod unit_buffer;
mod unit_heads;
mod written;

pub use associated_data::{UnitAad, unit_aad};
pub use kinds::UnitKind;
pub use laws::{
    associated_data_tells_units_apart, faulty_units_are_refused, heads_are_judged_by_rows,
    needed_bytes_decide, spelled_units_are_read, units_are_judged_in_order,
    units_are_read_in_place, units_have_their_sizes, written_units_are_read,
};
pub use message_id::MessageId;
pub use unit_buffer::UnitBuffer;
pub use unit_heads::{Head, UnitHead, judge_head};
pub use written::{final_head, number_after, regular_head, write_single};
