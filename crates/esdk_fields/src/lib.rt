//! The small types that every format of the library is made of: texts, blobs of bytes, the cursor
//! that reads fields, the faults that a message can have. `specs/` says what reading fields in
//! order means; the formats are written in its words.
#![tactic(auto)]

mod arrays;
mod blobs;
mod contents;
mod cursors;
mod faults;
mod fields;
mod laws;
mod limits;
mod names;
mod refusals;
mod shown;
mod stops;
mod texts;

pub use arrays::array_of;
pub use blobs::{Blob, put_sized, put_u16, put_u32, put_u64};
pub use contents::Content;
pub use cursors::Cursor;
pub use faults::{ContextFault, Fault};
pub use fields::{bytes_of, sized_of, u8_of, u16_of, u32_of, u64_of};
pub use laws::{fields_come_in_order, judgement_stands, numbers_are_read_back};
pub use limits::is_over;
pub use refusals::{FieldError, FileRefusal, Outside, Refusal};
pub use stops::{Stop, refused};
pub use texts::Text;
