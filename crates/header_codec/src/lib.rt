//! The header of a message: it is read in pieces of any size, and judged field by field as each is
//! whole. Standard: AWS Encryption SDK, message header, "Structure" of versions 1.0 and 2.0.
//!
//! `specs/Table.antt` is the table of the fields with the faults M1 to M9 and M23 to M26,
//! `specs/Header.antt` says without a reader which bytes a header has.
#![tactic(auto)]

mod found;
mod header;
mod intake;
mod laws;
mod lock;
mod parts;
mod progress;
mod session;
mod settings;
mod table;
mod written;

pub use edk_codec::DataKeyEntry;
pub use found::{Found, header_in};
pub use header::Header;
pub use laws::{
    headers_are_judged_in_order, one_header_is_read, some_header_is_read, spelled_headers_are_read,
    the_first_offence_is_the_fault, written_headers_are_headers, written_headers_are_read,
};
pub use lock::HeaderLock;
pub use session::{HeaderReader, HeaderStep};
pub use settings::Settings;
pub use suite_table::Suite;
pub use written::{write_header, write_legacy_header};
