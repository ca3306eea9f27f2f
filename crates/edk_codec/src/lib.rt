//! Encrypted data keys of a message header: one entry for each wrapping key, and the information
//! that a raw AES keyring writes into its entry. Standard: AWS Encryption SDK, message header,
//! "Encrypted Data Keys"; raw AES keyring, "Key Provider Information".
#![tactic(auto)]

mod entries;
mod laws;
mod raw_infos;
mod reading;
mod writing;

pub use entries::{DataKeyEntry, copied_entries};
pub use laws::{an_entry_is_never_refused, read_entry_is_written, written_entry_is_read};
pub use raw_infos::{info_parts, raw_info};
pub use reading::read_entry;
pub use writing::write_entry;
