//! The default cryptographic materials manager, which asks one keyring for the data keys, and the
//! manager that was handed over in a box; and what is judged of a header's pairs before any keyring
//! is asked.
//!
//! The definitions stand in `specs/`: `DefaultCmm` says what the default manager means to its
//! callers, `Steps` what its steps answer.
#![tactic(auto)]

mod decrypting;
mod default_cmm;
mod encrypting;
mod handed_cmm;

pub use decrypting::joined;
pub use default_cmm::DefaultCmm;
pub use handed_cmm::{Handed, HandedCmm};
