//! The materials manager that requires keys of every context: a reader has to give their pairs, as
//! the header doesn't store them.
//!
//! The definition stands in `specs/`: `RequiredCmm` says what the manager means to its callers.
#![tactic(auto)]

mod required_cmm;

pub use required_cmm::RequiredCmm;
