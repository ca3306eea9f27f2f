//! A raw AES keyring whose wrapping key stands in a file of a shelf, which is read anew at each
//! call. AWS Encryption SDK Specification, "Raw AES Keyring".
//!
//! The definitions stand in `specs/`: `Reading` says what is read of the file, `Keydir` what the
//! keyring means to its callers, and `Answers` what a call answers, when it fails and what it
//! leaves.
#![tactic(auto)]

mod keydir;
mod keyring;
mod reading;

pub use keydir::KeydirKeyring;
