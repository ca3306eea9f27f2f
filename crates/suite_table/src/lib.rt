//! The algorithm suites of the format, and what each derives from a data key.
//! Standard: AWS Encryption SDK Specification, "Supported algorithm suites".
#![tactic(auto)]

mod keys;
mod laws;
mod suite;

pub use keys::{CommittedKeys, commitment, committed_keys, derived};
pub use laws::{
    commitment_bytes, commitment_length, derived_bytes, derived_length, suites_are_found_by_id,
};
pub use suite::{Suite, ZERO_IV, suite_of};
