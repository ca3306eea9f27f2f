//! Data keys and wrapping keys; keyrings, which wrap and unwrap data keys; and cryptographic
//! materials managers, which give the materials of a message.
//!
//! The definitions stand in `specs/`: `Wrapping` says how a raw AES key wraps a data key,
//! `Unlocking` what a reader makes of a header, `Keyring` and `Manager` what keyrings and managers
//! mean and answer. A law is a function with an empty body, whose contract is the law.
#![tactic(auto)]

mod boxed;
mod data_keys;
mod journal;
mod keyring;
mod laws;
mod manager;
mod manager_errors;
mod materials;
mod requests;
mod ring_refusals;
mod served;
mod wrapped;

pub use data_keys::{DataKey, WrapKey};
pub use journal::{JournalLine, Kind};
pub use keyring::Keyring;
pub use laws::{
    drawn_bytes_are_ivs, none_is_unwrapped, only_wraps_are_unlocked, only_wraps_are_unwrapped,
    other_names_are_passed_over, other_namespaces_are_passed_over, stored_pairs_are_spelled,
    the_least_clashing_key_is_named, the_least_missing_key_is_named, the_wrapped_key_is_unwrapped,
    what_is_made_is_wrapped, what_was_stored_is_unlocked, wrapped_keys_come_back,
    wraps_are_unwrapped,
};
pub use manager::Manager;
pub use manager_errors::ManagerError;
pub use materials::{DecMaterials, EncMaterials};
pub use requests::{DecRequest, EncRequest};
pub use ring_refusals::{RingError, RingRefusal};
pub use served::Served;
pub use wrapped::Wrapped;
