//! The caching materials manager: it keeps the materials that another manager gives, and serves the
//! same request from them for a while.
//!
//! The definitions stand in `specs/`: `Names` is what a request is known by, `Ask` what a cache
//! answers, `Limits` and `Journal` what bounds the use of its entries, `CachingCmm` what the
//! manager means to its callers, `Holding` what it keeps of its entries, and `Laws` what is true of
//! whole runs. `Store` is the cache as the code keeps it, `Asked` says how an answer is the
//! cache's, and `Inner` what the inner manager comes to in a call.
#![tactic(auto)]

mod cache;
mod caching_cmm;
mod given;
mod kept;
mod laws;
mod limits;
mod names;
mod opening;
mod sealing;

pub use caching_cmm::CachingCmm;
pub use laws::{hits_give_what_was_made, names_are_compared_as_values};
pub use limits::CacheLimits;
