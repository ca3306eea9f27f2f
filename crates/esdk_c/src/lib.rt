//! The calls of `include/esdk.h`: a static library over `c_handle` and `c_session`. Each export
//! takes the session out of its handle, calls it, and puts it back.
#![tactic(auto)]

mod asking;
mod going;
mod ranging;
mod setting;
mod telling;
