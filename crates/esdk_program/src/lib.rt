//! The program: one call over its words and its objects, which `main` makes, and whose contract is
//! a function. What the program does is what that function of the words and of the world says, or
//! the run was disturbed; and what it leaves alone is said.
//!
//! The definitions stand in `specs/`: `World`, what there was when a run began; `Effect`, what a
//! run comes to; `Program`, one function for each command; `Keeps`, what is left alone, and what
//! that function doesn't say; `Laws`, what follows without an object. There is no code but a call
//! of `esdk_run::run`.
#![tactic(auto)]

mod laws;
mod program;

pub use laws::{
    a_range_is_of_the_content, what_is_resealed_comes_back, what_is_written_comes_back,
    what_opens_for_one_leaf,
};
pub use program::run_program;
