//! The tests of the library's calls that no data of a program of cases shows: calls over real
//! objects, as files, streams of std, generators and the system's clock; a desk by its calls; each
//! step of a sealer and of an opener, and what they answer behind an error; and calls that no words
//! of the program reach. The crates of these calls have no tests of their own, and so each is
//! proved once.
//!
//! The proof of a function grows with its calls, and a table costs little. So calls in a row stand
//! in a table, as a `static`, with what each has to come to, and one loop makes them.
#![tactic(auto)]

#[cfg(test)]
mod asking;
#[cfg(test)]
mod base_files;
#[cfg(test)]
mod base_generators;
#[cfg(test)]
mod base_memory;
#[cfg(test)]
mod base_streams;
#[cfg(test)]
mod caching;
#[cfg(test)]
mod desk;
#[cfg(test)]
mod file_keyrings;
#[cfg(test)]
mod headers;
#[cfg(test)]
mod keyrings;
#[cfg(test)]
mod known_message;
#[cfg(test)]
mod known_wraps;
#[cfg(test)]
mod managers;
#[cfg(test)]
mod opening;
#[cfg(test)]
mod recalling;
#[cfg(test)]
mod scratch_path;
#[cfg(test)]
mod sealing;
#[cfg(test)]
mod shelf_steps;
