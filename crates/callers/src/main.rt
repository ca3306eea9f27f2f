//! Callers to copy: who takes the library finds here one short function for each of its uses.
//! `docs/CALLING.md` shows them.
//!
//! The program calls each of them once, and compares what comes of it with a message that another
//! implementation of the format made.
#![tactic(auto)]

mod auditing;
mod cached_manager;
mod extracting;
mod file_manager;
mod known;
mod opening;
mod own_keyring;
mod resealing;
mod sealing;
mod shown;
mod shown_files;
mod shown_resealing;

use std::io;

/// Prints of each caller whether it did what it is for.
fn main(rt: HostRuntime) -> io::Result<()> {
    let alloc = rt.alloc();
    let callers = [
        ("seal_pieces", shown::seals(alloc)),
        ("open_pieces", shown::opens(alloc)),
        ("reseal_pieces", shown_resealing::reseals(alloc)),
        (
            "reseal_pieces, another key",
            shown_resealing::rotates(alloc),
        ),
        (
            "reseal_pieces, a cut message",
            shown_resealing::reseals_a_front(alloc),
        ),
        ("CountedRing", shown::counts(alloc)),
        ("cached_manager", shown::caches(alloc)),
        ("file_manager", shown::reads_a_file(alloc)),
        ("extract_range", shown_files::extracts(alloc)),
        ("openers_of", shown_files::audits(alloc)),
    ];
    for (name, works) in &callers {
        println!(rt; "{name}: {works}")?;
    }
    Ok(())
}
