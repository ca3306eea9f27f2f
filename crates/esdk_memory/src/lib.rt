//! The outside in memory: sources, sinks, shelves, entropies and clocks that tell everything, and
//! whose calls fail where it was planned.
#![tactic(auto)]

mod call_plan;
mod fronts;
mod list_clock;
mod list_entropy;
mod mem_file;
mod mem_files;
mod mem_shelf;
mod mem_sink;
mod mem_source;

pub use list_clock::ListClock;
pub use list_entropy::ListEntropy;
pub use mem_shelf::MemShelf;
pub use mem_sink::MemSink;
pub use mem_source::MemSource;
