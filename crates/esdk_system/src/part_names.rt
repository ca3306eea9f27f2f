//! The names of files that aren't whole yet.

ghost use Rattle.std.specs.Prelude.{◌≡◌, ◌++◌, ◌<◌, ◌^◌, IfOk, codes, string_bytes};
ghost use Rattle.std.specs.Fmt.{decimal};
ghost use Rattle.std.specs.Path.{path_buf_bytes, path_with_file_name};
ghost use Rattle.esdk_system.specs.PartNames.{part_name};

use std::alloc::{AllocError, Global};
use std::hash::{BuildHasher, Hasher, RandomState};
use std::path::{Path, PathBuf};
use std::process;

/// Names for the files that one process makes: `.esdk-PID-N.part`, with the number of the process,
/// and N that counts up from some number on.
#[derive(Drop)]
pub(crate) struct PartNames {
    alloc: Global,
    process: u32,
    next: u64,
}

impl PartNames {
    /// The names of this process, from this number on.
    pub(crate) fn new(rt: HostRuntime, first: u64) -> PartNames
        ensures { result.next ≡ first }
    {
        PartNames {
            alloc: rt.alloc(),
            process: process::id(rt.process()),
            next: first,
        }
    }

    /// The next name, in the folder in which this path lies.
    pub(crate) fn next_beside(&mut self, path: &str) -> Result<PathBuf, AllocError>
        ensures { IfOk result (λ beside. path_buf_bytes beside
            ≡ path_with_file_name path.now (part_name self.old.process self.old.next)) }
    {
        let name = part_name(self.alloc, self.process, self.next)?;
        self.next = self.next.saturating_add(1);
        Path::new(path).with_file_name(self.alloc, name.as_str())
    }
}

/// A number to count up from, which the system draws: in a container each process may have the same
/// number, and the files that killed ones left are no hindrance then. Where it draws none, it is 0.
pub(crate) fn drawn_number(rt: HostRuntime) -> u64
    ensures { result < 2 ^ 48 }
{
    match RandomState::new(&rt) {
        Ok(state) => state.build_hasher().finish() >> 16,
        Err(_) => 0,
    }
}

/// The name of a file that isn't whole yet.
fn part_name(alloc: Global, process: u32, number: u64) -> Result<String, AllocError>
    ensures { IfOk result (λ name. string_bytes name ≡ part_name process number) }
{
    format!(in alloc; ".esdk-{process}-{number}.part")
}
