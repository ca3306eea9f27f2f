//! Where a test may write files.

use std::alloc::AllocError;
use std::process;

/// A path of this process and test alone. The test takes away again what it makes there.
pub(crate) fn scratch_path(rt: HostRuntime, test: &str) -> Result<String, AllocError> {
    let id = process::id(rt.process());
    format!(in rt.alloc(); "/tmp/top_tests_{test}_{id}")
}
