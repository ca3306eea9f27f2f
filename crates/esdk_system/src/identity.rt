//! Which file of the system a name stands for.

ghost use Rattle.std.specs.Prelude.{◌≡◌, ◌⊎◌, ◌↔◌, [], Contains, IsTrue, OnErr, OnOk};
ghost use Rattle.esdk_system.specs.KnownFiles.{IsKnown};

use std::alloc::{AllocError, Global};
use std::collections::BTreeSet;
use std::fs::Metadata;
use std::os::unix::fs::MetadataExt;

/// What tells a file from all others that are there at the same time: its device, and its number
/// on that device. All names and links of one file lead to the same.
#[derive(Clone, Copy, PartialEq, Eq)]
pub(crate) struct Identity {
    device: u64,
    inode: u64,
}

impl Identity {
    /// Whose metadata these are.
    pub(crate) fn of(metadata: &Metadata) -> Identity {
        Identity {
            device: metadata.dev(),
            inode: metadata.ino(),
        }
    }
}

/// Files that are known: in the place of none of them another one may be put.
#[derive(Drop)]
pub(crate) struct KnownFiles {
    files: BTreeSet<(u64, u64)>,
}

impl KnownFiles {
    /// None.
    pub(crate) fn new(alloc: Global) -> KnownFiles
        ensures { result.files.keys ≡ [] }
    {
        KnownFiles {
            files: BTreeSet::new(alloc),
        }
    }

    /// Whether this file is known.
    pub(crate) fn knows(&self, file: Identity) -> bool
        ensures { IsTrue result ↔ IsKnown self.now file }
    {
        self.files.contains(&(file.device, file.inode))
    }

    /// Makes this file known, and no other one. Where memory runs out, all stay as they were.
    pub(crate) fn remember(&mut self, file: Identity) -> Result<(), AllocError>
        ensures ok { (other : Identity)
            → OnOk result (IsKnown self.new other ↔ (IsKnown self.old other ⊎ (other ≡ file))) }
        ensures err { OnErr result (self.new.files.keys ≡ self.old.files.keys) }
    {
        self.files.insert((file.device, file.inode))?;
        Ok(())
    }
}
