//! The rights of files that are put in their places.

use esdk_base::Readers;
use std::fs::{File, Metadata};
use std::os::unix::fs::{MetadataExt, fchown};

/// The rights of a file that its owner alone reads and writes.
pub(crate) const OWNER: u32 = 0o600;

/// The rights of which the process takes away what its umask says.
pub(crate) const ANYONE: u32 = 0o666;

/// The part of a file's mode that says who reads and writes it.
const RIGHTS: u32 = 0o777;

/// The part of it that speaks of the owner.
const OF_OWNER: u32 = 0o700;

/// The part of it that speaks of all others, who neither are the owner nor in the group.
const OF_OTHERS: u32 = 0o007;

/// The rights that a file's mode says.
pub(crate) fn rights_of(metadata: &Metadata) -> u32 {
    metadata.mode() & RIGHTS
}

/// The rights of a file that takes the place of what stands there. It gets the group of that, where
/// the process may give it.
///
/// A message, which others may read, has the same rights, if it has the same group. Else, and for a
/// plaintext always, only those are handed on that the group and all others had alike. For what a
/// mode says of the group may be no right of the group's at all: of a file with an ACL it is the
/// most that the ACL gives the group and those whom it names, while the group, or the one that the
/// new file has, had nothing. No call that there is here tells an ACL.
pub(crate) fn rights_in_place_of(file: &File, stands: &Metadata, readers: Readers) -> u32 {
    let rights = rights_of(stands);
    let has_its_group = takes_group(file, stands.gid());
    match readers {
        Readers::Anyone if has_its_group => rights,
        Readers::Anyone | Readers::Owner => common_rights(rights),
    }
}

/// The owner's part of these rights, and for the group and all others what both have.
fn common_rights(rights: u32) -> u32 {
    let common = (rights >> 3) & rights & OF_OTHERS;
    (rights & OF_OWNER) | (common << 3) | common
}

/// Whether the file has this group, or has it now. There are file systems that take a change of the
/// group and leave it as it was, so the file is asked once more.
fn takes_group(file: &File, group: u32) -> bool {
    has_group(file, group) || (fchown(file, None, Some(group)).is_ok() && has_group(file, group))
}

/// Whether the file has this group.
fn has_group(file: &File, group: u32) -> bool {
    match file.metadata() {
        Ok(own) => own.gid() == group,
        Err(_) => false,
    }
}
