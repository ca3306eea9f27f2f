//! The places in which files are put.

use crate::identity::{Identity, KnownFiles};
use crate::regular::require_regular;
use std::fs::Metadata;
use std::io::{Error, ErrorKind};
use std::path::{Path, PathBuf};
use std::{fs, io};

/// What leads to the files that standard output and standard error go to.
const OUTPUTS: [&str; 2] = ["/proc/self/fd/1", "/proc/self/fd/2"];

/// What stands in a place, in which another file may be put.
#[derive(Drop)]
pub(crate) enum Place {
    /// Nothing.
    Free,
    /// A regular file, that isn't known, to which neither standard output nor standard error goes,
    /// and that somebody may write.
    Taken(Metadata),
}

impl Place {
    /// What stands under this path, which follows no link at its end.
    ///
    /// Fails where no file may be put in the place of what stands there: it is no regular file, or
    /// is known, or standard output or standard error goes to it, or nobody may write it.
    pub(crate) fn of(rt: HostRuntime, known: &KnownFiles, path: &str) -> io::Result<Place> {
        Place::found(rt, known, fs::symlink_metadata(&rt, path))
    }

    /// The same, where this was found there.
    fn found(
        rt: HostRuntime,
        known: &KnownFiles,
        stands: io::Result<Metadata>,
    ) -> io::Result<Place> {
        match stands {
            Ok(stands) => {
                require_replaceable(rt, known, &stands)?;
                Ok(Place::Taken(stands))
            }
            Err(error) if error.kind() == ErrorKind::NotFound => Ok(Place::Free),
            Err(error) => Err(error),
        }
    }
}

/// Where the file is to stand that is written under this name: under the name itself, and where it
/// is a link, where that leads to. A link that leads to nothing is refused, and so are a place in
/// which no file may be put and a name that no file can have.
pub(crate) fn target_of(rt: HostRuntime, known: &KnownFiles, name: &str) -> io::Result<PathBuf> {
    require_file_name(name)?;
    match fs::symlink_metadata(&rt, name) {
        Ok(stands) if stands.is_symlink() => linked_target_of(rt, known, name),
        stands => {
            Place::found(rt, known, stands)?;
            Ok(PathBuf::from_str(rt.alloc(), name)?)
        }
    }
}

/// The same, of a link.
fn linked_target_of(rt: HostRuntime, known: &KnownFiles, link: &str) -> io::Result<PathBuf> {
    let target = fs::canonicalize(&rt, link)?;
    Place::of(rt, known, target.as_str())?;
    Ok(target)
}

/// Refuses a path that doesn't end in the name of a file: an empty one, and one that ends in `/`,
/// `.` or `..`.
fn require_file_name(path: &str) -> io::Result<()> {
    match Path::new(path).file_name() {
        Some(name) if path.ends_with(name) => Ok(()),
        Some(_) | None => Err(Error::from(ErrorKind::InvalidInput)),
    }
}

/// Refuses what no other file may be put in the place of.
fn require_replaceable(rt: HostRuntime, known: &KnownFiles, stands: &Metadata) -> io::Result<()> {
    require_regular(stands)?;
    let file = Identity::of(stands);
    if known.knows(file) || is_output(rt, file)? || stands.permissions().readonly() {
        return Err(Error::from(ErrorKind::PermissionDenied));
    }
    Ok(())
}

/// Whether standard output or standard error goes to this file.
///
/// Fails where the system doesn't tell, as without `/proc`: then no file is replaced. One that is
/// new is made all the same, since those two go to files that are there.
fn is_output(rt: HostRuntime, file: Identity) -> io::Result<bool> {
    for output in OUTPUTS {
        if Identity::of(&fs::metadata(&rt, output)?) == file {
            return Ok(true);
        }
    }
    Ok(false)
}
