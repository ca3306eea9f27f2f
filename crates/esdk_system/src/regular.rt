//! Regular files, and what isn't one.

ghost use Rattle.std.specs.Prelude.{OnOk};
ghost use Rattle.std.specs.Fs.{IsFile, file_type};

use crate::identity::Identity;
use std::fs::{File, Metadata};
use std::io::{Error, ErrorKind};
use std::{fs, io};

/// Refuses what is no regular file, as a folder, a device, a named pipe or a socket.
pub(crate) fn require_regular(metadata: &Metadata) -> io::Result<()>
    ensures { OnOk result (IsFile (file_type metadata.now)) }
{
    if metadata.is_file() {
        Ok(())
    } else {
        Err(Error::from(ErrorKind::InvalidInput))
    }
}

/// Opens a regular file to be read, and says which it is.
///
/// The name is asked for first, since opening a named pipe waits until somebody writes to it, and
/// opening a device may change it; and then the open file, since the name may have changed between.
/// A named pipe that takes the name just between the look and the opening is waited for: no call
/// that there is here opens a file without waiting.
pub(crate) fn open_regular(rt: HostRuntime, name: &str) -> io::Result<(File, Identity)> {
    require_regular(&fs::metadata(&rt, name)?)?;
    let file = File::open(&rt, name)?;
    let metadata = file.metadata()?;
    require_regular(&metadata)?;
    Ok((file, Identity::of(&metadata)))
}
