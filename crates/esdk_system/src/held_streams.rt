//! Standard streams that the program was started without.

ghost use Rattle.std.specs.Prelude.{All, pos, ◌≤ℤ◌};
ghost use Rattle.std.specs.Fd.{file_raw_fd};

use std::fs::File;
use std::io;
use std::os::fd::AsRawFd;

/// The greatest number of a standard stream, that of standard error.
const LAST_STREAM: i32 = 2;

/// What takes the numbers of the standard streams that are closed, so that no file that is opened
/// later gets one of them, and is then read or written as that stream.
///
/// The folder `/`, opened to be read, takes them: a read of it fails, as of a folder, and so does a
/// write, as of what isn't open for that. It is made before any other file is opened, and lives as
/// long as the streams are used.
#[derive(Drop)]
pub struct HeldStreams {
    held: Vec<File>,
    ghost streams: { All (λ file. file_raw_fd file ≤ℤ pos 2) held.items },
}

impl HeldStreams {
    /// Takes the numbers that are free. Where all three streams are open, it takes none.
    ///
    /// Fails where the folder can't be opened, and where memory runs out.
    pub fn new(rt: HostRuntime) -> io::Result<HeldStreams> {
        let mut held = Vec::new(rt.alloc());
        for _ in 0..=LAST_STREAM {
            let folder = File::open(&rt, "/")?;
            if folder.as_raw_fd() > LAST_STREAM {
                break;
            }
            held.push(folder)?;
        }
        Ok(HeldStreams { held })
    }
}
