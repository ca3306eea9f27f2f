//! Files that are read.

ghost use Rattle.std.specs.Prelude.{◌≤◌, length};
ghost use Rattle.std.specs.Io.{ReadsAtMost};

use crate::identity::{Identity, KnownFiles};
use crate::interrupts::read_file_at;
use crate::named::{Named, NamedValues};
use crate::regular::open_regular;
use esdk_fields::Text;
use std::fs::File;
use std::io;
use std::io::{Error, ErrorKind};

/// How many files are open at the most: as many as a batch has jobs side by side.
const MOST_OPEN: usize = 64;

/// A file that is open, and how many readers go on with it.
#[derive(Drop)]
struct OpenFile {
    file: File,
    identity: Identity,
    readers: u64,
}

/// Files that are read, each from its front on. A file stays open until each of its readers saw its
/// end, or 64 others were used since it was.
#[derive(Drop)]
pub(crate) struct ReadFiles {
    rt: HostRuntime,
    files: NamedValues<OpenFile>,
    ghost few: { length files.values.items ≤ 64 },
}

impl ReadFiles {
    /// No file is open.
    pub(crate) fn new(rt: HostRuntime) -> ReadFiles {
        ReadFiles {
            rt,
            files: NamedValues::new(rt.alloc()),
        }
    }

    /// Reads from the offset of the file on, once. A read from the front is that of a new reader:
    /// it opens the file that has the name then, which is known from there on. Every other goes on
    /// with that file: where it isn't open any more, the read fails.
    pub(crate) fn read(
        &mut self,
        known: &mut KnownFiles,
        name: &str,
        at: u64,
        out: &mut [u8],
    ) -> io::Result<usize>
        ensures { ReadsAtMost result out.new }
    {
        let open = if at == 0 {
            self.open(known, name)?
        } else {
            self.files
                .take(name)
                .ok_or(Error::from(ErrorKind::NotFound))?
        };
        let read = read_file_at(&open.value.file, out, at);
        let is_last = match &read {
            Ok(count) => *count == 0 && !out.is_empty(),
            Err(_) => true,
        };
        self.go_on(open, is_last)?;
        read
    }

    /// Opens the regular file that has the name now, and makes it known. Where it is open under
    /// this name, it has one reader more. Where another file is, which lost the name while it is
    /// read, there is no telling its readers from new ones, and the name is refused.
    fn open(&mut self, known: &mut KnownFiles, name: &str) -> io::Result<Named<OpenFile>> {
        let (file, identity) = open_regular(self.rt, name)?;
        known.remember(identity)?;
        let Some(mut open) = self.files.take(name) else {
            return self.first_reader(name, file, identity);
        };
        if open.value.identity == identity {
            open.value.readers = open.value.readers.saturating_add(1);
            return Ok(open);
        }
        self.keep(open)?;
        Err(Error::from(ErrorKind::ResourceBusy))
    }

    /// A file with its first reader.
    fn first_reader(
        &self,
        name: &str,
        file: File,
        identity: Identity,
    ) -> io::Result<Named<OpenFile>> {
        Ok(Named {
            name: Text::new(self.rt.alloc(), name)?,
            value: OpenFile {
                file,
                identity,
                readers: 1,
            },
        })
    }

    /// Keeps a file open while a reader goes on with it. The one at hand doesn't where this was its
    /// last read.
    fn go_on(&mut self, mut open: Named<OpenFile>, is_last: bool) -> io::Result<()> {
        if is_last {
            open.value.readers = open.value.readers.saturating_sub(1);
        }
        if open.value.readers == 0 {
            return Ok(());
        }
        self.keep(open)
    }

    /// Keeps a file open, as the one that was used last.
    fn keep(&mut self, open: Named<OpenFile>) -> io::Result<()> {
        if self.files.len() >= MOST_OPEN {
            let _closed = self.files.take_first();
        }
        self.files.keep(open)?;
        Ok(())
    }
}
