//! Files that are written beside the place where they will stand.

use crate::identity::{Identity, KnownFiles};
use crate::named::{Named, NamedValues};
use crate::part_names::{PartNames, drawn_number};
use crate::places::{Place, target_of};
use crate::rights::{ANYONE, OWNER, rights_in_place_of, rights_of};
use esdk_base::Readers;
use esdk_fields::Text;
use std::alloc::AllocError;
use std::fs::{File, Metadata, OpenOptions, Permissions};
use std::io::{Error, ErrorKind, Write};
use std::os::unix::fs::{OpenOptionsExt, PermissionsExt};
use std::path::PathBuf;
use std::{fs, io};

/// How many names for a new file are tried at the most, where those before are taken.
const MOST_TRIES: u32 = 1000;

/// A file that isn't whole yet, and the place where it will stand.
#[derive(Drop)]
struct Part {
    target: PathBuf,
    path: PathBuf,
    file: File,
}

impl Part {
    /// What the open file is, if its name still leads to it.
    fn own_metadata(&self, rt: HostRuntime) -> io::Result<Metadata> {
        let own = self.file.metadata()?;
        let named = fs::symlink_metadata(&rt, &self.path)?;
        if Identity::of(&named) == Identity::of(&own) {
            Ok(own)
        } else {
            Err(Error::from(ErrorKind::NotFound))
        }
    }

    /// Takes the file away. What stands under its name in its place stays.
    fn discard(self, rt: HostRuntime) {
        if self.own_metadata(rt).is_ok() {
            let _removed = fs::remove_file(&rt, &self.path);
        }
    }
}

/// The files that aren't whole yet, each open under the name that it was made by.
///
/// A file is made new, beside the one whose place it takes: `create_new` follows no link and opens
/// nothing that is there. Nobody but its owner may open it before it is whole.
#[derive(Drop)]
pub(crate) struct Parts {
    rt: HostRuntime,
    underway: NamedValues<Part>,
    names: Option<PartNames>,
    rights_of_new: Option<Named<u32>>,
}

impl Parts {
    /// No file is underway.
    pub(crate) fn new(rt: HostRuntime) -> Parts {
        Parts {
            rt,
            underway: NamedValues::new(rt.alloc()),
            names: None,
            rights_of_new: None,
        }
    }

    /// Makes an empty file beside the place that the name leads to. One that is underway under this
    /// name is taken away.
    pub(crate) fn create(&mut self, known: &KnownFiles, name: &str) -> io::Result<()> {
        if let Some(earlier) = self.underway.take(name) {
            earlier.value.discard(self.rt);
        }
        let target = target_of(self.rt, known, name)?;
        let name = Text::new(self.rt.alloc(), name)?;
        let (path, file) = self.new_file(&target, OWNER)?;
        let value = Part { target, path, file };
        self.keep(Named { name, value })
    }

    /// Appends to the file that is underway under this name. Where that fails, the file is taken
    /// away.
    pub(crate) fn append(&mut self, name: &str, bytes: &[u8]) -> io::Result<()> {
        let Some(mut part) = self.underway.take(name) else {
            return Err(Error::from(ErrorKind::NotFound));
        };
        if let Err(error) = part.value.file.write_all(bytes) {
            part.value.discard(self.rt);
            return Err(error);
        }
        self.keep(part)
    }

    /// Puts the file that is underway under this name in its place, and makes it known. Where none
    /// is, there is nothing to do. Where that fails, the file is taken away, and what stands in the
    /// place stays.
    pub(crate) fn finish(
        &mut self,
        known: &mut KnownFiles,
        name: &str,
        readers: Readers,
    ) -> io::Result<()> {
        let Some(part) = self.underway.take(name) else {
            return Ok(());
        };
        let placed = self.put_in_place(known, &part.value, readers);
        if placed.is_err() {
            part.value.discard(self.rt);
        }
        placed
    }

    /// Takes all files away that are underway.
    pub(crate) fn discard_all(&mut self) {
        while let Some(part) = self.underway.take_first() {
            part.value.discard(self.rt);
        }
    }

    /// Renames a whole file over what stands in its place.
    fn put_in_place(
        &mut self,
        known: &mut KnownFiles,
        part: &Part,
        readers: Readers,
    ) -> io::Result<()> {
        let rights = match Place::of(self.rt, known, part.target.as_str())? {
            Place::Taken(stands) => rights_in_place_of(&part.file, &stands, readers),
            Place::Free => self.rights_for(readers, &part.target)?,
        };
        let own = part.own_metadata(self.rt)?;
        if rights_of(&own) != rights {
            part.file.set_permissions(Permissions::from_mode(rights))?;
        }
        known.remember(Identity::of(&own))?;
        fs::rename(&self.rt, &part.path, &part.target)
    }

    /// Keeps a file underway. Where memory runs out, it is taken away.
    fn keep(&mut self, part: Named<Part>) -> io::Result<()> {
        match self.underway.keep(part) {
            Ok(()) => Ok(()),
            Err(failed) => {
                failed.value.value.discard(self.rt);
                Err(Error::from(ErrorKind::OutOfMemory))
            }
        }
    }

    /// The rights of a file in whose place none stood, for these readers.
    fn rights_for(&mut self, readers: Readers, target: &PathBuf) -> io::Result<u32> {
        match readers {
            Readers::Owner => Ok(OWNER),
            Readers::Anyone => self.rights_of_new(target),
        }
    }

    /// The rights that the system gives a new file of this process in the folder of this path. A
    /// file of its own, which is made there and taken away at once, tells them: nothing is written
    /// to it, since others may open it. What one folder told last is kept. Where that file can't be
    /// taken away, it is left, empty, and this fails.
    fn rights_of_new(&mut self, target: &PathBuf) -> io::Result<u32> {
        let folder = target.parent().map_or("", |folder| folder.as_str());
        if let Some(told) = &self.rights_of_new {
            if told.name.as_str() == folder {
                return Ok(told.value);
            }
        }
        let (path, file) = self.new_file(target, ANYONE)?;
        let metadata = file.metadata();
        fs::remove_file(&self.rt, &path)?;
        let value = rights_of(&metadata?);
        let name = Text::new(self.rt.alloc(), folder)?;
        self.rights_of_new = Some(Named { name, value });
        Ok(value)
    }

    /// Makes a new file beside a path, with at most these rights.
    fn new_file(&mut self, beside: &PathBuf, rights: u32) -> io::Result<(PathBuf, File)> {
        let mut options = OpenOptions::new();
        options.write(true).create_new(true).mode(rights);
        for _ in 0..MOST_TRIES {
            let path = self.next_beside(beside.as_str())?;
            match options.open(&self.rt, &path) {
                Ok(file) => return Ok((path, file)),
                Err(error) if error.kind() == ErrorKind::AlreadyExists => {}
                Err(error) => return Err(error),
            }
        }
        Err(Error::from(ErrorKind::AlreadyExists))
    }

    /// The next name for a new file, in the folder in which this path lies. The number of the first
    /// is drawn.
    fn next_beside(&mut self, path: &str) -> Result<PathBuf, AllocError> {
        let mut names = match self.names.take() {
            Some(names) => names,
            None => PartNames::new(self.rt, drawn_number(self.rt)),
        };
        let beside = names.next_beside(path);
        self.names = Some(names);
        beside
    }
}
