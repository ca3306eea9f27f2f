//! The files of the system as a shelf.

ghost use Rattle.std.specs.Prelude.{◌≡◌, ◌≤◌, [], ◌∷◌, ◌++◌, None, OnErr, OnOk};
ghost use Rattle.esdk_fields.specs.Counts.{HasCause, Rose};
ghost use Rattle.esdk_seen.specs.Told.{call_of};

use crate::identity::{Identity, KnownFiles};
use crate::parts::Parts;
use crate::read_files::ReadFiles;
use esdk_base::{Failed, Readers, Shelf};
use esdk_seen::{Call, SeenCalls};
use std::alloc::AllocError;
use std::marker::Model;
use std::{fs, io};

/// A shelf over the files of the system. A name is a path, as the user gave it. It tells what its
/// calls read and wrote, and not what the files hold.
///
/// Only regular files are read and written. A read from a file's front opens the file that has the
/// name then, and the reads behind it go on with that file, whatever becomes of the name. At most
/// 64 files are open for reading at a time, beside those that are written, each until it is in its
/// place; one that was closed for others is read no further. A name that was given to another file
/// meanwhile has no new readers until those of the first have ended.
///
/// What is written under a name is a new file in the same folder, `.esdk-PID-N.part`, that only its
/// owner may open. Until `finish` renames it, what stands under the name stays, and is what is read
/// there; a process that is killed leaves such files and nothing else. A link is followed once, by
/// `create`. One that leads to nothing is refused, and so is a name that no file can have.
///
/// Where nothing stood there, a file for its owner has mode 600, and another the mode that the
/// process's new files get in its folder. What stood there lends the new file its group, where that
/// can be given, and its rights: those that its group alone had only to a file for anyone that has
/// the same group. For a mode may say of the group what an ACL gives others, and no ACL is seen
/// here. Its owner, its ACL and its other names aren't taken over.
///
/// Nothing is put in the place of a file that was read or announced, that this shelf put in its
/// place, that standard output or standard error goes to, or that nobody may write. Where the
/// system doesn't tell what those two go to, nothing is replaced.
///
/// The system may tell only behind `finish` that it couldn't keep what was written, when a file is
/// closed or later: neither is seen here.
#[derive(Drop)]
pub struct FileShelf {
    rt: HostRuntime,
    read: ReadFiles,
    parts: Parts,
    known: KnownFiles,
    given: u64,
    faults: u64,
    calls: SeenCalls,
}

impl Model for FileShelf {
    ghost use Rattle.esdk_system.specs.FileShelf.{FileShelfState};
    ghost use Rattle.esdk_seen.specs.Calls.{calls_code};
    ghost use Rattle.std.specs.Coded.{codes};

    ghost Value = { FileShelfState };

    ghost coded = { Prim.hlevel (codes, calls_code) };

    ghost view = { λ s. record { given = s.given; faults = s.faults; calls = s.calls.calls } };
}

impl FileShelf {
    /// A shelf that has given nothing and not failed.
    pub fn new(rt: HostRuntime) -> FileShelf
        ensures { result ≡ record { given = 0; faults = 0; calls = [] } }
    {
        FileShelf {
            rt,
            read: ReadFiles::new(rt),
            parts: Parts::new(rt),
            known: KnownFiles::new(rt.alloc()),
            given: 0,
            faults: 0,
            calls: SeenCalls::new(),
        }
    }

    /// Takes away what was written and not finished.
    pub fn remove_unfinished(&mut self)
        ensures { self.new ≡ self.old }
    {
        self.parts.discard_all();
    }

    /// Counts a fault.
    fn fault(&mut self) -> Failed
        ensures given { self.new.given ≡ self.old.given }
        ensures calls { self.new.calls ≡ self.old.calls }
        ensures later { self.old.faults ≤ self.new.faults }
        ensures rose { Rose self.old.faults self.new.faults }
    {
        self.faults = self.faults.saturating_add(1);
        Failed
    }

    /// Notes the call where it didn't fail, and counts a fault where it did.
    fn note(&mut self, ended: io::Result<()>, call: &Call<'_>) -> Result<(), Failed>
        ensures given { self.new.given ≡ self.old.given }
        ensures cause { HasCause self.old.faults self.new.faults result }
        ensures noted { OnOk result (self.new.calls ≡ self.old.calls ++ call_of call.now ∷ []) }
        ensures not_noted { OnErr result (self.new.calls ≡ self.old.calls) }
    {
        match ended {
            Ok(()) => {
                self.calls.see(call);
                Ok(())
            }
            Err(_) => Err(self.fault()),
        }
    }
}

impl Shelf for FileShelf {
    ghost state = { λ s. record {
      files = None;
      given = s.given;
      faults = s.faults;
      calls = s.calls;
    } };

    fn read_at(&mut self, name: &str, at: u64, out: &mut [u8]) -> Result<usize, Failed> {
        match self.read.read(&mut self.known, name, at, out) {
            Ok(count) => {
                self.given = self.given.saturating_add(count as u64);
                self.calls.see(&Call::Read(name, at, &out[..count]));
                Ok(count)
            }
            Err(_) => Err(self.fault()),
        }
    }

    fn create(&mut self, name: &str) -> Result<(), Failed> {
        let created = self.parts.create(&self.known, name);
        self.note(created, &Call::Create(name))
    }

    fn append(&mut self, name: &str, bytes: &[u8]) -> Result<(), Failed> {
        let appended = self.parts.append(name, bytes);
        self.note(appended, &Call::Append(name, bytes))
    }

    fn will_read(&mut self, name: &str) -> Result<(), AllocError> {
        // What can't be looked at now is known once it is read.
        if let Ok(metadata) = fs::metadata(&self.rt, name) {
            self.known.remember(Identity::of(&metadata))?;
        }
        self.calls.see(&Call::Announce(name));
        Ok(())
    }

    fn finish(&mut self, name: &str, readers: Readers) -> Result<(), Failed> {
        let for_owner = matches!(&readers, Readers::Owner);
        let finished = self.parts.finish(&mut self.known, name, readers);
        self.note(finished, &Call::Finish(name, for_owner))
    }
}
