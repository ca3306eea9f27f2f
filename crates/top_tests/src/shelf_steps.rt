//! Calls of shelves over the files of the system, as tables of what each has to come to.

use crate::scratch_path::scratch_path;
use esdk_base::{Readers, Shelf};
use esdk_system::FileShelf;
use std::os::unix::fs::{MetadataExt, symlink};
use std::{fs, process};

/// Which of two shelves is called.
pub(crate) enum By {
    One,
    Other,
}

/// What is done with a file.
pub(crate) enum Call {
    /// A read from this offset on, of at most four bytes, gives just these.
    Gives(u64, &'static [u8]),
    /// A byte is read from this offset on.
    Reads(u64),
    /// A read from the front gives `abcd` by so many names of the file: its path, and those with
    /// more and more slashes before it.
    GivesFronts(usize),
    /// It is made.
    Creates,
    /// These bytes are appended.
    Appends(&'static [u8]),
    /// It is finished for anyone.
    Finishes,
    /// It is finished for its owner.
    FinishesForOwner,
    /// It is announced that it will be read.
    Announces,
    /// What isn't finished is taken away.
    TakesAway,
    /// A link is made to the file of this name.
    Links(&'static str),
    /// The first file of a folder is one of this process that isn't whole, and is its owner's
    /// alone.
    HoldsAPart,
    /// It is removed from outside.
    Removes,
}

/// A shelf, a file's name, a call, and whether it works.
pub(crate) type Step = (By, &'static str, Call, bool);

/// The two shelves.
#[derive(Drop)]
struct Shelves {
    one: FileShelf,
    other: FileShelf,
}

/// 64 slashes.
const SLASHES: &str = "////////////////////////////////////////////////////////////////";

/// Whether a read from this offset on, of at most four bytes, gives just these.
pub(crate) fn gives<S: Shelf>(shelf: &mut S, path: &str, at: u64, want: &[u8]) -> bool {
    let mut out = [0; 4];
    match shelf.read_at(path, at, &mut out) {
        Ok(count) => &out[..count] == want,
        Err(_) => false,
    }
}

/// Whether the file gives its front by its path behind so many slashes.
fn gives_front(rt: HostRuntime, shelf: &mut FileShelf, path: &str, count: usize) -> bool {
    let slashes = SLASHES.get(..count).unwrap_or("");
    match format!(in rt.alloc(); "{slashes}{path}") {
        Ok(path) => gives(shelf, path.as_str(), 0, b"abcd"),
        Err(_) => false,
    }
}

/// Whether it does so by so many names.
fn gives_fronts(rt: HostRuntime, shelf: &mut FileShelf, path: &str, names: usize) -> bool {
    for count in 0..names {
        if !gives_front(rt, shelf, path, count) {
            return false;
        }
    }
    true
}

/// Whether this is the name of a file of this process that isn't whole.
fn names_a_part(rt: HostRuntime, name: &str) -> bool {
    match format!(in rt.alloc(); ".esdk-{}-", process::id(rt.process())) {
        Ok(begin) => name.starts_with(begin.as_str()) && name.ends_with(".part"),
        Err(_) => false,
    }
}

/// Whether a file is its owner's alone.
fn is_private(rt: HostRuntime, path: &str) -> bool {
    match fs::metadata(&rt, path) {
        Ok(file) => file.mode() & 0o777 == 0o600,
        Err(_) => false,
    }
}

/// Whether the file of this name in the folder is.
fn is_private_in(rt: HostRuntime, folder: &str, name: &str) -> bool {
    match format!(in rt.alloc(); "{folder}/{name}") {
        Ok(path) => is_private(rt, path.as_str()),
        Err(_) => false,
    }
}

/// Whether the first file of the folder is one that isn't whole, and its owner's alone.
fn holds_a_part(rt: HostRuntime, folder: &str) -> bool {
    let Ok(mut files) = fs::read_dir(&rt, folder) else {
        return false;
    };
    match files.next() {
        Some(Ok(file)) => {
            names_a_part(rt, file.file_name()) && is_private_in(rt, folder, file.file_name())
        }
        _ => false,
    }
}

/// Whether a call works.
fn works(rt: HostRuntime, shelf: &mut FileShelf, path: &str, call: &Call) -> bool {
    match call {
        Call::Gives(at, want) => gives(shelf, path, *at, want),
        Call::Reads(at) => shelf.read_at(path, *at, &mut [0]).is_ok(),
        Call::GivesFronts(names) => gives_fronts(rt, shelf, path, *names),
        Call::Creates => shelf.create(path).is_ok(),
        Call::Appends(bytes) => shelf.append(path, bytes).is_ok(),
        Call::Finishes => shelf.finish(path, Readers::Anyone).is_ok(),
        Call::FinishesForOwner => shelf.finish(path, Readers::Owner).is_ok(),
        Call::Announces => shelf.will_read(path).is_ok(),
        Call::TakesAway => {
            shelf.remove_unfinished();
            true
        }
        Call::Links(to) => symlink(&rt, to, path).is_ok(),
        Call::HoldsAPart => holds_a_part(rt, path),
        Call::Removes => fs::remove_file(&rt, path).is_ok(),
    }
}

/// Whether a step comes to what it has to, with the file of this path.
fn is_right_at(rt: HostRuntime, shelves: &mut Shelves, path: &str, step: &Step) -> bool {
    match step.0 {
        By::One => works(rt, &mut shelves.one, path, &step.2) == step.3,
        By::Other => works(rt, &mut shelves.other, path, &step.2) == step.3,
    }
}

/// Whether it does, with its file in this folder.
fn is_right(rt: HostRuntime, shelves: &mut Shelves, folder: &str, step: &Step) -> bool {
    match format!(in rt.alloc(); "{folder}/{}", step.1) {
        Ok(path) => is_right_at(rt, shelves, path.as_str(), step),
        Err(_) => false,
    }
}

/// Whether each step does so.
fn are_right(rt: HostRuntime, shelves: &mut Shelves, folder: &str, steps: &[Step]) -> bool {
    for step in steps {
        if !is_right(rt, shelves, folder, step) {
            return false;
        }
    }
    true
}

/// Whether each step comes to what it has to with two new shelves and a new folder, which is empty
/// then.
fn are_right_in(rt: HostRuntime, folder: &str, steps: &[Step]) -> bool {
    let mut shelves = Shelves {
        one: FileShelf::new(rt),
        other: FileShelf::new(rt),
    };
    fs::create_dir(&rt, folder).is_ok()
        && are_right(rt, &mut shelves, folder, steps)
        && fs::remove_dir(&rt, folder).is_ok()
}

/// Whether each step does so in a folder of this test's.
pub(crate) fn all_are_right(rt: HostRuntime, test: &str, steps: &[Step]) -> bool {
    match scratch_path(rt, test) {
        Ok(folder) => are_right_in(rt, folder.as_str(), steps),
        Err(_) => false,
    }
}
