//! A file of a shelf that takes the bytes of a session.

use crate::files::put;
use esdk_base::{Failed, Receiver, Shelf};

/// The end of a file of a shelf, where bytes are appended as they come, by one call each.
#[derive(Drop)]
pub(crate) struct FileEnd<'s, F> {
    pub(crate) shelf: &'s mut F,
    pub(crate) name: &'s str,
}

impl<F: Shelf> Receiver for FileEnd<'_, F> {
    ghost use Rattle.esdk_batch.specs.FileEnd.{file_fails, file_takes};
    ghost use Rattle.esdk_batch.specs.FileEndLaws.{file_fails_behind, file_takes_more};
    ghost use Rattle.esdk_batch.specs.FileEndLaws.{file_takes_none};

    type Error = Failed;

    ghost takes = { λ old new bytes. file_takes F.state old new bytes };

    ghost fails = { λ old new bytes error. file_fails F.state old new bytes error };

    fn take(&mut self, bytes: &[u8]) -> Result<(), Failed> {
        put(self.shelf, self.name, bytes)
    }

    ghost takes_none = { λ r. file_takes_none r.shelf.ghost_name r.name.now (F.state r.shelf.now) };

    ghost takes_more = { λ r s t first second.
        file_takes_more r.shelf.ghost_name s.shelf.ghost_name t.shelf.ghost_name
        r.name.now s.name.now t.name.now
        (F.state r.shelf.now) (F.state s.shelf.now) (F.state t.shelf.now) first second };

    ghost fails_behind = { λ r s t first second _.
        file_fails_behind r.shelf.ghost_name s.shelf.ghost_name t.shelf.ghost_name
        r.name.now s.name.now t.name.now
        (F.state r.shelf.now) (F.state s.shelf.now) (F.state t.shelf.now) first second };
}
