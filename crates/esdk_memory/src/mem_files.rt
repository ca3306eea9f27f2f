//! The files of a memory shelf.

ghost use Rattle.std.specs.Prelude.{◌≡◌, ◌≤◌, ◌<◌, ◌+◌, [], IfOk, IsSomeAnd, MatchOption, None};
ghost use Rattle.std.specs.Prelude.{OnErr, OnOk, is_some, length, unwrap_or};
ghost use Rattle.std.specs.FinMap.{empty, get, insert};
ghost use Rattle.std.specs.Option.{option_map};
ghost use Rattle.esdk_memory.specs.MemFiles.{IsRowOf, RoomTaken, is_too_long, place_of, room_of};
ghost use Rattle.esdk_memory.specs.MemFiles.{with_room};
ghost use Rattle.esdk_base.specs.Shelf.{appended};

use crate::mem_file::MemFile;
use std::alloc::{AllocError, Global};
use std::marker::Model;

/// The names of a memory shelf, each with its bytes and its room. The first row of a name counts.
#[derive(Drop)]
pub(crate) struct MemFiles {
    rows: Vec<MemFile>,
}

impl Model for MemFiles {
    ghost use Rattle.std.specs.Coded.{codes};
    ghost use Rattle.esdk_memory.specs.MemFiles.{MemFilesState, files_code, files_of, rooms_code};
    ghost use Rattle.esdk_memory.specs.MemFiles.{rooms_of};

    ghost Value = { MemFilesState };

    ghost coded = { Prim.hlevel (codes, files_code, rooms_code) };

    ghost view = { λ f. record { files = files_of f.rows.items; rooms = rooms_of f.rows.items } };
}

impl MemFiles {
    /// No files, and no rooms.
    #[tactic(auto, unfolding(crate::specs::MemFiles::map_of_rows))]
    pub(crate) fn new(alloc: Global) -> MemFiles
        ensures { result ≡ record { files = empty; rooms = empty } }
    {
        MemFiles {
            rows: Vec::new(alloc),
        }
    }

    /// The bytes that the name holds. None where it isn't there.
    pub(crate) fn held(&self, name: &str) -> Option<&[u8]>
        ensures { option_map (λ bytes. bytes.now) result ≡ get self.now.files name.now }
    {
        let i = row_of(&self.rows, name)?;
        self.rows[i].held()
    }

    /// Room was taken for the name.
    pub(crate) fn has_room(&self, name: &str) -> bool
        ensures { result ≡ is_some (get self.now.rooms name.now) }
    {
        row_of(&self.rows, name).is_some()
    }

    /// The name would hold more than its room with so many bytes more.
    pub(crate) fn is_too_long(&self, name: &str, more: usize) -> bool
        ensures { result ≡ is_too_long self.now name.now more }
    {
        match row_of(&self.rows, name) {
            Some(i) => self.rows[i].is_too_long(more),
            None => more > 0,
        }
    }

    /// Takes room for so many bytes in all for the name. Where memory runs out, the files and rooms
    /// stay as they were.
    pub(crate) fn take_room(
        &mut self,
        alloc: Global,
        name: &str,
        size: usize,
    ) -> Result<(), AllocError>
        ensures ok { OnOk result (self.new ≡ record self.old
            { rooms = with_room self.old.rooms name.now size }) }
        ensures room { OnOk result (IsSomeAnd (get self.new.rooms name.now) (λ room. size ≤ room)) }
        ensures err { OnErr result (self.new ≡ self.old) }
    {
        take_room(alloc, &mut self.rows, name, size)?;
        Ok(())
    }

    /// Makes the name hold just these bytes, which its room suffices for.
    pub(crate) fn fill(&mut self, name: &str, bytes: &[u8])
        requires { IsSomeAnd (get self.old.rooms name.now) (λ room. length bytes.now ≤ room) }
        ensures { self.new ≡ record self.old { files = insert self.old.files name.now bytes.now } }
    {
        if let Some(i) = row_of(&self.rows, name) {
            self.rows[i].fill(bytes);
        }
    }

    /// Appends these bytes to those that the name holds, which its room suffices for. Does nothing
    /// where it isn't there.
    pub(crate) fn append(&mut self, name: &str, bytes: &[u8])
        requires { length (unwrap_or (get self.old.files name.now) []) + length bytes.now ≤ room_of
            self.old.rooms name.now }
        ensures { self.new ≡ record self.old {
          files = appended self.old.files name.now
              bytes.now;
        } }
    {
        if let Some(i) = row_of(&self.rows, name) {
            self.rows[i].append(bytes);
        }
    }
}

/// The place of the name's row. None where it has none.
fn row_of(rows: &[MemFile], name: &str) -> Option<usize>
    ensures { MatchOption result (place_of name.now rows.now ≡ length rows.now)
        (IsRowOf name.now rows.now) }
{
    for (i, row) in rows.iter().enumerate() {
        if name == row.name() {
            return Some(i);
        }
    }
    None
}

/// Takes room for so many bytes in all for the name, and answers the place of its row. Where memory
/// runs out, the rows stay as they were.
fn take_room(
    alloc: Global,
    rows: &mut Vec<MemFile>,
    name: &str,
    size: usize,
) -> Result<usize, AllocError>
    ensures ok { IfOk result (RoomTaken rows.old.items rows.new.items name.now size) }
    ensures err { OnErr result (rows.new.items ≡ rows.old.items) }
{
    if let Some(i) = row_of(rows, name) {
        rows[i].grow(size)?;
        return Ok(i);
    }
    let i = rows.len();
    rows.push(MemFile::new(alloc, name, size)?)?;
    Ok(i)
}
