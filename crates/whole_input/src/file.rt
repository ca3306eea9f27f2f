//! Taking a small file of a shelf.
ghost use Rattle.std.specs.Prelude.{◌≡◌, ◌<◌, ◌≤◌, [], IfOk, IfErr, OnOk, length, vec_len};
ghost use Rattle.whole_input.specs.File.{Adds, FileCause, IsFile};
ghost use Rattle.whole_input.specs.Pieces.{most_piece};

use crate::buffer::{PIECE, buffer_of};
use esdk_base::Shelf;
use esdk_fields::Blob;
use std::alloc::{AllocError, AllocFailed, Global};
use std::error::Error;
use std::fmt;

/// How many bytes a file has at the most that is taken whole.
const MOST_FILE: usize = 1_048_576;

/// Why a file wasn't taken.
#[derive(Debug, Clone, Copy, PartialEq, Eq)]
pub enum FileError {
    /// A read failed: the shelf failed, or the name isn't on it.
    Shelf,
    /// The file gave more than 1,048,576 bytes.
    TooLong,
    /// Memory ran out.
    Memory,
}

impl fmt::Display for FileError {
    ghost use Rattle.std.specs.Prelude.{Some};
    ghost use Rattle.whole_input.specs.File.{file_error_text};

    ghost output = { λ e. Some (file_error_text e) };

    #[tactic(auto, unfolding(crate::specs::File::file_error_text))]
    fn fmt<W: fmt::Write>(&self, f: &mut fmt::Formatter<W>) -> fmt::Result {
        match self {
            FileError::Shelf => f.write_str("the file was not read"),
            FileError::TooLong => f.write_str("the file has more than 1,048,576 bytes"),
            FileError::Memory => f.write_str("memory ran out"),
        }
    }
}

impl Error for FileError {}

impl From<AllocError> for FileError {
    ghost use Rattle.std.specs.Prelude.{◌≡◌};
    ghost use Rattle.whole_input.specs.declared.file.FileError.TheVariants.{Memory};

    ghost from_gives = { λ _ error. error ≡ Memory };

    fn from(_: AllocError) -> FileError {
        FileError::Memory
    }
}

/// Takes all bytes of the file that has this name on the shelf, at most 1,048,576. It is read in
/// pieces of at most 65,536 bytes, and no further than to the piece that makes it too long. The
/// shelf keeps its files.
///
/// `Shelf` where a read failed or no such file is there, `TooLong` where the file gave more bytes,
/// `Memory` where memory ran out.
pub fn take_file<F: Shelf>(alloc: Global, shelf: &mut F, name: &str) -> Result<Blob, FileError>
    ensures file { IfOk result (λ bytes. IsFile (F.state shelf.old)
        (F.state shelf.new) name.now bytes) }
    ensures cause { IfErr result (λ error. FileCause (F.state shelf.old)
        (F.state shelf.new) name.now error) }
    ensures stays { (F.state shelf.new).files ≡ (F.state shelf.old).files }
{
    let mut buffer = buffer_of(alloc, PIECE)?;
    let mut bytes = Blob::new(alloc);
    fill(shelf, name, &mut buffer, &mut bytes)?;
    Ok(bytes)
}

/// Puts the pieces of the file behind each other.
fn fill<F: Shelf>(
    shelf: &mut F,
    name: &str,
    buffer: &mut [u8],
    bytes: &mut Blob,
) -> Result<(), FileError>
    requires room { 0 < length buffer.old }
    requires few { length buffer.old ≤ most_piece }
    requires empty { bytes.old ≡ [] }
    ensures file { OnOk result (IsFile (F.state shelf.old) (F.state shelf.new) name.now bytes.new) }
    ensures cause { IfErr result (λ error. FileCause (F.state shelf.old)
        (F.state shelf.new) name.now error) }
    ensures stays { (F.state shelf.new).files ≡ (F.state shelf.old).files }
{
    while bytes.bytes().len() <= MOST_FILE {
        if !add_piece(shelf, name, buffer, bytes)? {
            return Ok(());
        }
    }
    Err(FileError::TooLong)
}

/// Reads the next piece of the file and puts it behind the bytes, which are the file's front, and
/// answers whether there was one.
fn add_piece<F: Shelf>(
    shelf: &mut F,
    name: &str,
    buffer: &mut [u8],
    bytes: &mut Blob,
) -> Result<bool, FileError>
    requires room { 0 < length buffer.old }
    requires few { length buffer.old ≤ most_piece }
    ensures adds { Adds (F.state shelf.old) (F.state shelf.new) name.now bytes.old bytes.new
        result }
    ensures stays { (F.state shelf.new).files ≡ (F.state shelf.old).files }
{
    let Ok(count) = shelf.read_at(name, bytes.bytes().len() as u64, buffer) else {
        return Err(FileError::Shelf);
    };
    bytes.push_all(&buffer[..count])?;
    Ok(count > 0)
}
