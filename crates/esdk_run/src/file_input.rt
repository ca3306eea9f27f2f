//! The bytes of a file on the shelf.
ghost use Rattle.std.specs.Prelude.{◌≡◌, IfErr, IfOk};
ghost use Rattle.whole_input.specs.File.{IsFile};
ghost use Rattle.esdk_run.specs.FileReading.{IsUntaken};

use crate::failures::file_failure;
use esdk_base::Shelf;
use esdk_fields::Blob;
use esdk_report::Failure;
use std::alloc::Global;
use whole_input::take_file;

/// The bytes of the file of this name. The shelf keeps its files.
///
/// `ShelfFault` where a read failed or the file isn't there; then `FileTooLong` where the file has
/// more than 1,048,576 bytes.
pub(crate) fn taken<F: Shelf>(alloc: Global, shelf: &mut F, name: &str) -> Result<Blob, Failure>
    ensures file { IfOk result (IsFile (F.state shelf.old) (F.state shelf.new) name.now) }
    ensures cause { IfErr result (IsUntaken (F.state shelf.old) (F.state shelf.new) name.now) }
    ensures stays { (F.state shelf.new).files ≡ (F.state shelf.old).files }
{
    match take_file(alloc, shelf, name) {
        Ok(bytes) => Ok(bytes),
        Err(error) => Err(file_failure(error)),
    }
}
