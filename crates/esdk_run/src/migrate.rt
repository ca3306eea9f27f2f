//! The command `migrate`.
ghost use Rattle.std.specs.Prelude.{◌≡◌, true, IfErr, IfOk, OnOk};
ghost use Rattle.esdk_run.specs.FileReading.{FileFails, ReadCause};
ghost use Rattle.esdk_run.specs.Migrate.{IsMigrated, IsTextOf, MigrateFails, WritesMigrated};
ghost use Rattle.esdk_run.specs.Migrate.{value_asked};
ghost use Rattle.esdk_run.specs.Run.{EndsBy, is_status};

use crate::failures::tree_failure;
use crate::file_input::taken;
use crate::outcome::tell_failure;
use crate::text_put::put_text;
use esdk_args::MigrateWords;
use esdk_base::{Shelf, Sink};
use esdk_fields::Blob;
use esdk_report::{Failure, Status};
use keyring_file::migrate;
use std::alloc::Global;

/// Writes the keyring file in version 2, with the key retired whose number the words give. The
/// shelf stays as it is.
///
/// The file is taken first (`ShelfFault` where a read failed or the file isn't there, `FileTooLong`
/// where it has more than 1,048,576 bytes); then its bytes are judged; then all of its text is
/// written at once (`SinkFault`).
pub fn run_migrate<O: Sink, R: Sink, F: Shelf>(
    alloc: Global,
    asked: &MigrateWords,
    output: &mut O,
    report: &mut R,
    shelf: &mut F,
) -> Status
    ensures status { is_status result.code ≡ true }
    ensures runs { EndsBy (WritesMigrated asked.now (F.state shelf.old) (F.state shelf.new)
        (O.state output.old) (O.state output.new))
        (MigrateFails asked.now (F.state shelf.old) (F.state shelf.new)
        (O.state output.old) (O.state output.new) (output.new ≡ output.old))
        result.code (R.state report.old) (R.state report.new) }
    ensures files { (F.state shelf.new).files ≡ (F.state shelf.old).files }
{
    match migrate_file(alloc, asked, output, shelf) {
        Ok(()) => Status::DONE,
        Err(failure) => tell_failure(alloc, failure, report),
    }
}

/// Writes the keyring file's text in version 2, all at once; `SinkFault` where the write failed.
fn migrate_file<O: Sink, F: Shelf>(
    alloc: Global,
    asked: &MigrateWords,
    output: &mut O,
    shelf: &mut F,
) -> Result<(), Failure>
    ensures done { OnOk result (WritesMigrated asked.now (F.state shelf.old) (F.state shelf.new)
        (O.state output.old) (O.state output.new)) }
    ensures fails { IfErr result (MigrateFails asked.now (F.state shelf.old) (F.state shelf.new)
        (O.state output.old) (O.state output.new) (output.new ≡ output.old)) }
    ensures stays { (F.state shelf.new).files ≡ (F.state shelf.old).files }
{
    let text = file_text(alloc, asked, shelf)?;
    put_text(&text, output)
}

/// The text of the keyring file in version 2.
fn file_text<F: Shelf>(alloc: Global, asked: &MigrateWords, shelf: &mut F) -> Result<Blob, Failure>
    ensures text { IfOk result (IsMigrated asked.now (F.state shelf.old) (F.state shelf.new)) }
    ensures cause { IfErr result (FileFails (value_asked asked.now) (F.state shelf.old)
        (F.state shelf.new) asked.now.keyring) }
    ensures stays { (F.state shelf.new).files ≡ (F.state shelf.old).files }
{
    let bytes = taken(alloc, shelf, asked.keyring.as_str())?;
    text_of(alloc, asked, bytes.bytes())
}

/// The text in version 2 of a keyring file that has these bytes.
fn text_of(alloc: Global, asked: &MigrateWords, bytes: &[u8]) -> Result<Blob, Failure>
    ensures text { IfOk result (IsTextOf asked.now bytes.now) }
    ensures cause { IfErr result (ReadCause (value_asked asked.now) bytes.now) }
{
    match migrate(alloc, bytes, asked.retire) {
        Ok(text) => Ok(text),
        Err(error) => Err(tree_failure(error)),
    }
}
