//! The extraction of a range.

ghost use Rattle.std.specs.Prelude.{◌≡◌, ◌⊎◌, ◌+◌, ◌≤◌, ◌^◌, IfErr, IfOk};
ghost use Rattle.esdk_decrypt.specs.Decrypt.{asked_from};
ghost use Rattle.esdk_decrypt.specs.Underway.{BearsOnce};
ghost use Rattle.keyring_trait.specs.Manager.{Went};
ghost use Rattle.whole_input.specs.FileReads.{Grows};
ghost use Rattle.extract_core.specs.Extract.{ExtractEnds, Extracts, GaveHeader, HasHeader};
ghost use Rattle.extract_core.specs.Extract.{HasNoHeader, OnFile, body_begin, extract_locked_as};
ghost use Rattle.extract_core.specs.Extract.{most_header, most_read, range_of, unheaded_as};

use crate::errors::ExtractError;
use crate::slots::Slots;
use context_codec::Context;
use esdk_base::{Shelf, Sink};
use esdk_fields::{Fault, Outside};
use header_codec::{Header, Settings};
use header_input::{NoHeader, take_header};
use keyring_trait::Manager;
use message_format::{UnlockError, unlock};
use std::alloc::Global;
use suite_table::Suite;
use whole_input::{End, FileSource};

/// How many bytes the tag of a header has.
const TAG: usize = 16;

/// How many bytes a header's initialization vector and its tag have, where it has both.
const IV_AND_TAG: usize = 28;

/// Writes a range of the content of a message that stands in a file of the shelf: `count` bytes
/// from byte `at` on, as far as there are any, and answers how many bytes that is.
///
/// The header is taken from the front of the file, within these limits, and unlocked: the materials
/// manager is asked for the data key at the moment `now`, in seconds, and is told the pairs that
/// the caller gives beside those that the header stores. Then the slots that hold the range are
/// taken, each read at its own offset and opened where it lies; its part of the range is written
/// before the next one is read. A final frame, a single block and a fault end this: no more of the
/// file is read than the header, up to a piece of 65,536 bytes behind it, and the slots that are
/// taken: of each its length and the 32 bytes beside it, and of the last 8 more; of a single block
/// what its length says. Bytes behind the last slot taken aren't judged. With `count` 0 header and
/// unlocking are judged, and no slot is read. Of a whole message a range that begins at the end of
/// the content or behind it has no bytes; where it begins behind the slots of the message, that is
/// M10, or rarely M18. It holds one unit and one piece, and takes no memory for bytes that the file
/// doesn't have.
///
/// What is said of the file's bytes is so of those that the shelf tells, and over any shelf of all
/// bytes that agree with each of these reads: a file that is changed meanwhile is what was read.
///
/// - `Fault`: the first that applies of the header's, M10 where it isn't whole; the manager's, M11
///   to M15; the lock's, M16 and M17; and those of the slots, in order: M18 to M20 of a frame, M20,
///   M21 and M9 of a single block, M10 where bytes are missing or no slot has the number. What
///   stands before the fault in the range was written.
/// - `Outside` with `ShelfFault`: a read failed, or the shelf has no file of the name, and then
///   nothing was written; with `SinkFault`: the output failed. Else a front of the range was
///   written. With `KeyringFault`: a keyring failed when the manager was asked about the file's
///   header, so that its count of faults rose; nothing was written, and at most 65,536 bytes behind
///   the header were read.
/// - `Memory`: memory ran out. A front of the range was written; nothing, where the shelf tells
///   that it has no file of the name.
///
/// Where the answer isn't `ShelfFault`, no read failed. The manager is asked once at the most, and
/// not at all unless a header is whole in the bytes that the call's first reads gave, in a row from
/// the file's front.
pub fn extract<M: Manager, F: Shelf, O: Sink>(
    alloc: Global,
    manager: &mut M,
    now: u64,
    shelf: &mut F,
    name: &str,
    output: &mut O,
    settings: Settings,
    given: &Context,
    at: u64,
    count: u64,
) -> Result<u64, ExtractError>
    requires at { at ≤ 2 ^ 62 }
    requires count { count ≤ 2 ^ 62 }
    ensures done { IfOk result (Extracts
        (asked_from (M.state manager.old) (M.state manager.new) now settings given.now)
        (range_of at count) (F.state shelf.old) (F.state shelf.new) name.now
        (O.state output.old) (O.state output.new)) }
    ensures ends { IfErr result (ExtractEnds
        (asked_from (M.state manager.old) (M.state manager.new) now settings given.now)
        (range_of at count) (F.state shelf.old) (F.state shelf.new) name.now
        (O.state output.old) (O.state output.new) (output.new ≡ output.old)) }
    ensures files { (F.state shelf.new).files ≡ (F.state shelf.old).files }
    ensures faults { IfOk result (λ _. (F.state shelf.new).faults ≡ (F.state shelf.old).faults) }
    ensures given { OnFile (F.state shelf.old) (F.state shelf.new) name.now
        (λ bytes. (F.state shelf.new).given
        ≤ (F.state shelf.old).given + most_read settings (range_of at count) bytes) }
    ensures calls { Grows (F.state shelf.old).calls (F.state shelf.new).calls }
    ensures went { Went (M.state manager.old) (M.state manager.new) }
    ensures bears { BearsOnce (M.state manager.old) (M.state manager.new) now }
    ensures unasked { GaveHeader settings (F.state shelf.old) (F.state shelf.new) name.now
        ⊎ (manager.new ≡ manager.old) }
{
    // Where the manager isn't asked, it stays as it is: `wraps` says what that keeps.
    let _wraps = manager.wraps();
    let header = match header_in(alloc, shelf, name, settings) {
        Ok(header) => header,
        Err(error) => return Err(unheaded_as(error)),
    };
    let begin = body_begin(&header);
    let opened = match unlock(alloc, manager, now, given, header) {
        Ok(opened) => opened,
        Err(error) => return Err(locked_as(error)),
    };
    let mut slots = Slots::new(alloc, opened, begin, settings.max_unit)?;
    slots.write_range(shelf, name, output, at, count)
}

/// The header at the front of the file, within these limits.
///
/// `Fault` of the header; `End` where it isn't whole, a read failed, or the shelf has no file of
/// the name; `Memory` where memory runs out.
fn header_in<F: Shelf>(
    alloc: Global,
    shelf: &mut F,
    name: &str,
    settings: Settings,
) -> Result<Header, NoHeader>
    ensures header { IfOk result (HasHeader settings (F.state shelf.old) (F.state shelf.new)
        name.now) }
    ensures gave { IfOk result (λ _. GaveHeader settings (F.state shelf.old) (F.state shelf.new)
        name.now) }
    ensures none { IfErr result (λ error. HasNoHeader settings (F.state shelf.old)
        (F.state shelf.new) name.now (unheaded_as error)) }
    ensures files { (F.state shelf.new).files ≡ (F.state shelf.old).files }
    ensures given { OnFile (F.state shelf.old) (F.state shelf.new) name.now
        (λ bytes. (F.state shelf.new).given
        ≤ (F.state shelf.old).given + most_header settings bytes) }
    ensures calls { Grows (F.state shelf.old).calls (F.state shelf.new).calls }
{
    let mut file = FileSource::new(shelf, name, 0);
    let reader = take_header(alloc, &mut file, settings)?;
    match reader.into_header() {
        Some(header) => Ok(header),
        None => unreachable!(),
    }
}

/// What it is called that no header came.
fn unheaded_as(error: NoHeader) -> ExtractError
    ensures { result ≡ unheaded_as error }
{
    match error {
        NoHeader::Fault(fault) => ExtractError::Fault(fault),
        NoHeader::End(End::Seen) => ExtractError::Fault(Fault::Truncated),
        NoHeader::End(End::Failed) => ExtractError::Outside(Outside::ShelfFault),
        // A header is whole or refused long before 2^62 bytes of it came.
        NoHeader::End(End::TooLong) | NoHeader::Memory => ExtractError::Memory,
    }
}

/// What it is called that a header isn't unlocked.
fn locked_as(error: UnlockError) -> ExtractError
    ensures { result ≡ extract_locked_as error }
{
    match error {
        UnlockError::Fault(fault) => ExtractError::Fault(fault),
        UnlockError::KeyringFault => ExtractError::Outside(Outside::KeyringFault),
        UnlockError::Memory => ExtractError::Memory,
    }
}

/// Where the body begins behind a header.
fn body_begin(header: &Header) -> u64
    ensures value { result ≡ body_begin header.now }
    ensures small { result ≤ 2 ^ 26 }
{
    let authentication = match header.algorithm() {
        Suite::Committing => TAG,
        Suite::Uncommitted => IV_AND_TAG,
    };
    (header.raw().len() + authentication) as u64
}
