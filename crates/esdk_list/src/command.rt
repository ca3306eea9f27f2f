//! The command `list`.
ghost use Rattle.std.specs.Prelude.{◌≡◌, ◌+◌, ◌≤◌, ◌^◌, IfErr, OnOk};
ghost use Rattle.esdk_list.specs.List.{IsListCause, LeavesOutput, Lists, failure_as, list_settings};

use crate::listing::list_text;
use esdk_base::{Sink, Source};
use esdk_fields::{Fault, Outside};
use esdk_report::Failure;
use header_codec::Settings;
use header_input::{NoHeader, take_header};
use std::alloc::Global;
use whole_input::End;

/// Reads a header and its authentication from the input, and writes the header's listing. A header
/// of a message without a commitment is a fault (M23), unless the caller allows these.
///
/// What stands behind the authentication isn't judged, and fewer than 65,536 bytes of it are taken.
/// Nothing is written before the header is whole.
///
/// - `Fault`: the header or its authentication has this fault; M10 `Truncated`, where the input
///   ends before they do.
/// - `Outside`: a read failed (`SourceFault`), 2^62 bytes are the beginning of a header
///   (`InputTooLong`), or the output failed (`SinkFault`).
/// - `Memory`: memory ran out.
pub fn list<S: Source, O: Sink>(
    alloc: Global,
    input: &mut S,
    output: &mut O,
    uncommitted: bool,
) -> Result<(), Failure>
    ensures done { OnOk result (Lists uncommitted (S.state input.old) (S.state input.new)
        (O.state output.old).written (O.state output.new).written) }
    ensures cause { IfErr result (λ failure. IsListCause uncommitted failure
        (S.state input.old) (S.state input.new)
        (O.state output.old) (O.state output.new)) }
    ensures output { IfErr result (λ failure. LeavesOutput uncommitted failure
        (S.state input.old) (S.state input.new)
        (O.state output.old) (O.state output.new) (output.new ≡ output.old)) }
    ensures taken { (S.state input.new).given ≤ (S.state input.old).given + 2 ^ 62 }
    ensures lasts { S.lasts input.old input.new }
{
    let reader = match take_header(alloc, input, limits_of(uncommitted)) {
        Ok(reader) => reader,
        Err(error) => return Err(failure_of(error)),
    };
    let Some(header) = reader.header() else {
        unreachable!()
    };
    let text = list_text(alloc, header)?;
    match output.put(text.bytes()) {
        Ok(()) => Ok(()),
        Err(_) => Err(Failure::Outside(Outside::SinkFault)),
    }
}

/// The limits within which a header is listed: a message without a commitment may be allowed.
fn limits_of(uncommitted: bool) -> Settings
    ensures { result ≡ list_settings uncommitted }
{
    Settings {
        uncommitted,
        ..Settings::none()
    }
}

/// What the program calls it that no header came.
fn failure_of(error: NoHeader) -> Failure
    ensures { result ≡ failure_as error }
{
    match error {
        NoHeader::Fault(fault) => Failure::Fault(fault),
        NoHeader::End(End::Seen) => Failure::Fault(Fault::Truncated),
        NoHeader::End(End::Failed) => Failure::Outside(Outside::SourceFault),
        NoHeader::End(End::TooLong) => Failure::Outside(Outside::InputTooLong),
        NoHeader::Memory => Failure::Memory,
    }
}
