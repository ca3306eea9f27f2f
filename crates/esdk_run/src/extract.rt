//! The command `extract`.
ghost use Rattle.std.specs.Prelude.{◌≡◌, ◌<◌, ◌≤◌, ◌^◌, ⊤, true, length, IfErr, OnOk};
ghost use Rattle.esdk_base.specs.Streams.{EntropyState, SourceState};
ghost use Rattle.esdk_report.specs.Report.{Reports};
ghost use Rattle.esdk_run.specs.Failures.{extraction_failure};
ghost use Rattle.esdk_run.specs.Objects.{as_before, objects};
ghost use Rattle.esdk_run.specs.Run.{ExtractRuns, IsDone, is_status};
ghost use Rattle.esdk_run.specs.Trees.{trees_of};

use crate::failures::extraction_failure;
use crate::outcome::{Ended, not_begun, tell_failure};
use crate::prepared::{Prepared, prepare};
use esdk_args::ExtractWords;
use esdk_base::{Shelf, Sink};
use esdk_report::Status;
use extract_core::{ExtractError, extract};
use header_codec::Settings;
use keyring_file::Plug;
use keyring_trait::Keyring;
use std::alloc::Global;

/// Writes a range of the content of a message in a file of the shelf, under the tree that the
/// keyring file is read as, with the pairs of the words given and their required keys demanded. The
/// tree is given back as it is left, also after an error. The shelf keeps its files.
///
/// The pairs are read first, then the keyring file, and then the message's file: its header, and
/// the slots that hold the range, each part being written before the next slot is read.
pub fn run_extract<P: Keyring, O: Sink, R: Sink, F: Shelf>(
    alloc: Global,
    asked: &ExtractWords,
    output: &mut O,
    report: &mut R,
    shelf: &mut F,
    plugs: Vec<Plug<P>>,
) -> Ended<P>
    requires plugs { length plugs.items < 2 ^ 24 }
    requires at { asked.now.at ≤ 2 ^ 62 }
    requires count { asked.now.count ≤ 2 ^ 62 }
    ensures status { is_status result.status.code ≡ true }
    ensures runs { (input : SourceState) (entropy : EntropyState)
        → ExtractRuns (trees_of P.meaning plugs.items result.tree) asked.now
        (objects input (O.state output.old) (F.state shelf.old) entropy (R.state report.old))
        (objects input (O.state output.new) (F.state shelf.new) entropy (R.state report.new))
        (as_before ⊤ (output.new ≡ output.old) (shelf.new ≡ shelf.old) ⊤) result.status.code }
    ensures files { (F.state shelf.new).files ≡ (F.state shelf.old).files }
{
    let Prepared {
        context,
        mut manager,
    } = match prepare(alloc, &asked.pairs, &asked.keyring, shelf, plugs) {
        Ok(prepared) => prepared,
        Err(failure) => return not_begun(tell_failure(alloc, failure, report)),
    };
    let ended = extract(
        alloc,
        &mut manager,
        0,
        shelf,
        asked.from.as_str(),
        output,
        Settings::none(),
        &context,
        asked.at,
        asked.count,
    );
    Ended {
        status: report_end(alloc, ended, report),
        tree: Some(manager.into_inner().into_ring()),
    }
}

/// Puts why the range wasn't extracted on the report, where it wasn't, and answers the status.
fn report_end<R: Sink>(alloc: Global, ended: Result<u64, ExtractError>, report: &mut R) -> Status
    ensures status { is_status result.code ≡ true }
    ensures done { OnOk ended (IsDone result.code (R.state report.old) (R.state report.new)) }
    ensures said { IfErr ended (λ error.
        Reports (extraction_failure error) result.code (R.state report.old) (R.state report.new)) }
{
    match ended {
        Ok(_) => Status::DONE,
        Err(error) => tell_failure(alloc, extraction_failure(error), report),
    }
}
