//! The command `reseal`.
ghost use Rattle.std.specs.Prelude.{◌≡◌, ◌+◌, ◌<◌, ◌≤◌, ◌^◌, true, length, IfErr, IfOk, None};
ghost use Rattle.esdk_report.specs.Report.{Reports};
ghost use Rattle.esdk_run.specs.Failures.{resealing_failure};
ghost use Rattle.esdk_run.specs.Objects.{as_before, objects};
ghost use Rattle.esdk_run.specs.Run.{ResealRuns, TellsOrLacksMemory, is_status};
ghost use Rattle.esdk_run.specs.Trees.{trees_of};

use crate::context_told::tell_context;
use crate::failures::resealing_failure;
use crate::keyring_input::read_keyring;
use crate::outcome::{Ended, not_begun, tell_failure};
use crate::prepared::{Prepared, prepare};
use cmm_default::DefaultCmm;
use context_codec::Context;
use esdk_args::ResealWords;
use esdk_base::{Entropy, Shelf, Sink, Source};
use esdk_report::Status;
use header_codec::Settings;
use keyring_file::Plug;
use keyring_trait::{Keyring, Manager};
use reseal_core::{InputError, ResealOptions, reseal};
use std::alloc::Global;

/// Opens the input with the tree that the first keyring file is read as, with the pairs of the
/// words given and their required keys demanded, and writes a new message of its content, sealed
/// with the tree that the second file is read as, in which no plug may stand; so the second tree
/// never fails. Then it writes the whole context on the report. The first tree is given back as it
/// is left, also after an error.
///
/// The pairs are read first, then the first file, and then the second; then the random bytes are
/// drawn; then the input is read, and what comes of each piece is written before more is read.
pub fn run_reseal<P: Keyring, S: Source, O: Sink, R: Sink, F: Shelf, W: Entropy>(
    alloc: Global,
    asked: &ResealWords,
    input: &mut S,
    output: &mut O,
    report: &mut R,
    shelf: &mut F,
    entropy: &mut W,
    plugs: Vec<Plug<P>>,
) -> Ended<P>
    requires some { 1 ≤ asked.now.frame }
    requires plugs { length plugs.items < 2 ^ 24 }
    ensures status { is_status result.status.code ≡ true }
    ensures runs { ResealRuns (trees_of P.meaning plugs.items result.tree) asked.now
        (objects (S.state input.old) (O.state output.old) (F.state shelf.old)
        (W.state entropy.old) (R.state report.old))
        (objects (S.state input.new) (O.state output.new) (F.state shelf.new)
        (W.state entropy.new) (R.state report.new))
        (as_before (input.new ≡ input.old) (output.new ≡ output.old)
        (shelf.new ≡ shelf.old) (entropy.new ≡ entropy.old)) result.status.code }
    ensures files { (F.state shelf.new).files ≡ (F.state shelf.old).files }
    ensures taken { (S.state input.new).given ≤ (S.state input.old).given + 2 ^ 62 }
{
    let Prepared {
        context,
        mut manager,
    } = match prepare(alloc, &asked.pairs, &asked.keyring, shelf, plugs) {
        Ok(prepared) => prepared,
        Err(failure) => return not_begun(tell_failure(alloc, failure, report)),
    };
    let none: Vec<Plug<P>> = Vec::new(alloc);
    let second = match read_keyring(alloc, shelf, asked.to_keyring.as_str(), none) {
        Ok(second) => second,
        Err(failure) => {
            // Called for its clause alone, which says what a manager keeps that isn't asked.
            let _wraps = manager.wraps();
            return Ended {
                status: tell_failure(alloc, failure, report),
                tree: Some(manager.into_inner().into_ring()),
            };
        }
    };
    let mut sealing = DefaultCmm::new(second);
    let ended = reseal(
        alloc,
        &mut manager,
        &mut sealing,
        options_of(asked),
        &context,
        input,
        output,
        entropy,
    );
    Ended {
        status: report_end(alloc, ended, report),
        tree: Some(manager.into_inner().into_ring()),
    }
}

/// How the words ask for an input to be resealed. No words limit the number of entries, and the
/// moment that both managers are told is 0.
fn options_of(asked: &ResealWords) -> ResealOptions
    ensures { result ≡ record {
      settings = record {
        max_keys = None;
        max_unit = asked.now.max_unit;
        uncommitted = asked.now.uncommitted;
      };
      frame_length = asked.now.frame;
      now = 0;
    } }
{
    ResealOptions {
        settings: Settings {
            max_keys: None,
            max_unit: asked.max_unit,
            uncommitted: asked.uncommitted,
        },
        frame_length: asked.frame,
        now: 0,
    }
}

/// Puts the whole context of the message on the report, or why it wasn't resealed, and answers the
/// status.
fn report_end<R: Sink>(alloc: Global, ended: Result<Context, InputError>, report: &mut R) -> Status
    ensures status { is_status result.code ≡ true }
    ensures told { IfOk ended (λ context.
        TellsOrLacksMemory context result.code (R.state report.old) (R.state report.new)) }
    ensures said { IfErr ended (λ error.
        Reports (resealing_failure error) result.code (R.state report.old) (R.state report.new)) }
{
    match ended {
        Ok(context) => tell_context(alloc, &context, report),
        Err(error) => tell_failure(alloc, resealing_failure(error), report),
    }
}
