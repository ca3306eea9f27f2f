//! The command `decrypt`.
ghost use Rattle.std.specs.Prelude.{◌≡◌, ◌+◌, ◌<◌, ◌≤◌, ◌^◌, ⊤, true, length, IfErr, IfOk};
ghost use Rattle.esdk_base.specs.Streams.{EntropyState};
ghost use Rattle.esdk_decrypt.specs.Decrypt.{asked_from};
ghost use Rattle.esdk_report.specs.Report.{Reports};
ghost use Rattle.esdk_run.specs.Failures.{decryption_failure};
ghost use Rattle.esdk_run.specs.Objects.{as_before, objects};
ghost use Rattle.esdk_run.specs.Run.{DecryptRuns, TellsOrLacksMemory, is_status};
ghost use Rattle.esdk_run.specs.Trees.{trees_of};
ghost use Rattle.esdk_run.specs.UnarmouredDecrypt.{DecryptsAs, DecryptEndsAs, is_open};
ghost use Rattle.keyring_trait.specs.Manager.{Went};

use crate::context_told::tell_context;
use crate::failures::decryption_failure;
use crate::outcome::{Ended, not_begun, tell_failure};
use crate::prepared::{Prepared, prepare};
use crate::unarmoured::{is_cut_short, judge_end};
use armour_core::UnarmouredSource;
use context_codec::Context;
use esdk_args::DecryptWords;
use esdk_base::{Shelf, Sink, Source};
use esdk_decrypt::{DecryptError, decrypt};
use esdk_report::Status;
use header_codec::Settings;
use keyring_file::Plug;
use keyring_trait::{Keyring, Manager};
use std::alloc::Global;
use whole_input::Pieces;

/// Writes what the judgement of the input releases under the tree that the keyring file is read as,
/// with the pairs of the words given and their required keys demanded, and then the whole context
/// on the report. The tree is given back as it is left, also after an error.
///
/// The pairs are read first, then the keyring file, and then the input, each content being written
/// before more is read. Where the words ask for that, the input is read as armour text.
pub fn run_decrypt<P: Keyring, S: Source, O: Sink, R: Sink, F: Shelf>(
    alloc: Global,
    asked: &DecryptWords,
    input: &mut S,
    output: &mut O,
    report: &mut R,
    shelf: &mut F,
    plugs: Vec<Plug<P>>,
) -> Ended<P>
    requires plugs { length plugs.items < 2 ^ 24 }
    ensures status { is_status result.status.code ≡ true }
    ensures runs { (entropy : EntropyState)
        → DecryptRuns (trees_of P.meaning plugs.items result.tree) asked.now
        (objects (S.state input.old) (O.state output.old) (F.state shelf.old)
        entropy (R.state report.old))
        (objects (S.state input.new) (O.state output.new) (F.state shelf.new)
        entropy (R.state report.new))
        (as_before (input.new ≡ input.old) (output.new ≡ output.old) (shelf.new ≡ shelf.old) ⊤)
        result.status.code }
    ensures files { (F.state shelf.new).files ≡ (F.state shelf.old).files }
    ensures taken { (S.state input.new).given ≤ (S.state input.old).given + 2 ^ 62 }
{
    let Prepared {
        context,
        mut manager,
    } = match prepare(alloc, &asked.pairs, &asked.keyring, shelf, plugs) {
        Ok(prepared) => prepared,
        Err(failure) => return not_begun(tell_failure(alloc, failure, report)),
    };
    let settings = Settings {
        max_keys: asked.max_keys,
        max_unit: asked.max_unit,
        uncommitted: asked.uncommitted,
    };
    let armour = asked.armour;
    let ended = decrypt_input(
        alloc,
        &mut manager,
        settings,
        &context,
        armour,
        input,
        output,
    );
    Ended {
        status: report_end(alloc, ended, report),
        tree: Some(manager.into_inner().into_ring()),
    }
}

/// Decrypts the input, or the bytes that it gives as armour text, with these pairs given.
///
/// A text is judged to its end where its bytes have no fault: M27 and X6 of that come in place of
/// success and of M10, and so does X1. Behind a fault, and behind a failed write, no more of the
/// text is taken than the piece that the last of these bytes called for.
fn decrypt_input<M: Manager, S: Source, O: Sink>(
    alloc: Global,
    manager: &mut M,
    settings: Settings,
    given: &Context,
    armour: bool,
    input: &mut S,
    output: &mut O,
) -> Result<Context, DecryptError>
    ensures done { IfOk result (DecryptsAs armour
        (asked_from (M.state manager.old) (M.state manager.new) 0 settings given.now)
        (S.state input.old) (S.state input.new) (O.state output.old) (O.state output.new)) }
    ensures ends { IfErr result (DecryptEndsAs armour
        (asked_from (M.state manager.old) (M.state manager.new) 0 settings given.now)
        (S.state input.old) (S.state input.new) (O.state output.old) (O.state output.new)
        (output.new ≡ output.old)) }
    ensures went { Went (M.state manager.old) (M.state manager.new) }
    ensures taken { (S.state input.new).given ≤ (S.state input.old).given + 2 ^ 62 }
{
    if !armour {
        return decrypt(alloc, manager, 0, settings, given, input, output);
    }
    // Where the manager isn't asked, it stays as it is: `wraps` says what that keeps.
    let _wraps = manager.wraps();
    let Ok(pieces) = Pieces::new(alloc) else {
        return Err(DecryptError::Memory);
    };
    let mut text = UnarmouredSource::over(pieces, input);
    let ended = decrypt(alloc, manager, 0, settings, given, &mut text, output);
    let judged = judge_end(&mut text, is_open(&ended));
    text.into_text();
    judged?;
    ended
}

/// Whether no fault stands in bytes whose decryption ended so: they are a whole message, or it is
/// cut short.
fn is_open(ended: &Result<Context, DecryptError>) -> bool
    ensures { result ≡ is_open ended.now }
{
    match ended {
        Ok(_) => true,
        Err(DecryptError::Fault(fault)) => is_cut_short(fault),
        Err(_) => false,
    }
}

/// Puts the whole context of the message on the report, or why it wasn't decrypted, and answers the
/// status.
fn report_end<R: Sink>(
    alloc: Global,
    ended: Result<Context, DecryptError>,
    report: &mut R,
) -> Status
    ensures status { is_status result.code ≡ true }
    ensures told { IfOk ended (λ context.
        TellsOrLacksMemory context result.code (R.state report.old) (R.state report.new)) }
    ensures said { IfErr ended (λ error.
        Reports (decryption_failure error) result.code (R.state report.old) (R.state report.new)) }
{
    match ended {
        Ok(context) => tell_context(alloc, &context, report),
        Err(error) => tell_failure(alloc, decryption_failure(error), report),
    }
}
