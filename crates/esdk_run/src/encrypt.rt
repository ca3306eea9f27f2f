//! The command `encrypt`.
ghost use Rattle.std.specs.Prelude.{◌≡◌, ◌+◌, ◌<◌, ◌≤◌, ◌^◌, true, length, IfErr, OnOk};
ghost use Rattle.esdk_report.specs.Report.{Reports};
ghost use Rattle.esdk_run.specs.Failures.{encryption_failure};
ghost use Rattle.esdk_run.specs.Objects.{as_before, objects};
ghost use Rattle.esdk_run.specs.Run.{EncryptRuns, IsDone, is_status};
ghost use Rattle.esdk_run.specs.Trees.{trees_of};

use crate::armoured_message::write_message;
use crate::failures::encryption_failure;
use crate::outcome::{Ended, not_begun, tell_failure};
use crate::prepared::{Prepared, prepare};
use esdk_args::EncryptWords;
use esdk_base::{Entropy, Shelf, Sink, Source};
use esdk_encrypt::{EncryptError, EncryptOptions};
use esdk_report::Status;
use keyring_file::Plug;
use keyring_trait::{EncRequest, Keyring};
use std::alloc::Global;

/// Writes the message of the whole input under the tree that the keyring file is read as, over the
/// context of the words: as it is or, where the words ask for it, as armour text. The tree is given
/// back as it is left, also after an error.
///
/// The pairs are read first, then the keyring file; then the random bytes are drawn; then the
/// request is judged; then the message is written, the header before the input is read, and each
/// frame before more of it is.
pub fn run_encrypt<P: Keyring, S: Source, O: Sink, R: Sink, F: Shelf, W: Entropy>(
    alloc: Global,
    asked: &EncryptWords,
    input: &mut S,
    output: &mut O,
    report: &mut R,
    shelf: &mut F,
    entropy: &mut W,
    plugs: Vec<Plug<P>>,
) -> Ended<P>
    requires some { 1 ≤ asked.now.frame }
    requires plugs { length plugs.items < 2 ^ 24 }
    ensures status { is_status result.status.code ≡ true }
    ensures runs { EncryptRuns (trees_of P.meaning plugs.items result.tree) asked.now
        (objects (S.state input.old) (O.state output.old) (F.state shelf.old)
        (W.state entropy.old) (R.state report.old))
        (objects (S.state input.new) (O.state output.new) (F.state shelf.new)
        (W.state entropy.new) (R.state report.new))
        (as_before (input.new ≡ input.old) (output.new ≡ output.old)
        (shelf.new ≡ shelf.old) (entropy.new ≡ entropy.old)) result.status.code }
    ensures files { (F.state shelf.new).files ≡ (F.state shelf.old).files }
    ensures taken { (S.state input.new).given ≤ (S.state input.old).given + 2 ^ 62 }
{
    let Prepared {
        context,
        mut manager,
    } = match prepare(alloc, &asked.pairs, &asked.keyring, shelf, plugs) {
        Ok(prepared) => prepared,
        Err(failure) => return not_begun(tell_failure(alloc, failure, report)),
    };
    let request = EncRequest::new(alloc, context, None);
    let options = EncryptOptions {
        frame_length: asked.frame,
        max_keys: asked.max_keys,
        now: 0,
    };
    let ended = write_message(
        alloc,
        asked.armour,
        &mut manager,
        &request,
        options,
        input,
        output,
        entropy,
    );
    Ended {
        status: report_end(alloc, ended, report),
        tree: Some(manager.into_inner().into_ring()),
    }
}

/// Puts on the report why the message wasn't written, if it wasn't, and answers the status.
fn report_end<R: Sink>(alloc: Global, ended: Result<(), EncryptError>, report: &mut R) -> Status
    ensures status { is_status result.code ≡ true }
    ensures done { OnOk ended (IsDone result.code (R.state report.old) (R.state report.new)) }
    ensures said { IfErr ended (λ error.
        Reports (encryption_failure error) result.code (R.state report.old) (R.state report.new)) }
{
    match ended {
        Ok(()) => Status::DONE,
        Err(error) => tell_failure(alloc, encryption_failure(error), report),
    }
}
