//! The command `list`.
ghost use Rattle.std.specs.Prelude.{◌≡◌, ◌+◌, ◌≤◌, ◌^◌, true, IfErr, OnOk};
ghost use Rattle.esdk_base.specs.Streams.{OnTold};
ghost use Rattle.esdk_list.specs.List.{listing_fault};
ghost use Rattle.esdk_run.specs.Run.{AgreesWith, EndsBy, is_status};
ghost use Rattle.esdk_run.specs.Unarmoured.{outlook_of};
ghost use Rattle.esdk_run.specs.UnarmouredList.{ListEndsAs, ListsAs, wants_header};

use crate::failures::decryption_failure;
use crate::outcome::tell_failure;
use crate::unarmoured::{is_cut_short, judge_end};
use armour_core::UnarmouredSource;
use esdk_args::ListWords;
use esdk_base::{Sink, Source};
use esdk_list::list;
use esdk_report::{Failure, Status};
use std::alloc::Global;
use whole_input::Pieces;

/// Reads a header and its tag from the input, or from the bytes that it gives as armour text, and
/// writes the header's listing on the output.
pub fn run_list<S: Source, O: Sink, R: Sink>(
    alloc: Global,
    asked: &ListWords,
    input: &mut S,
    output: &mut O,
    report: &mut R,
) -> Status
    ensures status { is_status result.code ≡ true }
    ensures runs { EndsBy (ListsAs asked.now.armour asked.now.uncommitted
        (S.state input.old) (S.state input.new)
        (O.state output.old).written (O.state output.new).written)
        (ListEndsAs asked.now.armour asked.now.uncommitted (S.state input.old) (S.state input.new)
        (O.state output.old) (O.state output.new) (output.new ≡ output.old))
        result.code (R.state report.old) (R.state report.new) }
    ensures judged { OnTold (S.state input.old).left
        (λ bytes. AgreesWith result.code
        (listing_fault asked.now.uncommitted (outlook_of asked.now.armour bytes).bytes)) }
    ensures taken { (S.state input.new).given ≤ (S.state input.old).given + 2 ^ 62 }
{
    match list_input(alloc, asked.armour, asked.uncommitted, input, output) {
        Ok(()) => Status::DONE,
        Err(failure) => tell_failure(alloc, failure, report),
    }
}

/// Lists the input, or the bytes that it gives as armour text.
///
/// A text is judged to its end where its bytes end within a header: M27, X6 and X1 of that come in
/// place of M10. Behind a whole header nothing is judged, and behind it and behind a fault no more
/// of the text is taken than the piece that the header called for.
fn list_input<S: Source, O: Sink>(
    alloc: Global,
    armour: bool,
    uncommitted: bool,
    input: &mut S,
    output: &mut O,
) -> Result<(), Failure>
    ensures done { OnOk result (ListsAs armour uncommitted (S.state input.old) (S.state input.new)
        (O.state output.old).written (O.state output.new).written) }
    ensures ends { IfErr result (ListEndsAs armour uncommitted (S.state input.old)
        (S.state input.new) (O.state output.old) (O.state output.new) (output.new ≡ output.old)) }
    ensures taken { (S.state input.new).given ≤ (S.state input.old).given + 2 ^ 62 }
{
    if !armour {
        return list(alloc, input, output, uncommitted);
    }
    let Ok(pieces) = Pieces::new(alloc) else {
        return Err(Failure::Memory);
    };
    let mut text = UnarmouredSource::over(pieces, input);
    let ended = list(alloc, &mut text, output, uncommitted);
    let judged = judge_end(&mut text, wants_header(&ended));
    text.into_text();
    match judged {
        Ok(()) => ended,
        Err(error) => Err(decryption_failure(error)),
    }
}

/// Whether a listing ended so because its bytes end within a header.
fn wants_header(ended: &Result<(), Failure>) -> bool
    ensures { result ≡ wants_header ended.now }
{
    match ended {
        Err(Failure::Fault(fault)) => is_cut_short(fault),
        _ => false,
    }
}
