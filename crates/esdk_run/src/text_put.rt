//! A text that is put on the output whole.
ghost use Rattle.std.specs.Prelude.{IfErr, OnOk};
ghost use Rattle.esdk_base.specs.Receiver.{SinkTakes};
ghost use Rattle.esdk_run.specs.TextPut.{PutFails};

use esdk_base::Sink;
use esdk_fields::{Blob, Outside};
use esdk_report::Failure;

/// Puts the text on the output, at once. `SinkFault`, where that failed: a front of it was put.
pub(crate) fn put_text<O: Sink>(text: &Blob, output: &mut O) -> Result<(), Failure>
    ensures done { OnOk result (SinkTakes (O.state output.old) (O.state output.new) text.now) }
    ensures fails { IfErr result (PutFails text.now (O.state output.old) (O.state output.new)) }
{
    match output.put(text.bytes()) {
        Ok(()) => Ok(()),
        Err(_) => Err(Failure::Outside(Outside::SinkFault)),
    }
}
