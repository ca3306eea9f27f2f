//! Taking a header from a source.
ghost use Rattle.std.specs.Prelude.{◌≡◌, ◌+◌, ◌≤◌, ◌^◌, List, ℕ, IfOk, IfErr};
ghost use Rattle.header_codec.specs.declared.settings.Settings.{Settings};
ghost use Rattle.header_input.specs.Feeding.{FeedsHeaderReader, Waits};
ghost use Rattle.header_input.specs.Taking.{HoldsHeader, NoneCame};

use crate::errors::NoHeader;
use esdk_base::Source;
use esdk_fields::FieldError;
use header_codec::{HeaderReader, Settings};
use std::alloc::Global;
use whole_input::Pieces;

/// Takes bytes from the source until a header and its authentication are whole, and answers the
/// reader that has the header. It is taken within these limits.
///
/// The source is read in pieces of at most 65,536 bytes, whose buffer is taken before the first
/// read, and fewer than 65,536 bytes are taken behind the header's authentication. What comes
/// behind it isn't judged.
///
/// - `Fault`: a field of the bytes that came has it, and fewer than 65,536 bytes came behind that.
/// - `End`: the end was seen, a read failed, or 2^62 bytes came; those that came are the beginning
///   of a header.
/// - `Memory`: memory ran out, before the first read or at the last piece that came; the bytes
///   before that piece are the beginning of a header.
pub fn take_header<S: Source>(
    alloc: Global,
    input: &mut S,
    settings: Settings,
) -> Result<HeaderReader, NoHeader>
    ensures whole { IfOk result (λ reader. HoldsHeader settings reader (S.state input.old)
        (S.state input.new)) }
    ensures cause { IfErr result (NoneCame settings (S.state input.old) (S.state input.new)) }
    ensures taken { (S.state input.new).given ≤ (S.state input.old).given + 2 ^ 62 }
    ensures lasts { S.lasts input.old input.new }
{
    let mut pieces = Pieces::new(alloc)?;
    let mut reader = HeaderReader::new(alloc, settings);
    'reading: loop {
        if let Err(end) = pieces.next(input) {
            return Err(NoHeader::End(end));
        }
        if feed(alloc, &mut reader, pieces.piece())? {
            return Ok(reader);
        }
    }
}

/// Feeds a piece to a reader that waits for more, and answers whether its header is whole.
fn feed(alloc: Global, reader: &mut HeaderReader, piece: &[u8]) -> Result<bool, NoHeader>
    requires { (settings : Settings) × (taken : List ℕ) × Waits settings reader.old taken }
    ensures { (settings : Settings) (taken : List ℕ) → Waits settings reader.old taken
        → FeedsHeaderReader settings taken piece.now reader.new result }
{
    match reader.step(alloc, piece) {
        Ok(step) => Ok(step.ready),
        Err(FieldError::Fault(fault)) => Err(NoHeader::Fault(fault)),
        Err(FieldError::Memory) => Err(NoHeader::Memory),
        Err(FieldError::Stopped) => unreachable!(),
    }
}
