//! The front of a message: its header, which is read without a key.

ghost use Rattle.c_session.specs.Front.{ListsHeaderFront, ReadsHeaderFront};

use crate::reason::Reason;
use esdk_fields::{Blob, Fault, Stop};
use esdk_list::list_text;
use header_codec::{Header, Settings, header_in};
use session_parts::settings;
use std::alloc::Global;

/// The listing of the header that the bytes begin with: the lines that the program's `list` prints.
/// No limits are set; a header of a message that doesn't commit to its data key is a fault (M23),
/// unless the caller allows these. What stands behind the header isn't judged.
///
/// - `Fault`: the header has this fault; M10 `Truncated`, where the bytes end before it is whole.
/// - `Memory`: memory ran out.
pub fn front_text(alloc: Global, message: &[u8], uncommitted: bool) -> Result<Blob, Reason>
    ensures { ListsHeaderFront uncommitted message.now result }
{
    match front_of(alloc, settings(0, 0, uncommitted), message) {
        Ok(header) => match list_text(alloc, &header) {
            Ok(text) => Ok(text),
            Err(_) => Err(Reason::Memory),
        },
        Err(reason) => Err(reason),
    }
}

/// The header that the bytes begin with, within these limits.
///
/// - `Fault`: the header has this fault; M10 `Truncated`, where the bytes end before it is whole.
/// - `Memory`: memory ran out.
pub(crate) fn front_of(alloc: Global, settings: Settings, bytes: &[u8]) -> Result<Header, Reason>
    ensures { ReadsHeaderFront settings bytes.now result }
{
    match header_in(alloc, settings, bytes) {
        Ok(found) => Ok(found.header),
        Err(Stop::Fault(fault, _)) => Err(Reason::Fault(fault)),
        Err(Stop::Wanting) => Err(Reason::Fault(Fault::Truncated)),
        Err(Stop::Memory) => Err(Reason::Memory),
    }
}
