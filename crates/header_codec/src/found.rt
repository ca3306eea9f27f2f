//! Looking for a header at the front of bytes.

ghost use Rattle.header_codec.specs.Found.{FindsHeader};

use crate::header::Header;
use crate::intake::Intake;
use crate::settings::Settings;
use esdk_fields::Stop;
use std::alloc::Global;

/// A header, and the offset behind its authentication.
#[derive(Drop)]
pub struct Found {
    /// The header and its authentication.
    pub header: Header,
    /// Where the authentication ends, counted from the first byte of the header.
    pub end: usize,
}

/// The header that the bytes begin with, and where its authentication ends.
///
/// `Fault` with M1 to M9 or M23 to M26 and the offset where the field that has it ends; `Wanting`
/// where neither a fault nor the header's authentication is whole in the bytes; `Memory` where
/// memory runs out.
pub fn header_in(alloc: Global, settings: Settings, bytes: &[u8]) -> Result<Found, Stop>
    ensures { FindsHeader settings bytes.now result }
{
    let mut intake = Intake::new(alloc, settings);
    intake.take(alloc, bytes)
}
