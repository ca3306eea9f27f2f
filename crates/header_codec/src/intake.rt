//! The bytes of a header that came so far, and how far they were read.

ghost use Rattle.std.specs.Prelude.{◌≡◌, [], ◌++◌, Err, length};
ghost use Rattle.esdk_fields.specs.declared.stops.Stop.TheVariants as stops;
ghost use Rattle.header_codec.specs.Found.{FindsHeader};

use crate::found::Found;
use crate::progress::Progress;
use crate::settings::Settings;
use esdk_fields::Stop;
use std::alloc::{AllocError, Global};
use std::marker::Model;

/// How many bytes of a piece are copied before the header is looked at again.
const SLICE: usize = 65_536;

/// The bytes of a header that came so far, and how far they were read. A contract sees an
/// `IntakeValue`.
#[derive(Drop)]
pub(crate) struct Intake {
    taken: Vec<u8>,
    progress: Progress,
}

impl Model for Intake {
    ghost use Rattle.header_codec.specs.Intake.{IntakeValue};
    ghost use Rattle.header_codec.specs.Progress.{HasReadSoFar};

    ghost Value = { IntakeValue };

    ghost view = { λ a. record { settings = a.progress.settings; taken = a.taken.items } };

    ghost invariant = { λ a. HasReadSoFar a.taken.items a.progress };
}

/// Makes room for more bytes: an eighth of those that there are at the least, so that they are
/// seldom moved, and at the most that or what is asked for, so that little room is left over.
fn make_room(bytes: &mut Vec<u8>, more: usize) -> Result<(), AllocError>
    ensures { bytes.new.items ≡ bytes.old.items }
{
    if bytes.capacity() - bytes.len() < more {
        bytes.reserve_exact(more.max(bytes.len() / 8))?;
    }
    Ok(())
}

impl Intake {
    /// No byte came yet.
    pub(crate) fn new(alloc: Global, settings: Settings) -> Intake
        ensures settings { result.settings ≡ settings }
        ensures taken { result.taken ≡ [] }
    {
        Intake {
            taken: Vec::new(alloc),
            progress: Progress::new(alloc, settings),
        }
    }

    /// How many bytes came.
    pub(crate) fn len(&self) -> usize
        ensures { result ≡ length self.now.taken }
    {
        self.taken.len()
    }

    /// More bytes came. Ok: the header, and the bytes are let go. Of a piece that is longer than a
    /// header's rest no more is copied than that rest and one slice.
    pub(crate) fn take(&mut self, alloc: Global, piece: &[u8]) -> Result<Found, Stop>
        ensures finds { FindsHeader self.old.settings (self.old.taken ++ piece.now) result }
        ensures settings { self.new.settings ≡ self.old.settings }
        ensures taken { result ≡ Err stops.Wanting → self.new.taken ≡ self.old.taken ++ piece.now }
    {
        let mut rest = piece;
        while SLICE < rest.len() {
            let (slice, others) = rest.split_at(SLICE);
            match self.take_slice(alloc, slice) {
                Ok(found) => return Ok(found),
                Err(Stop::Fault(fault, at)) => return Err(Stop::Fault(fault, at)),
                Err(Stop::Memory) => return Err(Stop::Memory),
                Err(Stop::Wanting) => rest = others,
            }
        }
        self.take_slice(alloc, rest)
    }

    /// The same of few bytes: all of them are copied.
    fn take_slice(&mut self, alloc: Global, piece: &[u8]) -> Result<Found, Stop>
        ensures finds { FindsHeader self.old.settings (self.old.taken ++ piece.now) result }
        ensures settings { self.new.settings ≡ self.old.settings }
        ensures taken { result ≡ Err stops.Wanting → self.new.taken ≡ self.old.taken ++ piece.now }
    {
        make_room(&mut self.taken, piece.len())?;
        self.taken.extend_from_slice(piece)?;
        let found = self.progress.advance(alloc, &mut self.taken)?;
        *self = Intake::new(alloc, self.progress.settings);
        Ok(found)
    }
}
