//! Reading a header that comes in pieces.

ghost use Rattle.std.specs.Prelude.{◌≡◌, None};
ghost use Rattle.std.specs.Option.{option_copied};
ghost use Rattle.header_codec.specs.Session.{Session, new_header_session, HeaderAnswers};
ghost use Rattle.header_codec.specs.Session.{header_stepped, ShowsHeader};
ghost use Rattle.header_codec.specs.Stands.{Stands};

use crate::header::Header;
use crate::intake::Intake;
use crate::settings::Settings;
use esdk_fields::{FieldError, Stop};
use std::alloc::Global;

/// What a step did: the bytes of the piece that it used, and whether the header and its
/// authentication are whole.
#[derive(Clone, Copy)]
pub struct HeaderStep {
    /// How many bytes of the piece were used.
    pub used: usize,
    /// Whether the header and its authentication are whole.
    pub ready: bool,
}

/// Reads one header from pieces of bytes, and judges each field as soon as it is whole. What was
/// read whole isn't read again: a step goes on where reading stands, at the context, at an
/// encrypted data key or behind them, and reads of what isn't whole yet its lengths and short
/// fields alone. So the time is that of the bytes and of the steps, however the bytes are cut, and
/// a length takes no memory before its bytes come.
#[derive(Drop)]
pub struct HeaderReader {
    intake: Intake,
    stopped: bool,
    found: Option<Header>,
}

impl HeaderReader {
    /// A reader that has taken nothing.
    pub fn new(alloc: Global, settings: Settings) -> HeaderReader
        ensures { Stands result (new_header_session settings) }
    {
        HeaderReader {
            intake: Intake::new(alloc, settings),
            stopped: false,
            found: None,
        }
    }

    /// Takes bytes up to the end of the piece, or of the header's authentication, and says how
    /// many, and whether the header and its authentication are whole.
    ///
    /// A fault M1 to M9 or M23 to M26 comes with the last byte of the field that has it. After any
    /// error, want of memory too, every later step answers `Stopped`, and it comes only then. After
    /// the header is whole a step uses nothing.
    pub fn step(&mut self, alloc: Global, piece: &[u8]) -> Result<HeaderStep, FieldError>
        ensures answer { (v : Session) → Stands self.old v → HeaderAnswers v piece.now result }
        ensures stands { (v : Session) → Stands self.old v
            → Stands self.new (header_stepped v piece.now result) }
    {
        if self.stopped {
            return Err(FieldError::Stopped);
        }
        if self.found.is_some() {
            return Ok(HeaderStep {
                used: 0,
                ready: true,
            });
        }
        self.stopped = true;
        let had = self.intake.len();
        match self.intake.take(alloc, piece) {
            Ok(found) => {
                self.stopped = false;
                self.found = Some(found.header);
                // What was taken before held no whole header, so this one ends behind it.
                Ok(HeaderStep {
                    used: found.end.saturating_sub(had),
                    ready: true,
                })
            }
            Err(Stop::Wanting) => {
                self.stopped = false;
                Ok(HeaderStep {
                    used: piece.len(),
                    ready: false,
                })
            }
            Err(Stop::Fault(fault, _)) => Err(FieldError::Fault(fault)),
            Err(Stop::Memory) => Err(FieldError::Memory),
        }
    }

    /// The header, once it and its authentication are whole. None exactly until then.
    pub fn header(&self) -> Option<&Header>
        ensures { (v : Session) → Stands self.now v → ShowsHeader v (option_copied result) }
    {
        self.found.as_ref()
    }

    /// The header that `header` shows, itself: nothing of it is copied. None exactly until it and
    /// its authentication are whole.
    pub fn into_header(self) -> Option<Header>
        ensures { (v : Session) → Stands self v → ShowsHeader v result }
    {
        self.found
    }

    /// Hands out the header that `header` shows: nothing of it is copied. None exactly until it and
    /// its authentication are whole, and then the reader stays as it is; else nothing is known of
    /// it any more.
    pub fn take_header(&mut self) -> Option<Header>
        ensures shows { (v : Session) → Stands self.old v → ShowsHeader v result }
        ensures same { result ≡ None → self.new ≡ self.old }
    {
        self.found.take()
    }
}
