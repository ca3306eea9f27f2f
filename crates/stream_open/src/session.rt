//! A message that is opened piece by piece.

ghost use Rattle.std.specs.Prelude.{◌≡◌, ◌≤◌, false, length, None, IfOk};
ghost use Rattle.std.specs.Option.{option_copied};
ghost use Rattle.keyring_trait.specs.Manager.{Went};
ghost use Rattle.stream_open.specs.Session.{OpeningValue, new_opening_session, judged_now};
ghost use Rattle.stream_open.specs.Session.{asked_header, opening_finish_answer, opening_finished};
ghost use Rattle.stream_open.specs.Session.{whole_context, only_authenticated, is_end};
ghost use Rattle.stream_open.specs.Stands.{Stands, OpenerSteps, quiet, unread_as};

use crate::errors::OpenError;
use crate::unlocked::{Unlocked, begun};
use context_codec::Context;
use esdk_fields::{Fault, FieldError};
use header_codec::{HeaderReader, Settings};
use keyring_trait::{Manager, Served};
use message_format::materials_for;
use std::alloc::Global;

/// Opens a message piece by piece: the header, which a materials manager unlocks, and one frame
/// after another, or the single block. Each content is handed out by the step that takes the last
/// byte of its unit, after its tag was checked. Once the header of a framed message is unlocked, no
/// step answers `Memory`. AWS Encryption SDK Specification, "Decrypt".
#[derive(Drop)]
pub struct Opener {
    settings: Settings,
    given: Context,
    reader: HeaderReader,
    served: Option<Served>,
    unlocked: Option<Unlocked>,
    stopped: bool,
}

impl Opener {
    /// An opener that has taken nothing. It keeps these limits, and the manager is told these pairs
    /// beside those that the header stores.
    pub fn new(alloc: Global, settings: Settings, given: Context) -> Opener
        ensures { Stands result (new_opening_session settings given) }
    {
        Opener {
            settings,
            given,
            reader: HeaderReader::new(alloc, settings),
            served: None,
            unlocked: None,
            stopped: false,
        }
    }

    /// The content that the last step released. It is empty where that step released none, before
    /// the first step, after `finish` and after an error.
    pub fn out(&self) -> &[u8]
        ensures { (v : OpeningValue) → Stands self.now v → result.now ≡ v.out }
    {
        match &self.unlocked {
            None => &[],
            Some(unlocked) => unlocked.body.unit.out(),
        }
    }

    /// Takes bytes up to the end of the piece, of the header's tag or of a unit, whichever is
    /// first, and answers how many; at least one where the piece isn't empty. At the end of the
    /// header's tag the manager is asked for the data key, at the moment `now`, in seconds; else it
    /// stays. At the end of a unit `out` is its content.
    ///
    /// - `Fault`: the bytes taken, followed by the piece, have this fault, and no unit is released
    ///   before it. M1 to M9 and M23 to M26 in the header, M11 to M15 where the manager doesn't
    ///   unlock it, M16 or M17 where its key or the header's tag isn't right, M9 and M18 to M22 in
    ///   the body.
    /// - `KeyringFault`: a keyring failed when the manager was asked.
    /// - `Memory`: memory ran out, and no content was given yet: in the header, or in a single
    ///   block that isn't whole.
    /// - `Stopped`: exactly where an earlier call answered an error.
    ///
    /// Any error leaves `out` empty and stops the opener.
    pub fn step<M: Manager>(
        &mut self,
        alloc: Global,
        manager: &mut M,
        now: u64,
        piece: &[u8],
    ) -> Result<usize, OpenError>
        ensures steps { (v : OpeningValue) → Stands self.old v → OpenerSteps (M.state manager.old)
            (M.state manager.new) now v piece.now result self.new }
        ensures within { (v : OpeningValue) → Stands self.old v
            → IfOk result (λ used. used ≤ length piece.now) }
        ensures went { Went (M.state manager.old) (M.state manager.new) }
        ensures unasked { (v : OpeningValue) → Stands self.old v → asked_header v piece.now ≡ None
            → manager.new ≡ manager.old }
    {
        // Where the manager isn't asked, it stays as it is: `wraps` says what that keeps.
        let _wraps = manager.wraps();
        if self.stopped {
            self.give_nothing();
            return Err(OpenError::Stopped);
        }
        if let Some(unlocked) = &mut self.unlocked {
            let answer = unlocked.body.step(piece);
            self.stopped = answer.is_err();
            return answer;
        }
        self.step_header(alloc, manager, now, piece)
    }

    /// Whether an earlier call answered an error.
    pub(crate) fn is_stopped(&self) -> bool
        ensures { result ≡ self.now.stopped }
    {
        self.stopped
    }

    /// Nothing is given any more.
    pub(crate) fn give_nothing(&mut self)
        ensures unlocked { self.new.unlocked ≡ quiet self.old.unlocked }
        ensures settings { self.new.settings ≡ self.old.settings }
        ensures given { self.new.given ≡ self.old.given }
        ensures reader { self.new.reader ≡ self.old.reader }
        ensures served { self.new.served ≡ self.old.served }
        ensures stopped { self.new.stopped ≡ self.old.stopped }
    {
        if let Some(unlocked) = &mut self.unlocked {
            unlocked.body.unit.go_on();
        }
    }

    /// A step while the header isn't unlocked.
    fn step_header<M: Manager>(
        &mut self,
        alloc: Global,
        manager: &mut M,
        now: u64,
        piece: &[u8],
    ) -> Result<usize, OpenError>
        requires manager { Went (M.state manager.old) (M.state manager.old) }
        requires going { self.old.stopped ≡ false }
        requires locked { self.old.unlocked ≡ None }
        ensures steps { (v : OpeningValue) → Stands self.old v → OpenerSteps (M.state manager.old)
            (M.state manager.new) now v piece.now result self.new }
        ensures within { (v : OpeningValue) → Stands self.old v
            → IfOk result (λ used. used ≤ length piece.now) }
        ensures went { Went (M.state manager.old) (M.state manager.new) }
        ensures unasked { (v : OpeningValue) → Stands self.old v → asked_header v piece.now ≡ None
            → manager.new ≡ manager.old }
    {
        self.stopped = true;
        let step = match self.reader.step(alloc, piece) {
            Ok(step) => step,
            Err(error) => return Err(unread(error)),
        };
        let Some(header) = self.reader.take_header() else {
            self.stopped = false;
            return Ok(step.used);
        };
        let asked = materials_for(alloc, manager, now, &self.given, header)?;
        self.served = Some(asked.materials.served());
        self.unlocked = Some(begun(alloc, asked, self.settings.max_unit)?);
        self.stopped = false;
        Ok(step.used)
    }

    /// Says that no byte follows. Ok exactly where the message is whole; M10 `Truncated` exactly
    /// where more bytes are wanted, and then the opener is stopped; `Stopped` exactly where an
    /// earlier call answered an error. In all cases `out` is empty.
    pub fn finish(&mut self) -> Result<(), OpenError>
        ensures answer { (v : OpeningValue) → Stands self.old v → result ≡ opening_finish_answer v }
        ensures stands { (v : OpeningValue) → Stands self.old v
            → Stands self.new (opening_finished v) }
    {
        self.give_nothing();
        if self.stopped {
            return Err(OpenError::Stopped);
        }
        if !self.is_whole() {
            self.stopped = true;
            return Err(OpenError::Fault(Fault::Truncated));
        }
        Ok(())
    }

    /// The whole context, once the header was unlocked: the pairs that it stores, and those that
    /// are only authenticated.
    pub fn context(&self) -> Option<&Context>
        ensures { (v : OpeningValue) → Stands self.now v → option_copied result ≡ whole_context v }
    {
        match &self.unlocked {
            None => None,
            Some(unlocked) => Some(&unlocked.whole),
        }
    }

    /// The whole context, once the header was unlocked, handed out.
    pub fn into_context(self) -> Option<Context>
        ensures { (v : OpeningValue) → Stands self v → result ≡ whole_context v }
    {
        let Opener { unlocked, .. } = self;
        match unlocked {
            None => None,
            Some(unlocked) => Some(unlocked.whole),
        }
    }

    /// The pairs of the context that are only authenticated, once the header was unlocked.
    pub fn only(&self) -> Option<&Context>
        ensures { (v : OpeningValue) → Stands self.now v
            → option_copied result ≡ only_authenticated v }
    {
        match &self.unlocked {
            None => None,
            Some(unlocked) => Some(&unlocked.only),
        }
    }

    /// How the manager's materials were served, once it answered them; also where the header wasn't
    /// unlocked with them.
    pub fn served(&self) -> Option<Served>
        ensures { (v : OpeningValue) → Stands self.now v → result ≡ v.served }
    {
        self.served
    }

    /// Whether the bytes taken are a whole message.
    pub fn is_whole(&self) -> bool
        ensures { (v : OpeningValue) → Stands self.now v → result ≡ is_end (judged_now v).verdict }
    {
        match &self.unlocked {
            None => false,
            Some(unlocked) => unlocked.body.ended,
        }
    }
}

/// Why a header isn't read.
fn unread(error: FieldError) -> OpenError
    ensures { result ≡ unread_as error }
{
    match error {
        FieldError::Fault(fault) => OpenError::Fault(fault),
        FieldError::Stopped => OpenError::Stopped,
        FieldError::Memory => OpenError::Memory,
    }
}
