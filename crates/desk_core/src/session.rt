//! One session: a machine that seals a message, or one that opens one.

ghost use Rattle.std.specs.Prelude.{◌≡◌, ◌≢◌, ◌-◌, ◌<◌, ◌≤◌, List, Err, Some, length, IfOk, IfErr};
ghost use Rattle.std.specs.Option.{option_copied};
ghost use Rattle.esdk_base.specs.declared.receiver.FeedError.TheVariants.{Machine};
ghost use Rattle.stream_seal.specs.declared.errors.SealError.{SealError};
ghost use Rattle.desk_core.specs.declared.errors.DeskError.TheVariants.{Memory, NotLive};
ghost use Rattle.desk_core.specs.Session.{SessionValue, session_out, sealed_header, context_of};
ghost use Rattle.desk_core.specs.Session.{desk_finish_answer, desk_finished, seal_error};
ghost use Rattle.desk_core.specs.Session.{open_error};
ghost use Rattle.desk_core.specs.Receiving.{FinishesSession};
ghost use Rattle.desk_core.specs.Stands.{IsLive, StandsFor};

use crate::errors::DeskError;
use crate::receiving::sealing_failed;
use context_codec::Context;
use esdk_base::{FeedError, Receiver};
use std::alloc::Global;
use stream_open::{OpenError, Opener};
use stream_seal::{SealError, Sealer};

/// A session of a desk.
#[derive(Drop)]
pub(crate) enum Session {
    /// A message that is sealed.
    Sealing(Sealer),
    /// A message that is opened.
    Opening(Opener),
}

impl Session {
    /// What the last step, or `finish`, gave.
    pub(crate) fn given(&self) -> &[u8]
        ensures { (s : SessionValue) → StandsFor self.now s → result.now ≡ session_out s }
    {
        match self {
            Session::Sealing(sealer) => sealer.out(),
            Session::Opening(opener) => opener.out(),
        }
    }

    /// What a message begins with that is sealed; nothing, of one that is opened.
    pub(crate) fn header(&self) -> &[u8]
        ensures { (s : SessionValue) → StandsFor self.now s → result.now ≡ sealed_header s }
    {
        match self {
            Session::Sealing(sealer) => sealer.header(),
            Session::Opening(_) => &[],
        }
    }

    /// The whole context of a message that is opened, once its header is unlocked.
    pub(crate) fn context(&self) -> Option<&Context>
        ensures { (s : SessionValue) → StandsFor self.now s → option_copied result ≡ context_of s }
    {
        match self {
            Session::Sealing(_) => None,
            Session::Opening(opener) => opener.context(),
        }
    }

    /// Ends the message.
    pub(crate) fn finish(&mut self) -> Result<(), DeskError>
        ensures answer { (s : SessionValue) → StandsFor self.old s → result ≡ desk_finish_answer s }
        ensures stands { (s : SessionValue) → StandsFor self.old s
            → StandsFor self.new (desk_finished s) }
    {
        match self {
            Session::Sealing(sealer) => match sealer.finish() {
                Ok(()) => Ok(()),
                Err(error) => Err(sealer_failed(error)),
            },
            Session::Opening(opener) => match opener.finish() {
                Ok(()) => Ok(()),
                Err(error) => Err(opener_failed(error)),
            },
        }
    }

    /// Ends the message, and hands the final frame of one that is sealed to the receiver.
    pub(crate) fn finish_into<R: Receiver>(
        &mut self,
        output: &mut R,
    ) -> Result<(), FeedError<DeskError, R::Error>>
        ensures finishes { (s : SessionValue) → StandsFor self.old s → IsLive s
            → FinishesSession R.takes R.fails (Some s) output.old output.new result }
        ensures live { (s : SessionValue) → StandsFor self.old s → IsLive s
            → result ≢ Err (Machine NotLive) }
    {
        match self {
            Session::Sealing(sealer) => match sealer.finish_into(output) {
                Ok(()) => Ok(()),
                Err(error) => Err(sealing_failed(error)),
            },
            Session::Opening(opener) => match opener.finish() {
                Ok(()) => Ok(()),
                Err(error) => Err(FeedError::Machine(opener_failed(error))),
            },
        }
    }
}

/// The session on the heap, where it stays, since it is large. `Memory`: memory ran out.
pub(crate) fn boxed(alloc: Global, session: Session) -> Result<Box<Session>, DeskError>
    ensures value { IfOk result (λ machine. machine.value ≡ session) }
    ensures memory { IfErr result (λ error. error ≡ Memory) }
{
    match Box::new(alloc, session) {
        Ok(machine) => Ok(machine),
        Err(_) => Err(DeskError::Memory),
    }
}

/// What the desk calls the error of a sealer. A session that is live isn't stopped.
pub(crate) fn sealer_failed(error: SealError) -> DeskError
    ensures { result ≡ seal_error error }
{
    match error {
        SealError::Refusal(refusal) => DeskError::Refusal(refusal),
        SealError::Stopped => DeskError::NotLive,
        SealError::Memory => DeskError::Memory,
    }
}

/// What the desk calls the error of an opener.
pub(crate) fn opener_failed(error: OpenError) -> DeskError
    ensures { result ≡ open_error error }
{
    match error {
        OpenError::Fault(fault) => DeskError::Fault(fault),
        OpenError::KeyringFault => DeskError::KeyringFault,
        OpenError::Stopped => DeskError::NotLive,
        OpenError::Memory => DeskError::Memory,
    }
}
