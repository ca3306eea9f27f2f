//! A message that is resealed piece by piece.

ghost use Rattle.std.specs.Prelude.{◌≡◌, ℕ, ◌+◌, ◌*◌, ◌≤◌, [], ◌++◌, List, Some, length, take};
ghost use Rattle.std.specs.Prelude.{IfErr, IfOk, OnOk};
ghost use Rattle.std.specs.Option.{option_copied};
ghost use Rattle.keyring_trait.specs.Manager.{Went};
ghost use Rattle.stream_open.specs.Session.{whole_context};
ghost use Rattle.reseal_core.specs.Session.{ResealingValue};
ghost use Rattle.reseal_core.specs.Stands.{Stands};
ghost use Rattle.c_session.specs.Resealing.{EndsResealing, FeedsResealing, HowResealed};
ghost use Rattle.c_session.specs.Resealing.{ResealEndsFor, ResealerIsReady, ResealsNoMore};
ghost use Rattle.c_session.specs.Resealing.{ResealsSoFar};
ghost use Rattle.c_session.specs.Resealing.{SessionReseals, how_asked, unresealed_as};

use crate::reason::Reason;
use crate::tray::Tray;
use context_codec::Context;
use header_codec::Settings;
use keyring_trait::Manager;
use reseal_core::{ResealError, Resealer};
use session_parts::Waiting;
use std::alloc::{AllocError, Global};
use std::marker::Model;
use std::mem;

/// The most bytes of a message that are stepped through at once.
const MOST_STEPPED: usize = 65_536;

/// A resealer, and how many wraps the manager of its new message makes. A contract sees both.
#[derive(Drop)]
pub(crate) struct ResealMachine {
    resealer: Resealer,
    wraps: u32,
}

impl Model for ResealMachine {
    ghost use Rattle.std.specs.Prelude.{ℕ};
    ghost use Rattle.reseal_core.specs.declared.resealer.Resealer.{Resealer};
    ghost use Rattle.c_session.specs.Resealing.{ResealerIsReady};

    ghost Value = { Resealer × ℕ };

    ghost view = { λ m. (m.resealer, m.wraps) };

    ghost invariant = { λ m. ResealerIsReady m.resealer m.wraps };
}

impl ResealMachine {
    /// One that has taken nothing. The old message is opened with these limits and given pairs; the
    /// new one has frames of so many bytes, and is made with these random bytes. Fails only where
    /// memory runs out.
    pub(crate) fn new<A: Manager, B: Manager>(
        alloc: Global,
        opening: &A,
        sealing: &B,
        settings: Settings,
        given: Context,
        frame_length: u32,
        random: &[u8],
    ) -> Result<ResealMachine, AllocError>
        requires wide { 1 ≤ frame_length }
        requires drawn { length random.now ≡ 64 + 12 * (B.state sealing.now).meaning.wraps }
        ensures { IfOk result (λ machine. SessionReseals A.state B.state
            (record {
              settings = settings;
              pairs = given;
              size = frame_length;
              random = random.now;
            }) opening.now opening.now sealing.now sealing.now machine [] []) }
    {
        // What is known of a manager that isn't asked yet, `wraps` says.
        let _opening = opening.wraps();
        let wraps = sealing.wraps();
        let resealer = Resealer::new(alloc, settings, given, frame_length, random)?;
        Ok(ResealMachine { resealer, wraps })
    }

    /// Takes a piece of the old message. What it gives of the new one waits.
    pub(crate) fn feed<A: Manager, B: Manager>(
        &mut self,
        alloc: Global,
        opening: &mut A,
        sealing: &mut Option<B>,
        waiting: &mut Waiting,
        piece: &[u8],
    ) -> Result<(), Reason>
        ensures reseals { FeedsResealing A.state B.state opening.old opening.new sealing.old
            sealing.new self.old self.new waiting.old waiting.new piece.now result }
        ensures went { Went (A.state opening.old) (A.state opening.new) }
    {
        let wraps = self.wraps;
        feed_resealer(
            alloc,
            opening,
            sealing,
            &mut self.resealer,
            wraps,
            waiting,
            piece,
        )
    }

    /// Says that no byte of the old message follows. What that gives of the new one waits.
    pub(crate) fn end<A: Manager, B: Manager>(
        &mut self,
        alloc: Global,
        opening: &A,
        sealing: &Option<B>,
        waiting: &mut Waiting,
    ) -> Result<(), Reason>
        ensures { EndsResealing A.state B.state opening.now sealing.now self.old waiting.old
            waiting.new result }
    {
        let wraps = self.wraps;
        end_resealer(alloc, opening, sealing, &mut self.resealer, wraps, waiting)
    }

    /// The whole context, once the old header was unlocked.
    pub(crate) fn context(&self) -> Option<&Context>
        ensures { (v : ResealingValue) → Stands self.now.0 v
            → option_copied result ≡ whole_context v.opening }
    {
        self.resealer.context()
    }
}

/// Takes a piece of the old message. What it gives of the new one waits. The manager of the new
/// message is there, and makes as many wraps as when the message began.
fn feed_resealer<A: Manager, B: Manager>(
    alloc: Global,
    opening: &mut A,
    sealing: &mut Option<B>,
    resealer: &mut Resealer,
    wraps: u32,
    waiting: &mut Waiting,
    piece: &[u8],
) -> Result<(), Reason>
    requires ready { ResealerIsReady resealer.old wraps }
    ensures reseals { FeedsResealing A.state B.state opening.old opening.new sealing.old sealing.new
        (resealer.old, wraps) (resealer.new, wraps) waiting.old waiting.new piece.now result }
    ensures ready { ResealerIsReady resealer.new wraps }
    ensures went { Went (A.state opening.old) (A.state opening.new) }
{
    // What is known of a manager that isn't asked, `wraps` says.
    let _opening = opening.wraps();
    let Some(manager) = sealing else {
        return Err(Reason::Memory);
    };
    if manager.wraps() != wraps {
        return Err(Reason::Memory);
    }
    let mut tray = Tray {
        waiting: mem::replace(waiting, Waiting::new(alloc)),
        faults: 0,
    };
    let fed = feed_tray(alloc, opening, manager, resealer, &mut tray, piece);
    *waiting = tray.waiting;
    fed
}

/// Steps a resealer through all of a piece of the old message. What it gives is put to the tray.
fn feed_tray<A: Manager, B: Manager>(
    alloc: Global,
    opening: &mut A,
    sealing: &mut B,
    resealer: &mut Resealer,
    tray: &mut Tray,
    piece: &[u8],
) -> Result<(), Reason>
    requires ready { ResealerIsReady resealer.old (B.state sealing.old).meaning.wraps }
    requires none { tray.old.faults ≡ 0 }
    ensures on { (how : HowResealed) (begun : A) (first : B) (taken given : List ℕ)
        → ResealsSoFar A.state B.state how begun opening.old first sealing.old resealer.old taken
        (given ++ tray.old.waiting)
        → OnOk result (ResealsSoFar A.state B.state how begun opening.new first sealing.new
        resealer.new (taken ++ piece.now) (given ++ tray.new.waiting)) }
    ensures not { (how : HowResealed) (begun : A) (first : B) (taken given : List ℕ)
        → ResealsSoFar A.state B.state how begun opening.old first sealing.old resealer.old taken
        (given ++ tray.old.waiting)
        → IfErr result (ResealsNoMore (how_asked how (A.state begun) (A.state opening.new)
        (B.state first) (B.state sealing.new)) how.random taken piece.now
        (given ++ tray.new.waiting)) }
    ensures ready { ResealerIsReady resealer.new (B.state sealing.new).meaning.wraps }
    ensures opening { Went (A.state opening.old) (A.state opening.new) }
    ensures sealing { Went (B.state sealing.old) (B.state sealing.new) }
{
    // What is known of managers that aren't asked, `wraps` says.
    let _opening = opening.wraps();
    let _sealing = sealing.wraps();
    let mut fed = 0;
    'steps: while fed < piece.len() {
        let room = (piece.len() - fed).min(MOST_STEPPED);
        let left = &piece[fed..fed + room];
        match step_tray(alloc, opening, sealing, resealer, tray, left) {
            Ok(used) => fed += used,
            Err(reason) => return Err(reason),
        }
    }
    Ok(())
}

/// One step of a resealer: takes bytes of the old message from the front of what is left, at least
/// one, and answers how many. What it gives is put to the tray.
fn step_tray<A: Manager, B: Manager>(
    alloc: Global,
    opening: &mut A,
    sealing: &mut B,
    resealer: &mut Resealer,
    tray: &mut Tray,
    left: &[u8],
) -> Result<usize, Reason>
    requires ready { ResealerIsReady resealer.old (B.state sealing.old).meaning.wraps }
    requires none { tray.old.faults ≡ 0 }
    requires some { 1 ≤ length left.now }
    requires few { length left.now ≤ 65536 }
    ensures some { IfOk result (λ used. 1 ≤ used) }
    ensures within { IfOk result (λ used. used ≤ length left.now) }
    ensures none { OnOk result (tray.new.faults ≡ 0) }
    ensures on { (how : HowResealed) (begun : A) (first : B) (taken given : List ℕ)
        → ResealsSoFar A.state B.state how begun opening.old first sealing.old resealer.old taken
        (given ++ tray.old.waiting)
        → IfOk result (λ used. ResealsSoFar A.state B.state how begun opening.new first sealing.new
        resealer.new (taken ++ take used left.now) (given ++ tray.new.waiting)) }
    ensures not { (how : HowResealed) (begun : A) (first : B) (taken given : List ℕ)
        → ResealsSoFar A.state B.state how begun opening.old first sealing.old resealer.old taken
        (given ++ tray.old.waiting)
        → IfErr result (ResealEndsFor (how_asked how (A.state begun) (A.state opening.new)
        (B.state first) (B.state sealing.new)) how.random (taken ++ left.now)
        (given ++ tray.new.waiting)) }
    ensures ready { ResealerIsReady resealer.new (B.state sealing.new).meaning.wraps }
    ensures opening { Went (A.state opening.old) (A.state opening.new) }
    ensures sealing { Went (B.state sealing.old) (B.state sealing.new) }
{
    match resealer.step(alloc, opening, sealing, 0, left, tray) {
        Ok(used) => Ok(used),
        Err(error) => Err(unresealed(error)),
    }
}

/// Says that no byte of the old message follows. What that gives of the new one waits.
fn end_resealer<A: Manager, B: Manager>(
    alloc: Global,
    opening: &A,
    sealing: &Option<B>,
    resealer: &mut Resealer,
    wraps: u32,
    waiting: &mut Waiting,
) -> Result<(), Reason>
    requires ready { ResealerIsReady resealer.old wraps }
    ensures reseals { EndsResealing A.state B.state opening.now sealing.now (resealer.old, wraps)
        waiting.old waiting.new result }
    ensures ready { ResealerIsReady resealer.new wraps }
{
    let mut tray = Tray {
        waiting: mem::replace(waiting, Waiting::new(alloc)),
        faults: 0,
    };
    let ended = resealer.finish(&mut tray);
    *waiting = tray.waiting;
    match ended {
        Ok(()) => Ok(()),
        Err(error) => Err(unresealed(error)),
    }
}

/// Why a resealer isn't fed. It isn't that it stopped: it isn't asked any more then.
fn unresealed(error: ResealError) -> Reason
    ensures { result ≡ unresealed_as error }
{
    match error {
        ResealError::Fault(fault) => Reason::Fault(fault),
        ResealError::Refusal(refusal) => Reason::Refusal(refusal),
        ResealError::KeyringFault => Reason::Keyring,
        ResealError::SinkFault => Reason::Memory,
        ResealError::Stopped => Reason::Memory,
        ResealError::Memory => Reason::Memory,
    }
}
