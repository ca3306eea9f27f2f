//! A session: one message after another, over one materials manager.

ghost use Rattle.std.specs.Prelude.{◌≡◌, ◌≤◌, ◌+◌, ◌*◌, [], length, false, None};
ghost use Rattle.std.specs.Option.{option_copied};
ghost use Rattle.c_session.specs.declared.answer.Answer.TheVariants.{Failed};
ghost use Rattle.c_session.specs.Session.{BeginsOpening, BeginsSealing, SessionEnds, EndsWith};
ghost use Rattle.c_session.specs.Session.{SessionFeeds, HandsOutOf, IsFresh, OpensNow, PairsAs};
ghost use Rattle.c_session.specs.Session.{RequiresAs, SealsFrom, MachineTellsContext, ended_for};
ghost use Rattle.c_session.specs.Session.{ResealsFrom, going_answer, settled_session};
ghost use Rattle.c_session.specs.Session.{setting_answer, settled_answer};

use crate::answer::Answer;
use crate::beginning::begin_message;
use crate::machine::{Machine, end_machine, feed_machine};
use crate::opening::OpenMachine;
use crate::placing::put;
use crate::reason::Reason;
use crate::resealing::ResealMachine;
use cmm_required::RequiredCmm;
use context_codec::{Context, KeySet, PairError};
use header_codec::Settings;
use keyring_trait::Manager;
use session_parts::{Waiting, end_for, requiring};
use std::alloc::Global;
use std::mem;

/// One message after another, over one materials manager. While one is resealed, `sealing` is the
/// manager of the new message.
#[derive(Drop)]
pub struct Session<M> {
    pub(crate) manager: RequiredCmm<M>,
    pub(crate) pairs: Context,
    pub(crate) required: KeySet,
    pub(crate) machine: Machine,
    pub(crate) sealing: Option<M>,
    pub(crate) waiting: Waiting,
    pub(crate) ended: bool,
    pub(crate) reason: Option<Reason>,
}

impl<M: Manager> Session<M> {
    /// A session that is set up: no pair, no required key.
    pub fn new(alloc: Global, manager: M) -> Session<M>
        ensures fresh { IsFresh result }
        ensures manager { result.manager.0 ≡ manager }
    {
        Session {
            manager: RequiredCmm::new(manager, KeySet::new(alloc)),
            pairs: Context::new(alloc),
            required: KeySet::new(alloc),
            machine: Machine::SetUp,
            sealing: None,
            waiting: Waiting::new(alloc),
            ended: false,
            reason: None,
        }
    }

    /// The session set up again, for another message; what waited is gone.
    pub fn again(self, alloc: Global) -> Session<M>
        ensures fresh { IsFresh result }
        ensures manager { result.manager.0 ≡ self.manager.0 }
    {
        drop(self.machine);
        drop(self.sealing);
        drop(self.reason);
        Session::new(alloc, self.manager.into_inner())
    }

    /// The session over the manager that requires the keys of its set, which is empty then.
    fn with_keys(self, alloc: Global) -> Session<M>
        ensures { result ≡ record self {
          manager = (self.manager.0, self.required);
          required = [];
        } }
    {
        let mut session = self;
        session.manager = requiring(session.manager, session.required);
        session.required = KeySet::new(alloc);
        session
    }

    /// Why a call that sets it up doesn't fit, if it doesn't.
    pub(crate) fn setting_answer(&self) -> Option<Answer>
        ensures { result ≡ setting_answer self.now }
    {
        if self.ended {
            return Some(Answer::Ended);
        }
        match self.machine {
            Machine::SetUp => None,
            _ => Some(Answer::NotNow),
        }
    }

    /// Why a call that goes on with a message doesn't fit, if it doesn't.
    fn going_answer(&self) -> Option<Answer>
        ensures { result ≡ going_answer self.now }
    {
        if self.ended {
            return Some(Answer::Ended);
        }
        match self.machine {
            Machine::SetUp => Some(Answer::NotNow),
            _ => None,
        }
    }

    /// What a call comes to that went so: an error ends the session.
    fn settle(&mut self, came: Result<(), Reason>) -> Answer
        ensures session { self.new ≡ settled_session self.old came }
        ensures answer { result ≡ settled_answer came }
    {
        match came {
            Ok(()) => Answer::Done,
            Err(reason) => self.fail(reason),
        }
    }

    /// The session ends for this reason.
    pub(crate) fn fail(&mut self, reason: Reason) -> Answer
        ensures session { self.new ≡ ended_for self.old reason }
        ensures answer { result ≡ Failed }
    {
        end_for(&mut self.ended, &mut self.reason, reason);
        Answer::Failed
    }

    /// Puts a pair. Both are UTF-8.
    pub fn pair(&mut self, alloc: Global, key: &[u8], value: &[u8]) -> Answer
        ensures { PairsAs self.old self.new key.now value.now result }
    {
        if let Some(answer) = self.setting_answer() {
            return answer;
        }
        let Ok(key) = str::from_utf8(key) else {
            return Answer::NotText;
        };
        let Ok(value) = str::from_utf8(value) else {
            return Answer::NotText;
        };
        match self.pairs.insert(alloc, key, value) {
            Ok(()) => Answer::Done,
            Err(PairError::Refusal(refusal)) => self.fail(Reason::Refusal(refusal)),
            Err(PairError::Memory) => self.fail(Reason::Memory),
        }
    }

    /// Requires a key, which is UTF-8.
    pub fn require(&mut self, alloc: Global, key: &[u8]) -> Answer
        ensures { RequiresAs self.old self.new key.now result }
    {
        if let Some(answer) = self.setting_answer() {
            return answer;
        }
        let Ok(key) = str::from_utf8(key) else {
            return Answer::NotText;
        };
        match self.required.insert(alloc, key) {
            Ok(()) => Answer::Done,
            Err(_) => self.fail(Reason::Memory),
        }
    }

    /// How many random bytes a message takes that is sealed.
    pub fn draws(&self) -> u32
        ensures draws { result ≡ 64 + 12 * (M.state self.now.manager.0).meaning.wraps }
        ensures most { result ≤ 832 }
    {
        64 + 12 * self.manager.wraps()
    }

    /// Begins a message that is sealed, in frames of so many bytes, with these random bytes.
    pub fn seal(
        self,
        alloc: Global,
        frame_length: u32,
        declared: Option<u64>,
        max_keys: Option<u16>,
        random: &[u8],
    ) -> (Answer, Session<M>)
        ensures { BeginsSealing M.state self result.1 frame_length declared max_keys random.now
            result.0 }
    {
        if let Some(answer) = self.setting_answer() {
            return (answer, self);
        }
        if frame_length == 0 {
            return (Answer::BadFrame, self);
        }
        if random.len() != self.draws() as usize {
            return (Answer::BadRandom, self);
        }
        let mut session = self.with_keys(alloc);
        let answer = session.begin_seal(alloc, frame_length, declared, max_keys, random);
        (answer, session)
    }

    /// Begins a message that is sealed, where the session is set up, and its manager has its keys.
    fn begin_seal(
        &mut self,
        alloc: Global,
        frame_length: u32,
        declared: Option<u64>,
        max_keys: Option<u16>,
        random: &[u8],
    ) -> Answer
        requires on { self.old.ended ≡ false }
        requires some { 1 ≤ frame_length }
        requires drawn { length random.now ≡ 64 + 12 * (M.state self.old.manager.0).meaning.wraps }
        ensures { SealsFrom M.state self.old self.new frame_length declared max_keys random.now
            result }
    {
        put(&mut self.waiting, Waiting::new(alloc));
        let pairs = mem::replace(&mut self.pairs, Context::new(alloc));
        match begin_message(
            alloc,
            &mut self.manager,
            pairs,
            declared,
            frame_length,
            max_keys,
            random,
            &mut self.waiting,
        ) {
            Ok(sealer) => {
                put(&mut self.machine, Machine::Sealing(sealer));
                Answer::Done
            }
            Err(reason) => self.fail(reason),
        }
    }

    /// Begins a message that is opened, with these limits.
    pub fn open(self, alloc: Global, settings: Settings) -> (Answer, Session<M>)
        ensures { BeginsOpening M.state self result.1 settings result.0 }
    {
        if let Some(answer) = self.setting_answer() {
            return (answer, self);
        }
        let mut session = self.with_keys(alloc);
        session.begin_open(alloc, settings);
        (Answer::Done, session)
    }

    /// Begins a message that is opened, where the session is set up, and its manager has its keys.
    fn begin_open(&mut self, alloc: Global, settings: Settings)
        requires { self.old.ended ≡ false }
        ensures { OpensNow M.state self.new self.old.manager settings self.old.pairs [] [] }
    {
        put(&mut self.waiting, Waiting::new(alloc));
        let pairs = mem::replace(&mut self.pairs, Context::new(alloc));
        let opener = OpenMachine::new(alloc, &self.manager, settings, pairs);
        put(&mut self.machine, Machine::Opening(opener));
    }

    /// Begins a message that is resealed, where the session is set up: the old one is opened with
    /// these limits, and the new one sealed by this manager, in frames of so many bytes, with these
    /// random bytes.
    pub(crate) fn reseal(
        self,
        alloc: Global,
        sealing: M,
        frame_length: u32,
        settings: Settings,
        random: &[u8],
    ) -> (Answer, Session<M>)
        requires on { self.ended ≡ false }
        requires some { 1 ≤ frame_length }
        requires drawn { length random.now ≡ 64 + 12 * (M.state sealing).meaning.wraps }
        ensures { ResealsFrom M.state (self.manager.0, self.required) self.pairs result.1 sealing
            frame_length settings random.now result.0 }
    {
        let mut session = self.with_keys(alloc);
        let answer = session.begin_reseal(alloc, sealing, frame_length, settings, random);
        (answer, session)
    }

    /// The same, where the manager of the old message has its keys.
    fn begin_reseal(
        &mut self,
        alloc: Global,
        sealing: M,
        frame_length: u32,
        settings: Settings,
        random: &[u8],
    ) -> Answer
        requires on { self.old.ended ≡ false }
        requires some { 1 ≤ frame_length }
        requires drawn { length random.now ≡ 64 + 12 * (M.state sealing).meaning.wraps }
        ensures { ResealsFrom M.state self.old.manager self.old.pairs self.new sealing frame_length
            settings random.now result }
    {
        put(&mut self.waiting, Waiting::new(alloc));
        let pairs = mem::replace(&mut self.pairs, Context::new(alloc));
        match ResealMachine::new(
            alloc,
            &self.manager,
            &sealing,
            settings,
            pairs,
            frame_length,
            random,
        ) {
            Ok(resealer) => {
                put(&mut self.machine, Machine::Resealing(resealer));
                put(&mut self.sealing, Some(sealing));
                Answer::Done
            }
            Err(_) => self.fail(Reason::Memory),
        }
    }

    /// Takes a piece, of a text or of a message. What it gives waits.
    pub fn feed(&mut self, alloc: Global, piece: &[u8]) -> Answer
        ensures { SessionFeeds M.state self.old self.new piece.now result }
    {
        if let Some(answer) = self.going_answer() {
            return answer;
        }
        let fed = feed_machine(
            alloc,
            &mut self.machine,
            &mut self.manager,
            &mut self.sealing,
            &mut self.waiting,
            piece,
        );
        self.settle(fed)
    }

    /// Says that no byte follows. What that gives waits.
    pub fn finish(&mut self, alloc: Global) -> Answer
        ensures { SessionEnds M.state self.old self.new result }
    {
        if let Some(answer) = self.going_answer() {
            return answer;
        }
        let ended = end_machine(
            alloc,
            &mut self.machine,
            &self.manager,
            &self.sealing,
            &mut self.waiting,
        );
        self.ended = true;
        self.settle(ended)
    }

    /// Takes the rest of a text or of a message, and says that no byte follows. What that gives
    /// waits.
    pub fn whole(&mut self, alloc: Global, rest: &[u8]) -> Answer
        ensures { EndsWith M.state self.old self.new rest.now result }
    {
        match self.feed(alloc, rest) {
            Answer::Done => self.finish(alloc),
            answer => answer,
        }
    }

    /// Hands out of what waits, to the front of the room, and answers how many bytes.
    pub fn take(&mut self, room: &mut [u8]) -> usize
        ensures { HandsOutOf M.state self.old room.old result self.new room.new }
    {
        self.waiting.hand_out(room)
    }

    /// How many bytes wait.
    pub fn waits(&self) -> usize
        ensures { result ≡ length self.now.waiting }
    {
        self.waiting.count()
    }

    /// Why it ended, where it was an error.
    pub fn reason(&self) -> Option<&Reason>
        ensures { option_copied result ≡ self.now.reason }
    {
        self.reason.as_ref()
    }

    /// The whole context of the message that is opened, once its header was unlocked.
    pub fn context(&self) -> Option<&Context>
        ensures { MachineTellsContext self.now.machine (option_copied result) }
    {
        match &self.machine {
            Machine::SetUp => None,
            Machine::Sealing(_) => None,
            Machine::Opening(opener) => opener.context(),
            Machine::Resealing(resealer) => resealer.context(),
        }
    }
}
