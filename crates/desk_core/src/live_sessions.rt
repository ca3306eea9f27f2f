//! Sessions side by side over one materials manager.

ghost use Rattle.std.specs.Prelude.{◌≡◌, ◌≢◌, ◌↔◌, ℕ, Option, OnOk, OnErr, nat_eq, ◌+◌, ◌-◌, ◌*◌};
ghost use Rattle.std.specs.Prelude.{◌^◌, ◌<◌, ◌≤◌, false, [], length, Some, None, Err, IfOk, IfErr};
ghost use Rattle.std.specs.Prelude.{option_map};
ghost use Rattle.std.specs.Map.{update};
ghost use Rattle.std.specs.Option.{option_copied};
ghost use Rattle.keyring_trait.specs.Manager.{Went};
ghost use Rattle.keyring_trait.specs.Saying.{said_last};
ghost use Rattle.esdk_base.specs.declared.receiver.FeedError.TheVariants.{Machine};
ghost use Rattle.desk_core.specs.declared.errors.DeskError.TheVariants.{NotLive, Memory};
ghost use Rattle.desk_core.specs.Session.{SessionValue, sealed_header, context_of};
ghost use Rattle.desk_core.specs.Session.{header_asked_about, ended, dropped, desk_finish_answer};
ghost use Rattle.desk_core.specs.Session.{desk_finished};
ghost use Rattle.desk_core.specs.Desk.{DeskValue, empty_desk, after_desk_call, End, DropSession};
ghost use Rattle.desk_core.specs.Stands.{Stands, StandsFor, IsLive, IsWorth, AreLive, manager_of};
ghost use Rattle.desk_core.specs.Stands.{journal_of, last_of, work_at};
ghost use Rattle.desk_core.specs.Calls.{OpensSeal, OpensOpen, DeskFeeds};
ghost use Rattle.desk_core.specs.Receiving.{FeedsInto, FinishesSession, handed_over};

use crate::beginning::begin_sealing;
use crate::errors::DeskError;
use crate::receiving::feed_at;
use crate::seal_request::SealRequest;
use crate::session::{Session, boxed};
use crate::steps::step_at;
use context_codec::Context;
use esdk_base::{FeedError, Receiver};
use header_codec::Settings;
use keyring_trait::{JournalLine, Manager};
use std::alloc::Global;
use std::collections::BTreeMap;
use stream_open::Opener;

/// Sessions side by side, each of which seals or opens one message, over one materials manager.
/// Each has a number, by which the calls name it; numbers are drawn from 1 on, and none is drawn
/// twice. A session is live from its opening until it is ended, dropped or refused.
///
/// Every call answers and changes its own session alone. What the manager answered is recorded in a
/// journal, one line for each answer. A session is found in a number of steps that grows with the
/// logarithm of how many are live.
#[derive(Drop)]
pub struct Desk<M> {
    manager: M,
    sessions: BTreeMap<u64, Box<Session>>,
    last_id: u64,
    journal: Vec<JournalLine>,
    lent: Lent,
}

/// Where what the last call gave stands.
#[derive(Drop)]
pub(crate) enum Lent {
    /// It gave nothing.
    Nothing,
    /// In the buffer of the live session of this number.
    Live(u64),
    /// In the buffer of this session, which was ended.
    Ended(Box<Session>),
}

impl<M: Manager> Desk<M> {
    /// A desk over this manager, at which no session is live. It takes no memory yet.
    pub fn new(alloc: Global, manager: M) -> Desk<M>
        ensures stands { Stands result empty_desk }
        ensures manager { manager_of result ≡ manager }
        ensures bears { (M.state (manager_of result)).bears (journal_of result) }
    {
        // Every manager bears the empty journal: `wraps` says so.
        let _wraps = manager.wraps();
        Desk {
            manager,
            sessions: BTreeMap::new(alloc),
            last_id: 0,
            journal: Vec::new(alloc),
            lent: Lent::Nothing,
        }
    }

    /// The number that was drawn last; 0, before the first.
    pub fn last_id(&self) -> u64
        ensures last { result ≡ last_of self.now }
        ensures value { (v : DeskValue) → Stands self.now v → result ≡ v.last }
    {
        self.last_id
    }

    /// How many random bytes `open_seal` takes: 32 of message id, 32 of data key, and 12 of IV for
    /// each of the manager's wraps.
    pub fn draws(&self) -> u64
        ensures draws { result ≡ 64 + 12 * (M.state (manager_of self.now)).meaning.wraps }
        ensures most { result ≤ 832 }
        ensures went { Went (M.state (manager_of self.now)) (M.state (manager_of self.now)) }
    {
        64 + 12 * u64::from(self.manager.wraps())
    }

    /// Opens a session that seals a message, and answers its number, which is the next. The manager
    /// is asked for materials, at the moment `now`, in seconds. The first 32 of the random bytes
    /// are the message id, which must be used for no other message of the data key; the materials
    /// are made with the others.
    ///
    /// - `Refusal`: the manager refuses the request (Q4, Q1, Q5, Q6, in this order where it is
    ///   exact), or it gives more entries than the limit allows (Q7), or the header would be too
    ///   long (Q8).
    /// - `KeyringFault`: a keyring failed.
    /// - `Memory`: memory ran out.
    ///
    /// After an error the number was drawn all the same, no session has it, and every other session
    /// is as before. Where the manager answered with materials, its line is in the journal.
    pub fn open_seal(
        &mut self,
        alloc: Global,
        request: &SealRequest,
        now: u64,
        random: &[u8],
    ) -> Result<u64, DeskError>
        requires drawn { length random.now ≡
            64 + 12 * (M.state (manager_of self.old)).meaning.wraps }
        requires room { last_of self.old < 2 ^ 64 - 1 }
        ensures opens { (v : DeskValue) → Stands self.old v → OpensSeal
            (said_last (M.state (manager_of self.old)) (M.state (manager_of self.new)))
            v request.now now random.now result self.new }
        ensures last { last_of self.new ≡ last_of self.old + 1 }
        ensures went { Went (M.state (manager_of self.old)) (M.state (manager_of self.new)) }
        ensures bears { (M.state (manager_of self.old)).bears (journal_of self.old)
            → (M.state (manager_of self.new)).bears (journal_of self.new) }
    {
        self.lent = Lent::Nothing;
        self.last_id += 1;
        let id = self.last_id;
        let session = begin_sealing(
            alloc,
            &mut self.manager,
            &mut self.journal,
            request,
            id,
            now,
            random,
        )?;
        insert(&mut self.sessions, id, session)
    }

    /// Opens a session that opens a message, and answers its number, which is the next. It keeps
    /// these limits, and the manager is told these pairs beside those that the header stores.
    ///
    /// `Memory`: memory ran out. The number was drawn all the same, no session has it, and every
    /// other session is as before.
    pub fn open_open(
        &mut self,
        alloc: Global,
        settings: Settings,
        given: Context,
    ) -> Result<u64, DeskError>
        requires { last_of self.old < 2 ^ 64 - 1 }
        ensures opens { (v : DeskValue) → Stands self.old v
            → OpensOpen v settings given result self.new }
        ensures last { last_of self.new ≡ last_of self.old + 1 }
        ensures manager { manager_of self.new ≡ manager_of self.old }
        ensures journal { journal_of self.new ≡ journal_of self.old }
    {
        self.lent = Lent::Nothing;
        self.last_id += 1;
        let opener = Opener::new(alloc, settings, given);
        let session = boxed(alloc, Session::Opening(opener))?;
        insert(&mut self.sessions, self.last_id, session)
    }

    /// The header of a message that is sealed, and its tag, with which the message begins; nothing,
    /// of one that is opened.
    ///
    /// `NotLive`: no session of this number is live.
    pub fn header(&self, id: u64) -> Result<&[u8], DeskError>
        ensures header { (v : DeskValue) → Stands self.now v
            → IfOk result (λ header. option_map sealed_header (v.live id) ≡ Some header.now) }
        ensures not_live { (v : DeskValue) → Stands self.now v
            → IfErr result (λ error. (error ≡ NotLive) × (v.live id ≡ None)) }
    {
        match self.sessions.get(&id) {
            Some(session) => Ok(session.header()),
            None => Err(DeskError::NotLive),
        }
    }

    /// Takes bytes of the piece for this session, or gives a frame of it, as its sealer or opener
    /// does, and answers how many bytes were used. Where the header of a message that is opened
    /// becomes whole, the manager is asked for its data key, at the moment `now`, in seconds; else
    /// it stays as it is.
    ///
    /// - `NotLive`: exactly where no session of this number is live.
    /// - `Refusal`: more bytes came than were declared (Q10) or have room in a message (Q9).
    /// - `Fault`: the message that is opened has this fault.
    /// - `KeyringFault`: a keyring failed when the manager was asked.
    /// - `Memory`: memory ran out, for a message that is opened, and no content of it was given
    ///   yet.
    ///
    /// Any error leaves `out` empty and ends this session, and no other.
    pub fn feed(
        &mut self,
        alloc: Global,
        id: u64,
        now: u64,
        piece: &[u8],
    ) -> Result<usize, DeskError>
        ensures feeds { (v : DeskValue) → Stands self.old v → DeskFeeds
            (M.state (manager_of self.old)) (M.state (manager_of self.new))
            v id now piece.now result self.new }
        ensures not_live { (v : DeskValue) → Stands self.old v → (result ≡ Err NotLive)
            ↔ (v.live id ≡ None) }
        ensures within { (v : DeskValue) → Stands self.old v
            → IfOk result (λ used. used ≤ length piece.now) }
        ensures falls { (v : DeskValue) → Stands self.old v
            → IfOk result (λ used. 1 ≤ length piece.now
            → work_at self.new id (length piece.now - used) < work_at self.old id
            (length piece.now)) }
        ensures went { Went (M.state (manager_of self.old)) (M.state (manager_of self.new)) }
        ensures bears { (v : DeskValue) → Stands self.old v
            → (M.state (manager_of self.old)).bears (journal_of self.old)
            → (M.state (manager_of self.new)).bears (journal_of self.new) }
        ensures unasked { (v : DeskValue) → Stands self.old v
            → header_asked_about (v.live id) piece.now ≡ None
            → manager_of self.new ≡ manager_of self.old }
    {
        self.lent = Lent::Nothing;
        let used = step_at(
            alloc,
            &mut self.sessions,
            &mut self.manager,
            &mut self.journal,
            id,
            now,
            piece,
        )?;
        self.lent = Lent::Live(id);
        Ok(used)
    }

    /// Feeds a whole piece to this session, as its sealer or opener takes it, and hands each frame
    /// or content to the receiver as soon as it is given. Where the header of a message that is
    /// opened becomes whole, the manager is asked for its data key, at the moment `now`, in
    /// seconds; else it stays as it is.
    ///
    /// - `NotLive`: exactly where no session of this number is live.
    /// - `Refusal`: the piece has a byte beyond those declared (Q10) or beyond those that have room
    ///   in a message (Q9); the receiver took what the bytes before it give.
    /// - `Fault`: the message that is opened has this fault; the receiver took what is released
    ///   before it.
    /// - `KeyringFault`: a keyring failed when the manager was asked; nothing was handed over.
    /// - `Memory`: memory ran out, for a message that is opened, and no content of it was given
    ///   yet.
    /// - `Receiver`: the receiver failed at what was given. It isn't asked again.
    ///
    /// Any error ends this session, and no other. `out` is empty then, as after Ok.
    pub fn feed_into<R: Receiver>(
        &mut self,
        alloc: Global,
        id: u64,
        now: u64,
        piece: &[u8],
        output: &mut R,
    ) -> Result<(), FeedError<DeskError, R::Error>>
        requires { IsWorth self.old }
        ensures feeds { (v : DeskValue) → Stands self.old v
            → FeedsInto M.state R.takes R.fails v id now piece.now self.old self.new output.old
            output.new result }
        ensures not_live { (v : DeskValue) → Stands self.old v
            → (result ≡ Err (Machine NotLive)) ↔ (v.live id ≡ None) }
        ensures went { Went (M.state (manager_of self.old)) (M.state (manager_of self.new)) }
        ensures bears { (v : DeskValue) → Stands self.old v
            → (M.state (manager_of self.old)).bears (journal_of self.old)
            → (M.state (manager_of self.new)).bears (journal_of self.new) }
    {
        self.lent = Lent::Nothing;
        feed_at(
            alloc,
            &mut self.sessions,
            &mut self.manager,
            &mut self.journal,
            id,
            now,
            piece,
            output,
        )
    }

    /// Ends this session, which isn't live any more. Of a message that is sealed it gives the final
    /// frame; of one that is opened it gives nothing. Takes no memory.
    ///
    /// - `NotLive`: exactly where no session of this number is live.
    /// - `Fault`: M10 `Truncated`, exactly where the message that is opened isn't whole.
    ///
    /// Any error leaves `out` empty. Every other session is as before.
    pub fn end(&mut self, id: u64) -> Result<(), DeskError>
        ensures answer { (v : DeskValue) → Stands self.old v → result ≡ (ended (v.live id)).answer }
        ensures not_live { (v : DeskValue) → Stands self.old v → (result ≡ Err NotLive)
            ↔ (v.live id ≡ None) }
        ensures stands { (v : DeskValue) → Stands self.old v
            → Stands self.new (after_desk_call v id false End) }
        ensures manager { manager_of self.new ≡ manager_of self.old }
        ensures journal { journal_of self.new ≡ journal_of self.old }
    {
        self.lent = Lent::Nothing;
        match self.sessions.remove(&id) {
            Some(session) => {
                let session = after_end(session)?;
                self.lent = Lent::Ended(session);
                Ok(())
            }
            None => Err(DeskError::NotLive),
        }
    }

    /// Ends this session, which isn't live any more, and hands the final frame of a message that is
    /// sealed to the receiver. Takes no memory.
    ///
    /// - `NotLive`: exactly where no session of this number is live.
    /// - `Fault`: M10 `Truncated`, exactly where the message that is opened isn't whole.
    /// - `Receiver`: the receiver failed at the final frame.
    ///
    /// `out` is empty. Every other session is as before.
    pub fn end_into<R: Receiver>(
        &mut self,
        id: u64,
        output: &mut R,
    ) -> Result<(), FeedError<DeskError, R::Error>>
        ensures finishes { (v : DeskValue) → Stands self.old v
            → FinishesSession R.takes R.fails (v.live id) output.old output.new result }
        ensures not_live { (v : DeskValue) → Stands self.old v
            → (result ≡ Err (Machine NotLive)) ↔ (v.live id ≡ None) }
        ensures stands { (v : DeskValue) → Stands self.old v
            → Stands self.new (handed_over v id [] None) }
        ensures manager { manager_of self.new ≡ manager_of self.old }
        ensures journal { journal_of self.new ≡ journal_of self.old }
    {
        self.lent = Lent::Nothing;
        match self.sessions.remove(&id) {
            Some(session) => finish_into(session, output),
            None => Err(FeedError::Machine(DeskError::NotLive)),
        }
    }

    /// What the last call gave, where it was a `feed` or an `end` that answered no error, among the
    /// calls that open, feed, end or drop a session; else it is empty.
    pub fn out(&self) -> &[u8]
        ensures { (v : DeskValue) → Stands self.now v → result.now ≡ v.out }
    {
        match &self.lent {
            Lent::Nothing => &[],
            Lent::Live(id) => match self.sessions.get(id) {
                Some(session) => session.given(),
                None => &[],
            },
            Lent::Ended(session) => session.given(),
        }
    }

    /// The whole context of a message that is opened, once its header was unlocked; none, of one
    /// that is sealed.
    ///
    /// `NotLive`: no session of this number is live.
    pub fn context(&self, id: u64) -> Result<Option<&Context>, DeskError>
        ensures context { (v : DeskValue) → Stands self.now v
            → IfOk result (λ context. option_map context_of (v.live id) ≡ Some
            (option_copied context)) }
        ensures not_live { (v : DeskValue) → Stands self.now v
            → IfErr result (λ error. (error ≡ NotLive) × (v.live id ≡ None)) }
    {
        match self.sessions.get(&id) {
            Some(session) => Ok(session.context()),
            None => Err(DeskError::NotLive),
        }
    }

    /// Drops this session, which isn't live any more. Every other session is as before.
    ///
    /// `NotLive`: exactly where no session of this number is live.
    pub fn drop_session(&mut self, id: u64) -> Result<(), DeskError>
        ensures answer { (v : DeskValue) → Stands self.old v
            → result ≡ (dropped (v.live id)).answer }
        ensures stands { (v : DeskValue) → Stands self.old v
            → Stands self.new (after_desk_call v id false DropSession) }
        ensures manager { manager_of self.new ≡ manager_of self.old }
        ensures journal { journal_of self.new ≡ journal_of self.old }
    {
        self.lent = Lent::Nothing;
        match self.sessions.remove(&id) {
            Some(session) => {
                drop(session);
                Ok(())
            }
            None => Err(DeskError::NotLive),
        }
    }

    /// What the manager answered: one line for each answer with materials, in the order of the
    /// calls. Where the manager bears these lines, they are within the limits of its cache; a new
    /// desk's manager does, and every call keeps it.
    pub fn journal(&self) -> &[JournalLine]
        ensures lines { (v : DeskValue) → Stands self.now v → result.now ≡ v.journal }
        ensures journal { result.now ≡ journal_of self.now }
        ensures within { (M.state (manager_of self.now)).bears (journal_of self.now)
            → (M.state (manager_of self.now)).within result.now }
    {
        // What a manager bears is within its limits: `wraps` says so.
        let _wraps = self.manager.wraps();
        &self.journal
    }

    /// The manager, as it stands.
    pub fn into_manager(self) -> M
        ensures { result ≡ manager_of self }
    {
        self.manager
    }
}

/// Makes a session live under this number, which no other has. `Memory`: memory ran out, and the
/// same sessions are live as before.
fn insert(
    sessions: &mut BTreeMap<u64, Box<Session>>,
    id: u64,
    session: Box<Session>,
) -> Result<u64, DeskError>
    ensures ok { (live : ℕ → Option SessionValue) (s : SessionValue) → AreLive sessions.old live
        → StandsFor session.value s → IsLive s
        → OnOk result (AreLive sessions.new (update nat_eq live id (Some s))) }
    ensures number { IfOk result (λ number. number ≡ id) }
    ensures err { (live : ℕ → Option SessionValue) → AreLive sessions.old live
        → OnErr result (AreLive sessions.new live) }
    ensures memory { IfErr result (λ error. error ≡ Memory) }
{
    match sessions.insert(id, session) {
        Ok(_) => Ok(id),
        Err(_) => Err(DeskError::Memory),
    }
}

/// Ends a session, and hands what its end gives to the receiver.
fn finish_into<R: Receiver>(
    session: Box<Session>,
    output: &mut R,
) -> Result<(), FeedError<DeskError, R::Error>>
    ensures finishes { (s : SessionValue) → StandsFor session.value s → IsLive s
        → FinishesSession R.takes R.fails (Some s) output.old output.new result }
    ensures live { (s : SessionValue) → StandsFor session.value s → IsLive s
        → result ≢ Err (Machine NotLive) }
{
    let mut session = session;
    session.finish_into(output)
}

/// The session after its end, where it answers no error.
fn after_end(session: Box<Session>) -> Result<Box<Session>, DeskError>
    ensures ok { (s : SessionValue) → StandsFor session.value s
        → IfOk result (λ machine. StandsFor machine.value (desk_finished s)) }
    ensures answer { (s : SessionValue) → StandsFor session.value s
        → OnOk result (desk_finish_answer s ≡ Ok tt) }
    ensures err { (s : SessionValue) → StandsFor session.value s
        → IfErr result (λ error. desk_finish_answer s ≡ Err error) }
{
    let mut session = session;
    session.finish()?;
    Ok(session)
}
