//! A session over the tree of a keyring file: what stands behind a handle of another language.

ghost use Rattle.std.specs.Prelude.{◌≡◌, ◌≤◌, IfSome, length};
ghost use Rattle.std.specs.Option.{option_copied, option_map};
ghost use Rattle.context_codec.specs.Fitting.{IsSized};
ghost use Rattle.c_session.specs.Asking.{AsksOpeners};
ghost use Rattle.c_session.specs.Reason.{name_of};
ghost use Rattle.c_session.specs.Telling.{ShowsIf, ShowsLine, ShowsSome};
ghost use Rattle.c_session.specs.Session.{BeginsOpening, BeginsSealing, SessionEnds, EndsWith};
ghost use Rattle.c_session.specs.Session.{SessionFeeds, PairsAs, RequiresAs};
ghost use Rattle.session_parts.specs.Handed.{handed_of};
ghost use Rattle.c_session.specs.Ranging.{AsksRange};
ghost use Rattle.c_session.specs.FileSession.{Again, KeepsRead, OfContext, SessionReadsFile};
ghost use Rattle.c_session.specs.FileSession.{SessionShowsContext, TakesKept, answer_code};
ghost use Rattle.c_session.specs.FileSession.{drawn_by, first_answer, kept_code};
ghost use Rattle.c_session.specs.FileSession.{pair_at, reason_kept, waiting_in};
ghost use Rattle.c_session.specs.FileTree.{file_state};
ghost use Rattle.c_session.specs.NewKeys.{BeginsResealing};

use crate::answer::Answer;
use crate::asking::{NoAnswer, TreeSession, ask_session};
use crate::file_tree::read_manager;
use crate::new_keys::reseal_session;
use crate::no_range::NoRange;
use crate::placing::put;
use crate::ranging::ask_range;
use crate::reason::Reason;
use crate::session::Session;
use crate::telling::show;
use audit_core::Openers;
use context_codec::{Context, Pair};
use esdk_fields::Blob;
use header_codec::Settings;
use session_parts::{HandedBytes, settings};
use std::alloc::Global;
use std::mem;

/// A session over the tree of a keyring file; or why the file wasn't read.
#[derive(Drop)]
pub(crate) enum Kept {
    /// The file is refused, or memory ran out.
    Refused(Reason),
    /// A session over its tree.
    Read(TreeSession),
}

/// A session over the tree of a keyring file. Where the file wasn't read it has ended.
pub struct FileSession {
    pub(crate) kept: Kept,
}

/// A session is dropped here, so that no crate above proves again how its parts are.
impl Drop for FileSession {
    fn drop(self) {
        let FileSession { kept } = self;
        drop(kept);
    }
}

impl FileSession {
    /// A session that is set up, over the tree of the keyring file in these bytes.
    pub fn new(alloc: Global, file: &[u8]) -> FileSession
        ensures { SessionReadsFile file.now result.kept }
    {
        FileSession {
            kept: read(alloc, file),
        }
    }

    /// Sets the session up again, for another message.
    pub fn again(&mut self, alloc: Global) -> Answer
        ensures { Again self.old.kept self.new.kept result }
    {
        match taken(&mut self.kept) {
            Kept::Refused(reason) => {
                put(&mut self.kept, Kept::Refused(reason));
                Answer::Ended
            }
            Kept::Read(session) => {
                put(&mut self.kept, Kept::Read(session.again(alloc)));
                Answer::Done
            }
        }
    }

    /// Puts a pair. Both are UTF-8.
    pub fn pair(&mut self, alloc: Global, key: &[u8], value: &[u8]) -> Answer
        ensures { KeepsRead self.old.kept self.new.kept result
            (λ old new. PairsAs old new key.now value.now result) }
    {
        match &mut self.kept {
            Kept::Refused(_) => Answer::Ended,
            Kept::Read(session) => session.pair(alloc, key, value),
        }
    }

    /// Requires a key, which is UTF-8.
    pub fn require(&mut self, alloc: Global, key: &[u8]) -> Answer
        ensures { KeepsRead self.old.kept self.new.kept result
            (λ old new. RequiresAs old new key.now result) }
    {
        match &mut self.kept {
            Kept::Refused(_) => Answer::Ended,
            Kept::Read(session) => session.require(alloc, key),
        }
    }

    /// The leaves of the tree that open, each by itself, the message whose header these bytes begin
    /// with, when the session's pairs are given. The session is set up, and stays so: it is a
    /// question, which begins no message and ends no session. A message that doesn't commit to its
    /// data key is M23.
    ///
    /// - `Call`: the session isn't set up any more (`NotNow`), or has ended (`Ended`).
    /// - `Reason`: the header's fault, or M10 where the bytes end before it is whole; M11, M12 or
    ///   M14, which its pairs and the session's have; a keyring failed; memory ran out.
    pub fn openers(&mut self, alloc: Global, message: &[u8]) -> Result<Openers, NoAnswer>
        ensures { AsksOpeners self.old.kept self.new.kept message.now result }
    {
        match taken(&mut self.kept) {
            Kept::Refused(reason) => {
                put(&mut self.kept, Kept::Refused(reason));
                Err(NoAnswer::Call(Answer::Ended))
            }
            Kept::Read(session) => {
                let (asked, session) = ask_session(alloc, session, message);
                put(&mut self.kept, Kept::Read(session));
                asked
            }
        }
    }

    /// The range of the text of the message that has these bytes: `count` bytes from byte `at` on, as
    /// far as there are any, with the session's pairs given and its keys required. Each frame is
    /// opened after its tag was found right, and nothing is given where one is wrong. Frames before
    /// the range and behind it aren't judged, and needn't be handed over. The session is set up, and
    /// stays so: it is a question. A message that doesn't commit to its data key is M23, unless the
    /// caller allows these.
    ///
    /// - `Call`: the session isn't set up any more (`NotNow`), or has ended (`Ended`).
    /// - `TooFar`: `at` or `count` is over 2^62.
    /// - `Missing`: bytes are wanted that weren't handed over.
    /// - `Reason`: the first fault that applies of the header's, of the manager's (M11 to M15), of
    ///   the lock's (M16, M17) and of the frames' (M18 to M20; M20, M21 of a single block; M10 where
    ///   the message ends in the range's first frame, or before it); a keyring failed; memory ran
    ///   out.
    pub fn range(
        &mut self,
        alloc: Global,
        bytes: HandedBytes<'_>,
        uncommitted: bool,
        at: u64,
        count: u64,
    ) -> Result<Blob, NoRange>
        ensures { AsksRange self.old.kept self.new.kept (handed_of bytes.entry) uncommitted at count
            result }
    {
        match taken(&mut self.kept) {
            Kept::Refused(reason) => {
                put(&mut self.kept, Kept::Refused(reason));
                Err(NoRange::Call(Answer::Ended))
            }
            Kept::Read(session) => {
                let limits = settings(0, 0, uncommitted);
                let (came, session) = ask_range(alloc, session, bytes, limits, at, count);
                put(&mut self.kept, Kept::Read(session));
                came
            }
        }
    }

    /// How many random bytes a message takes that is sealed; none, where no file was read.
    pub fn draws(&self) -> u32
        ensures draws { result ≡ drawn_by self.now.kept }
        ensures most { result ≤ 832 }
    {
        match &self.kept {
            Kept::Refused(_) => 0,
            Kept::Read(session) => session.draws(),
        }
    }

    /// Begins a message that is sealed, in frames of so many bytes, with these random bytes.
    pub fn seal(
        &mut self,
        alloc: Global,
        frame_length: u32,
        declared: Option<u64>,
        max_keys: Option<u16>,
        random: &[u8],
    ) -> Answer
        ensures { KeepsRead self.old.kept self.new.kept result (λ old new.
            BeginsSealing file_state old new frame_length declared max_keys random.now result) }
    {
        match taken(&mut self.kept) {
            Kept::Refused(reason) => {
                put(&mut self.kept, Kept::Refused(reason));
                Answer::Ended
            }
            Kept::Read(session) => {
                let (answer, session) = session.seal(
                    alloc,
                    frame_length,
                    declared,
                    max_keys,
                    random,
                );
                put(&mut self.kept, Kept::Read(session));
                answer
            }
        }
    }

    /// Begins a message that is opened, with these limits.
    pub fn open(&mut self, alloc: Global, settings: Settings) -> Answer
        ensures { KeepsRead self.old.kept self.new.kept result
            (λ old new. BeginsOpening file_state old new settings result) }
    {
        match taken(&mut self.kept) {
            Kept::Refused(reason) => {
                put(&mut self.kept, Kept::Refused(reason));
                Answer::Ended
            }
            Kept::Read(session) => {
                let (answer, session) = session.open(alloc, settings);
                put(&mut self.kept, Kept::Read(session));
                answer
            }
        }
    }

    /// Begins a message that is resealed: an old one is opened with these limits, by the session's
    /// tree and with its pairs, and a new one of its text and its whole context is sealed under the
    /// tree of the keyring file in these bytes, in frames of so many bytes, with these random
    /// bytes. A file that is refused ends the session.
    pub fn reseal(
        &mut self,
        alloc: Global,
        file: &[u8],
        frame_length: u32,
        settings: Settings,
        random: &[u8],
    ) -> Answer
        ensures { KeepsRead self.old.kept self.new.kept result (λ old new.
            BeginsResealing old new file.now frame_length settings random.now result) }
    {
        match taken(&mut self.kept) {
            Kept::Refused(reason) => {
                put(&mut self.kept, Kept::Refused(reason));
                Answer::Ended
            }
            Kept::Read(session) => {
                let (answer, session) = reseal_session(
                    alloc,
                    session,
                    file,
                    frame_length,
                    settings,
                    random,
                );
                put(&mut self.kept, Kept::Read(session));
                answer
            }
        }
    }

    /// Takes a piece, of a text or of a message. What it gives waits.
    pub fn feed(&mut self, alloc: Global, piece: &[u8]) -> Answer
        ensures { KeepsRead self.old.kept self.new.kept result
            (λ old new. SessionFeeds file_state old new piece.now result) }
    {
        match &mut self.kept {
            Kept::Refused(_) => Answer::Ended,
            Kept::Read(session) => session.feed(alloc, piece),
        }
    }

    /// Says that no byte follows. What that gives waits.
    pub fn finish(&mut self, alloc: Global) -> Answer
        ensures { KeepsRead self.old.kept self.new.kept result
            (λ old new. SessionEnds file_state old new result) }
    {
        match &mut self.kept {
            Kept::Refused(_) => Answer::Ended,
            Kept::Read(session) => session.finish(alloc),
        }
    }

    /// Takes the rest of a text or of a message, and says that no byte follows. What that gives
    /// waits.
    pub fn whole(&mut self, alloc: Global, rest: &[u8]) -> Answer
        ensures { KeepsRead self.old.kept self.new.kept result
            (λ old new. EndsWith file_state old new rest.now result) }
    {
        match &mut self.kept {
            Kept::Refused(_) => Answer::Ended,
            Kept::Read(session) => session.whole(alloc, rest),
        }
    }

    /// Hands out of what waits, to the front of the room, and answers how many bytes.
    pub fn take(&mut self, room: &mut [u8]) -> usize
        ensures { TakesKept self.old.kept room.old result self.new.kept room.new }
    {
        match &mut self.kept {
            Kept::Refused(_) => 0,
            Kept::Read(session) => session.take(room),
        }
    }

    /// How many bytes wait.
    pub fn waits(&self) -> usize
        ensures { result ≡ length (waiting_in self.now.kept) }
    {
        match &self.kept {
            Kept::Refused(_) => 0,
            Kept::Read(session) => session.waits(),
        }
    }

    /// Why it ended, where it was an error.
    pub fn reason(&self) -> Option<&Reason>
        ensures { option_copied result ≡ reason_kept self.now.kept }
    {
        match &self.kept {
            Kept::Refused(reason) => Some(reason),
            Kept::Read(session) => session.reason(),
        }
    }

    /// What a new session answers: that it is done, or that it failed.
    pub fn first_answer(&self) -> Answer
        ensures { result ≡ first_answer self.now.kept }
    {
        match &self.kept {
            Kept::Refused(_) => Answer::Failed,
            Kept::Read(_) => Answer::Done,
        }
    }

    /// Shows the line of the reason, or its name where memory runs out; nothing where there is
    /// none.
    pub fn show_line(&self, alloc: Global, room: &mut [u8]) -> usize
        ensures { ShowsLine (reason_kept self.now.kept) room.old result room.new }
    {
        let Some(reason) = self.reason() else {
            return 0;
        };
        match reason.line(alloc) {
            Ok(line) => show(line.bytes(), room),
            Err(_) => show(reason.name().as_bytes(), room),
        }
    }

    /// Shows the name of the reason; nothing where there is none.
    pub fn show_name(&self, room: &mut [u8]) -> usize
        ensures { ShowsIf (option_map name_of (reason_kept self.now.kept)) room.old result
            room.new }
    {
        match self.reason() {
            Some(reason) => show(reason.name().as_bytes(), room),
            None => 0,
        }
    }

    /// How many pairs the whole context has, where it is known.
    pub fn pair_count(&self) -> Option<usize>
        ensures counts { OfContext self.now.kept (λ context. result ≡ option_map length context) }
        ensures few { IfSome result (λ count. count ≤ 65535) }
    {
        Some(self.context()?.pairs().len())
    }

    /// Shows the key of the pair of this number, where there is one.
    pub fn show_key(&self, index: usize, room: &mut [u8]) -> Option<usize>
        ensures shows { OfContext self.now.kept (λ context.
            ShowsSome (option_map (λ pair. pair.0) (pair_at context index)) room.old result
            room.new) }
        ensures few { IfSome result (λ count. count ≤ 65535) }
    {
        let pair = self.pair_at(index)?;
        Some(show(pair.key().as_bytes(), room))
    }

    /// Shows the value of the pair of this number, where there is one.
    pub fn show_value(&self, index: usize, room: &mut [u8]) -> Option<usize>
        ensures shows { OfContext self.now.kept (λ context.
            ShowsSome (option_map (λ pair. pair.1) (pair_at context index)) room.old result
            room.new) }
        ensures few { IfSome result (λ count. count ≤ 65535) }
    {
        let pair = self.pair_at(index)?;
        Some(show(pair.value().as_bytes(), room))
    }

    /// The pair of this number, where there is one.
    fn pair_at(&self, index: usize) -> Option<&Pair>
        ensures pair { OfContext self.now.kept (λ context.
            option_copied result ≡ pair_at context index) }
        ensures sized { IfSome result (λ pair. IsSized pair.now) }
    {
        self.context()?.pairs().get(index)
    }

    /// The whole context of the message that is opened, once its header was unlocked.
    pub fn context(&self) -> Option<&Context>
        ensures { SessionShowsContext self.now.kept (option_copied result) }
    {
        match &self.kept {
            Kept::Refused(_) => None,
            Kept::Read(session) => session.context(),
        }
    }

    /// The code of an answer: 0, one of the caller's, or that of the reason.
    pub fn code(&self, answer: Answer) -> u32
        ensures code { result ≡ answer_code answer (reason_kept self.now.kept) }
        ensures few { result ≤ 9999 }
    {
        code_for(answer, self.reason())
    }
}

/// The code of an answer: 0, one of the caller's, or that of this reason.
pub(crate) fn code_for(answer: Answer, reason: Option<&Reason>) -> u32
    ensures code { result ≡ answer_code answer (option_copied reason.entry) }
    ensures few { result ≤ 9999 }
{
    match answer {
        Answer::Done => 0,
        Answer::NotNow => 2002,
        Answer::Ended => 2003,
        Answer::NotText => 2004,
        Answer::BadFrame => 2005,
        Answer::BadRandom => 2006,
        Answer::Failed => reason_code(reason),
    }
}

/// What is kept, taken out. Something stays in its place that is thrown away.
fn taken(kept: &mut Kept) -> Kept
    ensures { result ≡ kept.old }
{
    mem::replace(kept, Kept::Refused(Reason::Memory))
}

/// The code of a reason, where there is one.
fn reason_code(reason: Option<&Reason>) -> u32
    ensures code { result ≡ kept_code (option_copied reason.entry) }
    ensures few { result ≤ 9999 }
{
    match reason {
        Some(reason) => reason.code(),
        None => 5000,
    }
}

/// The session over the tree of the keyring file in these bytes.
fn read(alloc: Global, file: &[u8]) -> Kept
    ensures { SessionReadsFile file.now result }
{
    match read_manager(alloc, file) {
        Ok(manager) => Kept::Read(Session::new(alloc, manager)),
        Err(reason) => Kept::Refused(reason),
    }
}
