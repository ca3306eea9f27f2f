//! What a session is asked about a message. A question begins no message, and ends no session.

ghost use Rattle.std.specs.Prelude.{◌≡◌, ◌≤◌};
ghost use Rattle.c_session.specs.Asking.{SessionAsksAbout, AsksSession, no_answer_code};

use crate::answer::Answer;
use crate::file_session::code_for;
use crate::file_tree::FileTree;
use crate::front::front_of;
use crate::reason::Reason;
use crate::session::Session;
use audit_core::Openers;
use cmm_default::DefaultCmm;
use cmm_required::RequiredCmm;
use context_codec::KeySet;
use header_codec::{Header, Settings};
use std::alloc::Global;

/// A session over the tree of a keyring file.
pub(crate) type TreeSession = Session<DefaultCmm<FileTree>>;

/// Why a question has no answer. The session stays as it was.
#[derive(Drop)]
pub enum NoAnswer {
    /// The call doesn't fit: `NotNow` or `Ended`.
    Call(Answer),
    /// For this reason.
    Reason(Reason),
}

impl NoAnswer {
    /// Its code: one of the caller's, or that of the reason.
    pub fn code(&self) -> u32
        ensures code { result ≡ no_answer_code self.now }
        ensures few { result ≤ 9999 }
    {
        match self {
            NoAnswer::Call(answer) => code_for(*answer, None),
            NoAnswer::Reason(reason) => reason.code(),
        }
    }
}

/// The leaves that open the message whose header these bytes begin with, of the tree of a session
/// that is set up; and the session.
pub(crate) fn ask_session(
    alloc: Global,
    session: TreeSession,
    message: &[u8],
) -> (Result<Openers, NoAnswer>, TreeSession)
    ensures { AsksSession session result.1 message.now result.0 }
{
    if let Some(answer) = session.setting_answer() {
        return (Err(NoAnswer::Call(answer)), session);
    }
    let header = match front_of(alloc, Settings::none(), message) {
        Ok(header) => header,
        Err(reason) => return (Err(NoAnswer::Reason(reason)), session),
    };
    let (asked, session) = ask_leaves(alloc, session, &header);
    drop(header);
    match asked {
        Ok(openers) => (Ok(openers), session),
        Err(reason) => (Err(NoAnswer::Reason(reason)), session),
    }
}

/// The leaves that open the message of this header, when the session's pairs are given; and the
/// session.
fn ask_leaves(
    alloc: Global,
    session: TreeSession,
    header: &Header,
) -> (Result<Openers, Reason>, TreeSession)
    ensures { SessionAsksAbout session result.1 header.now result.0 }
{
    let mut session = session;
    let mut tree = session.manager.into_inner().into_ring();
    let asked = tree.openers(alloc, header, &session.pairs);
    session.manager = RequiredCmm::new(DefaultCmm::new(tree), KeySet::new(alloc));
    (asked, session)
}
