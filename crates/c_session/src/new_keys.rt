//! How a message begins that is resealed under the keys of another file.

ghost use Rattle.std.specs.Prelude.{◌≡◌, ◌≤◌, ℕ, List, None, Ok, false};
ghost use Rattle.c_session.specs.FileTree.{ReadsTree};
ghost use Rattle.c_session.specs.NewKeys.{BeginsResealing};
ghost use Rattle.c_session.specs.Session.{setting_answer};

use crate::answer::Answer;
use crate::asking::TreeSession;
use crate::file_tree::{FileTree, read_manager};
use cmm_default::DefaultCmm;
use header_codec::Settings;
use keyring_trait::Manager;
use std::alloc::Global;

/// Begins a message that is resealed, in a session that is set up: the old one is opened with
/// these limits, and the new one sealed under the tree of the keyring file in these bytes, in
/// frames of so many bytes, with these random bytes; and the session. A file that is refused ends
/// it.
pub(crate) fn reseal_session(
    alloc: Global,
    session: TreeSession,
    file: &[u8],
    frame_length: u32,
    settings: Settings,
    random: &[u8],
) -> (Answer, TreeSession)
    ensures { BeginsResealing session result.1 file.now frame_length settings random.now result.0 }
{
    if let Some(answer) = session.setting_answer() {
        return (answer, session);
    }
    if frame_length == 0 {
        return (Answer::BadFrame, session);
    }
    match read_manager(alloc, file) {
        Ok(sealing) => reseal_under(alloc, session, sealing, frame_length, settings, random),
        Err(reason) => {
            let mut session = session;
            let answer = session.fail(reason);
            (answer, session)
        }
    }
}

/// The same under the tree that the file means.
fn reseal_under(
    alloc: Global,
    session: TreeSession,
    sealing: DefaultCmm<FileTree>,
    frame_length: u32,
    settings: Settings,
    random: &[u8],
) -> (Answer, TreeSession)
    requires set_up { setting_answer session ≡ None }
    requires on { session.ended ≡ false }
    requires some { 1 ≤ frame_length }
    ensures { (file : List ℕ) → ReadsTree file (Ok sealing)
        → BeginsResealing session result.1 file frame_length settings random.now result.0 }
{
    if random.len() != 64 + 12 * sealing.wraps() as usize {
        drop(sealing);
        return (Answer::BadRandom, session);
    }
    session.reseal(alloc, sealing, frame_length, settings, random)
}
