//! A range of a message's text, of which its caller hands over the bytes. That is a question: it
//! begins no message, and ends no session.

ghost use Rattle.std.specs.Prelude.{◌≡◌, ◌≤◌, ◌^◌};
ghost use Rattle.esdk_decrypt.specs.Decrypt.{asked_from};
ghost use Rattle.keyring_trait.specs.Manager.{Went};
ghost use Rattle.extract_core.specs.Extract.{range_of};
ghost use Rattle.session_parts.specs.Handed.{handed_of};
ghost use Rattle.c_session.specs.Ranging.{RangeComes, RangesSession, TakesRange, unextracted_as};

use crate::asking::TreeSession;
use crate::gathered::Gathered;
use crate::message_shelf::{MESSAGE, MessageShelf};
use crate::no_range::NoRange;
use crate::reason::Reason;
use context_codec::{Context, KeySet};
use esdk_fields::{Blob, Outside};
use extract_core::{ExtractError, extract};
use header_codec::Settings;
use keyring_trait::Manager;
use session_parts::{HandedBytes, requiring};
use std::alloc::Global;

/// No range begins behind so many bytes, or has more.
const MOST_RANGE: u64 = 1 << 62;

/// The range of the text of the message that has these bytes, as the tree of a session that is set
/// up opens it, within these limits and with the session's pairs given and its keys required; and
/// the session.
pub(crate) fn ask_range(
    alloc: Global,
    session: TreeSession,
    bytes: HandedBytes<'_>,
    settings: Settings,
    at: u64,
    count: u64,
) -> (Result<Blob, NoRange>, TreeSession)
    ensures { RangesSession session result.1 (handed_of bytes.entry) settings (range_of at count)
        result.0 }
{
    if let Some(answer) = session.setting_answer() {
        return (Err(NoRange::Call(answer)), session);
    }
    if at > MOST_RANGE || count > MOST_RANGE {
        return (Err(NoRange::TooFar), session);
    }
    match session.required.copy(alloc) {
        Ok(keys) => take_range(alloc, session, keys, bytes, settings, at, count),
        Err(_) => (Err(NoRange::Reason(Reason::Memory)), session),
    }
}

/// The range, as a manager opens it that requires these keys; and the session.
fn take_range(
    alloc: Global,
    session: TreeSession,
    keys: KeySet,
    bytes: HandedBytes<'_>,
    settings: Settings,
    at: u64,
    count: u64,
) -> (Result<Blob, NoRange>, TreeSession)
    requires at { at ≤ 2 ^ 62 }
    requires count { count ≤ 2 ^ 62 }
    ensures { TakesRange session result.1 (session.manager.0, keys) (handed_of bytes.entry) settings
        (range_of at count) result.0 }
{
    let mut session = session;
    let mut manager = requiring(session.manager, keys);
    let came = extract_handed(
        alloc,
        &mut manager,
        bytes,
        settings,
        &session.pairs,
        at,
        count,
    );
    session.manager = requiring(manager, KeySet::new(alloc));
    (came, session)
}

/// The range of the text of the message that has these bytes, as this manager opens it.
fn extract_handed<M: Manager>(
    alloc: Global,
    manager: &mut M,
    bytes: HandedBytes<'_>,
    settings: Settings,
    given: &Context,
    at: u64,
    count: u64,
) -> Result<Blob, NoRange>
    requires at { at ≤ 2 ^ 62 }
    requires count { count ≤ 2 ^ 62 }
    ensures comes { RangeComes (asked_from (M.state manager.old) (M.state manager.new) 0 settings
        given.now) (handed_of bytes.entry) (range_of at count) result }
    ensures went { Went (M.state manager.old) (M.state manager.new) }
{
    let mut shelf = MessageShelf::new(bytes);
    let mut text = Gathered::new(alloc);
    let ended = extract(
        alloc, manager, 0, &mut shelf, MESSAGE, &mut text, settings, given, at, count,
    );
    shelf.agreed();
    match ended {
        Ok(_) => Ok(text.bytes),
        Err(error) => Err(unextracted(error)),
    }
}

/// Why no range comes. Only memory can be wanting where it is gathered; a shelf has no other fault
/// than that a byte is wanted which wasn't handed over.
fn unextracted(error: ExtractError) -> NoRange
    ensures { result ≡ unextracted_as error }
{
    match error {
        ExtractError::Fault(fault) => NoRange::Reason(Reason::Fault(fault)),
        ExtractError::Outside(Outside::ShelfFault) => NoRange::Missing,
        ExtractError::Outside(Outside::KeyringFault) => NoRange::Reason(Reason::Keyring),
        ExtractError::Outside(_) => NoRange::Reason(Reason::Memory),
        ExtractError::Memory => NoRange::Reason(Reason::Memory),
    }
}
