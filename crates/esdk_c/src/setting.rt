//! The calls that set a session up, and begin a message.

ghost use Rattle.std.specs.Prelude.{◌≡◌, ◌-◌, ◌^◌};
ghost use Rattle.c_session.specs.FileSession.{Again, KeepsRead, drawn_by};
ghost use Rattle.c_session.specs.FileTree.{file_state};
ghost use Rattle.session_parts.specs.Limits.{reader_settings, some_unless};
ghost use Rattle.c_session.specs.NewKeys.{BeginsResealing};
ghost use Rattle.c_session.specs.Session.{BeginsOpening, BeginsSealing, PairsAs, RequiresAs};
ghost use Rattle.c_handle.specs.Calls.{CallsSession, MakesSession, Tells};
ghost use Rattle.c_handle.specs.Handle.{HoldsNoSession};

use c_handle::{Handle, NO_SESSION, give_back};
use c_session::{FileSession, keys_limit, settings};
use std::alloc::Global;

/// No session was made, since memory ran out.
const NO_MEMORY: i32 = 5000;

/// No length is declared.
const ANY_LENGTH: u64 = 0xffff_ffff_ffff_ffff;

/// Raised with each change of the header that a compiled caller could notice.
#[unsafe(no_mangle)]
pub extern "C" fn esdk_abi() -> u32
    ensures { result ≡ 1 }
{
    1
}

/// Makes a session over the tree of the keyring file in these bytes.
#[unsafe(no_mangle)]
pub extern "C" fn esdk_new(alloc: Global, handle: &mut Handle, file: &[u8]) -> i32
    ensures { MakesSession file.now handle.new result }
{
    esdk_close(alloc, handle);
    let session = FileSession::new(alloc, file);
    let answer = session.first_answer();
    match Box::new(alloc, session) {
        Ok(session) => give_back(alloc, handle, session, answer),
        Err(_) => NO_MEMORY,
    }
}

/// Frees what the handle holds.
#[unsafe(no_mangle)]
pub extern "C" fn esdk_close(_alloc: Global, handle: &mut Handle)
    ensures { HoldsNoSession handle.new }
{
    let _session = handle.take();
}

/// Sets the session up again, for another message.
#[unsafe(no_mangle)]
pub extern "C" fn esdk_again(alloc: Global, handle: &mut Handle) -> i32
    ensures { CallsSession handle.old handle.new result (λ answer old new.
        Again old new answer) }
{
    let Some(mut session) = handle.take() else {
        return NO_SESSION;
    };
    let answer = session.again(alloc);
    give_back(alloc, handle, session, answer)
}

/// Puts a pair.
#[unsafe(no_mangle)]
pub extern "C" fn esdk_pair(alloc: Global, handle: &mut Handle, key: &[u8], value: &[u8]) -> i32
    ensures { CallsSession handle.old handle.new result (λ answer old new.
        KeepsRead old new answer (λ s t. PairsAs s t key.now value.now answer)) }
{
    let Some(mut session) = handle.take() else {
        return NO_SESSION;
    };
    let answer = session.pair(alloc, key, value);
    give_back(alloc, handle, session, answer)
}

/// Requires a key.
#[unsafe(no_mangle)]
pub extern "C" fn esdk_require(alloc: Global, handle: &mut Handle, key: &[u8]) -> i32
    ensures { CallsSession handle.old handle.new result (λ answer old new.
        KeepsRead old new answer (λ s t. RequiresAs s t key.now answer)) }
{
    let Some(mut session) = handle.take() else {
        return NO_SESSION;
    };
    let answer = session.require(alloc, key);
    give_back(alloc, handle, session, answer)
}

/// How many random bytes a message takes that is sealed.
#[unsafe(no_mangle)]
pub extern "C" fn esdk_draws(alloc: Global, handle: &mut Handle) -> u32
    ensures { Tells handle.old handle.new (λ kept. result ≡ drawn_by kept) (result ≡ 0) }
{
    let Some(session) = handle.take() else {
        return 0;
    };
    let count = session.draws();
    handle.put(alloc, session);
    count
}

/// Begins a message that is sealed, with these random bytes.
#[unsafe(no_mangle)]
pub extern "C" fn esdk_seal_with(
    alloc: Global,
    handle: &mut Handle,
    frame_length: u32,
    length: u64,
    max_keys: u16,
    random: &[u8],
) -> i32
    ensures { CallsSession handle.old handle.new result (λ answer old new.
        KeepsRead old new answer (λ s t. BeginsSealing file_state s t frame_length
        (some_unless (2 ^ 64 - 1) length) (some_unless 0 max_keys) random.now answer)) }
{
    let Some(mut session) = handle.take() else {
        return NO_SESSION;
    };
    let declared = length_of(length);
    let max_keys = keys_limit(max_keys);
    let answer = session.seal(alloc, frame_length, declared, max_keys, random);
    give_back(alloc, handle, session, answer)
}

/// Begins a message that is opened, with these limits.
#[unsafe(no_mangle)]
pub extern "C" fn esdk_open(
    alloc: Global,
    handle: &mut Handle,
    max_keys: u16,
    max_unit: u64,
    uncommitted: bool,
) -> i32
    ensures { CallsSession handle.old handle.new result (λ answer old new.
        KeepsRead old new answer (λ s t. BeginsOpening file_state s t
        (reader_settings max_keys max_unit uncommitted) answer)) }
{
    let Some(mut session) = handle.take() else {
        return NO_SESSION;
    };
    let answer = session.open(alloc, settings(max_keys, max_unit, uncommitted));
    give_back(alloc, handle, session, answer)
}

/// Begins a message that is resealed: an old one is opened with these limits, as by `esdk_open`,
/// and a new one of its text and its whole context is sealed under the keys of the keyring file in
/// these bytes, with these random bytes.
#[unsafe(no_mangle)]
pub extern "C" fn esdk_reseal_with(
    alloc: Global,
    handle: &mut Handle,
    file: &[u8],
    frame_length: u32,
    max_keys: u16,
    max_unit: u64,
    uncommitted: bool,
    random: &[u8],
) -> i32
    ensures { CallsSession handle.old handle.new result (λ answer old new.
        KeepsRead old new answer (λ s t. BeginsResealing s t file.now frame_length
        (reader_settings max_keys max_unit uncommitted) random.now answer)) }
{
    let Some(mut session) = handle.take() else {
        return NO_SESSION;
    };
    let limits = settings(max_keys, max_unit, uncommitted);
    let answer = session.reseal(alloc, file, frame_length, limits, random);
    give_back(alloc, handle, session, answer)
}

/// The length that is declared, if one is.
fn length_of(length: u64) -> Option<u64>
    ensures { result ≡ some_unless (2 ^ 64 - 1) length }
{
    if length == ANY_LENGTH {
        None
    } else {
        Some(length)
    }
}
