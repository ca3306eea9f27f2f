//! Reading a key from a file.

ghost use Rattle.std.specs.Prelude.{◌≡◌, ◌<◌, ◌≤◌, ◌+◌, List, ℕ, [], length, take, drop, IfOk};
ghost use Rattle.std.specs.Prelude.{OnErr};
ghost use Rattle.esdk_fields.specs.Counts.{CountsGiven};
ghost use Rattle.esdk_base.specs.Shelf.{HasCauseOrMissing, Holds, is_missing};
ghost use Rattle.keydir_keyring.specs.KeysRead.{ShowsFront, ShowsKey};
ghost use Rattle.keydir_keyring.specs.Reading.{Gave, IsFilled, IsKeyFront, ReadsFewer};
ghost use Rattle.keydir_keyring.specs.Reading.{ReadsKeyFront, ReadsKey, ReadsMore};

use esdk_base::{Failed, Shelf};
use esdk_fields::array_of;

/// How many bytes the file of a key has.
const KEY_LENGTH: usize = 32;

/// The bytes of the file, where it has just 32. None where a read of it failed, or where it has
/// more or fewer. It is read in a row from its front, and no more than 33 of its bytes are.
pub(crate) fn read_key<S: Shelf>(shelf: &mut S, file: &str) -> Option<[u8; 32]>
    ensures files { (S.state shelf.new).files ≡ (S.state shelf.old).files }
    ensures later { (S.state shelf.old).faults ≤ (S.state shelf.new).faults }
    ensures most { (S.state shelf.new).given ≤ (S.state shelf.old).given + 33 }
    ensures key { ReadsKey (S.state shelf.old) (S.state shelf.new) file.now result }
    ensures shown { ShowsKey (S.state shelf.old).calls (S.state shelf.new).calls file.now result }
{
    // One byte more than a key has shows whether the file goes on behind it.
    let mut room = [0; KEY_LENGTH + 1];
    let Ok(count) = read_front(shelf, file, &mut room) else {
        return None;
    };
    if count != KEY_LENGTH {
        return None;
    }
    Some(key_of(&room))
}

/// The first 32 of the bytes.
fn key_of(bytes: &[u8]) -> [u8; 32]
    requires { 32 ≤ length bytes.now }
    ensures { result ≡ take 32 bytes.now }
{
    array_of(&bytes[..32])
}

/// Fills the room with the front of the file, as far as the file goes, and answers how many bytes
/// that is.
fn read_front<S: Shelf>(shelf: &mut S, file: &str, room: &mut [u8]) -> Result<usize, Failed>
    requires { 0 < length room.old }
    ensures front { IfOk result (IsKeyFront (S.state shelf.old).files file.now room.new) }
    ensures read { IfOk result (ReadsKeyFront (S.state shelf.old).calls (S.state shelf.new).calls
        file.now room.new) }
    ensures unread { OnErr result (ReadsFewer (S.state shelf.old).calls (S.state shelf.new).calls
        file.now (length room.old)) }
    ensures shown { ShowsFront (S.state shelf.old).calls (S.state shelf.new).calls
        file.now room.new result }
    ensures gave { IfOk result (Gave (S.state shelf.old) (S.state shelf.new)) }
    ensures most { (S.state shelf.new).given ≤ (S.state shelf.old).given + length room.old }
    ensures cause { HasCauseOrMissing (is_missing (S.state shelf.old).files file.now)
        (S.state shelf.old).faults (S.state shelf.new).faults result }
    ensures files { (S.state shelf.new).files ≡ (S.state shelf.old).files }
{
    let mut count = 0;
    while count < room.len() {
        let more = read_more(shelf, file, count, room)?;
        if more == 0 {
            return Ok(count);
        }
        count += more;
    }
    Ok(count)
}

/// Reads once from the offset on, into the room from there on, and answers how many bytes came.
fn read_more<S: Shelf>(
    shelf: &mut S,
    file: &str,
    count: usize,
    room: &mut [u8],
) -> Result<usize, Failed>
    requires { count < length room.old }
    ensures filled { IfOk result (λ more. IsFilled (S.state shelf.old).files file.now room.old count
        → IsFilled (S.state shelf.old).files file.now room.new (count + more)) }
    ensures end { IfOk result (λ more. (bytes : List ℕ)
        → Holds (S.state shelf.old).files file.now bytes → more ≡ 0 → drop count bytes ≡ []) }
    ensures read { ReadsMore (S.state shelf.old).calls (S.state shelf.new).calls
        file.now room.old room.new count result }
    ensures bound { IfOk result (λ more. count + more ≤ length room.new) }
    ensures given { CountsGiven (S.state shelf.old).given (S.state shelf.new).given result }
    ensures cause { HasCauseOrMissing (is_missing (S.state shelf.old).files file.now)
        (S.state shelf.old).faults (S.state shelf.new).faults result }
    ensures files { (S.state shelf.new).files ≡ (S.state shelf.old).files }
{
    shelf.read_at(file, count as u64, &mut room[count..])
}
