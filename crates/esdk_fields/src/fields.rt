//! The fields that every format is made of, read from a cursor.

ghost use Rattle.std.specs.Prelude.{◌≡◌, ◌≤◌, length, IfOk, OnErr, IfErr};
ghost use Rattle.std.specs.Int.{w8, w16, w32, w64};
ghost use Rattle.esdk_fields.specs.declared.stops.Stop.TheVariants as stops;
ghost use Rattle.esdk_fields.specs.Reading.{bytes, number};
ghost use Rattle.esdk_fields.specs.Sized.{sized_bytes};
ghost use Rattle.esdk_fields.specs.Gives.{Gives, TakesNoMemory};

use crate::cursors::Cursor;
use crate::stops::Stop;

/// Reads one byte. `Wanting` exactly where none is left; then the cursor stays.
pub fn u8_of(cursor: &mut Cursor<'_>) -> Result<u8, Stop>
    ensures reads { Gives (λ n. n) result cursor.new (number w8 cursor.old) }
    ensures stays { OnErr result (cursor.new ≡ cursor.old) }
    ensures no_memory { TakesNoMemory result }
{
    cursor.u8().ok_or(Stop::Wanting)
}

/// Reads a big-endian number of two bytes. `Wanting` exactly where fewer are left; then the cursor
/// stays.
pub fn u16_of(cursor: &mut Cursor<'_>) -> Result<u16, Stop>
    ensures reads { Gives (λ n. n) result cursor.new (number w16 cursor.old) }
    ensures stays { OnErr result (cursor.new ≡ cursor.old) }
    ensures no_memory { TakesNoMemory result }
{
    cursor.u16().ok_or(Stop::Wanting)
}

/// Reads a big-endian number of four bytes. `Wanting` exactly where fewer are left; then the cursor
/// stays.
pub fn u32_of(cursor: &mut Cursor<'_>) -> Result<u32, Stop>
    ensures reads { Gives (λ n. n) result cursor.new (number w32 cursor.old) }
    ensures stays { OnErr result (cursor.new ≡ cursor.old) }
    ensures no_memory { TakesNoMemory result }
{
    cursor.u32().ok_or(Stop::Wanting)
}

/// Reads a big-endian number of eight bytes. `Wanting` exactly where fewer are left; then the
/// cursor stays.
pub fn u64_of(cursor: &mut Cursor<'_>) -> Result<u64, Stop>
    ensures reads { Gives (λ n. n) result cursor.new (number w64 cursor.old) }
    ensures stays { OnErr result (cursor.new ≡ cursor.old) }
    ensures no_memory { TakesNoMemory result }
{
    cursor.u64().ok_or(Stop::Wanting)
}

/// Reads the next `n` bytes. `Wanting` exactly where fewer are left; then the cursor stays.
pub fn bytes_of<'a>(cursor: &mut Cursor<'a>, n: usize) -> Result<&'a [u8], Stop>
    ensures reads { Gives (λ field. field.now) result cursor.new (bytes n cursor.old) }
    ensures stays { OnErr result (cursor.new ≡ cursor.old) }
    ensures no_memory { TakesNoMemory result }
{
    cursor.take(n).ok_or(Stop::Wanting)
}

/// Reads two bytes of length, and that many bytes. `Wanting` exactly where fewer are left; then the
/// cursor stays.
#[tactic(auto, unfolding(crate::specs::Sized::sized_bytes))]
pub fn sized_of<'a>(cursor: &mut Cursor<'a>) -> Result<&'a [u8], Stop>
    ensures reads { Gives (λ field. field.now) result cursor.new (sized_bytes cursor.old) }
    ensures stays { OnErr result (cursor.new ≡ cursor.old) }
    ensures short { IfOk result (λ field. length field.now ≤ 65535) }
    ensures wanting { IfErr result (λ stop. stop ≡ stops.Wanting) }
{
    let mut ahead = cursor.copy();
    let len = ahead.u16().ok_or(Stop::Wanting)?;
    let field = ahead.take(usize::from(len)).ok_or(Stop::Wanting)?;
    *cursor = ahead;
    Ok(field)
}
