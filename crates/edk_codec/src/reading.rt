//! Reading an entry from a cursor.

ghost use Rattle.std.specs.Prelude.{IfSome};
ghost use Rattle.edk_codec.specs.Entry.{IsEntry};
ghost use Rattle.edk_codec.specs.EntryReader.{entry_reader, ReadsPart, ReadsEntry};
ghost use Rattle.edk_codec.specs.Parts.{parts_view};

use crate::entries::DataKeyEntry;
use esdk_fields::{Cursor, sized_of};
use std::alloc::{AllocError, Global};

/// The three parts of an entry, where they stand in the bytes.
#[derive(Clone, Copy)]
struct Parts<'a> {
    provider: &'a [u8],
    info: &'a [u8],
    cipher: &'a [u8],
}

/// Reads the three parts of an entry. None exactly where they aren't whole.
#[tactic(auto, unfolding(crate::specs::EntryReader::entry_reader))]
fn parts_of<'a>(cursor: &mut Cursor<'a>) -> Option<Parts<'a>>
    ensures reads { ReadsPart parts_view result cursor.new (entry_reader cursor.old) }
    ensures short { IfSome result (λ parts. IsEntry (parts_view parts)) }
{
    let provider = sized_of(cursor).ok()?;
    let info = sized_of(cursor).ok()?;
    let cipher = sized_of(cursor).ok()?;
    Some(Parts {
        provider,
        info,
        cipher,
    })
}

/// Reads an entry. None exactly where the bytes left don't begin with a whole entry. Then, and
/// where memory runs out, the cursor stays.
pub fn read_entry(
    alloc: Global,
    cursor: &mut Cursor<'_>,
) -> Result<Option<DataKeyEntry>, AllocError>
    ensures { ReadsEntry result cursor.old cursor.new }
{
    let mut ahead = cursor.copy();
    let Some(parts) = parts_of(&mut ahead) else {
        return Ok(None);
    };
    let entry = DataKeyEntry::new(alloc, parts.provider, parts.info, parts.cipher)?;
    *cursor = ahead;
    Ok(Some(entry))
}
