//! Splitting the text of a context into its pairs, which are borrowed from it.

ghost use Rattle.std.specs.Prelude.{IfOk};
ghost use Rattle.esdk_fields.specs.Reading.{repeat};
ghost use Rattle.esdk_fields.specs.Gives.{Gives};
ghost use Rattle.context_codec.specs.Split.{pair, counted_pairs, split};
ghost use Rattle.context_codec.specs.Found.{FindsPairs};

use crate::raw::RawPair;
use esdk_fields::{Cursor, Stop, sized_of, u16_of};
use std::alloc::{AllocError, Global};

/// The pairs that the bytes spell, in the order in which they stand there. None where the bytes
/// spell no pairs.
#[tactic(auto, unfolding(crate::specs::Split::split))]
pub(crate) fn split_of(alloc: Global, bytes: &[u8]) -> Result<Option<Vec<RawPair<'_>>>, AllocError>
    ensures { IfOk result (λ found. FindsPairs found (split bytes.now)) }
{
    if bytes.is_empty() {
        return Ok(Some(Vec::new(alloc)));
    }
    let mut cursor = Cursor::new(bytes);
    match counted_of(alloc, &mut cursor) {
        Ok(pairs) => Ok(if cursor.left() == 0 {
            Some(pairs)
        } else {
            None
        }),
        Err(Stop::Memory) => Err(AllocError),
        Err(_) => Ok(None),
    }
}

/// Reads a count of two bytes and that many pairs.
#[tactic(auto, unfolding(crate::specs::Split::counted_pairs))]
fn counted_of<'a>(alloc: Global, cursor: &mut Cursor<'a>) -> Result<Vec<RawPair<'a>>, Stop>
    ensures { Gives (λ pairs. pairs.items) result cursor.new (counted_pairs cursor.old) }
{
    let count = u16_of(cursor)?;
    pairs_of(alloc, cursor, count)
}

/// Reads that many pairs.
fn pairs_of<'a>(
    alloc: Global,
    cursor: &mut Cursor<'a>,
    count: u16,
) -> Result<Vec<RawPair<'a>>, Stop>
    ensures { Gives (λ pairs. pairs.items) result cursor.new (repeat pair count cursor.old) }
{
    let mut pairs = Vec::new(alloc);
    for _ in 0..count {
        let pair = pair_of(cursor)?;
        pairs.push(pair)?;
    }
    Ok(pairs)
}

/// Reads key length, key, value length, value.
#[tactic(auto, unfolding(crate::specs::Split::pair))]
fn pair_of<'a>(cursor: &mut Cursor<'a>) -> Result<RawPair<'a>, Stop>
    ensures { Gives (λ p. p) result cursor.new (pair cursor.old) }
{
    let key = sized_of(cursor)?;
    let value = sized_of(cursor)?;
    Ok(RawPair::new(key, value))
}
