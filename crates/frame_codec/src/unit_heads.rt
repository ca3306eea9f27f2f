//! What stands before the content of a unit, judged field by field.

ghost use Rattle.std.specs.Prelude.{◌≡◌, ◌≢◌, ◌<◌, ◌≤◌, length, IfOk};
ghost use Rattle.esdk_fields.specs.Gives.{Gives, TakesNoMemory};
ghost use Rattle.esdk_fields.specs.Limits.{is_over};
ghost use Rattle.frame_codec.specs.UnitHead.{final_mark, longest_block, IfRegular, IfUnit};
ghost use Rattle.frame_codec.specs.UnitHead.{regular_start, final_start, frame_start, block_start};
ghost use Rattle.frame_codec.specs.UnitHead.{unit_head, needed, head_of};

use crate::kinds::UnitKind;
use esdk_fields::{Content, Cursor, Fault, Stop, bytes_of, is_over, refused, u32_of, u64_of};

/// The mark that stands before a final frame's number.
const FINAL_MARK: u32 = 0xffff_ffff;

/// The most bytes that AES-GCM takes under one initialization vector.
const LONGEST_BLOCK: u64 = 68_719_476_704;

/// What stands before the content of a unit.
#[derive(Clone, Copy)]
pub struct UnitHead {
    /// The kind of unit.
    pub kind: UnitKind,
    /// Its sequence number, 1 for a single block.
    pub number: u32,
    /// The initialization vector of its content.
    pub iv: [u8; 12],
    /// How many bytes its content has.
    pub length: u64,
    /// How many bytes stand before the content: 16 in a regular frame, 24 in a final frame, 20 in a
    /// single block.
    pub size: usize,
}

/// What is known of a unit from the bytes that it begins with.
#[derive(Drop)]
pub enum Head {
    /// The next decision needs this many bytes from the unit's begin on, and fewer are there.
    NeedMore(usize),
    /// A field has this fault.
    Refused(Fault),
    /// All that stands before the content is there, and it is good.
    Unit(UnitHead),
}

/// A regular frame, behind its number.
#[tactic(auto, unfolding(crate::specs::UnitHead::regular_start))]
fn regular_start_of(
    cursor: &mut Cursor<'_>,
    want: u32,
    frame: u32,
    got: u32,
) -> Result<UnitHead, Stop>
    requires { got ≢ final_mark }
    ensures reads { Gives (λ head. head) result cursor.new
        (regular_start want frame got cursor.old) }
    ensures no_memory { TakesNoMemory result }
    ensures short { IfOk result (λ head. head.length ≤ longest_block) }
    ensures numbered { IfOk result (λ head. IfRegular head.kind (head.number < final_mark)) }
{
    if got != want {
        return refused(Fault::WrongSequence { want, got }, cursor);
    }
    let mut iv = [0; 12];
    iv.copy_from_slice(bytes_of(cursor, 12)?);
    Ok(UnitHead {
        kind: UnitKind::Regular,
        number: want,
        iv,
        length: u64::from(frame),
        size: 16,
    })
}

/// A final frame, behind its mark.
#[tactic(auto, unfolding(crate::specs::UnitHead::final_start))]
fn final_start_of(cursor: &mut Cursor<'_>, want: u32, frame: u32) -> Result<UnitHead, Stop>
    ensures reads { Gives (λ head. head) result cursor.new (final_start want frame cursor.old) }
    ensures no_memory { TakesNoMemory result }
    ensures short { IfOk result (λ head. head.length ≤ longest_block) }
    ensures numbered { IfOk result (λ head. IfRegular head.kind (head.number < final_mark)) }
{
    let got = u32_of(cursor)?;
    if got != want {
        return refused(Fault::WrongSequence { want, got }, cursor);
    }
    let mut iv = [0; 12];
    iv.copy_from_slice(bytes_of(cursor, 12)?);
    let length = u32_of(cursor)?;
    if frame < length {
        return refused(Fault::FinalTooLong(length), cursor);
    }
    Ok(UnitHead {
        kind: UnitKind::Final,
        number: want,
        iv,
        length: u64::from(length),
        size: 24,
    })
}

/// A frame.
#[tactic(auto, unfolding(crate::specs::UnitHead::frame_start))]
fn frame_start_of(cursor: &mut Cursor<'_>, want: u32, frame: u32) -> Result<UnitHead, Stop>
    ensures reads { Gives (λ head. head) result cursor.new (frame_start want frame cursor.old) }
    ensures no_memory { TakesNoMemory result }
    ensures short { IfOk result (λ head. head.length ≤ longest_block) }
    ensures numbered { IfOk result (λ head. IfRegular head.kind (head.number < final_mark)) }
{
    let got = u32_of(cursor)?;
    if got == FINAL_MARK {
        final_start_of(cursor, want, frame)
    } else {
        regular_start_of(cursor, want, frame, got)
    }
}

/// A single block.
#[tactic(auto, unfolding(crate::specs::UnitHead::block_start))]
fn block_start_of(cursor: &mut Cursor<'_>, max_unit: Option<u64>) -> Result<UnitHead, Stop>
    ensures reads { Gives (λ head. head) result cursor.new (block_start max_unit cursor.old) }
    ensures no_memory { TakesNoMemory result }
    ensures short { IfOk result (λ head. head.length ≤ longest_block) }
    ensures numbered { IfOk result (λ head. IfRegular head.kind (head.number < final_mark)) }
{
    let mut iv = [0; 12];
    iv.copy_from_slice(bytes_of(cursor, 12)?);
    let length = u64_of(cursor)?;
    if LONGEST_BLOCK < length {
        return refused(Fault::BlockTooLong(length), cursor);
    }
    if is_over(max_unit, length) {
        return refused(Fault::UnitTooLong(length), cursor);
    }
    Ok(UnitHead {
        kind: UnitKind::Single,
        number: 1,
        iv,
        length,
        size: 20,
    })
}

/// Reads what stands before the content of the unit that is to have the number `want`. `Wanting`
/// where not all of it is there, else the fault of the field that ends there: M18, M19, M21 or M9.
/// Takes no memory. `max_unit` limits a single block alone.
#[tactic(auto, unfolding(crate::specs::UnitHead::unit_head))]
fn unit_head_of(
    cursor: &mut Cursor<'_>,
    content: Content,
    want: u32,
    max_unit: Option<u64>,
) -> Result<UnitHead, Stop>
    ensures reads { Gives (λ head. head) result cursor.new
        (unit_head content want max_unit cursor.old) }
    ensures no_memory { TakesNoMemory result }
    ensures short { IfOk result (λ head. head.length ≤ longest_block) }
    ensures numbered { IfOk result (λ head. IfRegular head.kind (head.number < final_mark)) }
{
    match content {
        Content::Single => block_start_of(cursor, max_unit),
        Content::Framed(frame) => frame_start_of(cursor, want, frame),
    }
}

/// How many bytes the next decision needs, where so far there was none or a good number.
#[tactic(auto, unfolding(crate::specs::UnitHead::needed))]
fn needed_of(bytes: &[u8], content: Content) -> usize
    ensures { result ≡ needed content bytes.now }
{
    if content == Content::Single {
        return 20;
    }
    let mut cursor = Cursor::new(bytes);
    match cursor.u32() {
        None => 4,
        Some(FINAL_MARK) => { if bytes.len() < 8 { 8 } else { 24 } }
        Some(_) => 16,
    }
}

/// What is known of the unit that begins with these bytes and is to have the number `want`.
/// `max_unit` limits a single block alone.
///
/// A fault comes with the last byte of its field: M18 where a frame has another number, M19 where a
/// final frame's content is over the frame length, M21 where a block's is over 2^36 - 32 bytes,
/// else M9 where it is over `max_unit`.
#[tactic(auto, unfolding(crate::specs::UnitHead::head_of))]
pub fn judge_head(bytes: &[u8], content: Content, want: u32, max_unit: Option<u64>) -> Head
    ensures answer { result ≡ head_of content want max_unit bytes.now }
    ensures there { IfUnit result (λ head. head.size ≤ length bytes.now) }
    ensures short { IfUnit result (λ head. head.length ≤ longest_block) }
    ensures numbered { IfUnit result (λ head. IfRegular head.kind (head.number < final_mark)) }
{
    let mut cursor = Cursor::new(bytes);
    match unit_head_of(&mut cursor, content, want, max_unit) {
        Ok(head) => Head::Unit(head),
        Err(Stop::Wanting) => Head::NeedMore(needed_of(bytes, content)),
        Err(Stop::Fault(fault, _)) => Head::Refused(fault),
        Err(Stop::Memory) => unreachable!(),
    }
}
