//! Laws about units. A law is a function that does nothing: its contract is what is proved.

ghost use Rattle.frame_codec.specs.Laws.{JudgesUnitsInOrder, ReadsSpelledUnits, RefusesFaultyUnits};
ghost use Rattle.frame_codec.specs.Laws.{AsksForMore, NamesFaults, DecidesWithNeededBytes};
ghost use Rattle.frame_codec.specs.Laws.{ReadsBackRegularFrames, ReadsBackFinalFrames};
ghost use Rattle.frame_codec.specs.Laws.{ReadsBackSingleBlocks, HaveOneSize, HasRegularSize};
ghost use Rattle.frame_codec.specs.Laws.{HasFinalSize, HasBlockSize, TellsUnitsApart};
ghost use Rattle.frame_codec.specs.InPlace.{ReadsInPlace};

/// A fault stays when bytes follow, and comes with the last byte of its field, no earlier and no
/// later; so does a unit's content.
pub fn units_are_judged_in_order()
    ensures { JudgesUnitsInOrder }
{}

/// A unit is read exactly where the bytes begin with a spelling of it: its number, an
/// initialization vector, and its content sealed with that.
pub fn spelled_units_are_read()
    ensures { ReadsSpelledUnits }
{}

/// What a unit is read as, by what a caller sees who fills a buffer with its bytes and opens it
/// there: what `judge_head` answers, how many bytes are there, and what opens of them.
pub fn units_are_read_in_place()
    ensures { ReadsInPlace }
{}

/// A unit is refused exactly where a field before its content has a fault by the format's rows, or
/// where its tag is wrong; and with the last byte of that field or of the tag.
pub fn faulty_units_are_refused()
    ensures { RefusesFaultyUnits }
{}

/// Before a unit's content, more bytes are asked for and faults are named exactly where the
/// format's rows say so.
pub fn heads_are_judged_by_rows()
    ensures more { AsksForMore }
    ensures faults { NamesFaults }
{}

/// Where more bytes are asked for, the next decision comes with the last of them, no earlier and no
/// later.
pub fn needed_bytes_decide()
    ensures { DecidesWithNeededBytes }
{}

/// What is written is read back, at any offset and whatever follows.
pub fn written_units_are_read()
    ensures regular { ReadsBackRegularFrames }
    ensures last { ReadsBackFinalFrames }
    ensures block { ReadsBackSingleBlocks }
{}

/// How many bytes a unit has.
pub fn units_have_their_sizes()
    ensures read { HaveOneSize }
    ensures regular { HasRegularSize }
    ensures last { HasFinalSize }
    ensures block { HasBlockSize }
{}

/// Of ids of one length, a unit's associated data tells its id, kind, number and content length.
pub fn associated_data_tells_units_apart()
    ensures { TellsUnitsApart }
{}
