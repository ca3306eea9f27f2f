//! Laws about bodies. A law is a function that does nothing: its contract is what is proved.

ghost use Rattle.body_format.specs.Laws.{JudgesFramesByTheTable, JudgesBlocksByTheTable};
ghost use Rattle.body_format.specs.Laws.{FindsTheFirst, BodyFaultsStay, BodyUnitsStay};
ghost use Rattle.body_format.specs.Laws.{BodyRefusesTrailingBytes, FrontsAreGoing};
ghost use Rattle.body_format.specs.Laws.{FramedBodiesAreWhole, PiecesAreTheText, BlocksAreWhole};
ghost use Rattle.body_format.specs.Laws.{HasFramedSize, FrontsReleaseFrames, ReleasesFullFrames};
ghost use Rattle.body_format.specs.OneSlot.{ReadsSlotsAlone, ReadsBlocksAlone, DecidesForAll};
ghost use Rattle.body_format.specs.OneSlot.{FillsRegularSlots, KeepsFinalSlotsShort};

/// A body is judged as the table says, which has no reader in it: where a unit is good, the first
/// slot that isn't a good regular frame, and the verdicts line by line. The offset where the body
/// begins doesn't matter.
pub fn bodies_are_judged_by_the_table()
    ensures frames { JudgesFramesByTheTable }
    ensures block { JudgesBlocksByTheTable }
    ensures first { FindsTheFirst }
{}

/// A slot is read alone, by its own bytes and those behind it, as the table says of it; and where
/// the slots before it are good regular ones, and it isn't one, the judgement of the whole body
/// says what it says. So who looks at some slots alone says of each what the judgement of the whole
/// would say.
pub fn slots_are_read_alone()
    ensures frames { ReadsSlotsAlone }
    ensures block { ReadsBlocksAlone }
    ensures decides { DecidesForAll }
    ensures full { FillsRegularSlots }
    ensures short { KeepsFinalSlotsShort }
{}

/// A fault stays when bytes follow, and with it what was handed out before it.
pub fn faults_stay()
    ensures { BodyFaultsStay }
{}

/// What is handed out of a front of a body is what is handed out first of all of it.
pub fn released_units_stay()
    ensures { BodyUnitsStay }
{}

/// A byte behind a whole body is M22.
pub fn trailing_bytes_are_refused()
    ensures { BodyRefusesTrailingBytes }
{}

/// A front of a whole body has no fault and isn't whole.
pub fn fronts_go_on()
    ensures { FrontsAreGoing }
{}

/// A body that was written is whole, its units are the pieces of the text, and these, joined, are
/// the text. A single block likewise.
pub fn written_bodies_are_whole()
    ensures frames { FramedBodiesAreWhole }
    ensures text { PiecesAreTheText }
    ensures block { BlocksAreWhole }
    ensures size { HasFramedSize }
{}

/// Of a front of a body that was written, exactly the whole frames that have come are handed out.
pub fn whole_frames_are_released()
    ensures fronts { FrontsReleaseFrames }
    ensures full { ReleasesFullFrames }
{}
