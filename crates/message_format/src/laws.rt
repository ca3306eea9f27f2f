//! Laws about messages. A law is a function that does nothing: its contract is what is proved.

ghost use Rattle.message_format.specs.Legacy.{JudgesLegacyMessages, ForbidsLegacyMessages};
ghost use Rattle.message_format.specs.Laws.{FaultsStay, UnitsStay, UnlockingStays};
ghost use Rattle.message_format.specs.Laws.{RefusesTrailingBytes, FrontsGoOn, OfJudged, OfRead};
ghost use Rattle.message_format.specs.Laws.{JudgesWhatIsWritten, ReleasesTheText};
ghost use Rattle.message_format.specs.Laws.{ReleasesWholeFrames, ReleasesTheFront};
ghost use Rattle.message_format.specs.Laws.{ReadsWhatIsWritten, ReadsWholeFrames, JudgesLineByLine};

/// A written message is whole under every answer that has its data key and the pairs that it
/// doesn't store, and what is released of it is its text.
pub fn written_messages_are_whole()
    ensures whole { JudgesWhatIsWritten }
    ensures text { ReleasesTheText }
{}

/// Of a front of a written message the regular frames that are whole are released: a front of its
/// text.
pub fn whole_frames_are_released()
    ensures judged { ReleasesWholeFrames }
    ensures read { ReadsWholeFrames }
    ensures text { ReleasesTheFront }
{}

/// Who holds one of the keys that a message's data key is wrapped under, and is given its required
/// pairs, reads the message: its whole context, and its text.
pub fn written_messages_are_read()
    ensures { ReadsWhatIsWritten }
{}

/// A fault stays when bytes follow, and so do the units that were released before it.
pub fn faults_stay()
    ensures judged { OfJudged FaultsStay }
    ensures read { OfRead FaultsStay }
{}

/// What was released is never taken back.
pub fn released_units_stay()
    ensures judged { OfJudged UnitsStay }
    ensures read { OfRead UnitsStay }
{}

/// What is unlocked stays unlocked.
pub fn unlocking_stays()
    ensures judged { OfJudged UnlockingStays }
    ensures read { OfRead UnlockingStays }
{}

/// One byte behind a whole message is a fault.
pub fn trailing_bytes_are_refused()
    ensures judged { OfJudged RefusesTrailingBytes }
    ensures read { OfRead RefusesTrailingBytes }
{}

/// A front of a whole message that isn't all of it wants more bytes.
pub fn fronts_go_on()
    ensures judged { OfJudged FrontsGoOn }
    ensures read { OfRead FrontsGoOn }
{}

/// A message of version 1.0 is whole, where the reader allows that, under every answer that has its
/// data key and the pairs that it doesn't store; where the reader doesn't, it is M23.
pub fn legacy_messages_are_judged()
    ensures whole { JudgesLegacyMessages }
    ensures forbidden { ForbidsLegacyMessages }
{}

/// The judgement of any bytes line by line: the header's fault, the header that isn't whole, the
/// answer's fault, M16, M17, and then the body's table.
pub fn judgement_goes_line_by_line()
    ensures { JudgesLineByLine }
{}
