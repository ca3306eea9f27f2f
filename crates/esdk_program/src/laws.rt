//! Laws about the program as a function. A law is a function that does nothing: its contract is
//! what is proved.

ghost use Rattle.esdk_program.specs.Laws.{ExtractsAsItBegins, ExtractsOfTheText};
ghost use Rattle.esdk_program.specs.Laws.{ExtractsWithinTheText, ListsWhoOpens, ListsWhoUnlocks};
ghost use Rattle.esdk_program.specs.Laws.{OpensWhatIsArmoured, OpensWhatIsResealed};
ghost use Rattle.esdk_program.specs.Laws.{OpensWhatIsWritten, ResealsWhatIsWritten};
ghost use Rattle.esdk_program.specs.Laws.{RewritesForNewReaders};

/// What was written for one of a reader's keys, and for the pairs that it is given, comes back, as
/// it is and as armour text.
pub fn what_is_written_comes_back()
    ensures plain { OpensWhatIsWritten }
    ensures armoured { OpensWhatIsArmoured }
{}

/// What was written for one of the first tree's keys and is resealed under the second tree's comes
/// back to whoever has one of these, other keys beside it, and is given the pairs that the old
/// message's readers have to be given: the same text and the same whole context. It is written for
/// them as the old one was for its readers, so that it can be resealed again.
pub fn what_is_resealed_comes_back()
    ensures resealed { ResealsWhatIsWritten }
    ensures written { RewritesForNewReaders }
    ensures opened { OpensWhatIsResealed }
{}

/// What `extract` writes of a message that `decrypt` opens for the same reader is a range of what
/// `decrypt` writes, cut at its end; and that is all, where the range is empty or begins within it.
/// Where it begins behind the message's slots, M10 ends it, or rarely M18.
pub fn a_range_is_of_the_content()
    ensures part { ExtractsOfTheText }
    ensures within { ExtractsWithinTheText }
    ensures ends { ExtractsAsItBegins }
{}

/// The leaves that stand in the audit's line of a message are those whose keys alone unlock its
/// header; and each leaf is one of them with whose keys alone `decrypt` opens the message.
pub fn what_opens_for_one_leaf()
    ensures unlocks { ListsWhoUnlocks }
    ensures opens { ListsWhoOpens }
{}
