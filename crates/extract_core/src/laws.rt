//! Laws about extractions. A law is a function that does nothing: its contract is what is proved.

ghost use Rattle.extract_core.specs.Laws.{ExtractsTheContent, ExtractsWholeMessages};

/// Where the judgement of all the message's bytes has a unit for each slot that is taken, what is
/// extracted is the range of the content that it releases, cut at its end, and no fault ends it.
///
/// Of a whole message that range is extracted, whatever it is: nothing, where it begins at the end
/// of the content or behind it. No fault ends it where it's empty or begins in a slot of the
/// message. Where it begins behind its slots, M10 does, or M18, where a final frame that lacks at
/// most four bytes of a full one has the end of its tag in the range's first slot.
pub fn extractions_are_of_the_content()
    ensures content { ExtractsTheContent }
    ensures whole { ExtractsWholeMessages }
{}
