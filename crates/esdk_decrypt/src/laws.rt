//! Laws about decryptions by a reader, whose input tells its bytes. A law is a function that does
//! nothing: its contract is what is proved.

ghost use Rattle.esdk_decrypt.specs.Laws.{DecryptsWholeInputs, DecryptsNothingElse};
ghost use Rattle.esdk_decrypt.specs.Laws.{NamesTheFirstFault, ReadersJudgeWhatIsWritten};
ghost use Rattle.esdk_decrypt.specs.Laws.{DecryptsToTheText, DecryptsWhatIsWritten};

/// An input that is a whole message is decrypted, unless the input or the output fails or memory
/// runs out. Nothing else is decrypted, and its whole context is the one that it is unlocked with.
pub fn whole_inputs_are_decrypted()
    ensures decrypts { DecryptsWholeInputs }
    ensures alone { DecryptsNothingElse }
{}

/// A fault that is answered is the first fault of the whole input, however little of it was taken;
/// what was released before it is written.
pub fn the_first_fault_is_named()
    ensures { NamesTheFirstFault }
{}

/// A message that was written for a key of the reader's among others is decrypted by a reader who
/// is given the required pairs: to its text, with its whole context.
pub fn written_messages_are_decrypted()
    ensures judged { ReadersJudgeWhatIsWritten }
    ensures text { DecryptsToTheText }
    ensures decrypts { DecryptsWhatIsWritten }
{}
