//! Laws about entries. A law is a function that does nothing: its contract is what is proved.

ghost use Rattle.edk_codec.specs.Laws.{WrittenIsRead, ReadIsWritten, NoneRefused};

/// What is written is read back, whatever bytes follow.
pub fn written_entry_is_read()
    ensures { WrittenIsRead }
{}

/// What is read was written: the bytes begin with the entry's text, and with no other.
pub fn read_entry_is_written()
    ensures { ReadIsWritten }
{}

/// No bytes are refused as an entry: it is whole, or more bytes are wanted.
pub fn an_entry_is_never_refused()
    ensures { NoneRefused }
{}
