//! A law about the workload. A law is a function that does nothing: its contract is what is proved.

ghost use Rattle.esdk_gen.specs.Opening.{OpensWhatIsGenerated};

/// The message of any seed and size is unlocked by its wrapping key, is whole, and has the text of
/// which it was made.
pub fn generated_messages_open()
    ensures { OpensWhatIsGenerated }
{}
