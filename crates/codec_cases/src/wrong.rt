//! What is wrong with a line that can't be read.

/// What is wrong with a line.
#[derive(Clone, Copy)]
pub(crate) enum Wrong {
    /// The first word is no call.
    NoCall,
    /// A word is missing, or one is too many.
    Count,
    /// A word isn't what the call takes there.
    Word,
    /// No bytes have this name.
    NoName,
    /// Memory ran out.
    Memory,
}

impl Wrong {
    /// The words that say it.
    pub(crate) fn what(self) -> &'static str {
        match self {
            Wrong::NoCall => "an unknown call",
            Wrong::Count => "a word is missing or too many",
            Wrong::Word => "a word can't be read",
            Wrong::NoName => "an unknown name",
            Wrong::Memory => "memory ran out",
        }
    }
}
