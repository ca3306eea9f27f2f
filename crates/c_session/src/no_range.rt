//! Why no range comes.

ghost use Rattle.std.specs.Prelude.{◌≡◌, ◌≤◌};
ghost use Rattle.c_session.specs.NoRange.{no_range_code};

use crate::answer::Answer;
use crate::file_session::code_for;
use crate::reason::Reason;

/// Why no range of a message comes. The session stays as it was.
#[derive(Drop)]
pub enum NoRange {
    /// The call doesn't fit: `NotNow` or `Ended`.
    Call(Answer),
    /// For this reason.
    Reason(Reason),
    /// No message has so many bytes, or the range is empty where one is looked for.
    TooFar,
    /// Bytes of the message are wanted that weren't handed over.
    Missing,
}

impl NoRange {
    /// Its code: one of the caller's, or that of the reason.
    pub fn code(&self) -> u32
        ensures code { result ≡ no_range_code self.now }
        ensures few { result ≤ 9999 }
    {
        match self {
            NoRange::Call(answer) => code_for(*answer, None),
            NoRange::Reason(reason) => reason.code(),
            NoRange::TooFar => 2009,
            NoRange::Missing => 2010,
        }
    }
}
