//! What a call answers.

ghost use Rattle.std.specs.Prelude.{◌≡◌};
ghost use Rattle.c_session.specs.Answer.{is_callers, is_done_answer};

/// What a call of a session answers.
#[derive(Clone, Copy)]
pub enum Answer {
    /// It is done.
    Done,
    /// The call doesn't fit; nothing was changed.
    NotNow,
    /// The message was finished, or an earlier call failed; nothing was changed.
    Ended,
    /// A key or a value isn't UTF-8; nothing was changed.
    NotText,
    /// A frame length of 0; nothing was changed.
    BadFrame,
    /// Another number of random bytes than is drawn; nothing was changed.
    BadRandom,
    /// It failed, for the reason that the session keeps. The session has ended.
    Failed,
}

impl Answer {
    /// Whether it says that the caller may not call so, and nothing was changed.
    pub fn is_callers(self) -> bool
        ensures { result ≡ is_callers self }
    {
        !matches!(self, Answer::Done | Answer::Failed)
    }

    /// Whether it says that it is done.
    pub fn is_done(self) -> bool
        ensures { result ≡ is_done_answer self }
    {
        matches!(self, Answer::Done)
    }
}
