//! The exit status of a run.

/// How a run ended, as the program's exit status.
#[derive(Debug, Clone, Copy, PartialEq, Eq)]
pub struct Status {
    /// The number that the program ends with.
    pub code: u8,
}

impl Status {
    /// All was done.
    pub const DONE: Status = Status { code: 0 };
    /// The message has a fault.
    pub const FAULT: Status = Status { code: 1 };
    /// The words aren't taken by a command, or a number or a pair among them is refused.
    pub const WORDS: Status = Status { code: 2 };
    /// A keyring file, a job file or an audit file is refused.
    pub const FILE: Status = Status { code: 3 };
    /// An object outside failed, or the input is too long.
    pub const OUTSIDE: Status = Status { code: 4 };
    /// Memory ran out.
    pub const MEMORY: Status = Status { code: 5 };
    /// What was asked for is refused.
    pub const REFUSAL: Status = Status { code: 6 };
    /// A job wasn't done, or a message of an audit has no opener.
    pub const JOBS: Status = Status { code: 7 };
}
