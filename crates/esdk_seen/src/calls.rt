//! Calls of a shelf.

ghost use Rattle.std.specs.Prelude.{◌≡◌, List, [], ◌∷◌, ◌++◌};
ghost use Rattle.std.specs.Borrow.{ftrue};
ghost use Rattle.esdk_seen.specs.Calls.{ShelfCall, calls_code};

use std::marker::Model;

/// The calls of a shelf so far, in their order, with what passed. It takes no memory.
#[derive(Drop)]
pub struct SeenCalls {
    pub ghost calls: { List ShelfCall } by { calls_code },
}

impl Model for SeenCalls {
    ghost also_owns = { λ _. ftrue };
}

/// One call of a shelf.
#[derive(Clone, Copy, Drop)]
pub enum Call<'a> {
    /// Bytes that a read of this name from this offset gave.
    Read(&'a str, u64, &'a [u8]),
    /// The name was made, and holds nothing.
    Create(&'a str),
    /// Bytes that an append to this name took.
    Append(&'a str, &'a [u8]),
    /// The name was announced as one that is going to be read.
    Announce(&'a str),
    /// The file was finished: where `true` stands for its owner alone, else for anyone.
    Finish(&'a str, bool),
}

impl SeenCalls {
    ghost use Rattle.esdk_seen.specs.Told.{call_of};

    /// No call yet.
    pub fn new() -> SeenCalls
        ensures { result.calls ≡ [] }
    {
        SeenCalls {}
    }

    /// This call behind those that were made.
    fn then(&self, _call: &Call<'_>) -> SeenCalls
        ensures { result.calls ≡ self.now.calls ++ call_of _call.now ∷ [] }
    {
        SeenCalls {}
    }

    /// Notes this call behind those that were made.
    pub fn see(&mut self, call: &Call<'_>)
        ensures { self.new.calls ≡ self.old.calls ++ call_of call.now ∷ [] }
    {
        *self = self.then(call);
    }
}
