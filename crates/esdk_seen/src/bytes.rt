//! Bytes that were seen to pass.

ghost use Rattle.std.specs.Prelude.{◌≡◌, ℕ, List, [], ◌++◌};
ghost use Rattle.std.specs.Borrow.{ftrue};

use std::marker::Model;

/// The bytes that were seen so far, in their order. It takes no memory.
#[derive(Drop)]
pub struct SeenBytes {
    pub ghost bytes: { List ℕ },
}

impl Model for SeenBytes {
    ghost also_owns = { λ _. ftrue };
}

/// Bytes that pass.
#[derive(Clone, Copy, Drop)]
struct Piece<'a> {
    bytes: &'a [u8],
}

impl SeenBytes {
    /// No bytes yet.
    pub fn new() -> SeenBytes
        ensures { result.bytes ≡ [] }
    {
        SeenBytes {}
    }

    /// These bytes behind those that were seen.
    fn then(&self, _piece: &Piece<'_>) -> SeenBytes
        ensures { result.bytes ≡ self.now.bytes ++ _piece.now.bytes.now }
    {
        SeenBytes {}
    }

    /// Notes these bytes behind those that were seen.
    pub fn see(&mut self, bytes: &[u8])
        ensures { self.new.bytes ≡ self.old.bytes ++ bytes.now }
    {
        *self = self.then(&Piece { bytes });
    }
}
