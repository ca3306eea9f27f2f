//! Moments that were given.

ghost use Rattle.std.specs.Prelude.{◌≡◌, ℕ, List, [], ◌∷◌, ◌++◌};
ghost use Rattle.std.specs.Borrow.{ftrue};

use std::marker::Model;

/// The moments that a clock gave so far, in their order. It takes no memory.
#[derive(Drop)]
pub struct SeenMoments {
    pub ghost moments: { List ℕ },
}

impl Model for SeenMoments {
    ghost also_owns = { λ _. ftrue };
}

/// A moment that is given, in seconds.
#[derive(Clone, Copy, Drop)]
struct Moment {
    seconds: u64,
}

impl SeenMoments {
    /// No moment yet.
    pub fn new() -> SeenMoments
        ensures { result.moments ≡ [] }
    {
        SeenMoments {}
    }

    /// This moment behind those that were given.
    fn then(&self, _moment: &Moment) -> SeenMoments
        ensures { result.moments ≡ self.now.moments ++ _moment.now.seconds ∷ [] }
    {
        SeenMoments {}
    }

    /// Notes this moment behind those that were given.
    pub fn see(&mut self, seconds: u64)
        ensures { self.new.moments ≡ self.old.moments ++ seconds ∷ [] }
    {
        *self = self.then(&Moment { seconds });
    }
}
