//! What tells the time.

ghost use Rattle.std.specs.Prelude.{◌≡◌, [], ◌∷◌, ◌++◌, IfSome};
ghost use Rattle.std.specs.Option.{option_map};
ghost use Rattle.esdk_base.specs.Clock.{after_now, next_moment};

/// What tells the present moment, in seconds. Moments may go backwards. A clock has no count of
/// faults.
pub trait Clock {
    ghost use Rattle.esdk_base.specs.Streams.{ClockState};

    /// The moments to come, and the one that stays behind them, where the clock tells them; and the
    /// moments that it gave so far, in their order.
    ghost state: { Self → ClockState };

    /// The present moment: the first of the moments to come, which is taken away, and where none is
    /// left the one that stays.
    fn now(&mut self) -> u64
        ensures moment { IfSome (state self.old).moments (λ told. result ≡ next_moment told) }
        ensures moments { (state self.new).moments ≡ option_map after_now (state self.old).moments }
        ensures given { (state self.new).given ≡ (state self.old).given ++ result ∷ [] };
}
