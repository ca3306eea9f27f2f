//! A clock over a list of moments.

ghost use Rattle.std.specs.Prelude.{◌≡◌, [], Some};
ghost use Rattle.esdk_memory.specs.ListClock.{last_moment};

use esdk_base::Clock;
use esdk_seen::SeenMoments;
use std::marker::Model;

/// A clock that answers the moments of a list, in their order. A contract sees the moments to come,
/// and the one that stays, and the moments that it gave.
#[derive(Drop)]
pub struct ListClock {
    moments: Vec<u64>,
    at: usize,
    last: u64,
    given: SeenMoments,
}

impl Model for ListClock {
    ghost use Rattle.std.specs.Prelude.{drop, ◌≤◌, length};
    ghost use Rattle.esdk_memory.specs.ListClock.{ListClockState};

    ghost Value = { ListClockState };

    ghost view = { λ c. record {
      moments = record { to_come = drop c.at c.moments.items; last = c.last };
      given = c.given.moments;
    } };

    ghost invariant = { λ c. c.at ≤ length c.moments.items };
}

impl ListClock {
    /// A clock of these moments, in seconds. At the end of the list it repeats the last of them,
    /// and 0 where there are none.
    pub fn new(moments: Vec<u64>) -> ListClock
        ensures { result ≡ record {
          moments = record { to_come = moments.items; last = last_moment moments.items };
          given = [];
        } }
    {
        let last = moments.last().copied().unwrap_or(0);
        ListClock {
            moments,
            at: 0,
            last,
            given: SeenMoments::new(),
        }
    }
}

impl Clock for ListClock {
    ghost state = { λ c. record {
      moments = Some c.moments;
      given = c.given;
    } };

    fn now(&mut self) -> u64 {
        let left = &self.moments[self.at..];
        let Some(moment) = left.first().copied() else {
            self.given.see(self.last);
            return self.last;
        };
        self.at += 1;
        self.given.see(moment);
        moment
    }
}
