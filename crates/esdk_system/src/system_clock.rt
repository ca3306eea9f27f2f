//! The system's clock.

ghost use Rattle.std.specs.Prelude.{◌≡◌, [], ◌∷◌, ◌++◌, IfSome, None};
ghost use Rattle.std.specs.Option.{option_map};
ghost use Rattle.esdk_base.specs.Clock.{Moments, after_now, next_moment};

use esdk_base::Clock;
use esdk_seen::SeenMoments;
use std::marker::Model;
use std::time::{SystemTime, UNIX_EPOCH};

/// A clock over that of the system, in seconds since 1970. It tells the moments that it gave, and
/// not those to come.
#[derive(Drop)]
pub struct SystemClock {
    rt: HostRuntime,
    last: u64,
    given: SeenMoments,
}

impl Model for SystemClock {
    ghost use Rattle.esdk_system.specs.SystemClock.{SystemClockState};

    ghost Value = { SystemClockState };

    ghost view = { λ c. record {
      last = c.last;
      given = c.given.moments;
    } };
}

impl SystemClock {
    /// A clock that has answered no moment yet.
    pub fn new(rt: HostRuntime) -> SystemClock
        ensures { result ≡ record { last = 0; given = [] } }
    {
        SystemClock {
            rt,
            last: 0,
            given: SeenMoments::new(),
        }
    }
}

/// The seconds since 1970. None where the system's clock fails, or stands before 1970.
fn seconds_since_1970(rt: HostRuntime) -> Option<u64> {
    let now = SystemTime::now(&rt).ok()?;
    let passed = now.duration_since(UNIX_EPOCH).ok()?;
    Some(passed.as_secs())
}

/// Where the system's clock fails, or stands before 1970, the last moment is answered again, and 0
/// where there was none.
impl Clock for SystemClock {
    ghost state = { λ c. record {
      moments = None;
      given = c.given;
    } };

    fn now(&mut self) -> u64
        ensures moment { IfSome None (λ (told : Moments). result ≡ next_moment told) }
        ensures moments { None ≡ option_map after_now None }
        ensures given { self.new.given ≡ self.old.given ++ result ∷ [] }

        // The moment is kept, for when the system's clock fails.
        ensures kept { result ≡ self.new.last }
    {
        if let Some(moment) = seconds_since_1970(self.rt) {
            self.last = moment;
        }
        self.given.see(self.last);
        self.last
    }
}
