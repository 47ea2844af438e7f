//! The clock of the system.

ghost use Rattle.std.specs.Prelude.{◌≡◌};

use crate::Clock;
use std::time;

/// The monotonic clock of the system, in whole milliseconds from the first time that it can be read. Where it can't be
/// read, its last answer stands, which is 0 at first.
#[derive(Drop)]
pub struct RealClock<'a, R: time::Clock> {
    runtime: &'a R,
    start: Option<u64>,
    last: u64,
}

impl<'a, R: time::Clock> RealClock<'a, R> {
    ghost use Rattle.fs_outside.specs.Real.{real_clock_last};

    /// A clock whose last answer is 0.
    pub fn new(runtime: &'a R) -> RealClock<'a, R>
        ensures { real_clock_last result ≡ 0 }
    {
        RealClock {
            runtime,
            start: None,
            last: 0,
        }
    }
}

impl<'a, R: time::Clock> Clock for RealClock<'a, R> {
    ghost use Rattle.std.specs.Prelude.{None};

    ghost answers = { λ clock. None };

    fn now(&mut self) -> u64 {
        if let Ok(elapsed) = self.runtime.monotonic() {
            if let Ok(moment) = u64::try_from(elapsed.as_millis()) {
                let start = *self.start.get_or_insert(moment);
                self.last = moment.saturating_sub(start);
            }
        }
        self.last
    }
}
