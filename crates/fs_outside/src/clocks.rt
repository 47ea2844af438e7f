//! Clocks in memory.

ghost use Rattle.std.specs.Prelude.{◌≡◌, ◌+◌, ◌-◌, ◌^◌, ◌∷◌, [], min};
ghost use Rattle.fs_outside.specs.{Sink.{Grew}, Moments.{answer_at, told_answers}};

use crate::Clock;

/// A clock that answers the moments of a list in turn, and then the last of them again and again; 0 where there is
/// none. It tells its answers for the first 2^64 - 1 of them.
#[derive(Drop)]
pub struct MemClock {
    moments: Vec<u64>,
    calls: u64,
}

impl MemClock {
    ghost use Rattle.fs_outside.specs.Moments.{mem_clock_calls, mem_clock_moments};

    /// A clock that has answered nothing yet.
    pub fn new(moments: Vec<u64>) -> MemClock
        ensures moments { mem_clock_moments result ≡ moments.items }
        ensures calls { mem_clock_calls result ≡ 0 }
    {
        MemClock { moments, calls: 0 }
    }
}

impl Clock for MemClock {
    ghost use Rattle.fs_outside.specs.Moments.{mem_clock_calls, mem_clock_moments};

    ghost answers = { λ clock. told_answers (mem_clock_moments clock) (mem_clock_calls clock) };

    fn now(&mut self) -> u64
        ensures answered { Grew
            (told_answers (mem_clock_moments self.old) (mem_clock_calls self.old))
            (told_answers (mem_clock_moments self.new) (mem_clock_calls self.new))
            (result ∷ []) }
        ensures moment { result ≡ answer_at (mem_clock_moments self.old) (mem_clock_calls self.old) }
        ensures calls { mem_clock_calls self.new ≡ min (mem_clock_calls self.old + 1) (2 ^ 64 - 1) }
        ensures moments { mem_clock_moments self.new ≡ mem_clock_moments self.old }
    {
        let moment = match self.moments.get(self.calls as usize) {
            Some(moment) => *moment,
            None => self.moments.last().copied().unwrap_or(0),
        };
        self.calls = self.calls.saturating_add(1);
        moment
    }
}

/// A clock that stands at 0. It tells its answers for the first 2^64 - 1 of them.
#[derive(Drop)]
pub struct StillClock {
    calls: u64,
}

impl StillClock {
    ghost use Rattle.fs_outside.specs.Moments.{still_clock_calls};

    /// A clock that has answered nothing yet.
    pub fn new() -> StillClock
        ensures { still_clock_calls result ≡ 0 }
    {
        StillClock { calls: 0 }
    }
}

impl Clock for StillClock {
    ghost use Rattle.fs_outside.specs.Moments.{still_clock_calls};

    ghost answers = { λ clock. told_answers [] (still_clock_calls clock) };

    fn now(&mut self) -> u64
        ensures answered { Grew
            (told_answers [] (still_clock_calls self.old))
            (told_answers [] (still_clock_calls self.new))
            (result ∷ []) }
        ensures still { result ≡ 0 }
    {
        self.calls = self.calls.saturating_add(1);
        0
    }
}
