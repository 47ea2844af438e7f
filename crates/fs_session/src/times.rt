//! The moments of an end of a session, and what its timers do (RFC 4271, sections 4.4, 6.5 and 10).

ghost use Rattle.std.specs.Prelude.{◌≡◌};
ghost use Rattle.fs_session.specs.Times.{no_times, at_moment, taken_in, written_now, tick_at};

use crate::state::State;

/// Moments in milliseconds: the greatest that was handed in, that of the last message taken, and that of what was
/// last written. What was written counts from the OPEN that was taken, and then from each KEEPALIVE of the timer.
#[derive(Clone, Copy, Debug, PartialEq, Eq, Drop)]
pub struct Times {
    pub greatest: u64,
    pub taken: u64,
    pub written: u64,
}

/// What a tick of the clock asks for.
#[derive(Clone, Copy, Debug, PartialEq, Eq, Drop)]
pub enum Tick {
    /// Nothing.
    Quiet,
    /// A KEEPALIVE is due.
    Keeps,
    /// The hold time has expired.
    Expires,
}

impl Times {
    /// Before any moment.
    pub fn start() -> Times
        ensures { result ≡ no_times }
    {
        Times {
            greatest: 0,
            taken: 0,
            written: 0,
        }
    }

    /// A moment was handed in. One that falls counts as the greatest so far.
    pub fn at(&self, moment: u64) -> Times
        ensures { result ≡ at_moment moment self.now }
    {
        Times {
            greatest: self.greatest.max(moment),
            ..*self
        }
    }

    /// A message was taken in this state.
    pub fn took(&self, state: State) -> Times
        ensures { result ≡ taken_in state self.now }
    {
        let written = match state {
            State::WaitOpen => self.greatest,
            State::WaitKeep | State::Established | State::Closed => self.written,
        };
        Times {
            greatest: self.greatest,
            taken: self.greatest,
            written,
        }
    }

    /// A KEEPALIVE was written.
    pub fn wrote(&self) -> Times
        ensures { result ≡ written_now self.now }
    {
        Times {
            written: self.greatest,
            ..*self
        }
    }

    /// What is due with a hold time of so many seconds; 0 is none.
    pub fn tick(&self, hold: u16) -> Tick
        ensures { result ≡ tick_at hold self.now }
    {
        if hold == 0 {
            return Tick::Quiet;
        }
        let hold = 1000 * u128::from(hold);
        if hold <= u128::from(self.greatest.saturating_sub(self.taken)) {
            return Tick::Expires;
        }
        if hold <= 3 * u128::from(self.greatest.saturating_sub(self.written)) {
            return Tick::Keeps;
        }
        Tick::Quiet
    }
}
