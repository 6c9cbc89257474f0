//! One timer.

ghost use Rattle.std.specs.Prelude.{◌≡◌, ◌≤◌};
ghost use Rattle.timerfd.specs.Timer.{armed, stopped, expired, expired_since};

/// A timer. Times are in nanoseconds.
#[derive(Clone, Copy, PartialEq, Eq, Debug)]
pub struct Timer {
    /// When it is due; `None` while it is disarmed.
    pub due: Option<u64>,
    /// The time from one expiration to the next; 0 where it expires once.
    pub interval: u64,
    /// The number of expirations since they were last taken; 18446744073709551615 stands for more, too.
    pub expirations: u64,
    /// Whether it is open; false once it was closed.
    pub is_open: bool,
}

impl Timer {
    /// An open timer that isn't due, with nothing to take.
    pub const DISARMED: Timer = Timer {
        due: None,
        interval: 0,
        expirations: 0,
        is_open: true,
    };

    /// A closed timer.
    pub const CLOSED: Timer = Timer {
        due: None,
        interval: 0,
        expirations: 0,
        is_open: false,
    };

    pub(crate) fn armed(self, due: u64, interval: u64) -> Timer
        ensures { result ≡ armed due interval self }
    {
        if !self.is_open {
            return self;
        }
        Timer {
            due: Some(due),
            interval,
            expirations: 0,
            is_open: true,
        }
    }

    pub(crate) fn stopped(self) -> Timer
        ensures { result ≡ stopped self }
    {
        if self.is_open { Timer::DISARMED } else { self }
    }

    /// The timer at `now`. If due by then it has expired, and once more for each whole interval since; it is next due at the first
    /// of its times above now, or disarmed: without an interval, or where that is above 18446744073709551615. Else it stays as is.
    pub fn expire(self, now: u64) -> Timer
        ensures { result ≡ expired now self }
    {
        match self.due {
            Some(due) if due <= now => self.expire_since(now, due),
            _ => self,
        }
    }

    fn expire_since(self, now: u64, due: u64) -> Timer
        requires { due ≤ now }
        ensures { result ≡ expired_since now due self }
    {
        if self.interval == 0 {
            return Timer {
                due: None,
                interval: 0,
                expirations: self.expirations.saturating_add(1),
                is_open: self.is_open,
            };
        }
        let late = now - due;
        Timer {
            due: now.checked_add(self.interval - late % self.interval),
            interval: self.interval,
            expirations: self
                .expirations
                .saturating_add(late / self.interval)
                .saturating_add(1),
            is_open: self.is_open,
        }
    }
}
