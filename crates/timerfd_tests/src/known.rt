//! What the rules say of timers: each time at which one is due is an expiration.

/// A timer, and whether there is an interest in it.
#[derive(Clone, Copy)]
pub struct Known {
    due: Option<u64>,
    interval: u64,
    expirations: u64,
    pub is_watched: bool,
}

impl Known {
    /// It is told the time.
    fn tell(&mut self, now: u64) {
        for _expiration in 0..u64::MAX {
            let Some(due) = self.due else {
                break;
            };
            if due > now {
                break;
            }
            self.expirations = self.expirations.saturating_add(1);
            self.due = match self.interval {
                0 => None,
                interval => due.checked_add(interval),
            };
        }
    }

    /// Whether it is reported.
    pub fn is_ready(&self) -> bool {
        self.is_watched && self.expirations > 0
    }
}

/// How many timers there are.
pub const TIMERS: usize = 9;

/// Timers, and the time.
#[derive(Clone, Copy)]
pub struct KnownTimers {
    pub timers: [Known; TIMERS],
    pub clock: u64,
}

impl KnownTimers {
    /// New ones.
    pub const NEW: KnownTimers = KnownTimers {
        timers: [Known {
            due: None,
            interval: 0,
            expirations: 0,
            is_watched: false,
        }; TIMERS],
        clock: 0,
    };

    fn tell_all(&mut self) {
        let now = self.clock;
        for timer in &mut self.timers {
            timer.tell(now);
        }
    }

    /// A wait begins: where a timer is armed all are told the time.
    pub fn begin_wait(&mut self) {
        if self.timers.iter().any(|timer| timer.due.is_some()) {
            self.tell_all();
        }
    }

    /// A timer is armed: a duration of zero disarms it.
    pub fn arm(&mut self, at: usize, duration: u64, interval: u64) {
        let due = self.clock.saturating_add(duration);
        if let Some(timer) = self.timers.get_mut(at) {
            timer.due = if duration == 0 { None } else { Some(due) };
            timer.interval = interval;
            timer.expirations = 0;
        }
    }

    /// Whether a timer is armed; all are told the time.
    pub fn is_armed(&mut self, at: usize) -> bool {
        self.tell_all();
        self.timers.get(at).is_some_and(|timer| timer.due.is_some())
    }

    /// What is taken of a timer: where nothing was told of before, all are told the time.
    pub fn take(&mut self, at: usize) -> Option<u64> {
        if self
            .timers
            .get(at)
            .is_some_and(|timer| timer.expirations == 0)
        {
            self.tell_all();
        }
        let timer = self.timers.get_mut(at)?;
        let taken = timer.expirations;
        timer.expirations = 0;
        if taken == 0 { None } else { Some(taken) }
    }
}
