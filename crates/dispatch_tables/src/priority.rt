//! At which priority the events of a descriptor are dispatched.

ghost use Rattle.std.specs.Prelude.{◌≡◌, ◌≤◌, ◌<◌, MatchOption, nat_lt};
ghost use Rattle.dispatch_tables.specs.Priority.{number_of};

/// The priority of a descriptor, from 0 up to 3: in each batch events of a higher one are dispatched before those of a lower one.
#[derive(Clone, Copy, PartialEq, Eq, PartialOrd, Ord, Debug)]
pub enum Priority {
    /// 0, for a descriptor that is added without a priority.
    Lowest,
    /// 1.
    Low,
    /// 2.
    High,
    /// 3.
    Highest,
}

impl Priority {
    /// The priority of a number; `None` above 3.
    pub fn new(number: u8) -> Option<Priority>
        ensures { MatchOption result (3 < number) (λ priority. number_of priority ≡ number) }
    {
        match number {
            0 => Some(Priority::Lowest),
            1 => Some(Priority::Low),
            2 => Some(Priority::High),
            3 => Some(Priority::Highest),
            _ => None,
        }
    }

    /// Whether it is above the lowest.
    pub fn is_raised(&self) -> bool
        ensures { result ≡ nat_lt 0 (number_of self.now) }
    {
        self.number() > 0
    }

    /// The number of the priority, from 0 up to 3.
    pub fn number(&self) -> u8
        ensures value { result ≡ number_of self.now }
        ensures at_most_3 { result ≤ 3 }
    {
        match self {
            Priority::Lowest => 0,
            Priority::Low => 1,
            Priority::High => 2,
            Priority::Highest => 3,
        }
    }
}
