//! What a descriptor stands for.

ghost use Rattle.std.specs.Prelude.{◌≡◌, not};
ghost use Rattle.vmm_sys.specs.EventSet.{bits_of};
ghost use Rattle.vmm_sys.specs.Table.{state_of, is_closed};

use crate::event_set::EventSet;

/// The highest value of a counter.
pub(super) const HIGHEST: u64 = 18446744073709551614;

/// What a descriptor of a [`Table`](crate::table::Table) stands for; the contracts of the table speak of it.
#[derive(Clone, Copy)]
pub enum Source {
    /// A number from 0 to 18446744073709551614 that is written to and read.
    Counter(u64),
    /// A set of events, which [`Table::set_line`](crate::table::Table::set_line) sets.
    Line(EventSet),
    /// Nothing: the number was closed.
    Closed,
}

impl Source {
    pub(super) fn state(&self) -> EventSet
        ensures { bits_of result ≡ state_of self.now }
    {
        match *self {
            Source::Counter(value) => {
                let read = if value > 0 {
                    EventSet::IN
                } else {
                    EventSet::empty()
                };
                let write = if value < HIGHEST {
                    EventSet::OUT
                } else {
                    EventSet::empty()
                };
                read.union(write)
            }
            Source::Line(set) => set,
            Source::Closed => EventSet::empty(),
        }
    }

    pub(super) fn is_open(&self) -> bool
        ensures { result ≡ not (is_closed self.now) }
    {
        match self {
            Source::Counter(_) => true,
            Source::Line(_) => true,
            Source::Closed => false,
        }
    }
}
