//! Timers as descriptors over any poller, under the names of `vmm-sys-util`'s `timerfd`: a [`TimedPoller`] is a poller with timers
//! beside it, a [`TimerFd`] one of them. Below them are [`Timers`], without a clock, a lock or a descriptor: their owner tells them
//! the time, in nanoseconds since a beginning of its choice.
#![tactic(auto)]

mod clock;
mod description;
mod due_tree;
pub mod laws;
mod shared;
mod tick_clock;
mod timed_poller;
mod timer;
mod timer_fd;
mod timer_table;
mod timers;

pub use tick_clock::TickClock;
pub use timed_poller::TimedPoller;
pub use timer::Timer;
pub use timer_fd::TimerFd;
pub use timer_table::TimerTable;
pub use timers::Timers;
