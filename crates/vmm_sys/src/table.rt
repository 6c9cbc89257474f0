//! The in-process table: counters and lines, and a list of interests in them.

ghost use Rattle.std.specs.Prelude.{false, true, not, ◌≡◌, ◌<◌, ◌≤◌, ◌+◌, ◌-◌, ◌^◌, List, length, ◌++◌, drop, find, map, slice_set, Some, None, IsSome, IfSome, is_some};
ghost use Rattle.std.specs.List.{All};
ghost use Rattle.vmm_sys.specs.Table.{new_table, is_ready, entry_of as entry_in, opened, source_of as source_in, with_source, place_of as place_in, changed, has_mode, Answers, AnswersWithMemory, IsReachable, HasAllowedValue, IsOpen, is_open, is_closed, first_closed, without, close_of, ctl_of, wait_of, write_of, read_of, set_line_of, open_of, add_counter_of, add_line_of, filled, counted, chosen, moved_back};
ghost use Rattle.vmm_sys.specs.Lists.{held};
ghost use Rattle.vmm_sys.specs.Interests.{AreMarked};
ghost use Rattle.vmm_sys.specs.declared.table.source.Source.TheVariants.{Closed};
ghost use Rattle.vmm_sys.specs.ServiceBound.{Ctl, Wait, Close, MovesForward, EachStepMovesForward, ReportedWithinRooms, ReportedWithinWaits};
ghost use Rattle.vmm_sys.specs.TablePoller.{table_code, MayCtl, MayWait};

mod interests;
mod number_set;
mod readiness;
mod source;

use crate::descriptors::RawFd;
use crate::entries::{ControlOperation, EpollEvent};
use crate::errno::Errno;
use crate::event_set::EventSet;
use crate::poller::Poller;
pub use interests::Interest;
use interests::Interests;
use number_set::NumberSet;
use readiness::{is_ready, modify, renew, report};
use source::HIGHEST;
pub use source::Source;
use std::alloc::Global;
use std::marker::Model;

/// The most descriptors of a table, numbered by an `i32` from 0 up.
const DESCRIPTORS: usize = 2147483648;

/// Descriptors, each a counter or a line, and a list of interests in them; it stands in for Linux's `epoll`.
///
/// A new descriptor has the lowest number, from 0 up, that isn't open, as in POSIX. A counter has `IN` where its value is above 0
/// and `OUT` where it is below 18446744073709551614; a line has the set last given to [`Table::set_line`], at first the empty one.
/// The room for a descriptor's interest comes with the descriptor. An interest is found, moved and removed without a look at the
/// others, except that at most once in as many additions and moves as there are descriptors all interests are moved together.
///
/// An interest is ready where its descriptor's state has a wanted event, `ERROR` or `HANG_UP`: these are reported, with the
/// interest's word. It is level-triggered, as Linux's `epoll` is without a mode: a ready interest is reported again until it no
/// longer is ready. No mode is offered. A refused call leaves the table as it was, and returns the first refusal of its list that
/// applies.
pub struct Table {
    sources: Vec<Source>,
    closed: NumberSet,
    interests: Interests,
    limit: usize,
}

// Not derived, so that an owner's proof meets one call, and not the drops of all fields.
impl Drop for Table {
    fn drop(self) {
        let Table {
            sources: _,
            closed: _,
            interests: _,
            limit: _,
        } = self;
    }
}

impl Model for Table {
    ghost use Rattle.std.specs.Prelude.{◌≡◌, ◌≤◌, ◌^◌, length};
    ghost use Rattle.vmm_sys.specs.Lists.{held};
    ghost use Rattle.vmm_sys.specs.Table.{TableState, IsReachable, is_ready};
    ghost use Rattle.vmm_sys.specs.ClosedNumbers.{AreMarkedClosed};
    ghost use Rattle.vmm_sys.specs.Interests.{AreMarked};

    ghost Value = { TableState };

    ghost view = { λ t. record { sources = t.sources.items; interests = held t.interests.slots; limit = t.limit } };

    ghost invariant = { λ t. (t.limit ≤ 2 ^ 31) × (t.interests.room ≡ length t.sources.items) × AreMarked (is_ready t.sources.items) t.interests
        × IsReachable (record { sources = t.sources.items; interests = held t.interests.slots; limit = t.limit })
        × (length t.sources.items ≤ t.limit) × (length t.sources.items ≤ length t.closed) × AreMarkedClosed t.sources.items t.closed };
}

impl Table {
    /// A table without descriptors, of which 2147483648 may be open.
    pub fn new(alloc: Global) -> Table
        ensures { result ≡ new_table }
    {
        Table {
            sources: Vec::new(alloc),
            closed: NumberSet::new(alloc),
            interests: Interests::new(alloc),
            limit: DESCRIPTORS,
        }
    }

    fn open(&mut self, source: Source) -> Result<RawFd, Errno>
        requires value { HasAllowedValue source }
        requires open { is_closed source ≡ false }
        ensures answer { AnswersWithMemory (open_of self.old source) self.old result self.new }
        ensures again { IsSome (first_closed self.old) → Answers (open_of self.old source) self.old result self.new }
    {
        if let Some(number) = self.first_closed() {
            self.open_again(number, source);
            return Ok(number as RawFd);
        }
        self.open_next(source)
    }

    fn first_closed(&mut self) -> Option<usize>
        ensures same { self.new ≡ self.old }
        ensures first { result ≡ first_closed self.old }
        ensures below { IfSome result (λ n. n < 2 ^ 31) }
    {
        self.closed.first()
    }

    fn open_again(&mut self, number: usize, source: Source)
        requires closed { first_closed self.old ≡ Some number }
        requires value { HasAllowedValue source }
        requires open { is_closed source ≡ false }
        ensures { self.new ≡ record self.old { sources = slice_set self.old.sources number source } }
    {
        // It has no interest, so none is marked anew.
        self.sources[number] = source;
        self.closed.put(number, false);
    }

    fn open_next(&mut self, source: Source) -> Result<RawFd, Errno>
        requires none { first_closed self.old ≡ None }
        requires value { HasAllowedValue source }
        requires open { is_closed source ≡ false }
        ensures { AnswersWithMemory (open_of self.old source) self.old result self.new }
    {
        let number = self.sources.len();
        if number >= self.limit {
            return Err(Errno::EMFILE);
        }
        // With the room for its interest an `Add` takes no memory, and with that for its mark a close takes none.
        self.sources.reserve(1)?;
        self.closed.make_room(number + 1)?;
        self.interests.make_room()?;
        self.sources.push_reserved(source);
        Ok(number as RawFd)
    }

    /// Opens a counter of this value, and returns its descriptor. `EINVAL`: the value is 18446744073709551615. `EMFILE`: 2147483648
    /// are open. `ENOMEM`: memory was refused; none is requested where a closed number can be used again.
    pub fn add_counter(&mut self, value: u64) -> Result<RawFd, Errno>
        ensures answer { AnswersWithMemory (add_counter_of self.old value) self.old result self.new }
        ensures again { IsSome (first_closed self.old) → Answers (add_counter_of self.old value) self.old result self.new }
    {
        if value == u64::MAX {
            return Err(Errno::EINVAL);
        }
        self.open(Source::Counter(value))
    }

    /// Opens a line with the empty set, and returns its descriptor. `EMFILE`, `ENOMEM`: as of [`Table::add_counter`].
    pub fn add_line(&mut self) -> Result<RawFd, Errno>
        ensures answer { AnswersWithMemory (add_line_of self.old) self.old result self.new }
        ensures again { IsSome (first_closed self.old) → Answers (add_line_of self.old) self.old result self.new }
    {
        self.open(Source::Line(EventSet::empty()))
    }

    /// Closes a descriptor, and removes its interest. What is opened next has its number, or a lower one that isn't open. No memory
    /// is requested. `EBADF`: `fd` isn't open.
    pub fn close(&mut self, fd: RawFd) -> Result<(), Errno>
        ensures reachable { IsReachable self.old }
        ensures answer { Answers (close_of self.old fd) self.old result self.new }
        ensures forward { MovesForward self.old (Close fd) self.new }
    {
        self.stays_reachable();
        let Some(number) = self.descriptor(fd) else {
            return Err(Errno::EBADF);
        };
        self.take_out(number);
        self.mark_closed(number);
        Ok(())
    }

    fn take_out(&mut self, number: usize)
        requires { number < length self.old.sources }
        ensures left { self.new ≡ record self.old { interests = without self.old.interests (place_in self.old number) } }
        ensures gone { place_in self.new number ≡ None }
    {
        if let Some(slot) = self.interests.slot_of(number) {
            self.interests.remove(slot, number);
        }
    }

    fn mark_closed(&mut self, number: usize)
        requires open { IsOpen self.old.sources number }
        requires without_interest { place_in self.old number ≡ None }
        ensures { self.new ≡ record self.old { sources = slice_set self.old.sources number Closed } }
    {
        self.sources[number] = Source::Closed;
        self.closed.put(number, true);
    }

    /// Adds an interest as the last one, changes it in place, or removes it; `Delete` ignores the event. No memory is requested.
    ///
    /// `EBADF`: `fd` isn't open. `EINVAL`: `Add` or `Modify` of an event with one of the four modes. `EEXIST`: `Add` where `fd` has
    /// an interest. `ENOENT`: `Modify` or `Delete` where it has none.
    #[inline(always)]
    pub fn ctl(&mut self, op: ControlOperation, fd: RawFd, event: EpollEvent) -> Result<(), Errno>
        ensures reachable { IsReachable self.old }
        ensures answer { Answers (ctl_of self.old op fd event) self.old result self.new }
        ensures forward { MovesForward self.old (Ctl op fd event) self.new }
    {
        self.stays_reachable();
        let Some(descriptor) = self.descriptor(fd) else {
            return Err(Errno::EBADF);
        };
        if has_mode(op, event) {
            return Err(Errno::EINVAL);
        }
        self.change(op, Interest { descriptor, event })
    }

    /// Reports the first ready interests, as many as the buffer has room for, and moves them to the back in the order of the
    /// report. Returns their number, which may be 0; entries of the buffer past it stay. Interests that aren't ready cost nothing
    /// but the moves that [`Table`] names, and no memory is requested. `EINVAL`: the buffer has no room.
    pub fn wait(&mut self, buffer: &mut [EpollEvent]) -> Result<usize, Errno>
        ensures reachable { IsReachable self.old }
        ensures answer { Answers (counted (wait_of self.old (length buffer.old))) self.old result self.new }
        ensures entries { buffer.new ≡ filled (wait_of self.old (length buffer.old)) buffer.old }
        ensures open { All (λ i. IsOpen self.old.sources i.descriptor) (chosen self.old (length buffer.old)) }
        ensures forward { MovesForward self.old (Wait (length buffer.old)) self.new }
    {
        self.stays_reachable();
        if buffer.is_empty() {
            return Err(Errno::EINVAL);
        }
        Ok(self.report_ready(buffer))
    }

    /// Whether a wait would report something; it looks at marks, and at no interest. Ours: epoll has no such call.
    pub fn has_ready(&self) -> bool
        ensures { result ≡ is_some (find (is_ready self.now.sources) self.now.interests) }
    {
        match self.interests.ready_from(0) {
            Some(slot) => slot < self.interests.end(),
            None => false,
        }
    }

    /// Adds to a counter; `value` may be 0. `EBADF`: `fd` is no counter. `EINVAL`: `value` is 18446744073709551615. `EAGAIN`: the
    /// sum is above 18446744073709551614.
    pub fn write(&mut self, fd: RawFd, value: u64) -> Result<(), Errno>
        ensures reachable { IsReachable self.old }
        ensures answer { Answers (write_of self.old fd value) self.old result self.new }
    {
        self.stays_reachable();
        let Some(Source::Counter(held)) = self.source(fd) else {
            return Err(Errno::EBADF);
        };
        if value == u64::MAX {
            return Err(Errno::EINVAL);
        }
        match held.checked_add(value) {
            Some(sum) if sum <= HIGHEST => {
                self.replace(fd, Source::Counter(sum));
                Ok(())
            }
            _ => Err(Errno::EAGAIN),
        }
    }

    /// Takes the value of a counter, which is then 0. `EBADF`: `fd` is no counter. `EAGAIN`: its value is 0.
    pub fn read(&mut self, fd: RawFd) -> Result<u64, Errno>
        ensures reachable { IsReachable self.old }
        ensures answer { Answers (read_of self.old fd) self.old result self.new }
    {
        self.stays_reachable();
        let Some(Source::Counter(held)) = self.source(fd) else {
            return Err(Errno::EBADF);
        };
        if held == 0 {
            return Err(Errno::EAGAIN);
        }
        self.replace(fd, Source::Counter(0));
        Ok(held)
    }

    /// Sets the state of a line. Modes in it are kept, but never reported, as no interest has one. `EBADF`: `fd` is no line.
    pub fn set_line(&mut self, fd: RawFd, set: EventSet) -> Result<(), Errno>
        ensures reachable { IsReachable self.old }
        ensures answer { Answers (set_line_of self.old fd set) self.old result self.new }
    {
        self.stays_reachable();
        let Some(Source::Line(_)) = self.source(fd) else {
            return Err(Errno::EBADF);
        };
        self.replace(fd, Source::Line(set));
        Ok(())
    }

    // Does nothing; it states what all calls keep.
    #[inline(always)]
    fn stays_reachable(&self)
        ensures { IsReachable self.now }
    {
        let _limit = self.limit;
    }

    fn report_ready(&mut self, buffer: &mut [EpollEvent]) -> usize
        ensures count { result ≡ length (chosen self.old (length buffer.old)) }
        ensures entries { let entries = map (entry_in self.old.sources) (chosen self.old (length buffer.old)) in
            buffer.new ≡ entries ++ drop result buffer.old }
        ensures moved { self.new ≡ moved_back self.old (length buffer.old) }
    {
        report(&self.sources, &mut self.interests, buffer)
    }

    #[inline(always)]
    fn descriptor(&self, fd: RawFd) -> Option<usize>
        ensures number { result ≡ opened self.now fd }
        ensures open { IfSome result (λ n. IsOpen self.now.sources n) }
        ensures there { IfSome result (λ n. n < length self.now.sources) }
    {
        if fd < 0 {
            return None;
        }
        let number = fd as usize;
        match self.sources.get(number) {
            Some(source) if source.is_open() => Some(number),
            _ => None,
        }
    }

    fn source(&self, fd: RawFd) -> Option<Source>
        ensures { result ≡ source_in self.now fd }
    {
        if fd < 0 {
            return None;
        }
        self.sources.get(fd as usize).copied()
    }

    #[inline(always)]
    fn replace(&mut self, fd: RawFd, source: Source)
        requires there { is_open (source_in self.old fd) ≡ true }
        requires value { HasAllowedValue source }
        requires open { is_closed source ≡ false }
        ensures { self.new ≡ with_source self.old fd source }
    {
        if fd >= 0 {
            self.set_source(fd as usize, source);
        }
    }

    // Where the state of the descriptor changes, its interest is marked anew.
    #[inline(always)]
    fn set_source(&mut self, number: usize, source: Source)
        requires there { IsOpen self.old.sources number }
        requires value { HasAllowedValue source }
        requires open { is_closed source ≡ false }
        ensures { self.new ≡ record self.old { sources = slice_set self.old.sources number source } }
    {
        let before = self.sources[number].state();
        self.sources[number] = source;
        if source.state() != before {
            renew(&self.sources, &mut self.interests, number);
        }
    }

    #[inline(always)]
    fn change(&mut self, op: ControlOperation, interest: Interest) -> Result<(), Errno>
        requires there { interest.descriptor < length self.old.sources }
        requires open { IsOpen self.old.sources interest.descriptor }
        requires without_mode { has_mode op interest.event ≡ false }
        ensures { Answers (changed self.old op interest (place_in self.old interest.descriptor)) self.old result self.new }
    {
        match (op, self.interests.slot_of(interest.descriptor)) {
            (ControlOperation::Add, None) => {
                let ready = is_ready(&self.sources, interest);
                self.interests.push_back(interest, ready);
            }
            (ControlOperation::Add, Some(_)) => return Err(Errno::EEXIST),
            (ControlOperation::Modify, Some(slot)) => {
                modify(&self.sources, &mut self.interests, slot, interest);
            }
            (ControlOperation::Delete, Some(slot)) => {
                self.interests.remove(slot, interest.descriptor);
            }
            (ControlOperation::Modify, None) => return Err(Errno::ENOENT),
            (ControlOperation::Delete, None) => return Err(Errno::ENOENT),
        }
        Ok(())
    }
}

impl Poller for Table {
    ghost meaning = { λ t. table_code.code t };

    ghost may_ctl = { MayCtl };

    ghost may_wait = { MayWait };

    fn ctl(&mut self, op: ControlOperation, fd: RawFd, event: EpollEvent) -> Result<(), Errno> {
        Table::ctl(self, op, fd, event)
    }

    /// As [`Table::wait`]; the time limit has no effect, and nothing is waited for.
    fn wait(&mut self, _ms: i32, buffer: &mut [EpollEvent]) -> Result<usize, Errno> {
        Table::wait(self, buffer)
    }
}

fn has_mode(op: ControlOperation, event: EpollEvent) -> bool
    ensures { result ≡ has_mode op event }
{
    let modes = EventSet::EXCLUSIVE
        .union(EventSet::WAKE_UP)
        .union(EventSet::ONE_SHOT)
        .union(EventSet::EDGE_TRIGGERED);
    match op {
        ControlOperation::Delete => false,
        _ => event.event_set().intersects(modes),
    }
}

/// States how long a ready interest of a [`Table`] may have to wait for its report; it does nothing.
///
/// Unless a call removes or reports an interest, its place gets no later, and a wait that doesn't report it though it is ready
/// moves it forward by the length of its buffer. So an interest that has `a` others before it, isn't removed by a `Delete` or a
/// close, and is ready at each wait is reported by the time the lengths of the buffers add up to more than `a`; with buffers of one
/// length `c` above 0, in one of the first `a / c + 1` waits. This holds for any list of calls, refused ones included.
pub fn service_bound()
    ensures forward { EachStepMovesForward }
    ensures within_rooms { ReportedWithinRooms }
    ensures within_waits { ReportedWithinWaits }
{}
