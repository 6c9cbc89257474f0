//! A poller that follows a script.

ghost use Rattle.std.specs.Prelude.{◌≡◌, ◌≤◌, ◌<◌, ◌++◌, [], length, take, drop, position, Ok, Err, OnOk, OnErr, IfSome, IsOkUnless};
ghost use Rattle.vmm_sys.specs.ScriptPoller.{same_operation, refuses, with_answer, with_refusal, scripted_answer, ctl_answer, after_ctl, next_answer, after_wait, answered_entries, answered_count, script_code, MayCtl, MayWait};

use crate::descriptors::RawFd;
use crate::entries::{ControlOperation, EpollEvent};
use crate::errno::Errno;
use crate::poller::Poller;
use std::alloc::Global;
use std::collections::VecDeque;
use std::marker::Model;

/// The error that one operation on one descriptor is to answer.
#[derive(Clone, Copy)]
pub struct Refusal {
    op: ControlOperation,
    fd: RawFd,
    errno: Errno,
}

/// A poller whose reports, faults and refusals are given beforehand; it is no poller of the system's. Waits take the pushed reports
/// and faults in the order of pushing. A `ctl` is refused once for each pushed refusal of its operation and descriptor, and
/// otherwise agreed. Time limits have no effect: no call waits.
#[derive(Drop)]
pub struct ScriptPoller {
    answers: VecDeque<Result<Vec<EpollEvent>, Errno>>,
    refusals: Vec<Refusal>,
}

impl Model for ScriptPoller {
    ghost use Rattle.std.specs.Prelude.{map};
    ghost use Rattle.vmm_sys.specs.ScriptPoller.{Script, scripted_answer};

    ghost Value = { Script };

    ghost view = { λ s. record { answers = map scripted_answer s.answers.items; refusals = s.refusals.items } };
}

impl ScriptPoller {
    /// An empty script: each `ctl` is agreed, and each wait reports nothing.
    pub fn new(alloc: Global) -> ScriptPoller
        ensures { result ≡ record { answers = []; refusals = [] } }
    {
        ScriptPoller {
            answers: VecDeque::new(alloc),
            refusals: Vec::new(alloc),
        }
    }

    fn push(&mut self, answer: Result<Vec<EpollEvent>, Errno>) -> Result<(), Errno>
        ensures errors { IsOkUnless result Errno.ENOMEM }
        ensures pushed { OnOk result (self.new ≡ with_answer self.old (scripted_answer answer)) }
        ensures unchanged { OnErr result (self.new ≡ self.old) }
    {
        self.answers.push_back(answer).map_err(|_| Errno::ENOMEM)
    }

    /// Appends a report, of any length, to the answers of later waits. `ENOMEM`: memory was refused, and the report is dropped.
    pub fn push_report(&mut self, events: Vec<EpollEvent>) -> Result<(), Errno>
        ensures errors { IsOkUnless result Errno.ENOMEM }
        ensures pushed { OnOk result (self.new ≡ with_answer self.old (Ok events.items)) }
        ensures unchanged { OnErr result (self.new ≡ self.old) }
    {
        self.push(Ok(events))
    }

    /// Appends an error to the answers of later waits. `ENOMEM`: memory was refused.
    pub fn push_fault(&mut self, errno: Errno) -> Result<(), Errno>
        ensures errors { IsOkUnless result Errno.ENOMEM }
        ensures pushed { OnOk result (self.new ≡ with_answer self.old (Err errno)) }
        ensures unchanged { OnErr result (self.new ≡ self.old) }
    {
        self.push(Err(errno))
    }

    /// Makes one `ctl` of this operation and descriptor answer `errno`, after those pushed before. `ENOMEM`: memory was refused.
    pub fn push_refusal(
        &mut self,
        op: ControlOperation,
        fd: RawFd,
        errno: Errno,
    ) -> Result<(), Errno>
        ensures errors { IsOkUnless result Errno.ENOMEM }
        ensures pushed { OnOk result (self.new ≡ with_refusal self.old op fd errno) }
        ensures unchanged { OnErr result (self.new ≡ self.old) }
    {
        let refusal = Refusal { op, fd, errno };
        self.refusals.push(refusal).map_err(|_| Errno::ENOMEM)
    }

    fn place_of_refusal(&self, op: ControlOperation, fd: RawFd) -> Option<usize>
        ensures first { result ≡ position (refuses op fd) self.now.refusals }
        ensures bound { IfSome result (λ k. k < length self.now.refusals) }
    {
        self.refusals
            .iter()
            .position(|r| same_operation(r.op, op) && r.fd == fd)
    }

    // Strikes out and returns the first refusal of the operation and descriptor.
    pub(crate) fn strike_refusal(&mut self, op: ControlOperation, fd: RawFd) -> Result<(), Errno>
        ensures answer { result ≡ ctl_answer self.old op fd }
        ensures after { self.new ≡ after_ctl self.old op fd }
    {
        match self.place_of_refusal(op, fd) {
            None => Ok(()),
            Some(at) => Err(self.refusals.remove(at).errno),
        }
    }

    pub(crate) fn take_answer(&mut self, buffer: &mut [EpollEvent]) -> Result<usize, Errno>
        ensures answer { result ≡ answered_count (next_answer self.old.answers (length buffer.old)) }
        ensures entries { let events = answered_entries (next_answer self.old.answers (length buffer.old)) in
            buffer.new ≡ events ++ drop (length events) buffer.old }
        ensures after { self.new ≡ after_wait self.old (length buffer.old) }
    {
        if buffer.is_empty() {
            return Err(Errno::EINVAL);
        }
        match self.answers.pop_front() {
            None => Ok(0),
            Some(Err(errno)) => Err(errno),
            Some(Ok(events)) => {
                let count = copy_front(&events, buffer);
                if count < events.len() {
                    self.answers.push_front_reserved(Ok(behind(events, count)));
                }
                Ok(count)
            }
        }
    }
}

impl Poller for ScriptPoller {
    ghost meaning = { λ s. script_code.code s };

    ghost may_ctl = { MayCtl };

    ghost may_wait = { MayWait };

    /// Returns the first kept refusal of this operation and descriptor, which is then used up; without one, `Ok`.
    fn ctl(&mut self, op: ControlOperation, fd: RawFd, _event: EpollEvent) -> Result<(), Errno> {
        self.strike_refusal(op, fd)
    }

    /// Gives the next report or fault, and `Ok(0)` where none is left. Of a report longer than the buffer the first events are
    /// given, and the others stay as the next report. `EINVAL`, which leaves the script as it is: the buffer has no room.
    fn wait(&mut self, _ms: i32, buffer: &mut [EpollEvent]) -> Result<usize, Errno> {
        self.take_answer(buffer)
    }
}

fn same_operation(a: ControlOperation, b: ControlOperation) -> bool
    ensures { result ≡ same_operation a b }
{
    match (a, b) {
        (ControlOperation::Add, ControlOperation::Add) => true,
        (ControlOperation::Modify, ControlOperation::Modify) => true,
        (ControlOperation::Delete, ControlOperation::Delete) => true,
        _ => false,
    }
}

fn copy_front(events: &[EpollEvent], buffer: &mut [EpollEvent]) -> usize
    ensures count { result ≡ length (take (length buffer.old) events.now) }
    ensures buffer { buffer.new ≡ take (length buffer.old) events.now ++ drop result buffer.old }
{
    let count = events.len().min(buffer.len());
    buffer[..count].copy_from_slice(&events[..count]);
    count
}

fn behind(events: Vec<EpollEvent>, count: usize) -> Vec<EpollEvent>
    requires { count ≤ length events.items }
    ensures { result.items ≡ drop count events.items }
{
    let mut events = events;
    let left = events.len() - count;
    events.rotate_left(count);
    events.truncate(left);
    events
}
