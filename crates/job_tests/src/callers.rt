//! Callers on threads of their own, with jobs without callers between theirs: which reply each gets by a run, or by a
//! close, that wakes it.

use crate::ending::beside_senders;
use crate::expecting::{Host, Looping, expect_noted, expect_ok, expect_same};
use event_manager::{
    Error, EventPoller, JobSender, LoopWithSenders, NamedCounter, RemoteEndpoint, Result, Senders,
    TrackedManager,
};
use fixtures::parts::{Idle, on_table};
use fixtures::waits::wait_until_pending;
use fixtures::work::{Notes, Work, new_notes};
use std::alloc::Global;
use std::sync::Arc;
use std::thread;
use std::time::Duration;

/// How many milliseconds the callers are given to fall asleep.
const TO_SLEEP: u64 = 100;

/// The jobs of a test, and what becomes of them.
#[derive(Drop)]
struct Line<'a> {
    /// What each job notes and replies, and the reply of its caller, if it has one.
    jobs: &'a [(u64, Option<Result<u64>>)],
    /// Whether the manager runs before it closes.
    is_run: bool,
    /// What the jobs have then noted.
    noted: &'a [u64],
}

/// Sends a job, once those before it wait. It gives the reply, where it calls for one.
#[derive(Drop)]
struct Caller<'a> {
    notes: &'a Notes,
    place: usize,
    number: u64,
    calls: bool,
}

impl<R: Looping> JobSender<Idle, Work, Option<Result<u64>>, R> for Caller<'_> {
    fn send<N: NamedCounter>(
        self,
        endpoint: &RemoteEndpoint<Idle, Work, N>,
        rt: &R,
    ) -> Option<Result<u64>> {
        let job = Work::Note(expect_ok(rt, self.notes.clone()), self.number);
        expect_same(rt, &wait_until_pending(rt, endpoint, self.place), &true);
        if self.calls {
            return Some(endpoint.call_blocking(job, rt));
        }
        expect_ok(rt, endpoint.fire(job, rt));
        None
    }
}

/// A loop that runs, or not, once the callers sleep.
#[derive(Drop)]
struct Lined<'a> {
    line: &'a Line<'a>,
    notes: &'a Notes,
}

impl<'a, R: Looping> LoopWithSenders<Idle, Work, Caller<'a>, R> for Lined<'a> {
    fn begin<N: NamedCounter, P: EventPoller>(
        &mut self,
        _rt: &R,
        alloc: Global,
        _manager: &mut TrackedManager<Idle, Work, N, P>,
    ) -> Result<Vec<Caller<'a>>> {
        let mut callers = Vec::new(alloc);
        for (place, (number, reply)) in self.line.jobs.iter().enumerate() {
            let caller = Caller {
                notes: self.notes,
                place,
                number: *number,
                calls: reply.is_some(),
            };
            let Ok(()) = callers.push(caller) else {
                return Err(Error::OutOfMemory);
            };
        }
        Ok(callers)
    }

    fn run<N: NamedCounter, P: EventPoller>(
        &mut self,
        rt: &R,
        manager: &mut TrackedManager<Idle, Work, N, P>,
        _senders: &Senders,
    ) -> Result<()> {
        let endpoint = expect_ok(rt, manager.remote_endpoint());
        let all = self.line.jobs.len();
        expect_same(rt, &wait_until_pending(rt, &endpoint, all), &true);
        thread::sleep(rt, Duration::from_millis(TO_SLEEP));
        if self.line.is_run {
            expect_same(rt, &manager.run_with_timeout(0, rt), &Ok(1));
        }
        Ok(())
    }
}

/// Expects what the line says of a new manager.
fn expect_line<R: Host>(rt: &R, alloc: Global, line: &Line<'_>) {
    let notes = expect_ok(rt, new_notes(alloc));
    let parts = expect_ok(rt, on_table(*rt, alloc, 0));
    let mut body = Lined {
        line: &*line,
        notes: &notes,
    };
    let ended = expect_ok(rt, beside_senders(rt, parts, &mut body));
    expect_same(rt, &ended.ran, &Ok(()));
    let issued = line.jobs.len() as u64;
    let taken = if line.is_run { issued } else { 0 };
    expect_same(rt, &(ended.issued, ended.taken), &(issued, taken));
    expect_same(rt, &Arc::strong_count(&notes), &1);
    expect_same(rt, &ended.sent.len(), &line.jobs.len());
    for (given, (_number, reply)) in ended.sent.iter().zip(line.jobs.iter()) {
        expect_same(rt, given, reply);
    }
    expect_noted(rt, &notes, line.noted);
}

#[test]
fn callers_get_their_own_replies(rt: HostRuntime) {
    let numbers = [5, 6, 7, 8, 9];
    let jobs = numbers.map(|number| (number, Some(Ok(number))));
    for count in 2..=numbers.len() {
        let line = Line {
            jobs: jobs.split_at(count).0,
            is_run: true,
            noted: numbers.split_at(count).0,
        };
        expect_line(&rt, rt.alloc(), &line);
    }
}

#[test]
fn a_reply_wakes_its_caller(rt: HostRuntime) {
    let line = Line {
        jobs: &[(5, Some(Ok(5)))],
        is_run: true,
        noted: &[5],
    };
    expect_line(&rt, rt.alloc(), &line);
}

/// Expects this of a manager that closes without a run.
fn expect_closed<R: Host>(rt: &R, alloc: Global, jobs: &[(u64, Option<Result<u64>>)]) {
    let line = Line {
        jobs,
        is_run: false,
        noted: &[],
    };
    expect_line(rt, alloc, &line);
}

/// A job whose caller is answered by the close, and one without a caller.
const CALLED: (u64, Option<Result<u64>>) = (1, Some(Err(Error::ChannelRecv)));

const FIRED: (u64, Option<Result<u64>>) = (1, None);

#[test]
fn a_close_wakes_a_caller(rt: HostRuntime) {
    expect_closed(&rt, rt.alloc(), &[CALLED]);
}

#[test]
fn a_close_answers_each_caller_and_drops_its_job(rt: HostRuntime) {
    let jobs = [CALLED, FIRED, CALLED, CALLED, FIRED, FIRED, CALLED];
    expect_closed(&rt, rt.alloc(), &jobs);
}
