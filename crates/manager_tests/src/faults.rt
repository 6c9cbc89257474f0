//! A poller that refuses one of its calls, whichever it is.

use crate::expecting::{Looping, expect_ok, expect_same};
use event_manager::{
    Call, Error, EventOps, EventPoller, Events, MutEventSubscriber, Request, Result,
};
use fixtures::asking::wanted;
use fixtures::driving::{Seen, driven, id_of};
use fixtures::parts::silent_parts;
use fixtures::scripts::script_of;
use std::alloc::Global;
use std::process::Abort;
use vmm_sys::errno::Errno;
use vmm_sys::fault_poller::FaultPoller;

const FAULT: Error = Error::Epoll(Errno(22));

const AGREED: Answer = Some(Ok(()));

const REFUSED: Answer = Some(Err(FAULT));

const NOT_OWNED: Answer = Some(Err(Error::Epoll(Errno::ENOENT)));

/// The answer of a request, once it is made.
type Answer = Option<Result<()>>;

/// Adds 3 and 4 when it joins; at its first event of 3 removes 4 and then adds 6. It keeps what was answered, and counts the
/// events of 3 and of 4.
#[derive(Drop)]
struct Asking {
    added: [Answer; 2],
    asked: [Answer; 2],
    threes: u64,
    fours: u64,
}

impl MutEventSubscriber for Asking {
    ghost begins = { λ v exchanges w. Unit {0} };

    ghost serves = { λ v event exchanges w. Unit {0} };

    fn process<P: EventPoller>(&mut self, events: Events, ops: &mut EventOps<P>) {
        if events.fd() == 4 {
            self.fours = self.fours.saturating_add(1);
            return;
        }
        self.threes = self.threes.saturating_add(1);
        if self.threes == 1 {
            let (removed, added) = ops.request_both(
                Request::Remove(Events::empty_raw(4)),
                Request::Add(wanted(6)),
            );
            self.asked = [Some(removed), Some(added)];
        }
    }

    fn init<P: EventPoller>(&mut self, ops: &mut EventOps<P>) {
        let (one, two) = ops.request_both(Request::Add(wanted(3)), Request::Add(wanted(4)));
        self.added = [Some(one), Some(two)];
    }
}

fn make_asking() -> Call<Asking> {
    Call::Add(Asking {
        added: [None; 2],
        asked: [None; 2],
        threes: 0,
        fours: 0,
    })
}

/// What is seen of it: what it is answered in `init`, what at its event of 3, and how many events of 3 and of 4 it has.
type State = ([Answer; 2], [Answer; 2], (u64, u64));

/// Which call is refused, and with what; and what is then seen: what the runs answer, and the state of the subscriber.
type Row<'a> = (u64, Errno, &'a [Result<usize>], State);

const BOTH: [Answer; 2] = [AGREED, AGREED];

/// Call number 0 is none, 1 is of the making, and 7 a Delete of the leave.
const ROWS: [Row<'static>; 8] = [
    (0, Errno(22), &[Ok(2)], (BOTH, BOTH, (1, 0))),
    (
        2,
        Errno(22),
        &[Ok(2)],
        ([REFUSED, AGREED], [None; 2], (0, 1)),
    ),
    (
        3,
        Errno(22),
        &[Ok(2)],
        ([AGREED, REFUSED], [NOT_OWNED, AGREED], (1, 0)),
    ),
    (4, Errno(22), &[Err(FAULT), Ok(2)], (BOTH, BOTH, (1, 0))),
    (4, Errno::EINTR, &[Ok(0), Ok(2)], (BOTH, BOTH, (1, 0))),
    (5, Errno(22), &[Ok(2)], (BOTH, [REFUSED, AGREED], (1, 1))),
    (6, Errno(22), &[Ok(2)], (BOTH, [AGREED, REFUSED], (1, 0))),
    (7, Errno(22), &[Ok(2)], (BOTH, BOTH, (1, 0))),
];

/// It joins, `runs` runs are made, and it leaves; then a second joins and leaves.
fn calls_with<R: Abort>(rt: &R, alloc: Global, runs: usize) -> Vec<Call<Asking>> {
    let mut calls = Vec::new(alloc);
    expect_ok(rt, calls.push(make_asking()));
    for _run in 0..runs {
        expect_ok(rt, calls.push(Call::Run(-1)));
    }
    expect_ok(rt, calls.push(Call::Remove(expect_ok(rt, id_of(alloc, 1)))));
    expect_ok(rt, calls.push(make_asking()));
    expect_ok(rt, calls.push(Call::Remove(expect_ok(rt, id_of(alloc, 2)))));
    calls
}

/// What is seen over a script with one report, of 3 and 4, of which this call is refused.
fn seen_with<R: Looping + Send>(
    rt: &R,
    alloc: Global,
    at: u64,
    errno: Errno,
    runs: usize,
) -> Result<Seen<Asking>> {
    let script = expect_ok(rt, script_of(alloc, &[3, 4]));
    let poller = FaultPoller::new(script, at, errno);
    let parts = expect_ok(rt, silent_parts(*rt, alloc, poller));
    driven(rt, parts, calls_with(rt, alloc, runs))
}

#[test]
fn making_of_the_manager_is_refused(rt: HostRuntime) {
    let refused = seen_with(&rt, rt.alloc(), 1, Errno(22), 0).err();
    expect_same(&rt, &refused, &Some(FAULT));
}

#[test]
fn each_other_call_is_refused(rt: HostRuntime) {
    for (at, errno, runs, state) in ROWS {
        let seen = seen_with(&rt, rt.alloc(), at, errno, runs.len());
        let (ran, left) = expect_ok(&rt, seen);
        expect_same(&rt, &ran.as_slice(), &runs);
        let [first, second] = left.as_slice() else {
            panic!(rt; "two leave");
        };
        let counts = (first.threes, first.fours);
        expect_same(&rt, &(first.added, first.asked, counts), &state);
        // Whatever the poller refused, no descriptor is owned behind the leave.
        expect_same(&rt, &second.added, &BOTH);
    }
}
