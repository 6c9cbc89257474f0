//! Requests, and leaving.

ghost use Rattle.std.specs.Prelude.{◌≡◌};
ghost use Rattle.event_manager.specs.Registry.{LoopStep};
ghost use Rattle.event_manager.specs.LoopState.{HasStepped, IsRequest};

use crate::expecting::{expect_ok, expect_same};
use event_manager::{
    Error, EventManager, EventOps, EventPoller, Events, MutEventSubscriber, NamedCounter, NoJob,
    Request, Result, SubscriberId, SubscriberOps,
};
use fixtures::making::{WithManager, with_manager};
use fixtures::parts::silent_parts;
use fixtures::runs::{let_leave, take_in};
use std::alloc::Global;
use std::process::Abort;
use vmm_sys::epoll::{ControlOperation, EventSet};
use vmm_sys::errno::Errno;
use vmm_sys::script_poller::ScriptPoller;

/// Adds two descriptors when it is added, and asks for nothing at an event.
#[derive(Drop)]
struct Pair {
    first: Events,
    second: Events,
}

impl MutEventSubscriber for Pair {
    ghost use Rattle.std.specs.Prelude.{◌≡◌, [], ◌∷◌};
    ghost use Rattle.event_manager.specs.Exchange.{Answer};
    ghost use Rattle.event_manager.specs.Request.TheVariants.{Add};

    ghost begins = { λ v exchanges w. (one two : Answer) × (exchanges ≡ (Add v.first, one) ∷ (Add v.second, two) ∷ []) × (w ≡ v) };

    ghost serves = { λ v event exchanges w. (exchanges ≡ []) × (w ≡ v) };

    fn process<P: EventPoller>(&mut self, _events: Events, _ops: &mut EventOps<P>) {}

    fn init<P: EventPoller>(&mut self, ops: &mut EventOps<P>) {
        let _ = ops.add(self.first);
        let _ = ops.add(self.second);
    }
}

/// The event of a descriptor that is wanted for IN.
fn wanted(fd: u8) -> Events {
    Events::new_raw(fd as i32, EventSet::IN)
}

/// Makes one request under the id, through `event_ops`; its contract follows from those of the two calls.
fn ask<O: SubscriberOps>(owner: &mut O, id: SubscriberId, request: Request) -> Result<Result<()>>
    ensures { (step : LoopStep O.Subscriber) × IsRequest id request result step
        × HasStepped O.Subscriber.begins O.Poller.controls O.Poller.waits (O.seen owner.old) step (O.seen owner.new) }
{
    match owner.event_ops(id) {
        Ok(ops) => Ok(ops.request(request)),
        Err(e) => Err(e),
    }
}

/// Makes the requests under the id, and compares the answers.
fn expect_answers<O: SubscriberOps, R: Abort>(
    rt: &R,
    owner: &mut O,
    id: SubscriberId,
    expected: &[(Request, Result<()>)],
) {
    for (request, answer) in expected {
        expect_same(rt, &ask(owner, id, *request), &Ok(*answer));
    }
}

/// Takes the subscribers in, and makes the requests of the first; each must have the answer that stands beside it. Then all
/// leave.
#[derive(Drop)]
struct Requests<'a, R> {
    rt: &'a R,
    alloc: Global,
    subscribers: Vec<Pair>,
    requests: &'a [(Request, Result<()>)],
}

impl<R: Abort> WithManager for Requests<'_, R> {
    type Subscriber = Pair;

    type Output = ();

    fn run<N: NamedCounter, P: EventPoller>(
        self,
        manager: &mut EventManager<Pair, NoJob, N, P>,
    ) -> Result<()> {
        let ids = take_in(manager, self.alloc, self.subscribers)?;
        if let Some(id) = ids.first() {
            expect_answers(self.rt, manager, *id, self.requests);
        }
        let_leave(manager, self.alloc, &ids)?;
        Ok(())
    }
}

fn pair_of(first: u8, second: u8) -> Pair {
    Pair {
        first: wanted(first),
        second: wanted(second),
    }
}

/// The requests of a subscriber that owns 3 and 4 beside one that owns 5 and 6, and their answers from a poller that
/// refuses the first Add of 7, the first Modify of 3 and the first Delete of 4.
fn requests_and_answers() -> [(Request, Result<()>); 14] {
    let refused = |number: i32| Err(Error::Epoll(Errno(number)));
    [
        (Request::Add(wanted(3)), Err(Error::FdAlreadyRegistered)),
        (Request::Add(wanted(5)), Err(Error::FdAlreadyRegistered)),
        (Request::Add(wanted(0)), refused(17)),
        (Request::Add(wanted(7)), refused(1)),
        (Request::Add(wanted(7)), Ok(())),
        (Request::Modify(wanted(5)), refused(2)),
        (Request::Modify(wanted(0)), refused(2)),
        (Request::Modify(wanted(3)), refused(5)),
        (Request::Modify(wanted(3)), Ok(())),
        (Request::Remove(wanted(5)), refused(2)),
        (Request::Remove(wanted(8)), refused(2)),
        (Request::Remove(wanted(4)), refused(22)),
        (Request::Remove(wanted(4)), Ok(())),
        (Request::Remove(wanted(4)), refused(2)),
    ]
}

#[test]
fn a_request_is_answered_by_the_table(rt: HostRuntime) {
    let mut script = ScriptPoller::new(rt.alloc());
    let refusals = [
        (ControlOperation::Add, 7, 1),
        (ControlOperation::Modify, 3, 5),
        (ControlOperation::Delete, 4, 22),
    ];
    for (op, fd, errno) in refusals {
        expect_ok(&rt, script.push_refusal(op, fd, Errno(errno)));
    }
    let subscribers = vec![in rt.alloc(); pair_of(3, 4), pair_of(5, 6)];
    let body = Requests {
        rt: &rt,
        alloc: rt.alloc(),
        subscribers: expect_ok(&rt, subscribers),
        requests: &requests_and_answers(),
    };
    let parts = expect_ok(&rt, silent_parts(rt, rt.alloc(), script));
    expect_ok(&rt, with_manager(parts, body));
}
