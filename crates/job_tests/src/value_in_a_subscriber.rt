//! A caller that sets and reads a value of a subscriber, and stops it.

use crate::ending::beside_senders;
use crate::expecting::{Looping, expect_ok, expect_same};
use event_manager::{
    Action, ActionOn, Error, EventPoller, JobSender, LoopWithSenders, NamedCounter, RemoteEndpoint,
    Result, Senders, SubscriberId, TrackedManager,
};
use fixtures::parts::{Holding, on_table};
use fixtures::waits::wait_until_pending;
use std::alloc::Global;
use std::sync::Wait;
use std::time::Clock;

/// A value, and whether its subscriber is stopped.
type Stoppable = Holding<(u64, bool)>;

/// What is done to a subscriber.
#[derive(Clone, Copy)]
enum Change {
    Set(u64),
    Read,
    Stop,
}

/// Makes the change, and replies the value before it.
impl Action<Stoppable> for Change {
    type Reply = u64;

    ghost use Rattle.std.specs.Prelude.{◌≡◌};

    // Which change it makes is seen by what the caller is answered next.
    ghost does = { λ self v reply w. reply ≡ v.0.0 };

    fn act<R: Wait + Clock>(self, subscriber: &mut Stoppable, _rt: &R) -> u64 {
        let (value, _is_stopped) = subscriber.0;
        match self {
            Change::Set(to) => subscriber.0.0 = to,
            Change::Read => {}
            Change::Stop => subscriber.0.1 = true,
        }
        value
    }
}

/// What the caller does, and the value that it is answered each time.
const CHANGES: [(Change, u64); 3] = [(Change::Set(7), 0), (Change::Read, 7), (Change::Stop, 7)];

/// Makes the changes of a subscriber, each by a job that it sends by an endpoint of its own.
#[derive(Drop)]
struct Caller(SubscriberId);

impl<R: Looping> JobSender<Stoppable, ActionOn<Change>, (), R> for Caller {
    fn send<N: NamedCounter>(
        self,
        endpoint: &RemoteEndpoint<Stoppable, ActionOn<Change>, N>,
        rt: &R,
    ) {
        let Caller(id) = self;
        let endpoint = expect_ok(rt, endpoint.try_clone());
        for (change, value) in CHANGES {
            let change = ActionOn {
                subscriber: id,
                action: change,
            };
            let reply = endpoint.call_blocking(change, rt);
            expect_same(rt, &reply, &Ok(Ok(value)));
        }
    }
}

/// A loop with one subscriber, and a caller beside it.
#[derive(Drop)]
struct Called {
    id: Option<SubscriberId>,
}

/// Whether the subscriber is stopped.
fn is_stopped<N: NamedCounter, P: EventPoller>(
    manager: &TrackedManager<Stoppable, ActionOn<Change>, N, P>,
    id: SubscriberId,
) -> Result<bool> {
    Ok(manager.subscriber(id)?.0.1)
}

impl<R: Looping> LoopWithSenders<Stoppable, ActionOn<Change>, Caller, R> for Called {
    fn begin<N: NamedCounter, P: EventPoller>(
        &mut self,
        rt: &R,
        alloc: Global,
        manager: &mut TrackedManager<Stoppable, ActionOn<Change>, N, P>,
    ) -> Result<Vec<Caller>> {
        let id = expect_ok(rt, manager.add_subscriber(Holding((0, false))));
        let ids = expect_ok(rt, manager.ids(alloc));
        expect_same(rt, &ids.as_slice(), &[id].as_slice());
        self.id = Some(id);
        Ok(expect_ok(rt, Vec::from_array(alloc, [Caller(id)])))
    }

    fn run<N: NamedCounter, P: EventPoller>(
        &mut self,
        rt: &R,
        manager: &mut TrackedManager<Stoppable, ActionOn<Change>, N, P>,
        _senders: &Senders,
    ) -> Result<()> {
        let id = self.id.ok_or(Error::InvalidId)?;
        let endpoint = expect_ok(rt, manager.remote_endpoint());
        for _change in CHANGES {
            expect_same(rt, &is_stopped(manager, id), &Ok(false));
            expect_same(rt, &wait_until_pending(rt, &endpoint, 1), &true);
            expect_same(rt, &manager.run_with_timeout(0, rt), &Ok(1));
        }
        expect_same(rt, &is_stopped(manager, id), &Ok(true));
        Ok(())
    }
}

#[test]
fn a_caller_sets_and_reads_a_value_of_a_subscriber(rt: HostRuntime) {
    let parts = expect_ok(&rt, on_table(rt, rt.alloc(), 0));
    let ended = expect_ok(&rt, beside_senders(&rt, parts, &mut Called { id: None }));
    expect_same(&rt, &ended.ran, &Ok(()));
    expect_same(&rt, &(ended.issued, ended.taken), &(3, 3));
}
