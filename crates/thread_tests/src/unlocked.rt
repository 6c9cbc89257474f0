//! What another thread sees while a job, a reply or a subscriber is dropped.

ghost use Rattle.std.specs.Prelude.{◌≡◌};

use crate::expecting::{Host, Looping, expect_ok, expect_same};
use crate::watched::{Drops, Guest, Reporter, Task, Watched};
use event_manager::{
    Error, EventPoller, JobSender, Ledgers, LoopWithSenders, Named, NamedCounter, Naming,
    RemoteEndpoint, Result, Senders, SubscriberOps, Ticket, TrackedManager, with_senders,
};
use fixtures::making::make;
use fixtures::parts::{Holding, OnTable, Parts, on_table};
use fixtures::waits::{wait_until_ended, wait_until_pending};
use std::alloc::Global;
use std::marker::Brand;
use std::sync::ledger::Blank;
use std::sync::{Arc, Mutex, Wait};
use std::thread;
use std::time::Clock;
use test_rounds::Rounds;
use vmm_sys::errno::Errno;
use vmm_sys::eventfd::EventFd;

/// A value that one ring more makes the largest of an `EventFd`.
const NEARLY_FULL: u64 = 18446744073709551613;

type Endpoint<N, R> = RemoteEndpoint<Guest<R>, Task<R>, N>;

/// How a job is sent.
#[derive(Clone, Copy)]
enum Way {
    Fire,
    FireAfter,
    Call,
}

/// What drops the value.
#[derive(Clone, Copy)]
enum Act {
    /// A send of a job that holds it, where the endpoint's counter is full.
    SendToFull(Way),
    /// A send of a job that holds it, where the manager was closed.
    SendToClosed(Way),
    /// A run of a job that replies it, and that nobody called.
    RunReply,
    /// A close while a job waits that holds it.
    CloseOnJob,
}

/// What is expected of an act: how many jobs wait while the value is dropped, what a send is then answered, and how the
/// job is refused, if it is.
fn expected(act: Act) -> (usize, Result<u64>, Option<Error>) {
    let full = Error::EventFd(Errno::EAGAIN);
    let closed = Error::ChannelSend;
    match act {
        Act::SendToFull(_) => (1, Err(full), Some(full)),
        Act::SendToClosed(_) => (0, Err(closed), Some(closed)),
        Act::RunReply => (0, Ok(3), None),
        Act::CloseOnJob => (0, Err(closed), None),
    }
}

/// A job that holds the value.
fn holder<R: Clock + Drop>(act: Act, value: Watched<R>) -> Task<R> {
    match act {
        Act::RunReply => Task::Reply(value),
        _ => Task::Hold(value),
    }
}

/// Looks on while the value is dropped, and expects this of the endpoint then: how many jobs wait, and what a send is answered.
/// A send is made only where it won't wait for the drop.
fn look_on<N: NamedCounter, R: Looping>(
    rt: &R,
    endpoint: &Endpoint<N, R>,
    drops: &Drops,
    waiting: usize,
    answer: Result<u64>,
) {
    let began = drops.wait_for_one(rt);
    let pending = endpoint.pending();
    let sent = match pending {
        Some(_) => Some(endpoint.fire(Task::Nothing, rt).map(|t| t.number())),
        None => None,
    };
    drops.let_end();
    expect_same(rt, &(began, pending), &(true, Some(waiting)));
    expect_same(rt, &sent, &Some(answer));
}

/// Sends the job in this way: how it is refused, if it is.
fn send<N: NamedCounter, R: Wait + Clock + Drop>(
    rt: &R,
    endpoint: &Endpoint<N, R>,
    shown: &Ticket<N>,
    job: Task<R>,
    way: Way,
) -> Option<Error> {
    match way {
        Way::Fire => endpoint.fire(job, rt).err(),
        Way::FireAfter => endpoint.fire_after(shown, job, rt).err(),
        Way::Call => endpoint.call_blocking(job, rt).err(),
    }
}

/// Sends a job, by which the endpoint's counter is full, and then the second: at once, or when the first waits no more.
fn send_both<N: NamedCounter, R: Looping>(
    rt: &R,
    endpoint: &Endpoint<N, R>,
    second: &Second<R>,
    act: Act,
) {
    let shown = expect_ok(rt, endpoint.fire(Task::Nothing, rt));
    let (way, pending) = match act {
        Act::SendToFull(way) => (way, 1),
        Act::SendToClosed(way) => (way, 0),
        _ => (Way::Fire, 0),
    };
    expect_same(rt, &wait_until_pending(rt, endpoint, pending), &true);
    let job = second.lock(rt).take().unwrap_or(Task::Nothing);
    let (_pending, _answer, refusal) = expected(act);
    expect_same(rt, &send(rt, endpoint, &shown, job, way), &refusal);
}

/// The second job, until it is sent.
type Second<R> = Mutex<Option<Task<R>>>;

/// Who is beside the loop.
#[derive(Drop)]
enum Beside<'a, R: Clock + Drop> {
    /// Looks on while the value is dropped.
    Looks(Act, &'a Drops),
    /// Sends a job, and then this one.
    Sends(Act, &'a Second<R>),
}

impl<R: Looping> JobSender<Guest<R>, Task<R>, (), R> for Beside<'_, R> {
    fn send<N: NamedCounter>(self, endpoint: &Endpoint<N, R>, rt: &R) {
        match self {
            Beside::Looks(act, drops) => {
                let (waiting, answer, _refusal) = expected(act);
                look_on(rt, endpoint, drops, waiting, answer)
            }
            Beside::Sends(act, second) => send_both(rt, endpoint, second, act),
        }
    }
}

/// The loop of an act.
#[derive(Drop)]
struct Acting<'a, R: Clock + Drop> {
    act: Act,
    drops: &'a Drops,
    second: &'a Second<R>,
}

impl<'a, R: Looping> LoopWithSenders<Guest<R>, Task<R>, Beside<'a, R>, R> for Acting<'a, R> {
    fn begin<N: NamedCounter, P: EventPoller>(
        &mut self,
        rt: &R,
        alloc: Global,
        _manager: &mut TrackedManager<Guest<R>, Task<R>, N, P>,
    ) -> Result<Vec<Beside<'a, R>>> {
        let looks = Beside::Looks(self.act, self.drops);
        let sends = Beside::Sends(self.act, self.second);
        Ok(expect_ok(rt, Vec::from_array(alloc, [looks, sends])))
    }

    /// Runs for the first job but where the second is sent beside it, and for the second where that is to be run.
    fn run<N: NamedCounter, P: EventPoller>(
        &mut self,
        rt: &R,
        manager: &mut TrackedManager<Guest<R>, Task<R>, N, P>,
        senders: &Senders,
    ) -> Result<()> {
        let runs = match self.act {
            Act::SendToFull(_) => {
                expect_same(rt, &wait_until_ended(rt, senders), &true);
                return Ok(());
            }
            Act::SendToClosed(_) => 0,
            Act::CloseOnJob => 1,
            Act::RunReply => 2,
        };
        let endpoint = expect_ok(rt, manager.remote_endpoint());
        for turn in 0..2 {
            expect_same(rt, &wait_until_pending(rt, &endpoint, 1), &true);
            if turn == runs {
                break;
            }
            expect_ok(rt, manager.run(rt));
        }
        Ok(())
    }
}

/// Expects of this act, on a new manager, that another thread looks on and sends while the value is dropped, once.
fn expect_seen<R: Host>(rt: &R, alloc: Global, act: Act) {
    let drops = expect_ok(rt, Arc::new(alloc, Drops::new()));
    let value = expect_ok(rt, Watched::new(&drops, *rt));
    let Parts { counter, .. } = expect_ok(rt, on_table(*rt, alloc, NEARLY_FULL));
    let second = Mutex::new(Some(holder(act, value)));
    let mut acting = Acting {
        act,
        drops: &drops,
        second: &second,
    };
    let ended = expect_ok(rt, with_senders(rt, alloc, Reporter, counter, &mut acting));
    expect_same(rt, &ended.ran, &Ok(()));
    expect_same(rt, &drops.count(), &1);
}

/// Expects it of each of these acts, none of which may last too long.
fn expect_each_seen<R: Host>(rt: &R, alloc: Global, acts: &[Act]) {
    let rounds = Rounds::new();
    thread::join(
        rt,
        || expect_same(rt, &rounds.look_on(rt), &true),
        || {
            for act in acts {
                expect_seen(rt, alloc, *act);
                rounds.count();
            }
            rounds.end();
        },
    );
}

#[test]
fn a_job_that_a_full_counter_refuses_is_dropped_unlocked(rt: HostRuntime) {
    let acts = [Way::Fire, Way::FireAfter, Way::Call].map(|way| Act::SendToFull(way));
    expect_each_seen(&rt, rt.alloc(), &acts);
}

#[test]
fn a_job_that_a_closed_queue_refuses_is_dropped_unlocked(rt: HostRuntime) {
    let acts = [Way::Fire, Way::FireAfter, Way::Call].map(|way| Act::SendToClosed(way));
    expect_each_seen(&rt, rt.alloc(), &acts);
}

#[test]
fn a_reply_that_nobody_wants_is_dropped_unlocked(rt: HostRuntime) {
    expect_each_seen(&rt, rt.alloc(), &[Act::RunReply]);
}

#[test]
fn a_job_that_waits_at_a_close_is_dropped_behind_it(rt: HostRuntime) {
    expect_each_seen(&rt, rt.alloc(), &[Act::CloseOnJob]);
}

/// Closes a manager whose subscriber holds a value, while another thread looks on by an endpoint.
fn close_beside<N: Naming + Send + Sync, R: Host>(
    rt: &R,
    parts: OnTable<R>,
    drops: &Arc<Drops, Global>,
    tickets: Blank,
    taken: Blank,
)
    requires tickets { (tickets.name ≡ N.tickets) × (tickets.parts ≡ 9223372036854775808) }
    requires taken { (taken.name ≡ N.taken) × (taken.parts ≡ 1) }
{
    let ledgers = Ledgers::<Named<N, EventFd>>::new(tickets, taken);
    let (counter, parts) = parts.split();
    let mut manager = expect_ok(
        rt,
        make::<Guest<R>, Task<R>, Named<N, EventFd>, _>(parts, Named::new(counter), ledgers),
    );
    let guest = Holding(Some(expect_ok(rt, Watched::new(drops, *rt))));
    expect_ok(rt, manager.add_subscriber(guest));
    let endpoint = expect_ok(rt, manager.remote_endpoint());
    thread::join(
        rt,
        || look_on(rt, &endpoint, drops, 0, Err(Error::ChannelSend)),
        || {
            manager.close(rt);
        },
    );
}

#[test]
fn subscribers_are_dropped_behind_a_close(rt: HostRuntime) {
    let alloc = rt.alloc();
    let drops = expect_ok(&rt, Arc::new(alloc, Drops::new()));
    let parts = expect_ok(&rt, on_table(rt, alloc, 0));
    let tickets = Blank::new(9223372036854775808);
    close_beside::<Brand, _>(&rt, parts, &drops, tickets, Blank::new(1));
    expect_same(&rt, &drops.count(), &1);
}
