//! Jobs that the loop's own thread sends and runs.

use crate::again;
use crate::descriptors::{copy_counter, is_unregistered};
use crate::expecting::{Host, Looping, expect_ok, expect_same, mark};
use crate::making::{OnTable, open_table, parts_of};
use event_manager::{
    EventManager, EventPoller, Ledgers, NamedCounter, RemoteEndpoint, Result, Ticket, WithLedgers,
    with_ledgers,
};
use fixtures::making::make;
use fixtures::parts::{Idle, Parts};
use fixtures::work::Work;
use std::alloc::Global;
use vmm_sys::eventfd::EventFd;

/// An endpoint of the tests.
pub type Endpoint<N> = RemoteEndpoint<Idle, Work, N>;

/// A manager of a test of jobs.
type Manager<N, P> = EventManager<Idle, Work, N, P>;

/// The loop's own thread, as it sends jobs.
#[derive(Clone, Copy, Drop)]
struct Sending<'a, R> {
    rt: &'a R,
    /// The endpoint's counter.
    bell: &'a EventFd,
}

impl<R: Looping> Sending<'_, R> {
    /// How often the bell was rung since it was last read by the loop.
    fn rings(&self) -> u64 {
        let rings = self.bell.read(self.rt).unwrap_or(0);
        expect_ok(self.rt, "EventFd::write", self.bell.write(rings, self.rt));
        rings
    }

    /// Whether `count` jobs wait, and the bell was rung as often.
    fn are_waiting<N: NamedCounter>(&self, endpoint: &Endpoint<N>, count: u64) -> bool {
        endpoint.pending() == usize::try_from(count).ok() && self.rings() == count
    }

    /// Expects that the job behind `sent` others has the next ticket.
    fn expect_next<N: NamedCounter>(
        &self,
        call: &str,
        endpoint: &Endpoint<N>,
        ticket: &Ticket<N>,
        sent: u64,
    ) {
        let next = sent.saturating_add(1);
        let found = (ticket.number(), self.are_waiting(endpoint, next));
        expect_same(self.rt, call, &found, &(next, true));
    }

    /// Sends a job by `fire`, where `sent` wait.
    fn fire<N: NamedCounter>(&self, endpoint: &Endpoint<N>, sent: u64) -> Ticket<N> {
        let ticket = again!(
            self.rt,
            "fire",
            endpoint.fire(Work::Own(sent), self.rt),
            self.are_waiting(endpoint, sent)
        );
        self.expect_next("fire", endpoint, &ticket, sent);
        ticket
    }

    /// As `fire`, by `fire_after`.
    fn fire_after<N: NamedCounter>(
        &self,
        endpoint: &Endpoint<N>,
        shown: &Ticket<N>,
        sent: u64,
    ) -> Ticket<N> {
        let ticket = again!(
            self.rt,
            "fire_after",
            endpoint.fire_after(shown, Work::Own(sent), self.rt),
            self.are_waiting(endpoint, sent)
        );
        self.expect_next("fire_after", endpoint, &ticket, sent);
        ticket
    }

    /// Sends a job, and then the others by `fire` and by `fire_after` in turn. So each of the two comes where the queue is full,
    /// and requests memory.
    fn send_all<N: NamedCounter>(&self, endpoint: &Endpoint<N>, tickets: &mut Vec<Ticket<N>>) {
        let list = "Vec::with_capacity";
        expect_ok(self.rt, list, tickets.push(self.fire(endpoint, 0)));
        for k in 0..10 {
            let fired = self.fire(endpoint, 2 * k + 1);
            let after = self.fire_after(endpoint, &fired, 2 * k + 2);
            expect_ok(self.rt, list, tickets.push(fired));
            expect_ok(self.rt, list, tickets.push(after));
        }
    }

    /// Runs the 21 jobs, and kicks the loop.
    fn run_and_kick<N: NamedCounter, P: EventPoller>(
        &self,
        manager: &mut Manager<N, P>,
        endpoint: &Endpoint<N>,
    ) {
        let rt = self.rt;
        mark(rt);
        let waiting = endpoint.pending();
        mark(rt);
        expect_same(rt, "pending", &waiting, &Some(21));
        mark(rt);
        let ran = manager.run_with_timeout(0, rt);
        mark(rt);
        expect_same(rt, "run", &(ran, endpoint.pending()), &(Ok(1), Some(0)));
        mark(rt);
        let kicked = endpoint.kick(rt);
        mark(rt);
        expect_same(rt, "kick", &kicked, &Ok(()));
        expect_same(rt, "kick", &manager.run_with_timeout(0, rt), &Ok(1));
    }

    /// Sends jobs by a copy of the endpoint and runs them, and sends another one behind the two runs, which have left the room
    /// of the jobs before.
    fn send_and_run<N: NamedCounter, P: EventPoller>(
        &self,
        manager: &mut Manager<N, P>,
        first: &Endpoint<N>,
        tickets: &mut Vec<Ticket<N>>,
    ) {
        let rt = self.rt;
        mark(rt);
        let copied = first.try_clone();
        mark(rt);
        let endpoint = expect_ok(rt, "RemoteEndpoint::try_clone", copied);
        self.send_all(&endpoint, tickets);
        self.run_and_kick(manager, first);
        mark(rt);
        let fired = endpoint.fire(Work::Own(0), rt);
        mark(rt);
        expect_ok(
            rt,
            "Vec::with_capacity",
            tickets.push(expect_ok(rt, "fire", fired)),
        );
    }
}

/// What is done with a manager, and its parts but for the counter.
struct Making<'a, R, P> {
    sending: Sending<'a, R>,
    parts: Parts<P, ()>,
}

impl<R: Looping, P: EventPoller + Drop> WithLedgers for Making<'_, R, P> {
    type Output = Result<()>;

    fn run<N: NamedCounter + Send + Sync>(self, counter: N, ledgers: Ledgers<N>) -> Result<()> {
        let Making { sending, parts } = self;
        let (alloc, rt) = (parts.alloc, sending.rt);
        let mut manager: Manager<N, P> = make(parts, counter, ledgers)?;
        mark(rt);
        let endpoint = manager.remote_endpoint();
        mark(rt);
        let endpoint = expect_ok(rt, "remote_endpoint", endpoint);
        let mut tickets = again!(rt, "Vec::with_capacity", Vec::with_capacity(alloc, 22));
        sending.send_and_run(&mut manager, &endpoint, &mut tickets);
        mark(rt);
        let mut closed = manager.close(rt);
        mark(rt);
        let counts = (closed.issued(), closed.taken());
        expect_same(rt, "close", &counts, &(22, 21));
        mark(rt);
        let gathered = closed.gather(&mut tickets);
        mark(rt);
        expect_same(rt, "gather", &gathered, &true);
        Ok(())
    }
}

/// Makes a manager of capacity 64, once, and sends jobs to it.
fn make_and_send<R: Host>(
    rt: &R,
    alloc: Global,
    on_table: &OnTable<R>,
    bell: &EventFd,
) -> Result<()> {
    let mut parts = parts_of(rt, alloc, on_table);
    parts.capacity = Some(64);
    let (counter, parts) = parts.split();
    let sending = Sending { rt, bell };
    with_ledgers(counter, Making { sending, parts })
}

#[test]
fn jobs_are_sent_and_run(rt: HostRuntime) {
    let alloc = rt.alloc();
    let mut on_table = open_table(&rt, alloc);
    let bell = copy_counter(&rt, &on_table.endpoint);
    again!(
        &rt,
        "EventManager::new_with_capacity",
        make_and_send(&rt, alloc, &on_table, &bell),
        is_unregistered(&mut on_table.epoll, 0)
    );
}
