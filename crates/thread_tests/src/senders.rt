//! Threads that send at once, and what the loop then runs.
//!
//! The tickets are gathered behind the close, and their type has the name of the ledgers. So the body is a function that
//! is generic over that name, and the test picks it: in a method of a trait, as that of `WithLedgers`, a bound `Send`
//! doesn't count for what a thread is sent.

ghost use Rattle.std.specs.Prelude.{◌≡◌};

use crate::expecting::{Host, expect_ok, expect_same};
use event_manager::{
    Closed, EventManager, Ledgers, Named, NamedCounter, Naming, RemoteEndpoint, Result, Ticket,
};
use fixtures::making::make;
use fixtures::parts::{Idle, OnTable, on_table};
use fixtures::waits::wait_until_pending;
use fixtures::work::{LIMIT, Notes, Work, count_of, new_notes};
use std::alloc::Global;
use std::marker::Brand;
use std::sync::Mutex;
use std::sync::atomic::{AtomicU64, Ordering};
use std::sync::ledger::Blank;
use std::thread;
use vmm_sys::epoll::Epoll;
use vmm_sys::eventfd::EventFd;

type Loop<N, R> = EventManager<Idle, Work, N, Epoll<R>>;

type Sender<N> = RemoteEndpoint<Idle, Work, N>;

/// How many jobs each thread sends, and when the loop runs.
#[derive(Clone, Copy)]
struct Plan {
    count: u64,
    /// Whether it runs while they send, in place of once behind all of them.
    runs_beside: bool,
}

/// What the senders share: where each notes its own numbers, all their tickets, and how many have ended.
#[derive(Drop)]
struct Sending<'a, N: NamedCounter> {
    notes: &'a [Notes],
    tickets: Mutex<Vec<Ticket<N>>>,
    ended: AtomicU64,
}

/// Keeps a ticket among all.
fn keep<N: NamedCounter, R: Host>(rt: &R, sending: &Sending<'_, N>, ticket: Option<Ticket<N>>) {
    if let Some(ticket) = ticket {
        let _ = sending.tickets.lock(rt).push(ticket);
    }
}

/// Sends `count` jobs, each after the one before, keeps their tickets, and counts itself as ended.
fn send_many<N: NamedCounter, R: Host>(
    rt: &R,
    endpoint: &Sender<N>,
    sending: &Sending<'_, N>,
    notes: &Notes,
    count: u64,
) {
    let mut shown = None;
    for number in 1..=count {
        let job = Work::Note(expect_ok(rt, notes.clone()), number);
        let sent = match &shown {
            Some(shown) => endpoint.fire_after(shown, job, rt),
            None => endpoint.fire(job, rt),
        };
        keep(rt, sending, shown);
        shown = sent.ok();
    }
    keep(rt, sending, shown);
    sending.ended.fetch_add(1, Ordering::SeqCst);
}

/// Sends by several threads at once.
fn send_all<N: NamedCounter + Send + Sync, R: Host>(
    rt: &R,
    alloc: Global,
    endpoint: &Sender<N>,
    sending: &Sending<'_, N>,
    count: u64,
) {
    let sent = thread::map_indices(
        rt,
        alloc,
        sending.notes.len(),
        &|sender| {
            if let Some(notes) = sending.notes.get(sender) {
                send_many(rt, endpoint, sending, notes, count);
            }
        },
    );
    expect_same(rt, &sent.is_ok(), &true);
}

/// Runs until `senders` senders have ended and no job waits.
fn run_beside<N: NamedCounter, R: Host>(
    rt: &R,
    manager: &mut Loop<N, R>,
    endpoint: &Sender<N>,
    ended: &AtomicU64,
    senders: usize,
) {
    for _turn in 0..LIMIT {
        let _ = manager.run_with_timeout(1, rt);
        if ended.load(Ordering::SeqCst) == senders as u64 && endpoint.pending() == Some(0) {
            break;
        }
    }
}

/// Runs as planned.
fn run_planned<N: NamedCounter, R: Host>(
    rt: &R,
    manager: &mut Loop<N, R>,
    endpoint: &Sender<N>,
    sending: &Sending<'_, N>,
    plan: Plan,
) {
    match plan.runs_beside {
        true => run_beside(rt, manager, endpoint, &sending.ended, sending.notes.len()),
        false => {
            let total = total_of(sending, plan);
            expect_same(rt, &wait_until_pending(rt, endpoint, total), &true);
            expect_same(rt, &manager.run(rt), &Ok(1));
        }
    }
}

/// How many jobs are sent.
fn total_of<N: NamedCounter>(sending: &Sending<'_, N>, plan: Plan) -> usize {
    sending.notes.len().saturating_mul(plan.count as usize)
}

/// The senders, and the loop.
fn send_beside_loop<N: NamedCounter + Send + Sync, R: Host>(
    rt: &R,
    alloc: Global,
    manager: &mut Loop<N, R>,
    endpoint: &Sender<N>,
    sending: &Sending<'_, N>,
    plan: Plan,
) {
    thread::join(
        rt,
        || send_all(rt, alloc, endpoint, sending, plan.count),
        || run_planned(rt, manager, endpoint, sending, plan),
    );
    expect_same(rt, &endpoint.pending(), &Some(0));
}

/// Expects that `count` tickets were issued and jobs taken, that these are all, and not so without the last of them.
fn expect_all<N: NamedCounter, R: Host>(
    rt: &R,
    closed: &mut Closed<N>,
    tickets: &mut Vec<Ticket<N>>,
    count: u64,
) {
    expect_same(rt, &(closed.issued(), closed.taken()), &(count, count));
    let last = tickets.pop();
    expect_same(rt, &closed.gather(tickets), &false);
    expect_same(rt, &(tickets.len() as u64), &count.saturating_sub(1));
    if let Some(last) = last {
        let _ = tickets.push(last);
    }
    expect_same(rt, &closed.gather(tickets), &true);
}

/// Senders of a manager of these parts, and its close.
fn send_on<N: Naming + Send + Sync, R: Host>(
    rt: &R,
    parts: OnTable<R>,
    notes: &[Notes],
    plan: Plan,
    tickets: Blank,
    taken: Blank,
)
    requires tickets { (tickets.name ≡ N.tickets) × (tickets.parts ≡ 9223372036854775808) }
    requires taken { (taken.name ≡ N.taken) × (taken.parts ≡ 1) }
{
    let ledgers = Ledgers::<Named<N, EventFd>>::new(tickets, taken);
    let (counter, parts) = parts.split();
    let alloc = parts.alloc;
    let sending: Sending<'_, Named<N, EventFd>> = Sending {
        notes,
        tickets: Mutex::new(Vec::new(alloc)),
        ended: AtomicU64::new(0),
    };
    let mut manager = expect_ok(
        rt,
        make::<_, _, Named<N, EventFd>, _>(parts, Named::new(counter), ledgers),
    );
    let endpoint = expect_ok(rt, manager.remote_endpoint());
    send_beside_loop(rt, alloc, &mut manager, &endpoint, &sending, plan);
    let mut closed = manager.close(rt);
    let total = total_of(&sending, plan) as u64;
    expect_all(rt, &mut closed, &mut sending.tickets.lock(rt), total);
}

/// Expects of `senders` senders that all they send is run, in the order of each.
fn expect_sent<R: Host>(rt: &R, alloc: Global, senders: usize, plan: Plan) {
    let mut notes = Vec::new(alloc);
    for _sender in 0..senders {
        expect_ok(rt, notes.push(expect_ok(rt, new_notes(alloc))));
    }
    let parts = expect_ok(rt, on_table(*rt, alloc, 0));
    let tickets = Blank::new(9223372036854775808);
    send_on::<Brand, R>(rt, parts, &notes, plan, tickets, Blank::new(1));
    for noted in &notes {
        expect_same(rt, &count_of(rt, noted), &Some(plan.count as usize));
    }
}

#[test]
fn two_threads_send_fifty_each(rt: HostRuntime) {
    let plan = Plan {
        count: 50,
        runs_beside: false,
    };
    expect_sent(&rt, rt.alloc(), 2, plan);
}

#[test]
fn three_threads_send_a_thousand_each(rt: HostRuntime) {
    let plan = Plan {
        count: 1000,
        runs_beside: true,
    };
    expect_sent(&rt, rt.alloc(), 3, plan);
}
