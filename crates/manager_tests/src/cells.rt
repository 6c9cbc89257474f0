//! Subscribers in cells and under locks.

use crate::expecting::{Host, Looping, expect, expect_ok, expect_same};
use event_manager::{
    EventManager, EventOps, EventPoller, Events, Locked, MutEventSubscriber, NamedCounter, NoJob,
    SubscriberOps,
};
use fixtures::asking::wanted;
use fixtures::counting::{Counting, counting_on};
use fixtures::making::{WithManager, with_manager};
use fixtures::parts::{Parts, silent_parts};
use fixtures::runs::{Failure, run_alone};
use fixtures::scripts::push_words;
use fixtures::waits::is_counted_within;
use std::alloc::Global;
use std::cell::RefCell;
use std::process::Abort;
use std::rc::Rc;
use std::sync::Arc;
use std::sync::atomic::{AtomicU64, Ordering};
use std::thread;
use std::thread::JoinHandle;
use std::time::{Clock, Duration};
use vmm_sys::epoll::EventSet;
use vmm_sys::script_poller::ScriptPoller;

/// Parts over two reports of one event of descriptor 3.
fn two_reports<R: Looping + Send>(rt: R, alloc: Global) -> Parts<ScriptPoller> {
    let mut script = ScriptPoller::new(alloc);
    for _report in 0..2 {
        expect_ok(&rt, push_words(&mut script, alloc, EventSet::IN, &[3]));
    }
    expect_ok(&rt, silent_parts(rt, alloc, script))
}

/// A run for each of them.
const TWO_RUNS: [event_manager::Result<usize>; 2] = [Ok(1), Ok(1)];

/// How many events the subscriber in the cell has counted; `None` where the cell is busy.
fn count_in(cell: &RefCell<Counting>) -> Option<u64> {
    cell.try_borrow().map(|held| held.count).ok()
}

#[test]
fn free_cell_is_called_and_left_free(rt: HostRuntime) {
    let cell = expect_ok(&rt, Rc::new(rt.alloc(), RefCell::new(counting_on(3))));
    let held = expect_ok(&rt, cell.clone());
    let parts = two_reports(rt, rt.alloc());
    expect_ok(&rt, run_alone(&rt, parts, held, &TWO_RUNS));
    expect_same(&rt, &count_in(&cell), &Some(2));
}

#[test]
fn owned_cell_is_called(rt: HostRuntime) {
    let parts = two_reports(rt, rt.alloc());
    let cell = RefCell::new(counting_on(3));
    let cell = expect_ok(&rt, run_alone(&rt, parts, cell, &TWO_RUNS));
    expect_same(&rt, &count_in(&cell), &Some(2));
}

/// Runs while the cell is busy, and again when it is free.
#[derive(Drop)]
struct BusyThenFree<'a, R> {
    rt: &'a R,
    cell: Rc<RefCell<Counting>>,
}

impl<R: Looping> WithManager for BusyThenFree<'_, R> {
    type Subscriber = Rc<RefCell<Counting>>;

    type Output = ();

    fn run<N: NamedCounter, P: EventPoller>(
        self,
        manager: &mut EventManager<Rc<RefCell<Counting>>, NoJob, N, P>,
    ) -> event_manager::Result<()> {
        let BusyThenFree { rt, cell } = self;
        let held = expect_ok(rt, cell.clone());
        expect_ok(rt, manager.add_subscriber(held));
        {
            let held = cell.try_borrow_mut();
            expect(rt, held.is_ok());
            expect_same(rt, &manager.run(rt), &Ok(1));
            expect_same(rt, &held.map(|counting| counting.count).ok(), &Some(0));
        }
        expect_same(rt, &manager.run(rt), &Ok(1));
        Ok(())
    }
}

#[test]
fn busy_cell_skips_the_call(rt: HostRuntime) {
    let cell = expect_ok(&rt, Rc::new(rt.alloc(), RefCell::new(counting_on(3))));
    let body = BusyThenFree {
        rt: &rt,
        cell: expect_ok(&rt, cell.clone()),
    };
    expect_ok(&rt, with_manager(two_reports(rt, rt.alloc()), body));
    expect_same(&rt, &count_in(&cell), &Some(1));
}

// Ends the test unless the turn, or a later one, comes within 10,000 looks, a millisecond apart.
fn expect_turn<R: Clock + Abort>(rt: &R, turn: &AtomicU64, wanted: u64) {
    let comes = is_counted_within(rt, 10_000, turn, wanted);
    assert!(rt; comes, "the turn {wanted} does not come");
}

/// At each odd turn calls the subscriber, first its `init` and then its `process`, and ends the turn when that is done.
#[derive(Drop)]
struct Turns<'a, R> {
    rt: &'a R,
    locked: Arc<Locked<Counting, R>>,
    turn: &'a AtomicU64,
}

impl<R: Looping> WithManager for Turns<'_, R> {
    type Subscriber = Arc<Locked<Counting, R>>;

    type Output = ();

    fn run<N: NamedCounter, P: EventPoller>(
        self,
        manager: &mut EventManager<Arc<Locked<Counting, R>>, NoJob, N, P>,
    ) -> event_manager::Result<()> {
        let Turns { rt, locked, turn } = self;
        expect_turn(rt, turn, 1);
        expect_ok(rt, manager.add_subscriber(locked));
        turn.store(2, Ordering::SeqCst);
        for odd in [3, 5] {
            expect_turn(rt, turn, odd);
            expect_same(rt, &manager.run(rt), &Ok(1));
            turn.store(odd + 1, Ordering::SeqCst);
        }
        Ok(())
    }
}

/// A second thread that takes the turns.
fn start_turns<R: Host + 'static>(
    rt: R,
    parts: Parts<ScriptPoller>,
    locked: &Arc<Locked<Counting, R>>,
    turn: &Arc<AtomicU64>,
) -> JoinHandle<event_manager::Result<()>> {
    let (locked, turn) = (expect_ok(&rt, locked.clone()), expect_ok(&rt, turn.clone()));
    let started = thread::spawn(&rt, move || {
        let body = Turns {
            rt: &rt,
            locked,
            turn: &turn,
        };
        let done = with_manager(parts, body);
        // Also where a call was refused: then no turn is waited for.
        turn.store(u64::MAX, Ordering::SeqCst);
        done
    });
    expect_ok(&rt, started)
}

/// Gives the turn while the lock is held: it must not end before the lock is free, and then it must.
fn expect_wait<R: Host>(rt: &R, locked: &Locked<Counting, R>, turn: &AtomicU64, odd: u64) {
    let Some(held) = locked.mutex.try_lock() else {
        panic!(rt; "the lock is kept");
    };
    turn.fetch_max(odd, Ordering::SeqCst);
    thread::sleep(rt, Duration::from_millis(20));
    expect_same(rt, &turn.load(Ordering::SeqCst), &odd);
    drop(held);
    expect_turn(rt, turn, odd.saturating_add(1));
}

#[test]
fn lock_is_waited_for_and_left_free(rt: HostRuntime) {
    let locked = expect_ok(&rt, Arc::new(rt.alloc(), Locked::new(counting_on(3), rt)));
    let turn = expect_ok(&rt, Arc::new(rt.alloc(), AtomicU64::new(0)));
    let parts = two_reports(rt, rt.alloc());
    let runner = start_turns(rt, parts, &locked, &turn);
    for odd in [1, 3, 5] {
        expect_wait(&rt, &locked, &turn, odd);
    }
    expect_same(&rt, &runner.join(&rt), &Ok(()));
    let count = locked.mutex.try_lock().map(|held| held.count);
    expect_same(&rt, &count, &Some(2));
}

/// Adds descriptor 3 in `init`, and counts its events in what it shares.
#[derive(Drop)]
struct SharedCounting(Arc<AtomicU64>);

impl MutEventSubscriber for SharedCounting {
    ghost begins = { λ v exchanges w. Unit {0} };

    ghost serves = { λ v event exchanges w. Unit {0} };

    fn process<P: EventPoller>(&mut self, _events: Events, _ops: &mut EventOps<P>) {
        self.0.fetch_add(1, Ordering::SeqCst);
    }

    fn init<P: EventPoller>(&mut self, ops: &mut EventOps<P>) {
        let _ = ops.add(wanted(3));
    }
}

/// Serves a subscriber under a lock the two reports, and sets the flag when that is done.
fn serve_locked<R: Looping>(
    rt: R,
    parts: Parts<ScriptPoller>,
    locked: Locked<SharedCounting, R>,
    over: &AtomicU64,
) -> Result<(), Failure> {
    let ran = run_alone(&rt, parts, locked, &TWO_RUNS);
    over.store(1, Ordering::SeqCst);
    ran?;
    Ok(())
}

#[test]
fn subscriber_under_a_lock_counts_in_an_atomic(rt: HostRuntime) {
    let count = expect_ok(&rt, Arc::new(rt.alloc(), AtomicU64::new(0)));
    let shared = SharedCounting(expect_ok(&rt, count.clone()));
    let locked = Locked::new(shared, rt);
    let over = expect_ok(&rt, Arc::new(rt.alloc(), AtomicU64::new(0)));
    let theirs = expect_ok(&rt, over.clone());
    let parts = two_reports(rt, rt.alloc());
    let runner = expect_ok(
        &rt,
        thread::spawn(&rt, move || serve_locked(rt, parts, locked, &theirs)),
    );
    expect_turn(&rt, &over, 1);
    expect_same(&rt, &runner.join(&rt), &Ok(()));
    expect_same(&rt, &count.load(Ordering::SeqCst), &2);
}
