//! The job that the senders send, and what it counts in.

use crate::expecting::{Looping, expect_ok, expect_same};
use event_manager::{EventPoller, Job, MutEventSubscriber, Registry, RemoteEndpoint};
use fixtures::parts::Idle;
use std::alloc::Global;
use std::hint;
use std::process::Abort;
use std::sync::atomic::{AtomicBool, AtomicU64, Ordering};
use std::sync::{Arc, Wait};
use std::time::Clock;
use test_rounds::Rounds;

/// What a sender, the jobs and who looks on share.
#[derive(Drop)]
pub struct Progress {
    /// How many jobs were run.
    pub run: AtomicU64,
    /// How many jobs that hold up the loop were begun.
    pub begun: AtomicU64,
    /// Whether no job comes any more.
    pub all_sent: AtomicBool,
}

impl Progress {
    pub fn new() -> Self {
        Progress {
            run: AtomicU64::new(0),
            begun: AtomicU64::new(0),
            all_sent: AtomicBool::new(false),
        }
    }
}

/// A job that counts itself, and replies how many there were with it.
#[derive(Drop)]
pub enum Task {
    /// Does no more.
    Count(Arc<Progress, Global>),
    /// Says first that it has begun, and holds up the loop for this many turns.
    Begin(Arc<Progress, Global>, u64),
}

impl<S: MutEventSubscriber> Job<S> for Task {
    type Reply = u64;

    ghost use Rattle.std.specs.Prelude.{◌≡◌, []};

    ghost may = { λ self steps reply. steps ≡ [] };

    fn call<P: EventPoller, R: Wait + Clock>(self, _registry: &mut Registry<S, P>, _rt: &R) -> u64 {
        let progress = match self {
            Task::Count(progress) => progress,
            Task::Begin(progress, turns) => {
                progress.begun.fetch_add(1, Ordering::SeqCst);
                spin(turns);
                progress
            }
        };
        progress.run.fetch_add(1, Ordering::SeqCst).wrapping_add(1)
    }
}

impl Task {
    /// A job that does no more than count itself.
    pub fn count<R: Abort>(rt: &R, progress: &Arc<Progress, Global>) -> Task {
        Task::Count(expect_ok(rt, progress.clone()))
    }
}

pub type Endpoint<N> = RemoteEndpoint<Idle, Task, N>;

/// Spends `turns` turns.
pub fn spin(turns: u64) {
    for _ in 0..turns {
        hint::spin_loop();
    }
}

/// How many rounds there are at least, however busy the machine is.
const LEAST_ROUNDS: u64 = 100;

/// Looks on until the rounds have ended. Expects that they do, and that there were many.
pub fn look_on<R: Looping>(rt: &R, rounds: &Rounds) {
    expect_same(rt, &rounds.look_on(rt), &true);
    let counted = rounds.counted();
    assert!(rt; counted >= LEAST_ROUNDS, "{counted} rounds show nothing");
}
