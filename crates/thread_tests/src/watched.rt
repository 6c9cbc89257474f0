//! Values whose drop is counted, and lasts until another thread has looked on; what may hold one.

use event_manager::{EventPoller, Events, Job, MutEventSubscriber, Registry};
use fixtures::parts::Holding;
use fixtures::waits::holds_within;
use fixtures::work::LIMIT;
use std::alloc::{AllocError, Global};
use std::sync::atomic::{AtomicBool, AtomicU64, Ordering};
use std::sync::{Arc, Wait};
use std::time::Clock;
use vmm_sys::epoll::{ControlOperation, EpollEvent, EventSet};
use vmm_sys::errno::Errno;

/// How many drops have begun, and whether they may end.
#[derive(Drop)]
pub struct Drops {
    begun: AtomicU64,
    may_end: AtomicBool,
}

impl Drops {
    pub fn new() -> Self {
        Drops {
            begun: AtomicU64::new(0),
            may_end: AtomicBool::new(false),
        }
    }

    /// How many have begun.
    pub fn count(&self) -> u64 {
        self.begun.load(Ordering::SeqCst)
    }

    /// Waits until one has begun, and says whether one has.
    pub fn wait_for_one<R: Clock>(&self, rt: &R) -> bool {
        holds_within(rt, LIMIT, || self.count() > 0)
    }

    pub fn let_end(&self) {
        self.may_end.store(true, Ordering::SeqCst);
    }

    /// Counts one more, and waits until it may end.
    fn begin<R: Clock>(&self, rt: &R) {
        self.begun.fetch_add(1, Ordering::SeqCst);
        holds_within(rt, LIMIT, || self.may_end.load(Ordering::SeqCst));
    }
}

/// A value whose drop is one of these.
pub struct Watched<R: Clock + Drop> {
    drops: Arc<Drops, Global>,
    rt: R,
}

impl<R: Clock + Drop> Drop for Watched<R> {
    fn drop(self) {
        let Watched { drops, rt } = self;
        drops.begin(&rt);
    }
}

impl<R: Clock + Drop> Watched<R> {
    pub fn new(drops: &Arc<Drops, Global>, rt: R) -> Result<Self, AllocError> {
        let drops = Arc::try_clone(drops)?;
        Ok(Watched { drops, rt })
    }
}

/// A job that holds a value, or replies it.
#[derive(Drop)]
pub enum Task<R: Clock + Drop> {
    Nothing,
    Hold(Watched<R>),
    Reply(Watched<R>),
}

impl<S: MutEventSubscriber, R: Clock + Drop> Job<S> for Task<R> {
    type Reply = Option<Watched<R>>;

    ghost use Rattle.std.specs.Prelude.{◌≡◌, []};

    ghost may = { λ self steps reply. steps ≡ [] };

    fn call<P: EventPoller, W: Wait + Clock>(
        self,
        _registry: &mut Registry<S, P>,
        _rt: &W,
    ) -> Option<Watched<R>> {
        match self {
            Task::Nothing | Task::Hold(_) => None,
            Task::Reply(watched) => Some(watched),
        }
    }
}

/// A subscriber that holds a value.
pub type Guest<R> = Holding<Option<Watched<R>>>;

/// A poller that agrees to all, and reports the descriptor 0 at each wait.
#[derive(Drop)]
pub struct Reporter;

impl EventPoller for Reporter {
    ghost controls = { λ v op fd event answer w. Unit {0} };

    ghost waits = { λ v ms capacity answer w. Unit {0} };

    fn control(&mut self, _op: ControlOperation, _fd: u32, _event: Events) -> Result<(), Errno> {
        Ok(())
    }

    fn poll(&mut self, _ms: i32, buffer: &mut [EpollEvent]) -> Result<usize, Errno> {
        match buffer.first_mut() {
            Some(entry) => {
                *entry = EpollEvent::new(EventSet::IN, 0);
                Ok(1)
            }
            None => Ok(0),
        }
    }
}
