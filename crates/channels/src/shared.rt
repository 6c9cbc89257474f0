//! What both ends of a channel share.

ghost use Rattle.std.specs.Prelude.{◌≡◌, IfErr, MatchOption, Ok, Err};

use crate::queue::{MessageQueue, Signal};
use crate::room::Room;
use std::sync::{Arc, Mutex, Wait};
use std::time::Clock;
use vmm_sys::counter::Counter;
use vmm_sys::errno::Errno;

#[derive(Drop)]
pub(crate) struct State<M> {
    pub(crate) queue: MessageQueue<M>,
    pub(crate) room: Room,
}

/// What both ends share.
pub(crate) struct Shared<M, C> {
    pub(crate) state: Mutex<State<M>>,
    pub(crate) counter: C,
    pub(crate) room: Option<C>,
}

/// Drops a share; the last one closes the counters.
pub(crate) fn close<M: Drop, C: Counter + Drop, R: Wait>(share: Arc<Shared<M, C>>, rt: &R) {
    if let Some(last) = Arc::into_inner(share) {
        last.close(rt);
    }
}

impl<M: Drop, C: Counter + Drop> Shared<M, C> {
    fn close<R: Wait>(self, rt: &R) {
        let Shared {
            state,
            counter,
            room,
        } = self;
        drop(state);
        counter.close(rt);
        if let Some(room) = room {
            room.close(rt);
        }
    }
}

impl<M, C> Shared<M, C> {
    pub(crate) fn signal<'a, R>(&'a self, rt: &'a R) -> CounterSignal<'a, C, R>
        ensures { result.counter.now ≡ self.now.counter }
    {
        CounterSignal {
            counter: &self.counter,
            rt,
        }
    }
}

impl<M, C: Counter> Shared<M, C> {
    /// Updates the senders' counter to the queue.
    pub(crate) fn update_room<R: Wait + Clock>(
        &self,
        state: &mut State<M>,
        rt: &R,
    ) -> Result<(), Errno>
        ensures { MatchOption self.now.room (result ≡ Ok tt) (λ counter. IfErr result (λ errno. C.rings counter (Err errno))) }
    {
        match &self.room {
            Some(counter) => state
                .room
                .update(&state.queue, &mut CounterSignal { counter, rt }),
            None => Ok(()),
        }
    }

    pub(crate) fn end<R: Wait + Clock>(&self, rt: &R) -> Vec<M> {
        let mut signal = self.signal(rt);
        let mut state = self.state.lock(rt);
        let waiting = state.queue.close(&mut signal);
        let _ = self.update_room(&mut state, rt);
        waiting
    }
}

// Not derived: then who owns one has a call to prove, and not a drop of all that is in it.
impl<M: Drop, C: Drop> Drop for Shared<M, C> {
    fn drop(self) {
        let Shared {
            state: _,
            counter: _,
            room: _,
        } = self;
    }
}

/// A counter as a signal.
#[derive(Drop)]
pub(crate) struct CounterSignal<'a, C, R> {
    pub(crate) counter: &'a C,
    pub(crate) rt: &'a R,
}

impl<C: Counter, R: Wait + Clock> Signal for CounterSignal<'_, C, R> {
    ghost use Rattle.std.specs.Prelude.{ℕ, Result};
    ghost use Rattle.vmm_sys.specs.declared.errno.Errno.{Errno};

    ghost raises = { λ v answer w. C.rings v.counter.now answer };

    ghost lowers = { λ v w. (answer : Result ℕ Errno) × C.clears v.counter.now answer };

    fn raise(&mut self) -> Result<(), Errno> {
        self.counter.ring(self.rt)
    }

    fn lower(&mut self) {
        let _ = self.counter.clear(self.rt);
    }
}
