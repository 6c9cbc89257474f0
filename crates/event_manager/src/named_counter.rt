//! The counter that wakes a manager, of a type that names the manager's ledgers.

ghost use Rattle.std.specs.Prelude.{◌≡◌};
ghost use Rattle.event_manager.specs.NamedCounter.{counter_of};

use job_tickets::naming::Naming;
use std::marker::PhantomData;
use std::sync::Wait;
use std::time::Clock;
use vmm_sys::counter::{Bell, Counter};
use vmm_sys::epoll::{AsRawFd, RawFd};
use vmm_sys::errno::Errno;

/// A counter that wakes a manager's poller, and whose type names that manager's ledgers. A send rings it under the lock of the
/// queue, so that a refused send changes nothing: a `ring` of your own must not send, nor wait for what a sender holds.
pub trait NamedCounter: Naming + Counter + Drop {}

/// A counter of type `C` under the name `N`: it has its descriptor, and is rung, cleared and closed as it is.
#[derive(Drop)]
pub struct Named<N, C> {
    counter: C,
    name: PhantomData<N>,
}

impl<N, C> Named<N, C> {
    /// This counter, under the name that the type says.
    pub fn new(counter: C) -> Self
        ensures { counter_of result ≡ counter }
    {
        Named {
            counter,
            name: PhantomData,
        }
    }
}

impl<N: Naming, C: Counter + Drop> NamedCounter for Named<N, C> {}

impl<N: Naming, C> Naming for Named<N, C> {
    ghost tickets = { N.tickets };

    ghost taken = { N.taken };
}

impl<N, C: AsRawFd> AsRawFd for Named<N, C> {
    ghost descriptor = { λ v. C.descriptor (counter_of v) };

    fn as_raw_fd(&self) -> RawFd {
        self.counter.as_raw_fd()
    }
}

impl<N, C: Bell> Bell for Named<N, C> {
    ghost rings = { λ v answer. C.rings (counter_of v) answer };

    fn ring<R: Wait + Clock>(&self, rt: &R) -> std::result::Result<(), Errno> {
        self.counter.ring(rt)
    }
}

impl<N, C: Counter + Drop> Counter for Named<N, C> {
    ghost clears = { λ v answer. C.clears (counter_of v) answer };

    fn clear<R: Wait + Clock>(&self, rt: &R) -> std::result::Result<u64, Errno> {
        self.counter.clear(rt)
    }

    fn close<R: Wait>(self, rt: &R) {
        let Named { counter, name: _ } = self;
        counter.close(rt);
    }
}
