//! What the handles of a timer share; the timer is closed with the last of them.

ghost use Rattle.std.specs.Prelude.{◌≡◌, ◌<◌, ◌-◌, ◌≤ℤ◌, ◌^◌, pos};

use crate::shared::Shared;
use std::sync::{Arc, Wait};
use vmm_sys::epoll::RawFd;

#[derive(Drop)]
pub(crate) struct Description<C> {
    pub(crate) timers: Arc<Shared<C>>,
    pub(crate) fd: RawFd,
    ghost from_0_up: { pos 0 ≤ℤ fd },
}

pub(crate) type Handle<C> = Arc<Description<C>>;

pub(crate) fn close<C: Drop, R: Wait>(handle: Handle<C>, rt: &R) {
    if let Some(last) = Arc::into_inner(handle) {
        last.close(rt);
    }
}

impl<C: Drop> Description<C> {
    pub(crate) fn new(timers: Arc<Shared<C>>, index: usize) -> Description<C>
        requires { index < 2 ^ 31 }
    {
        Description {
            timers,
            fd: descriptor_at(index),
        }
    }

    pub(crate) fn index(&self) -> usize {
        (RawFd::MAX - self.fd) as usize
    }

    pub(crate) fn close<R: Wait>(self, rt: &R) {
        // Only a description closes its timer, and once.
        let _ = self.timers.state.lock(rt).timers.close(self.index());
    }
}

fn descriptor_at(index: usize) -> RawFd
    requires { index < 2 ^ 31 }
    ensures number { result ≡ pos (2147483647 - index) }
    ensures from_0_up { pos 0 ≤ℤ result }
{
    RawFd::MAX - index as RawFd
}
