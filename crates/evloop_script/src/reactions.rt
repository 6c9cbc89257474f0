//! What a subscriber asks for on its events.

ghost use Rattle.std.specs.Prelude.{◌≡◌, ℤ, [], ◌∷◌, ◌++◌, OnErr, OnOk, pos};
ghost use Rattle.evloop_script.specs.Coming.{coming, KeepsOthers, TakesNext};

use event_loop::{Events, Request};
use std::alloc::{AllocError, Global};
use std::collections::{HashMap, VecDeque};
use vmm_sys::epoll::RawFd;

/// Lists of requests, in a queue for each descriptor: the next event of a descriptor takes the first of
/// its queue.
#[derive(Drop)]
pub struct Reactions {
    queues: HashMap<RawFd, VecDeque<Vec<Request>>>,
}

impl Reactions {
    /// No list at all.
    pub fn new(alloc: Global) -> Reactions
        ensures { (fd : ℤ) → coming result.queues fd ≡ [] }
    {
        Reactions {
            queues: HashMap::new(alloc),
        }
    }

    /// Appends the requests of one more event of the descriptor. Where memory is refused nothing is
    /// appended.
    pub fn push(
        &mut self,
        alloc: Global,
        fd: RawFd,
        requests: Vec<Request>,
    ) -> Result<(), AllocError>
        ensures ok { OnOk result (coming self.new.queues fd ≡ coming self.old.queues fd ++ requests.items ∷ []) }
        ensures refused { OnErr result (coming self.new.queues fd ≡ coming self.old.queues fd) }
        ensures others { KeepsOthers self.old.queues fd self.new.queues }
    {
        let queue = self
            .queues
            .entry(fd)?
            .or_insert_with(|| VecDeque::new(alloc));
        queue.push_back(requests)?;
        Ok(())
    }

    /// Takes the requests for an event: the next ones of its descriptor; `None` where there are none.
    pub fn next(&mut self, events: Events) -> Option<Vec<Request>>
        ensures { TakesNext self.old.queues (pos events.fd) result self.new.queues }
    {
        match self.queues.get_mut(&events.fd()) {
            Some(queue) => queue.pop_front(),
            None => None,
        }
    }
}
