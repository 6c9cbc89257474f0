//! What a subscriber may ask for.

ghost use Rattle.std.specs.Prelude.{◌≡◌, List, [], ◌∷◌};
ghost use Rattle.event_loop.specs.PollerCall.{PollerCall};
ghost use Rattle.event_loop.specs.Exchange.{Exchanges, requests_of, answers_of, first_refusal};
ghost use Rattle.event_loop.specs.Exchange as specified;
ghost use Rattle.event_loop.specs.Requests.{AreMadeThrough};
ghost use Rattle.event_loop.specs.declared.events.Request.{Request};

use crate::epoll::EpollWrapper;
use crate::error::{Error, Result};
use crate::events::{Events, RefusedRequest, Request};
use crate::poller::EventPoller;
use dispatch_tables::priority::Priority;
use vmm_sys::epoll::ControlOperation;
use vmm_sys::errno::Errno;

/// Changes the registrations of one subscriber, and no others. A registry lends it to the subscriber that it calls, and to the
/// caller of [`event_ops`](crate::SubscriberOps::event_ops). A refused request leaves owners and pending events as they were.
#[derive(Drop)]
pub struct EventOps<P> {
    pub(crate) epoll: EpollWrapper<P>,
    pub(crate) id: u64,
    // Where the subscriber is looked for first.
    pub(crate) place: usize,
}

fn answered_at(index: usize, answer: Result<()>) -> std::result::Result<(), RefusedRequest>
    ensures { result ≡ specified.answered_at index answer }
{
    answer.map_err(|error| RefusedRequest { index, error })
}

impl<P> EventOps<P> {
    /// What is asked from now on, this subscriber asks.
    #[inline(always)]
    pub(crate) fn turn_to(&mut self, id: u64, place: usize)
        ensures { self.new ≡ record self.old { id = id; place = place } }
    {
        self.id = id;
        self.place = place;
    }
}

impl<P: EventPoller> EventOps<P> {
    /// Registers the descriptor for the subscriber, at the lowest priority. The poller takes the number for a descriptor of its
    /// own, also where it is that of a counter of another table.
    ///
    /// Refused, in this order: `FdAlreadyRegistered` where a subscriber owns the descriptor, this one included; `Epoll(EEXIST)`
    /// where it is the endpoint's; `OutOfMemory`, since room is made before the poller is asked; `Epoll` with the poller's number.
    pub fn add(&mut self, events: Events) -> Result<()>
        ensures { (calls : List PollerCall) × AreMadeThrough P.controls P.waits self.old self.new ((Request.Add events, result) ∷ []) calls }
    {
        self.add_with_priority(events, Priority::Lowest)
    }

    /// Registers as [`add`](EventOps::add), with its refusals, at a priority that the descriptor keeps until it is removed: from
    /// the next wait on its events are dispatched before those of a lower one. The poller gets no priority. Not in event-manager.
    pub fn add_with_priority(&mut self, events: Events, priority: Priority) -> Result<()>
        ensures { (calls : List PollerCall) × AreMadeThrough P.controls P.waits self.old self.new ((Request.AddWithPriority events priority, result) ∷ []) calls }
    {
        let epoll = &mut self.epoll;
        epoll.registrations.check_vacant(events)?;
        epoll
            .registrations
            .register(events, self.id, self.place, priority)?;
        match epoll.ctl(ControlOperation::Add, events) {
            Ok(()) => Ok(()),
            Err(e) => {
                epoll.registrations.unregister(events, self.id);
                Err(Error::Epoll(e))
            }
        }
    }

    /// Changes the wanted set and data of a descriptor that the subscriber owns; priority and pending events stay. Takes no memory.
    ///
    /// Refused, in this order: `Epoll(ENOENT)` where the subscriber doesn't own the descriptor; `Epoll` with the poller's number.
    pub fn modify(&mut self, events: Events) -> Result<()>
        ensures { (calls : List PollerCall) × AreMadeThrough P.controls P.waits self.old self.new ((Request.Modify events, result) ∷ []) calls }
    {
        let epoll = &mut self.epoll;
        if !epoll.registrations.is_owner(self.id, events) {
            return Err(Error::Epoll(Errno::ENOENT));
        }
        match epoll.ctl(ControlOperation::Modify, events) {
            Ok(()) => Ok(()),
            Err(e) => Err(Error::Epoll(e)),
        }
    }

    /// Frees a descriptor that the subscriber owns, and cancels its events that are still to come in the batch. Only the descriptor
    /// matters; set and data go to the poller. Takes no memory. Refused as [`modify`](EventOps::modify); then nothing is cancelled.
    pub fn remove(&mut self, events: Events) -> Result<()>
        ensures { (calls : List PollerCall) × AreMadeThrough P.controls P.waits self.old self.new ((Request.Remove events, result) ∷ []) calls }
    {
        let epoll = &mut self.epoll;
        if !epoll.registrations.is_owner(self.id, events) {
            return Err(Error::Epoll(Errno::ENOENT));
        }
        match epoll.ctl(ControlOperation::Delete, events) {
            Ok(()) => {
                epoll.registrations.remove(events, self.id);
                Ok(())
            }
            Err(e) => Err(Error::Epoll(e)),
        }
    }

    /// Makes two requests in order, the second also where the first is refused, and returns both answers.
    pub fn request_both(&mut self, first: Request, second: Request) -> (Result<()>, Result<()>)
        ensures { (calls : List PollerCall) × AreMadeThrough P.controls P.waits self.old self.new ((first, result.0) ∷ (second, result.1) ∷ []) calls }
    {
        let one = self.request(first);
        let two = self.request(second);
        (one, two)
    }

    /// Makes all requests in order, also after a refusal. Returns the first that was refused, or `Ok`. Takes no memory of its own.
    pub fn request_all(&mut self, requests: &[Request]) -> std::result::Result<(), RefusedRequest>
        ensures { (exchanges : Exchanges) × (calls : List PollerCall) × (requests_of exchanges ≡ requests.now)
            × (result ≡ first_refusal (answers_of exchanges)) × AreMadeThrough P.controls P.waits self.old self.new exchanges calls }
    {
        let mut answer = Ok(());
        for index in 0..requests.len() {
            let next = self.request(requests[index]);
            answer = answer.and(answered_at(index, next));
        }
        answer
    }

    /// Makes all requests in order, also after a refusal. Returns each answer, in the same order. Takes no memory of its own.
    pub fn request_each<const N: usize>(&mut self, requests: [Request; N]) -> [Result<()>; N]
        ensures { (exchanges : Exchanges) × (calls : List PollerCall) × (requests_of exchanges ≡ requests.entry)
            × (answers_of exchanges ≡ result) × AreMadeThrough P.controls P.waits self.old self.new exchanges calls }
    {
        let mut answers = [Ok(()); N];
        for index in 0..N {
            answers[index] = self.request(requests[index]);
        }
        answers
    }

    /// Makes a request that is given as a value.
    pub fn request(&mut self, request: Request) -> Result<()>
        ensures { (calls : List PollerCall) × AreMadeThrough P.controls P.waits self.old self.new ((request, result) ∷ []) calls }
    {
        match request {
            Request::Add(events) => self.add(events),
            Request::AddWithPriority(events, priority) => self.add_with_priority(events, priority),
            Request::Modify(events) => self.modify(events),
            Request::Remove(events) => self.remove(events),
        }
    }
}
