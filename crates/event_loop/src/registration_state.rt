//! The registrations, and what is still to come of the batch.

ghost use Rattle.std.specs.Prelude.{◌≡◌, ◌<◌, ◌^◌, List, [], ◌∷◌, OnOk, IfErr, IfOk, IfSome, Result, Bool, IsTrue, ◌↔◌, ◌==◌, MatchOption, All};
ghost use Rattle.std.specs.FinMap as map;
ghost use Rattle.std.specs.Result.{result_err};
ghost use Rattle.dispatch_tables.specs.Event.{Event, event_of_entry};
ghost use Rattle.event_loop.specs.PollerCall.{Wait, Leads};
ghost use Rattle.event_loop.specs.Registrations.{Owns, IsFree};
ghost use Rattle.event_loop.specs.Registry.{AreOwnedBy};
ghost use Rattle.event_loop.specs.Exchange.{addition_refusal};
ghost use Rattle.dispatch_tables.specs.Owners.{IsOwnerAt};
ghost use Rattle.event_loop.specs.RegistrationState.{registrations_of, cancel_on, left_in, HasWaited};
ghost use Rattle.vmm_sys.specs.declared.errno.Errno.{Errno};

use crate::descriptor_owners::DescriptorOwners;
use crate::error::{Error, Result};
use crate::events::Events;
use crate::poller::EventPoller;
use crate::ready_list::{ReadyEntry, ReadyList};
use dispatch_tables::owners::Owner;
use dispatch_tables::priority::Priority;
use std::alloc::{AllocError, Global};
use std::marker::Model;
use vmm_sys::epoll::EpollEvent;
use vmm_sys::errno::Errno;

/// Who owns which descriptor, and what is still to come of the current batch. After `new` only `open` and `register` take memory,
/// and an addition makes the room that its removal needs: all owned descriptors can be cancelled without memory.
#[derive(Drop)]
pub(crate) struct RegistrationState {
    owners: DescriptorOwners,
    ready: ReadyList,
}

impl Model for RegistrationState {
    ghost use Rattle.std.specs.Prelude.{◌≤◌};
    ghost use Rattle.std.specs.FinMap as map;
    ghost use Rattle.event_loop.specs.RegistrationParts.{state_of_parts};
    ghost use Rattle.event_loop.specs.RegistrationState.{RegistrationState as State, registration_state_code};

    ghost Value = { State };

    ghost coded = { registration_state_code };

    ghost view = { λ s. state_of_parts s.owners s.ready };

    ghost invariant = { λ s. map.len s.owners.owners ≤ s.ready.room };
}

impl RegistrationState {
    pub(crate) fn new(
        alloc: Global,
        endpoint: u32,
        capacity: usize,
    ) -> std::result::Result<Self, AllocError>
        ensures { IfOk result (λ r. r ≡ record { owners = map.empty; endpoint = endpoint; capacity = capacity; ready = [] }) }
    {
        let ready = ReadyList::new(alloc, capacity)?;
        Ok(RegistrationState {
            owners: DescriptorOwners::new(alloc, endpoint),
            ready,
        })
    }

    pub(crate) fn check_vacant(&self, events: Events) -> Result<()>
        ensures { result_err result ≡ addition_refusal (registrations_of self.now) events.fd }
    {
        self.owners.check_vacant(events)
    }

    pub(crate) fn is_owner(&self, id: u64, events: Events) -> bool
        ensures { IsTrue result ↔ Owns id (registrations_of self.now) events.fd }
    {
        self.owners.is_owner(id, events)
    }

    pub(crate) fn open(&mut self, id: u64, place: usize) -> std::result::Result<(), AllocError>
        ensures { self.new ≡ self.old }
    {
        self.owners.open(id, place)
    }

    pub(crate) fn register(
        &mut self,
        events: Events,
        id: u64,
        place: usize,
        priority: Priority,
    ) -> Result<()>
        requires { IsFree (registrations_of self.old) events.fd }
        ensures ok { OnOk result (self.new ≡ record self.old { owners = map.insert self.old.owners events.fd (record { id = id; priority = priority }) }) }
        ensures err { IfErr result (λ e. (e ≡ Error.OutOfMemory) × (self.new ≡ self.old)) }
    {
        self.ready.make_room(self.owners.owned())?;
        self.owners.register(events, id, place, priority)
    }

    pub(crate) fn unregister(&mut self, events: Events, id: u64)
        requires { Owns id (registrations_of self.old) events.fd }
        ensures { self.new ≡ record self.old { owners = map.remove self.old.owners events.fd } }
    {
        self.owners.unregister(events, id);
    }

    pub(crate) fn remove(&mut self, events: Events, id: u64)
        requires { Owns id (registrations_of self.old) events.fd }
        ensures { self.new ≡ record self.old { owners = map.remove self.old.owners events.fd; ready = cancel_on events.fd self.old.ready } }
    {
        self.owners.unregister(events, id);
        self.ready.cancel(events);
    }

    pub(crate) fn take_watched(&mut self, id: u64, place: usize) -> Vec<u32>
        ensures owned { AreOwnedBy id (registrations_of self.old) result.items }
        ensures are_descriptors { All (λ fd. fd < 2 ^ 31) result.items }
        ensures freed { self.new ≡ left_in id self.old }
    {
        self.owners.take_watched(id, place)
    }

    pub(crate) fn keep_room(&mut self, place: usize, fds: Vec<u32>)
        ensures { self.new ≡ self.old }
    {
        self.owners.keep_room(place, fds);
    }

    pub(crate) fn next_ready(&mut self) -> Option<ReadyEntry>
        ensures { MatchOption result ((self.old.ready ≡ []) × (self.new ≡ self.old))
            (λ t. (rest : List (Event × Bool)) × (self.old.ready ≡ (event_of_entry t.entry, t.cancelled) ∷ rest) × (self.new ≡ record self.old { ready = rest })
            × (t.is_endpoint ≡ ((event_of_entry t.entry).fd == self.old.endpoint))) }
    {
        self.ready.next_ready(self.owners.endpoint())
    }

    /// The owner of the descriptor of an entry.
    pub(crate) fn owner(&self, entry: &EpollEvent) -> Option<Owner>
        ensures value { IsOwnerAt self.now.owners (event_of_entry entry.now).fd result }
        ensures is_descriptor { IfSome result (λ _. (event_of_entry entry.now).fd < 2 ^ 31) }
    {
        self.owners.owner(entry)
    }

    pub(crate) fn wait<P: EventPoller>(
        &mut self,
        poller: &mut P,
        ms: i32,
    ) -> std::result::Result<usize, Errno>
        ensures { (answer : Result (List Event) Errno)
            × Leads P.controls P.waits poller.old (Wait ms self.old.capacity answer ∷ []) poller.new
            × HasWaited self.old answer result self.new }
    {
        self.ready.wait(poller, ms, &self.owners)
    }
}
