//! What is still to come of the current batch.

ghost use Rattle.std.specs.Prelude.{◌≡◌, ◌≤◌, ◌<◌, ◌+◌, ◌==◌, List, [], ◌∷◌, pos, OnOk, IfOk, Result, Bool, MatchOption, ◌^◌};
ghost use Rattle.dispatch_tables.specs.Event.{Event, event_of_entry};
ghost use Rattle.event_loop.specs.PollerCall.{Wait, Leads};
ghost use Rattle.event_loop.specs.RegistrationParts.{state_of_parts};
ghost use Rattle.event_loop.specs.RegistrationState.{cancel_on, HasWaited};
ghost use Rattle.vmm_sys.specs.declared.errno.Errno.{Errno};

use crate::descriptor_owners::DescriptorOwners;
use crate::events::Events;
use crate::poller::EventPoller;
use dispatch_tables::cancelled::{cancelled_at, enter};
use dispatch_tables::dispatch_order::ClassedEntry;
use std::alloc::{AllocError, Global};
use std::marker::Model;
use vmm_sys::epoll::{EpollEvent, EventSet};
use vmm_sys::errno::Errno;

#[derive(Clone, Copy)]
pub(crate) struct ReadyEntry {
    pub(crate) entry: EpollEvent,
    pub(crate) cancelled: bool,
    pub(crate) is_endpoint: bool,
}

/// The entries of a report in the order of dispatch, how many were taken, and the descriptors cancelled since the wait: none once
/// all are taken. `classed` has room for a whole buffer, so after `new` only `make_room` takes memory.
#[derive(Drop)]
pub(crate) struct ReadyList {
    buffer: Vec<EpollEvent>,
    classed: Vec<ClassedEntry>,
    cancelled: Vec<u32>,
    at: usize,
    count: usize,
}

impl Model for ReadyList {
    ghost use Rattle.std.specs.Prelude.{◌≡◌, ◌≤◌, ◌-◌, [], vec_len, vec_capacity};
    ghost use Rattle.dispatch_tables.specs.Cancelled.{IsAscending};
    ghost use Rattle.event_loop.specs.ReadyList.{ready_of};
    ghost use Rattle.event_loop.specs.RegistrationParts.{ReadyListState, ready_list_state_code};

    ghost Value = { ReadyListState };

    ghost coded = { ready_list_state_code };

    ghost view = { λ b. record {
      capacity = vec_len b.buffer;
      ready = ready_of b.buffer.items b.cancelled.items b.at b.count;
      room = vec_capacity b.cancelled - vec_len b.cancelled;
    } };

    ghost invariant = { λ b. (b.at ≤ b.count) × (b.count ≤ vec_len b.buffer) × (vec_len b.buffer ≤ vec_capacity b.classed) × IsAscending b.cancelled.items × (b.count ≤ b.at → b.cancelled.items ≡ []) };
}

impl ReadyList {
    pub(crate) fn new(alloc: Global, capacity: usize) -> std::result::Result<Self, AllocError>
        ensures { IfOk result (λ b. (b.capacity ≡ capacity) × (b.ready ≡ [])) }
    {
        let buffer = vec![in alloc; EpollEvent::new(EventSet::empty(), 0); capacity]?;
        let classed = Vec::with_capacity(alloc, capacity)?;
        Ok(ReadyList {
            buffer,
            classed,
            cancelled: Vec::new(alloc),
            at: 0,
            count: 0,
        })
    }

    /// Makes room to cancel one descriptor more than `owned`.
    pub(crate) fn make_room(&mut self, owned: usize) -> std::result::Result<(), AllocError>
        requires { owned ≤ self.old.room }
        ensures same { self.new ≡ record self.old { room = self.new.room } }
        ensures kept { self.old.room ≤ self.new.room }
        ensures made { OnOk result (owned + 1 ≤ self.new.room) }
    {
        self.cancelled.reserve(owned + 1)?;
        Ok(())
    }

    pub(crate) fn cancel(&mut self, events: Events)
        requires { 0 < self.old.room }
        ensures cancelled { self.new ≡ record self.old { ready = cancel_on events.fd self.old.ready; room = self.new.room } }
        ensures room { self.old.room ≤ self.new.room + 1 }
    {
        if self.at < self.count {
            enter(&mut self.cancelled, events.number());
        }
    }

    /// Takes the next entry, and tells whether it is on the endpoint's descriptor. Once the last one is taken, no descriptor
    /// is cancelled any more.
    pub(crate) fn next_ready(&mut self, endpoint: u32) -> Option<ReadyEntry>
        ensures taken { MatchOption result ((self.old.ready ≡ []) × (self.new ≡ self.old))
            (λ t. (rest : List (Event × Bool)) × (self.old.ready ≡ (event_of_entry t.entry, t.cancelled) ∷ rest) × (self.new ≡ record self.old { ready = rest; room = self.new.room })
            × (t.is_endpoint ≡ ((event_of_entry t.entry).fd == endpoint))) }
        ensures room { self.old.room ≤ self.new.room }
    {
        if self.at < self.count {
            let entry = self.buffer[self.at];
            let fd = entry.low_half();
            let ready_entry = ReadyEntry {
                entry,
                cancelled: cancelled_at(&self.cancelled, fd).0,
                is_endpoint: fd == endpoint,
            };
            self.at += 1;
            if self.at == self.count {
                self.cancelled.clear();
            }
            return Some(ready_entry);
        }
        None
    }

    /// Waits for a batch, which replaces the one before, and puts it in the order of dispatch.
    pub(crate) fn wait<P: EventPoller>(
        &mut self,
        poller: &mut P,
        ms: i32,
        owners: &DescriptorOwners,
    ) -> std::result::Result<usize, Errno>
        ensures waited { (answer : Result (List Event) Errno)
            × Leads P.controls P.waits poller.old (Wait ms self.old.capacity answer ∷ []) poller.new
            × HasWaited (state_of_parts owners.now self.old) answer result (state_of_parts owners.now self.new) }
        ensures room { self.old.room ≤ self.new.room }
    {
        self.at = 0;
        self.count = 0;
        self.cancelled.clear();
        let count = poller.poll(ms, &mut self.buffer)?;
        owners.order(&mut self.buffer, count, &mut self.classed);
        self.count = count;
        Ok(count)
    }
}
