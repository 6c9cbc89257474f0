//! Who owns which descriptor.

ghost use Rattle.std.specs.Prelude.{◌≡◌, ◌≤◌, ◌<◌, ◌+◌, ◌^◌, length, take, vec_capacity, OnOk, IfErr, IfSome, IsTrue, ◌↔◌, All};
ghost use Rattle.std.specs.Prelude as prelude;
ghost use Rattle.std.specs.FinMap as map;
ghost use Rattle.std.specs.Result.{result_err};
ghost use Rattle.dispatch_tables.specs.ClassOrder.{IsOrdered};
ghost use Rattle.dispatch_tables.specs.Event.{event_of_entry};
ghost use Rattle.dispatch_tables.specs.Ownership.{class_in};
ghost use Rattle.dispatch_tables.specs.Owners.{IsOwnerAt, AreCounted};
ghost use Rattle.event_loop.specs.Exchange.{addition_refusal};
ghost use Rattle.event_loop.specs.RegistrationParts.{between_batches};
ghost use Rattle.event_loop.specs.Registrations.{Owns, IsFree};
ghost use Rattle.event_loop.specs.Registry.{AreOwnedBy, without_owner};
ghost use Rattle.event_loop.specs.Releasing.{AreWithout};

use crate::error::{Error, Result};
use crate::events::Events;
use dispatch_tables::dispatch_order::{ClassedEntry, order_by_class};
use dispatch_tables::owners::{Owner, Owners};
use dispatch_tables::priority::Priority;
use dispatch_tables::watch_lists::{Moved, WatchLists};
use std::alloc::{AllocError, Global};
use std::marker::Model;
use vmm_sys::epoll::EpollEvent;
use vmm_sys::errno::Errno;

fn disown(owners: &mut Owners, owned: &mut usize, raised: &mut usize, fd: u32) -> Option<Owner>
    requires { AreCounted owners.old owned.old raised.old }
    ensures owner { IsOwnerAt owners.old fd result }
    ensures disowned { owners.new ≡ map.remove owners.old fd }
    ensures counted { AreCounted owners.new owned.new raised.new }
    ensures fewer { owned.new ≤ owned.old }
{
    let owner = owners.remove(fd)?;
    *owned -= 1;
    *raised -= usize::from(owner.priority.is_raised());
    Some(owner)
}

/// Notes the new index of a descriptor that took the one of a removed descriptor in a watch list.
fn note_moved(owners: &mut Owners, moved: Option<Moved>)
    ensures { owners.new ≡ owners.old }
{
    if let Some(moved) = moved {
        owners.set_index(moved.fd, moved.index);
    }
}

fn disown_all(owners: &mut Owners, owned: &mut usize, raised: &mut usize, fds: &[u32])
    requires { AreCounted owners.old owned.old raised.old }
    ensures disowned { AreWithout fds.now owners.old owners.new }
    ensures counted { AreCounted owners.new owned.new raised.new }
    ensures fewer { owned.new ≤ owned.old }
{
    for fd in fds {
        let _ = disown(owners, owned, raised, *fd);
    }
}

/// The owners by descriptor, the descriptors by owner, and the endpoint's. Only `open` and `register` take memory.
#[derive(Drop)]
pub(crate) struct DescriptorOwners {
    owners: Owners,
    owned: usize,
    raised: usize,
    watched: WatchLists,
    endpoint: u32,
}

impl Model for DescriptorOwners {
    ghost use Rattle.event_loop.specs.RegistrationParts.{OwnerState, owner_state_code};
    ghost use Rattle.event_loop.specs.Consistency.{AreConsistent};

    ghost Value = { OwnerState };

    ghost coded = { owner_state_code };

    ghost view = { λ r. record { owners = r.owners; endpoint = r.endpoint } };

    ghost invariant = { λ r. AreConsistent r.owners r.owned r.raised r.watched };
}

impl DescriptorOwners {
    pub(crate) fn new(alloc: Global, endpoint: u32) -> Self
        ensures { result ≡ record { owners = map.empty; endpoint = endpoint } }
    {
        DescriptorOwners {
            owners: Owners::new(alloc),
            owned: 0,
            raised: 0,
            watched: WatchLists::new(alloc),
            endpoint,
        }
    }

    pub(crate) fn owned(&self) -> usize
        ensures { result ≡ map.len self.now.owners }
    {
        self.owned
    }

    pub(crate) fn endpoint(&self) -> u32
        ensures { result ≡ self.now.endpoint }
    {
        self.endpoint
    }

    pub(crate) fn check_vacant(&self, events: Events) -> Result<()>
        ensures { result_err result ≡ addition_refusal (between_batches self.now) events.fd }
    {
        let fd = events.number();
        if self.owners.get(fd).is_some() {
            return Err(Error::FdAlreadyRegistered);
        }
        if fd == self.endpoint {
            return Err(Error::Epoll(Errno::EEXIST));
        }
        Ok(())
    }

    pub(crate) fn is_owner(&self, id: u64, events: Events) -> bool
        ensures { IsTrue result ↔ Owns id (between_batches self.now) events.fd }
    {
        match self.owners.get(events.number()) {
            Some(owner) => owner.id == id,
            None => false,
        }
    }

    /// Opens the watch list of an id, at the place of its subscriber.
    pub(crate) fn open(&mut self, id: u64, place: usize) -> std::result::Result<(), AllocError>
        ensures { self.new ≡ self.old }
    {
        self.watched.open(id, place)?;
        Ok(())
    }

    pub(crate) fn register(
        &mut self,
        events: Events,
        id: u64,
        place: usize,
        priority: Priority,
    ) -> Result<()>
        requires { IsFree (between_batches self.old) events.fd }
        ensures ok { OnOk result (self.new ≡ record self.old { owners = map.insert self.old.owners events.fd (record { id = id; priority = priority }) }) }
        ensures err { IfErr result (λ e. (e ≡ Error.OutOfMemory) × (self.new ≡ self.old)) }
        ensures more { map.len self.new.owners ≤ map.len self.old.owners + 1 }
    {
        let fd = events.number();
        let index = self.watched.insert(id, place, fd)?;
        let owner = Owner {
            id,
            place,
            index,
            priority,
        };
        match self.owners.insert(fd, owner) {
            Ok(()) => {
                self.owned += 1;
                self.raised += usize::from(priority.is_raised());
                Ok(())
            }
            Err(_) => {
                let _ = self.watched.remove(id, place, fd, index);
                Err(Error::OutOfMemory)
            }
        }
    }

    pub(crate) fn unregister(&mut self, events: Events, id: u64)
        requires { Owns id (between_batches self.old) events.fd }
        ensures freed { self.new ≡ record self.old { owners = map.remove self.old.owners events.fd } }
        ensures fewer { map.len self.new.owners < map.len self.old.owners }
    {
        let fd = events.number();
        let Some(owner) = disown(&mut self.owners, &mut self.owned, &mut self.raised, fd) else {
            unreachable!()
        };
        let moved = self.watched.remove(id, owner.place, fd, owner.index);
        note_moved(&mut self.owners, moved);
    }

    /// Frees all descriptors of the id, whose list is looked for at the place first, and returns them.
    pub(crate) fn take_watched(&mut self, id: u64, place: usize) -> Vec<u32>
        ensures owned { AreOwnedBy id (between_batches self.old) result.items }
        ensures are_descriptors { All (λ fd. fd < 2 ^ 31) result.items }
        ensures freed { self.new ≡ record self.old { owners = without_owner id self.old.owners } }
        ensures fewer { map.len self.new.owners ≤ map.len self.old.owners }
    {
        let fds = self.watched.take(id, place);
        disown_all(&mut self.owners, &mut self.owned, &mut self.raised, &fds);
        fds
    }

    /// Gives the memory of a list that was taken to the next list at its place.
    pub(crate) fn keep_room(&mut self, place: usize, fds: Vec<u32>)
        ensures { self.new ≡ self.old }
    {
        self.watched.keep_room(place, fds);
    }

    pub(crate) fn owner(&self, entry: &EpollEvent) -> Option<Owner>
        ensures value { IsOwnerAt self.now.owners (event_of_entry entry.now).fd result }
        ensures is_descriptor { IfSome result (λ _. (event_of_entry entry.now).fd < 2 ^ 31) }
    {
        self.owners.get(entry.low_half())
    }

    pub(crate) fn order(
        &self,
        report: &mut [EpollEvent],
        count: usize,
        classed: &mut Vec<ClassedEntry>,
    )
        requires within { count ≤ length report.old }
        requires room { count ≤ vec_capacity classed.old }
        ensures ordered { IsOrdered (λ fd. class_in self.now.owners fd) (prelude.map event_of_entry (take count report.old)) (prelude.map event_of_entry (take count report.new)) }
        ensures capacity { vec_capacity classed.old ≤ vec_capacity classed.new }
    {
        if self.raised > 0 {
            order_by_class(&self.owners, report, count, classed);
        }
    }
}
