//! Who owns which descriptor, and at which priority.

ghost use Rattle.std.specs.Prelude.{◌≡◌, ◌<◌, ◌≤◌, ◌==◌, ℕ, if◌then◌else◌, length, None, Some, option_map, OnOk, OnErr};
ghost use Rattle.std.specs.FinMap as map;
ghost use Rattle.dispatch_tables.specs.Priority.{number_of};
ghost use Rattle.dispatch_tables.specs.Ownership.{class_in};
ghost use Rattle.dispatch_tables.specs.Owners.{ownership_of, owner_in, ownership_in, slot_ownership, ownership_at, HasOwnerAt, HaveSameOwners, IsOwnerAt};

use crate::priority::Priority;
use std::alloc::{AllocError, Global};
use std::collections::HashMap;
use std::marker::Model;
use std::mem;

/// Descriptors below this number are low: their owners stand in a vector, by descriptor.
const LOW_DESCRIPTORS: u32 = 1048576;

/// The id of a subscriber that owns a descriptor, the place where the registry held it when it added the descriptor, the priority
/// that it then gave, and the index at which the descriptor is looked for first in its watch list.
#[derive(Clone, Copy)]
pub struct Owner {
    pub id: u64,
    pub place: usize,
    pub index: usize,
    pub priority: Priority,
}

/// The owner of a low descriptor, if it has one; its fields are ordered to take 24 bytes. Place and index are compared where
/// they are used; one that 32 bits don't hold is kept as the highest number.
#[derive(Clone, Copy)]
enum OwnerSlot {
    Vacant,
    Owned {
        priority: Priority,
        place: u32,
        id: u64,
        index: u32,
    },
}

const _: () = prove!(size_of::<OwnerSlot>() == 24);

impl OwnerSlot {
    fn of(owner: Owner) -> OwnerSlot
        ensures { slot_ownership result ≡ Some (ownership_of owner) }
    {
        OwnerSlot::Owned {
            priority: owner.priority,
            place: shortened(owner.place),
            id: owner.id,
            index: shortened(owner.index),
        }
    }

    fn owner(&self) -> Option<Owner>
        ensures { option_map ownership_of result ≡ slot_ownership self.now }
    {
        match *self {
            OwnerSlot::Vacant => None,
            OwnerSlot::Owned {
                priority,
                place,
                id,
                index,
            } => Some(Owner {
                id,
                place: place as usize,
                index: index as usize,
                priority,
            }),
        }
    }
}

/// A place or an index in 32 bits.
fn shortened(index: usize) -> u32 {
    u32::try_from(index).unwrap_or(u32::MAX)
}

/// The owners of the descriptors. A look-up of a low descriptor reads one place of a vector, which is as long as the highest low
/// descriptor that was ever added; one of another descriptor searches a hash map.
#[derive(Drop)]
pub struct Owners {
    low: Vec<OwnerSlot>,
    high: HashMap<u32, Owner>,
}

impl Model for Owners {
    ghost use Rattle.dispatch_tables.specs.Ownership.{OwnerMap, owner_map_code};
    ghost use Rattle.dispatch_tables.specs.Owners.{owners_in, AreApart};

    ghost Value = { OwnerMap };

    ghost coded = { owner_map_code };

    ghost view = { λ o. owners_in o.low.items o.high.entries };

    ghost invariant = { λ o. AreApart o.low.items o.high.entries };
}

impl Owners {
    /// No owner.
    pub fn new(alloc: Global) -> Self
        ensures { result ≡ map.empty }
    {
        Owners {
            low: Vec::new(alloc),
            high: HashMap::new(alloc),
        }
    }

    /// The owner of the descriptor.
    #[inline(always)]
    pub fn get(&self, fd: u32) -> Option<Owner>
        ensures { IsOwnerAt self.now fd result }
    {
        if fd < LOW_DESCRIPTORS {
            return copy_at(&self.low, fd as usize);
        }
        find_in(&self.high, fd)
    }

    /// The class of the descriptor: its priority, the lowest where it has no owner.
    pub fn class(&self, fd: u32) -> Priority
        ensures { number_of result ≡ class_in self.now fd }
    {
        match self.get(fd) {
            Some(owner) => owner.priority,
            None => Priority::Lowest,
        }
    }

    /// Enters the owner of a descriptor. Memory may be refused.
    pub fn insert(&mut self, fd: u32, owner: Owner) -> std::result::Result<(), AllocError>
        ensures ok { OnOk result (self.new ≡ map.insert self.old fd (ownership_of owner)) }
        ensures err { OnErr result (self.new ≡ self.old) }
    {
        if fd < LOW_DESCRIPTORS {
            put_at(&mut self.low, fd as usize, owner)?;
            return Ok(());
        }
        put_in(&mut self.high, fd, owner)?;
        Ok(())
    }

    /// Removes the owner of the descriptor and returns it. Takes no memory.
    pub fn remove(&mut self, fd: u32) -> Option<Owner>
        ensures value { IsOwnerAt self.old fd result }
        ensures removed { self.new ≡ map.remove self.old fd }
    {
        if fd < LOW_DESCRIPTORS {
            return take_at(&mut self.low, fd as usize);
        }
        take_from(&mut self.high, fd)
    }

    /// Notes where the descriptor now stands in its owner's watch list. Takes no memory.
    pub fn set_index(&mut self, fd: u32, index: usize)
        ensures { self.new ≡ self.old }
    {
        if fd < LOW_DESCRIPTORS {
            set_index_at(&mut self.low, fd as usize, index);
            return;
        }
        set_index_in(&mut self.high, fd, index);
    }
}

/// Notes another index beside the owner at a descriptor, if it has one.
fn set_index_at(low: &mut Vec<OwnerSlot>, fd: usize, new_index: usize)
    ensures len { length low.new.items ≡ length low.old.items }
    ensures same { HaveSameOwners (ownership_at low.old.items) (ownership_at low.new.items) }
{
    if fd < low.len() {
        if let OwnerSlot::Owned { index, .. } = &mut low[fd] {
            *index = shortened(new_index);
        }
    }
}

fn set_index_in(high: &mut HashMap<u32, Owner>, fd: u32, index: usize)
    ensures { HaveSameOwners (ownership_in high.old.entries) (ownership_in high.new.entries) }
{
    if let Some(owner) = high.get_mut(&fd) {
        owner.index = index;
    }
}

#[inline(never)]
fn find_in(high: &HashMap<u32, Owner>, fd: u32) -> Option<Owner>
    ensures { result ≡ owner_in high.now.entries fd }
{
    high.get(&fd).copied()
}

#[inline(never)]
fn put_in(
    high: &mut HashMap<u32, Owner>,
    fd: u32,
    owner: Owner,
) -> std::result::Result<(), AllocError>
    ensures ok { OnOk result ((q : ℕ) → owner_in high.new.entries q ≡ if fd == q then Some owner else owner_in high.old.entries q) }
    ensures err { OnErr result (high.new.entries ≡ high.old.entries) }
{
    high.insert(fd, owner)?;
    Ok(())
}

#[inline(never)]
fn take_from(high: &mut HashMap<u32, Owner>, fd: u32) -> Option<Owner>
    ensures value { result ≡ owner_in high.old.entries fd }
    ensures taken { (q : ℕ) → owner_in high.new.entries q ≡ if fd == q then None else owner_in high.old.entries q }
{
    high.remove(&fd)
}

/// Puts an owner at a descriptor, and makes the vector as long as that takes.
fn put_at(low: &mut Vec<OwnerSlot>, fd: usize, owner: Owner) -> std::result::Result<(), AllocError>
    requires { fd < 1048576 }
    ensures len { length low.old.items ≤ 1048576 → length low.new.items ≤ 1048576 }
    ensures ok { OnOk result (HasOwnerAt low.old.items fd (Some (ownership_of owner)) low.new.items) }
    ensures err { OnErr result (low.new.items ≡ low.old.items) }
{
    if fd >= low.len() {
        low.resize(fd + 1, OwnerSlot::Vacant)?;
    }
    low[fd] = OwnerSlot::of(owner);
    Ok(())
}

fn copy_at(low: &[OwnerSlot], fd: usize) -> Option<Owner>
    ensures { option_map ownership_of result ≡ ownership_at low.now fd }
{
    match low.get(fd) {
        Some(entry) => entry.owner(),
        None => None,
    }
}

fn take_at(low: &mut Vec<OwnerSlot>, fd: usize) -> Option<Owner>
    ensures value { option_map ownership_of result ≡ ownership_at low.old.items fd }
    ensures taken { HasOwnerAt low.old.items fd None low.new.items }
    ensures len { length low.new.items ≡ length low.old.items }
{
    if fd < low.len() {
        return mem::replace(&mut low[fd], OwnerSlot::Vacant).owner();
    }
    None
}
