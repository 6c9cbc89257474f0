//! The watch list of each subscriber: which descriptors it owns.

ghost use Rattle.std.specs.Prelude.{◌≡◌, ◌≢◌, ℕ, ◌<◌, ◌≤◌, All, IfOk, OnOk, OnErr, MatchOption, length, slice_index_or};
ghost use Rattle.std.specs.List.Sorted.{IsNonDecreasing};
ghost use Rattle.dispatch_tables.specs.declared.watch_lists.WatchList.{WatchList};
ghost use Rattle.dispatch_tables.specs.WatchLists.{times_in, times_among, times_watched, AreApart, AreUpTo, AreDistinct, IsListOf, LacksList, IsOneMore, HasChangedAt, HasOneMore, HasNone, HasSameLists};

use std::alloc::{AllocError, Global};
use std::mem;

/// The descriptors of one id, in no order.
#[derive(Drop)]
struct WatchList {
    id: u64,
    fds: Vec<u32>,
}

/// The descriptors of each subscriber, by id. A list is looked for at the place that its subscriber has in the registry (`near`),
/// and a descriptor at the index where it was put; only if they aren't there, at all places. An empty list goes to the next id
/// at its place, with the memory that it has.
#[derive(Drop)]
pub struct WatchLists {
    lists: Vec<WatchList>,
    // No list has a later id.
    newest: u64,
    alloc: Global,
}

/// A descriptor that moved to the index of one that was removed from its list.
#[derive(Clone, Copy)]
pub struct Moved {
    pub fd: u32,
    pub index: usize,
}

impl WatchLists {
    /// Without any list.
    pub fn new(alloc: Global) -> Self
        ensures empty { (i fd : ℕ) → times_watched result i fd ≡ 0 }
        ensures distinct { AreDistinct result }
    {
        WatchLists {
            lists: Vec::new(alloc),
            newest: 0,
            alloc,
        }
    }

    fn place_of(&self, id: u64, near: usize) -> Option<usize>
        requires { AreDistinct self.now }
        ensures { MatchOption result (LacksList self.now.lists.items id) (λ place. IsListOf self.now.lists.items id place) }
    {
        if let Some(list) = self.lists.get(near) {
            if list.id == id {
                return Some(near);
            }
        }
        if self.newest < id {
            return None;
        }
        self.lists.iter().position(|list| list.id == id)
    }

    /// Opens a list for the id, if it has none: at `near` if an empty one stands there, else at the end. Returns its place.
    pub fn open(&mut self, id: u64, near: usize) -> Result<usize, AllocError>
        requires { AreDistinct self.old }
        ensures distinct { AreDistinct self.new }
        ensures same { HasSameLists self.old self.new }
        ensures opened { IfOk result (λ place. IsListOf self.new.lists.items id place) }
    {
        if let Some(place) = self.place_of(id, near) {
            return Ok(place);
        }
        let place = make_list(&mut self.lists, id, near, self.alloc)?;
        if self.newest < id {
            self.newest = id;
        }
        Ok(place)
    }

    /// Puts the descriptor into the list of the id, and returns its index there. Memory may be refused.
    pub fn insert(&mut self, id: u64, near: usize, fd: u32) -> Result<usize, AllocError>
        requires { AreDistinct self.old }
        ensures distinct { AreDistinct self.new }
        ensures ok { OnOk result (HasOneMore self.old id fd self.new) }
        ensures err { OnErr result (HasSameLists self.old self.new) }
    {
        let place = self.open(id, near)?;
        push_at(&mut self.lists, place, fd)
    }

    /// Removes the descriptor from the list of the id, and returns the one that took its index, if any. Takes no memory.
    pub fn remove(&mut self, id: u64, near: usize, fd: u32, index: usize) -> Option<Moved>
        requires distinct { AreDistinct self.old }
        requires listed { times_watched self.old id fd ≡ 1 }
        ensures distinct { AreDistinct self.new }
        ensures removed { HasOneMore self.new id fd self.old }
    {
        match self.place_of(id, near) {
            Some(place) => take_at(&mut self.lists, place, fd, index),
            None => None,
        }
    }

    /// Removes all descriptors of the id and returns them, in ascending order. Takes no memory.
    pub fn take(&mut self, id: u64, near: usize) -> Vec<u32>
        requires { AreDistinct self.old }
        ensures distinct { AreDistinct self.new }
        ensures value { (fd : ℕ) → times_in result.items fd ≡ times_watched self.old id fd }
        ensures ascending { IsNonDecreasing result.items }
        ensures taken { HasNone self.old id self.new }
    {
        match self.place_of(id, near) {
            Some(place) => {
                let mut fds = mem::replace(&mut self.lists[place].fds, Vec::new(self.alloc));
                fds.sort_unstable();
                fds
            }
            None => Vec::new(self.alloc),
        }
    }

    /// Gives the memory of `fds`, a list that was taken, to the list at `near`, if that is empty. Takes no memory.
    pub fn keep_room(&mut self, near: usize, fds: Vec<u32>)
        requires { AreDistinct self.old }
        ensures distinct { AreDistinct self.new }
        ensures same { HasSameLists self.old self.new }
    {
        let mut fds = fds;
        fds.clear();
        if let Some(list) = self.lists.get_mut(near) {
            if list.fds.is_empty() {
                list.fds = fds;
            }
        }
    }
}

/// Makes an empty list of an id that has none: of the one at the place, if that is empty, or else behind all.
fn make_list(
    lists: &mut Vec<WatchList>,
    id: u64,
    near: usize,
    alloc: Global,
) -> Result<usize, AllocError>
    requires apart { AreApart lists.old.items }
    requires lacking { LacksList lists.old.items id }
    ensures made { IfOk result (λ place. IsListOf lists.new.items id place) }
    ensures apart { AreApart lists.new.items }
    ensures ids { (newest : ℕ) → id ≤ newest → AreUpTo newest lists.old.items → AreUpTo newest lists.new.items }
    ensures same { (j q : ℕ) → times_among lists.new.items j q ≡ times_among lists.old.items j q }
    ensures err { OnErr result (lists.new.items ≡ lists.old.items) }
{
    if let Some(list) = lists.get_mut(near) {
        if list.fds.is_empty() {
            list.id = id;
            return Ok(near);
        }
    }
    let place = lists.len();
    let fds = Vec::new(alloc);
    lists.push(WatchList { id, fds })?;
    Ok(place)
}

fn push_at(lists: &mut Vec<WatchList>, place: usize, fd: u32) -> Result<usize, AllocError>
    requires { place < length lists.old.items }
    ensures ok { OnOk result (HasChangedAt place (λ before after. IsOneMore before fd after) lists.old.items lists.new.items) }
    ensures err { OnErr result (HasChangedAt place (λ before after. after ≡ before) lists.old.items lists.new.items) }
{
    let fds = &mut lists[place].fds;
    let index = fds.len();
    fds.push(fd)?;
    Ok(index)
}

fn take_at(lists: &mut Vec<WatchList>, place: usize, fd: u32, index: usize) -> Option<Moved>
    requires within { place < length lists.old.items }
    requires listed { (d : WatchList) → 0 < times_in (slice_index_or lists.old.items place d).fds.items fd }
    ensures { HasChangedAt place (λ before after. IsOneMore after fd before) lists.old.items lists.new.items }
{
    take_out(&mut lists[place].fds, fd, index)
}

/// Removes a descriptor from a list, and returns the one that took its index.
fn take_out(fds: &mut Vec<u32>, fd: u32, near: usize) -> Option<Moved>
    requires { 0 < times_in fds.old.items fd }
    ensures { IsOneMore fds.new.items fd fds.old.items }
{
    let index = index_of(fds, fd, near)?;
    let _ = fds.swap_remove(index);
    match fds.get(index) {
        Some(fd) => Some(Moved { fd: *fd, index }),
        None => None,
    }
}

fn index_of(fds: &[u32], fd: u32, near: usize) -> Option<usize>
    ensures { MatchOption result (All (λ one. one ≢ fd) fds.now) (λ at. (at < length fds.now) × ((d : ℕ) → slice_index_or fds.now at d ≡ fd)) }
{
    if fds.get(near) == Some(&fd) {
        return Some(near);
    }
    fds.iter().position(|one| *one == fd)
}
