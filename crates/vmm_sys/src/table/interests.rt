//! The interests of a table, in a row of slots, with a set of the slots whose interest is ready.

ghost use Rattle.std.specs.Prelude.{◌≡◌, ◌≢◌, ◌<◌, ◌≤◌, ◌+◌, ◌*◌, ◌^◌, ◌++◌, ◌∷◌, [], ℕ, Bool, true, false, length, map, slice_index_or, slice_set, Some, None, IsSome, IsTrue, IfSome, MatchOption, OnOk, OnErr};
ghost use Rattle.vmm_sys.specs.Lists.{held};
ghost use Rattle.vmm_sys.specs.Interests.{slot_at, place_at, Holds, NoneHolds, AloneHolds, AreMarked, AreMarkedBut};
ghost use Rattle.vmm_sys.specs.NumberSet.{IsMarked, IsFirstFrom, NoneFrom};

use super::number_set::NumberSet;
use crate::entries::EpollEvent;
use std::alloc::{AllocError, Global};
use std::marker::Model;

/// Slots for each descriptor. With fewer, a wait that reports one of many might have to close the slots up each time.
const SLOTS: usize = 3;

/// What is wanted of a descriptor, and the word to report it with; the contracts of [`Table`](crate::table::Table) speak of it.
#[derive(Clone, Copy)]
pub struct Interest {
    pub(super) descriptor: usize,
    pub(super) event: EpollEvent,
}

/// Interests in the order of their slots; what comes last takes the next one. An emptied slot stays unused until the slots are
/// closed up, unless it was the last one in use.
#[derive(Drop)]
pub(super) struct Interests {
    slots: Vec<Option<Interest>>,
    places: Vec<Option<usize>>,
    ready: NumberSet,
}

impl Model for Interests {
    ghost use Rattle.std.specs.Prelude.{length};
    ghost use Rattle.std.specs.Vec.{vec_capacity};
    ghost use Rattle.vmm_sys.specs.Interests.{InterestsState, AreInSlots, HasRoom};

    ghost Value = { InterestsState };

    ghost view = { λ i. record { room = length i.places.items; slots = i.slots.items; marks = i.ready } };

    ghost invariant = { λ i. AreInSlots i.places.items i.slots.items × HasRoom (length i.places.items) (vec_capacity i.slots) (record { room = length i.places.items; slots = i.slots.items; marks = i.ready }) };
}

impl Interests {
    pub(super) fn new(alloc: Global) -> Interests
        ensures { result ≡ record { room = 0; slots = []; marks = [] } }
    {
        Interests {
            slots: Vec::new(alloc),
            places: Vec::new(alloc),
            ready: NumberSet::new(alloc),
        }
    }

    pub(super) fn room(&self) -> usize
        ensures room { result ≡ self.now.room }
        ensures enough { length (held self.now.slots) ≤ result }
    {
        self.places.len()
    }

    pub(super) fn make_room(&mut self) -> Result<(), AllocError>
        requires { self.old.room < 2 ^ 31 }
        ensures slots { self.new.slots ≡ self.old.slots }
        ensures below { (s n : ℕ) → Holds self.old.slots s n → n < self.old.room }
        ensures marks { (s : ℕ) → slice_index_or self.new.marks s false ≡ slice_index_or self.old.marks s false }
        ensures more { OnOk result (self.new.room ≡ self.old.room + 1) }
        ensures refused { OnErr result (self.new.room ≡ self.old.room) }
    {
        let slots = SLOTS * (self.places.len() + 1);
        self.slots.reserve(slots - self.slots.len())?;
        self.ready.make_room(slots)?;
        self.places.push(None)?;
        Ok(())
    }

    pub(super) fn slot_of(&self, descriptor: usize) -> Option<usize>
        requires { descriptor < self.now.room }
        ensures { MatchOption result (NoneHolds self.now.slots descriptor) (λ s. AloneHolds self.now.slots s descriptor) }
    {
        let _slots = &self.slots;
        self.places[descriptor]
    }

    pub(super) fn interest_in(&self, slot: usize) -> Option<Interest>
        ensures { result ≡ slot_at self.now.slots slot }
    {
        match self.slots.get(slot) {
            Some(held) => *held,
            None => None,
        }
    }

    pub(super) fn end(&self) -> usize
        ensures { result ≡ length self.now.slots }
    {
        self.slots.len()
    }

    /// The first marked slot; it may stand behind the slots in use, where a mark says nothing.
    pub(super) fn first_ready(&mut self) -> Option<usize>
        ensures unchanged { self.new ≡ self.old }
        ensures first { MatchOption result (NoneFrom self.old.marks 0) (λ s. IsFirstFrom self.old.marks 0 s) }
    {
        self.ready.first()
    }

    pub(super) fn ready_from(&self, slot: usize) -> Option<usize>
        ensures { MatchOption result (NoneFrom self.now.marks slot) (λ s. IsFirstFrom self.now.marks slot s) }
    {
        self.ready.first_from(slot)
    }

    /// Whether the slots in use from `slot` on are at most `most`, and all marked.
    pub(super) fn are_ready_from(&self, slot: usize, most: usize) -> bool
        ensures few { IsTrue result → length self.now.slots ≤ slot + most }
        ensures marked { IsTrue result → (s : ℕ) → slot ≤ s → s < length self.now.slots → IsMarked self.now.marks s }
    {
        let end = self.slots.len();
        if end.saturating_sub(slot) > most {
            return false;
        }
        for s in slot..end {
            if !self.ready.contains(s) {
                return false;
            }
        }
        true
    }

    #[inline(always)]
    pub(super) fn mark(&mut self, slot: usize, ready: bool)
        requires { slot < length self.old.slots }
        ensures within { slot < length self.old.marks }
        ensures marked { self.new ≡ record self.old { marks = slice_set self.old.marks slot ready } }
    {
        if self.ready.contains(slot) == ready {
            return;
        }
        self.ready.put(slot, ready);
    }

    #[inline(always)]
    pub(super) fn push_back(&mut self, interest: Interest, ready: bool)
        requires room { interest.descriptor < self.old.room }
        requires absent { NoneHolds self.old.slots interest.descriptor }
        ensures room { self.new.room ≡ self.old.room }
        ensures list { held self.new.slots ≡ held self.old.slots ++ interest ∷ [] }
        ensures marks { (p : Interest → Bool) → AreMarked p self.old → p interest ≡ ready → AreMarked p self.new }
    {
        self.leave_unused(1);
        let slot = self.slots.len();
        self.put_last(interest);
        self.mark(slot, ready);
    }

    #[inline(always)]
    fn put_last(&mut self, interest: Interest)
        requires room { interest.descriptor < self.old.room }
        requires absent { NoneHolds self.old.slots interest.descriptor }
        requires unused { length self.old.slots < 3 * self.old.room }
        ensures { self.new ≡ record self.old { slots = self.old.slots ++ Some interest ∷ [] } }
    {
        self.places[interest.descriptor] = Some(self.slots.len());
        self.slots.push_reserved(Some(interest));
    }

    pub(super) fn replace(&mut self, slot: usize, interest: Interest)
        requires { Holds self.old.slots slot interest.descriptor }
        ensures { self.new ≡ record self.old { slots = slice_set self.old.slots slot (Some interest) } }
    {
        set_event(&mut self.slots[slot], interest);
    }

    /// Where the slot is the last one in use, it is given back and keeps its mark.
    #[inline(always)]
    pub(super) fn remove(&mut self, slot: usize, descriptor: usize)
        requires { Holds self.old.slots slot descriptor }
        ensures room { self.new.room ≡ self.old.room }
        ensures list { held self.new.slots ≡ held (slice_set self.old.slots slot None) }
        ensures marks { (p : Interest → Bool) → AreMarked p self.old → AreMarked p self.new }
    {
        self.empty(slot, descriptor);
        if self.slots.len() - slot == 1 {
            self.slots.truncate(slot);
        } else {
            self.mark(slot, false);
        }
    }

    #[inline(always)]
    fn empty(&mut self, slot: usize, descriptor: usize)
        requires { Holds self.old.slots slot descriptor }
        ensures { self.new ≡ record self.old { slots = slice_set self.old.slots slot None } }
    {
        self.slots[slot] = None;
        self.places[descriptor] = None;
    }

    /// Leaves `count` slots unused: where fewer are, closes the slots up.
    pub(super) fn leave_unused(&mut self, count: usize)
        requires { count ≤ self.old.room }
        ensures room { self.new.room ≡ self.old.room }
        ensures list { held self.new.slots ≡ held self.old.slots }
        ensures marks { (p : Interest → Bool) → AreMarked p self.old → AreMarked p self.new }
        ensures unused { length self.new.slots + count ≤ 3 * self.new.room }
    {
        if SLOTS * self.places.len() - self.slots.len() < count {
            self.close_up();
        }
    }

    /// Moves the interest of a slot to the next unused one, and its mark with it.
    pub(super) fn move_to_back(&mut self, slot: usize)
        requires some { IsSome (slot_at self.old.slots slot) }
        requires unused { length self.old.slots < 3 * self.old.room }
        ensures room { self.new.room ≡ self.old.room }
        ensures slots { self.new.slots ≡ slice_set self.old.slots slot None ++ slot_at self.old.slots slot ∷ [] }
        ensures marks { (p : Interest → Bool) → AreMarked p self.old → AreMarked p self.new }
    {
        let last = self.slots.len();
        self.slots.push_reserved(None);
        self.shift(slot, last);
    }

    #[inline(always)]
    fn shift(&mut self, from: usize, to: usize)
        requires some { IsSome (slot_at self.old.slots from) }
        requires none { slot_at self.old.slots to ≡ None }
        requires used { to < length self.old.slots }
        ensures room { self.new.room ≡ self.old.room }
        ensures slots { self.new.slots ≡ slice_set (slice_set self.old.slots from None) to (slot_at self.old.slots from) }
        ensures marks { (p : Interest → Bool) → AreMarkedBut to p self.old → AreMarked p self.new }
    {
        let Some(interest) = self.slots[from] else {
            return;
        };
        self.slots[from] = None;
        self.slots[to] = Some(interest);
        self.places[interest.descriptor] = Some(to);
        move_mark(&mut self.ready, from, to);
    }

    // Moves the interests to the front slots, in order.
    #[cold]
    #[inline(never)]
    fn close_up(&mut self)
        ensures room { self.new.room ≡ self.old.room }
        ensures slots { self.new.slots ≡ map Some (held self.old.slots) }
        ensures marks { (p : Interest → Bool) → AreMarked p self.old → AreMarked p self.new }
    {
        let mut next = 0;
        for slot in 0..self.slots.len() {
            next = self.close_slot(slot, next);
        }
        self.slots.truncate(next);
    }

    // Moves what a slot holds to the front of the gap before it, where there is one.
    fn close_slot(&mut self, slot: usize, next: usize) -> usize
        requires used { slot < length self.old.slots }
        requires order { next ≤ slot }
        requires gap { next < slot → slot_at self.old.slots next ≡ None }
        ensures room { self.new.room ≡ self.old.room }
        ensures empty { slot_at self.old.slots slot ≡ None → (result ≡ next) × (self.new ≡ self.old) }
        ensures stays { IsSome (slot_at self.old.slots slot) → slot ≤ next → (result ≡ next + 1) × (self.new ≡ self.old) }
        ensures moves { IsSome (slot_at self.old.slots slot) → next < slot → (result ≡ next + 1) × (self.new.slots ≡ slice_set (slice_set self.old.slots slot None) next (slot_at self.old.slots slot)) }
        ensures marks { (p : Interest → Bool) → AreMarked p self.old → AreMarked p self.new }
    {
        if self.interest_in(slot).is_none() {
            return next;
        }
        let _slots = &self.slots;
        let after = next + 1;
        if next < slot {
            self.shift(slot, next);
        }
        after
    }
}

// Writes the event alone, as the descriptor is the same.
#[inline(always)]
fn set_event(held: &mut Option<Interest>, interest: Interest)
    requires same_descriptor { IfSome held.old (λ before. before.descriptor ≡ interest.descriptor) }
    requires some { IsSome held.old }
    ensures { held.new ≡ Some interest }
{
    if let Some(before) = held {
        before.event = interest.event;
    }
}

#[inline(always)]
fn move_mark(ready: &mut NumberSet, from: usize, to: usize)
    requires from { from < length ready.old }
    requires to { to < length ready.old }
    ensures length { length ready.new ≡ length ready.old }
    ensures marked { slice_index_or ready.old from false ≡ true → ready.new ≡ slice_set (slice_set ready.old from false) to true }
    ensures unmarked { slice_index_or ready.old from false ≡ false → ready.new ≡ slice_set ready.old to false }
{
    if ready.contains(from) {
        ready.put(from, false);
        ready.put(to, true);
    } else if ready.contains(to) {
        ready.put(to, false);
    }
}
