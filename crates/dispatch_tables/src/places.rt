//! The places of the subscribers: a delivery finds its subscriber at its place, without a search.

ghost use Rattle.std.specs.Prelude.{◌≡◌, ◌↔◌, IsTrue, IfNone, IfSome, IfOk, OnSome, OnOk, OnErr, MatchOption, ◌<◌, Some, None, is_some, IsSome, nat_eq, option_map};
ghost use Rattle.std.specs.Option.{option_copied, option_copied_mut};
ghost use Rattle.std.specs.Borrow.{Lends, LendsIf, sem};
ghost use Rattle.std.specs.FinMap as map;
ghost use Rattle.std.specs.HashMap.{get};
ghost use Rattle.std.specs.List.{filter_map};
ghost use Rattle.dispatch_tables.specs.Members.{nobody, joined_by, with_member, without_member, AreBelow};
ghost use Rattle.dispatch_tables.specs.Places.{held_id, subscriber_of, id_at, with_subscriber, AreIndexed, AreLinked, HaveSameHolders};

use std::alloc::{AllocError, Global};
use std::collections::HashMap;
use std::marker::Model;
use std::mem;

/// A place: a subscriber with its id, or nobody and the next vacant place.
#[derive(Drop)]
enum Place<S> {
    Held(u64, S),
    Vacant(Option<usize>),
}

impl<S> Place<S> {
    ghost use Rattle.dispatch_tables.specs.contracts.places.Place.{the_row};

    fn is_held_by(&self, id: u64) -> bool
        ensures { IsTrue result ↔ (held_id self.now ≡ Some id) }
    {
        match self {
            Place::Held(holder, _) => *holder == id,
            Place::Vacant(_) => false,
        }
    }

    fn subscriber(&self) -> &S
        requires { IsSome (held_id self.now) }
        ensures { subscriber_of self.now ≡ Some result.now }
    {
        match self {
            Place::Held(_, subscriber) => subscriber,
            Place::Vacant(_) => unreachable!(),
        }
    }

    fn subscriber_mut(&mut self) -> &mut S
        requires { IsSome (held_id self.old) }
        ensures* lent { sem 𝓛 (Lends (the_row S.row) S.row self.entry result (with_subscriber self.old)) }
        ensures value { subscriber_of self.old ≡ Some result.now }
    {
        match self {
            Place::Held(_, subscriber) => subscriber,
            Place::Vacant(_) => unreachable!(),
        }
    }
}

/// The subscribers by id, each in a place of its own. A place whose subscriber left is given to a later one, so a place alone
/// doesn't name a subscriber: calls name the id too.
#[derive(Drop)]
pub struct SubscriberPlaces<S> {
    places: Vec<Place<S>>,
    // The vacant place that is taken next, which names the next one.
    first_vacant: Option<usize>,
    index: HashMap<u64, usize>,
    next: u64,
}

impl<S> Model for SubscriberPlaces<S> {
    ghost use Rattle.std.specs.Prelude.{nat_eq};
    ghost use Rattle.std.specs.HashMap.{get};
    ghost use Rattle.dispatch_tables.specs.Members.{Members, members_code};

    ghost Value = { Members S };

    ghost coded = { members_code S.code };

    ghost use Rattle.dispatch_tables.specs.Places.{values_of, AreSound, ArePlacedBelow};

    ghost view = { λ s. record { by_id = values_of s.places.items; next = s.next } };

    ghost invariant = { λ s. AreSound s.places.items s.first_vacant (get nat_eq s.index) × ArePlacedBelow s.next (get nat_eq s.index) };
}

#[inline(never)]
fn place_in(index: &HashMap<u64, usize>, id: u64) -> Option<usize>
    ensures { result ≡ get nat_eq index.now id }
{
    index.get(&id).copied()
}

/// The place that holds the id: looked for at the hint first, and by the index only where it isn't held there.
#[inline(always)]
fn place_by_hint<S>(
    places: &[Place<S>],
    index: &HashMap<u64, usize>,
    hint: usize,
    id: u64,
) -> Option<usize>
    requires { AreIndexed places.now (get nat_eq index.now) }
    ensures { MatchOption result (get nat_eq index.now id ≡ None) (λ place. id_at places.now place ≡ Some id) }
{
    if let Some(place) = places.get(hint) {
        if place.is_held_by(id) {
            return Some(hint);
        }
    }
    place_in(index, id)
}

/// The next vacant place; where there is none, one more is made, for which memory may be refused.
fn vacant_place<S: Drop>(
    places: &mut Vec<Place<S>>,
    first_vacant: &mut Option<usize>,
) -> Result<usize, AllocError>
    requires { AreLinked places.old.items first_vacant.old }
    ensures first { IfOk result (λ place. first_vacant.new ≡ Some place) }
    ensures reused { IfSome first_vacant.old (λ _. places.new.items ≡ places.old.items) }
    ensures linked { AreLinked places.new.items first_vacant.new }
    ensures holders { HaveSameHolders places.old.items places.new.items }
{
    if let Some(place) = first_vacant {
        return Ok(*place);
    }
    let place = places.len();
    match places.push(Place::Vacant(None)) {
        Ok(()) => {}
        Err(_) => return Err(AllocError),
    }
    *first_vacant = Some(place);
    Ok(place)
}

/// The ids in the order of their places; `count` is how many, to take the memory at once.
fn held_ids<S>(places: &[Place<S>], count: usize, alloc: Global) -> Result<Vec<u64>, AllocError>
    ensures { IfOk result (λ ids. ids.items ≡ filter_map held_id places.now) }
{
    let mut ids = Vec::with_capacity(alloc, count)?;
    for place in places {
        if let Place::Held(id, _) = place {
            ids.push(*id)?;
        }
    }
    Ok(ids)
}

impl<S> SubscriberPlaces<S> {
    ghost use Rattle.dispatch_tables.specs.contracts.places.SubscriberPlaces.{the_row};

    /// Without subscribers; the first id is 1.
    pub fn new(alloc: Global) -> Self
        ensures { result ≡ nobody }
    {
        SubscriberPlaces::from_id(alloc, 1)
    }

    /// Without subscribers; the first id is `first`.
    pub fn from_id(alloc: Global, first: u64) -> Self
        ensures { result ≡ record nobody { next = first } }
    {
        SubscriberPlaces {
            places: Vec::new(alloc),
            first_vacant: None,
            index: HashMap::new(alloc),
            next: first,
        }
    }

    /// The id that is given next.
    pub fn next_id(&self) -> u64
        ensures next { result ≡ self.now.next }
        ensures below { AreBelow self.now }
    {
        self.next
    }

    /// Gives the subscriber the next id and a place, and returns the place. Where memory is refused the subscriber is dropped.
    pub fn insert(&mut self, subscriber: S) -> Result<usize, AllocError>
    where
        S: Drop,
        requires { self.old.next < 18446744073709551615 }
        ensures ok { OnOk result (self.new ≡ joined_by self.old subscriber) }
        ensures err { OnErr result (self.new ≡ self.old) }
    {
        let place = vacant_place(&mut self.places, &mut self.first_vacant)?;
        let id = self.next;
        match self.index.insert(id, place) {
            Ok(_) => {}
            Err(_) => return Err(AllocError),
        }
        self.next = id + 1;
        match mem::replace(&mut self.places[place], Place::Held(id, subscriber)) {
            Place::Vacant(next) => self.first_vacant = next,
            Place::Held(_, _) => unreachable!(),
        }
        Ok(place)
    }

    /// Removes the subscriber of the id, whose place goes to a later one; returns both. Takes no memory.
    pub fn remove(&mut self, id: u64) -> Option<(usize, S)>
        ensures value { option_map (λ left. left.1) result ≡ map.get self.old.by_id id }
        ensures removed { OnSome result (self.new ≡ without_member self.old id) }
        ensures absent { IfNone result (self.new ≡ self.old) }
    {
        let Some(place) = self.index.remove(&id) else {
            return None;
        };
        match mem::replace(&mut self.places[place], Place::Vacant(self.first_vacant)) {
            Place::Held(_, subscriber) => {
                self.first_vacant = Some(place);
                Some((place, subscriber))
            }
            Place::Vacant(_) => unreachable!(),
        }
    }

    /// The ids of all subscribers, in ascending order.
    pub fn ids(&self, alloc: Global) -> Result<Vec<u64>, AllocError>
        ensures { IfOk result (λ ids. ids.items ≡ map.keys self.now.by_id) }
    {
        let mut ids = held_ids(&self.places, self.index.len(), alloc)?;
        ids.sort_unstable();
        Ok(ids)
    }

    /// The place that the next subscriber gets.
    pub fn next_place(&self) -> usize {
        self.first_vacant.unwrap_or(self.places.len())
    }

    /// The place of the id.
    pub fn place_of(&self, id: u64) -> Option<usize>
        ensures { is_some result ≡ is_some (map.get self.now.by_id id) }
    {
        if self.next <= id {
            return None;
        }
        self.index.get(&id).copied()
    }

    /// The subscriber of the id, found by the index.
    pub fn get(&self, id: u64) -> Option<&S>
        ensures { option_copied result ≡ map.get self.now.by_id id }
    {
        match self.index.get(&id).copied() {
            Some(place) => Some(self.places[place].subscriber()),
            None => None,
        }
    }

    /// Lends the subscriber of the id, found by the index. Takes no memory.
    pub fn get_mut(&mut self, id: u64) -> Option<&mut S>
        ensures* lent { sem 𝓛 (LendsIf (the_row S.row) S.row self.entry result (with_member self.old id) self.old) }
        ensures value { option_copied_mut result ≡ map.get self.old.by_id id }
    {
        match self.index.get(&id).copied() {
            Some(place) => Some(self.places[place].subscriber_mut()),
            None => None,
        }
    }

    /// Lends as [`get_mut`](SubscriberPlaces::get_mut), whatever the place; without a search where it is the subscriber's place.
    #[inline(always)]
    pub fn get_mut_at(&mut self, place: usize, id: u64) -> Option<&mut S>
        ensures* lent { sem 𝓛 (LendsIf (the_row S.row) S.row self.entry result (with_member self.old id) self.old) }
        ensures value { option_copied_mut result ≡ map.get self.old.by_id id }
    {
        match place_by_hint(&self.places, &self.index, place, id) {
            Some(place) => Some(self.places[place].subscriber_mut()),
            None => None,
        }
    }
}
