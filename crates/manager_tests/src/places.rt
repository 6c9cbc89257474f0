//! The last ids, and which places subscribers are given, which no contract shows.

use crate::expecting::{expect_ok, expect_same};
use dispatch_tables::places::SubscriberPlaces;
use event_manager::{
    Error, EventLoop, EventOps, EventPoller, Events, MutEventSubscriber, SubscriberOps,
};
use std::alloc::{AllocError, Global};
use std::process::Abort;
use std::sync::atomic::{AtomicU64, Ordering};
use vmm_sys::script_poller::ScriptPoller;

/// Counts how often its `init` is called.
#[derive(Drop)]
struct Beginning<'a> {
    begun: &'a AtomicU64,
}

impl MutEventSubscriber for Beginning<'_> {
    ghost use Rattle.event_manager.specs.Exchange.{AsksNothing};

    ghost begins = { λ v exchanges w. AsksNothing exchanges };

    ghost serves = { λ v event exchanges w. AsksNothing exchanges };

    fn process<P: EventPoller>(&mut self, _events: Events, _ops: &mut EventOps<P>) {}

    fn init<P: EventPoller>(&mut self, _ops: &mut EventOps<P>) {
        self.begun.fetch_add(1, Ordering::SeqCst);
    }
}

/// A loop whose first id is this one, in which nobody asks for anything.
fn loop_from<'a, R: Abort>(
    rt: &R,
    alloc: Global,
    first_id: u64,
) -> EventLoop<Beginning<'a>, ScriptPoller> {
    let poller = ScriptPoller::new(alloc);
    expect_ok(rt, EventLoop::with_first_id(alloc, poller, first_id))
}

#[test]
fn a_join_behind_the_last_id_is_refused_before_init(rt: HostRuntime) {
    let begun = AtomicU64::new(0);
    let mut event_loop = loop_from(&rt, rt.alloc(), u64::MAX);
    let refused = event_loop.add_subscriber(Beginning { begun: &begun });
    expect_same(&rt, &refused.err(), &Some(Error::IdsUsedUp));
    expect_same(&rt, &begun.load(Ordering::SeqCst), &0);
}

#[test]
fn a_join_gets_the_last_id_and_the_next_is_refused(rt: HostRuntime) {
    let begun = AtomicU64::new(0);
    let mut event_loop = loop_from(&rt, rt.alloc(), u64::MAX - 1);
    let id = expect_ok(&rt, event_loop.add_subscriber(Beginning { begun: &begun }));
    expect_same(&rt, &id.number(), &18446744073709551614);
    let refused = event_loop.add_subscriber(Beginning { begun: &begun });
    expect_same(&rt, &refused.err(), &Some(Error::IdsUsedUp));
    expect_same(&rt, &begun.load(Ordering::SeqCst), &1);
}

/// Puts a value in under the next id, and answers its place.
fn insert_next(places: &mut SubscriberPlaces<u64>, value: u64) -> Result<usize, AllocError> {
    if places.next_id() == u64::MAX {
        return Err(AllocError);
    }
    places.insert(value)
}

/// The values 10, 20 and 30 under the ids 1, 2 and 3.
fn three_places(alloc: Global) -> Result<SubscriberPlaces<u64>, AllocError> {
    let mut places = SubscriberPlaces::new(alloc);
    for value in [10, 20, 30] {
        insert_next(&mut places, value)?;
    }
    Ok(places)
}

#[test]
fn a_left_place_is_given_again(rt: HostRuntime) {
    let mut places = expect_ok(&rt, three_places(rt.alloc()));
    let left = places.place_of(2);
    expect_same(&rt, &places.remove(2).map(|left| left.1), &Some(20));
    expect_same(&rt, &Some(places.next_place()), &left);
    let given = expect_ok(&rt, insert_next(&mut places, 40));
    expect_same(&rt, &Some(given), &left);
    expect_same(&rt, &places.place_of(4), &left);
}

#[test]
fn no_more_places_than_subscribers(rt: HostRuntime) {
    let mut places = SubscriberPlaces::new(rt.alloc());
    for id in 1..5001 {
        let place = expect_ok(&rt, insert_next(&mut places, id));
        expect_same(&rt, &(place, place < 17), &(place, true));
        if id > 16 {
            let removed = places.remove(id - 16).map(|left| left.1);
            expect_same(&rt, &removed, &Some(id - 16));
        }
    }
}
