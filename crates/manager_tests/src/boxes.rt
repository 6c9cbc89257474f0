//! Boxed subscribers of two kinds in one manager.

use crate::expecting::{expect, expect_ok};
use event_manager::{BoxedSubscriber, Events, Request, StepInput, StepSubscriber};
use fixtures::parts::silent_parts;
use fixtures::runs::run_over;
use std::alloc::Global;
use std::process::Abort;
use std::sync::{Arc, Mutex};
use vmm_sys::epoll::EventSet;
use vmm_sys::script_poller::ScriptPoller;

const IN: EventSet = EventSet::IN;

const OUT: EventSet = EventSet::OUT;

/// What was delivered, in order: the name of the subscriber, and the event.
type Deliveries = Arc<Mutex<Vec<(char, Events)>>>;

/// Notes a delivery; the one thread finds the lock free.
fn note(deliveries: &Deliveries, name: char, events: Events) {
    if let Some(mut noted) = deliveries.try_lock() {
        let _ = noted.push((name, events));
    }
}

/// Adds one descriptor.
#[derive(Drop)]
struct Single {
    own: Events,
    deliveries: Deliveries,
}

impl StepSubscriber for Single {
    ghost requests = { λ v input wanted w. Unit {0} };

    ghost requests_left = { λ v. 0 };

    fn next(&mut self, input: StepInput) -> Option<Request> {
        match input {
            StepInput::Init => Some(Request::Add(self.own)),
            StepInput::Event(events) => {
                note(&self.deliveries, 'b', events);
                None
            }
            StepInput::Answer(_) => None,
        }
    }
}

/// Adds two descriptors.
#[derive(Drop)]
struct Pair {
    first: Events,
    second: Events,
    /// How many additions are left behind that of the first.
    left: u8,
    deliveries: Deliveries,
}

impl StepSubscriber for Pair {
    ghost requests = { λ v input wanted w. Unit {0} };

    ghost requests_left = { λ v. v.left };

    fn next(&mut self, input: StepInput) -> Option<Request> {
        match input {
            StepInput::Init => Some(Request::Add(self.first)),
            StepInput::Event(events) => {
                note(&self.deliveries, 'a', events);
                None
            }
            StepInput::Answer(_) => {
                if self.left == 0 {
                    return None;
                }
                self.left -= 1;
                Some(Request::Add(self.second))
            }
        }
    }
}

/// A pair of 3 and 4, and a single of 5.
fn two_kinds<R: Abort>(rt: &R, alloc: Global, deliveries: &Deliveries) -> Vec<BoxedSubscriber> {
    let pair = Pair {
        first: Events::new_raw(3, IN),
        second: Events::with_data_raw(4, 7, IN),
        left: 1,
        deliveries: expect_ok(rt, deliveries.clone()),
    };
    let single = Single {
        own: Events::with_data_raw(5, 1, OUT),
        deliveries: expect_ok(rt, deliveries.clone()),
    };
    let pair = expect_ok(rt, Box::new(alloc, pair));
    let single = expect_ok(rt, Box::new(alloc, single));
    let (pair, single): (
        Box<dyn StepSubscriber + Send>,
        Box<dyn StepSubscriber + Send>,
    ) = (pair, single);
    let both = vec![in alloc; BoxedSubscriber(pair), BoxedSubscriber(single)];
    expect_ok(rt, both)
}

/// A report of 5, 4, 6 and 3.
fn one_report<R: Abort>(rt: &R, alloc: Global) -> ScriptPoller {
    let report = vec![in alloc;
        Events::with_data_raw(5, 1, OUT).epoll_event(),
        Events::with_data_raw(4, 7, IN).epoll_event(),
        Events::new_raw(6, IN).epoll_event(),
        Events::new_raw(3, IN).epoll_event(),
    ];
    let mut script = ScriptPoller::new(alloc);
    expect_ok(rt, script.push_report(expect_ok(rt, report)));
    script
}

#[test]
fn two_kinds_in_boxes_are_given_their_events(rt: HostRuntime) {
    let noted = Mutex::new(Vec::new(rt.alloc()));
    let deliveries = expect_ok(&rt, Arc::new(rt.alloc(), noted));
    let subscribers = two_kinds(&rt, rt.alloc(), &deliveries);
    let script = one_report(&rt, rt.alloc());
    let parts = expect_ok(&rt, silent_parts(rt, rt.alloc(), script));
    expect_ok(&rt, run_over(&rt, parts, subscribers, &[Ok(4)]));
    let expected = [
        ('b', Events::with_data_raw(5, 1, OUT)),
        ('a', Events::with_data_raw(4, 7, IN)),
        ('a', Events::new_raw(3, IN)),
    ];
    expect(&rt, deliveries.lock(&rt).as_slice() == expected.as_slice());
}
