//! A loop of one meter, beside one who sends actions.

use crate::expecting::{expect_ok, expect_same};
use crate::going_on::{Advance, Meter, run_meters};
use event_manager::{
    ActionOn, EventPoller, Events, JobSender, LoopWithSenders, NamedCounter, RemoteEndpoint,
    Result, SubscriberId, TrackedManager,
};
use fixtures::asking::wanted;
use fixtures::parts::{Parts, on_table};
use std::alloc::Global;
use std::process::Abort;
use std::sync::Wait;
use std::time::Clock;

/// Advances a meter by 2, and by 3.
#[derive(Drop)]
struct Advancing(SubscriberId);

impl<R: Wait + Clock + Abort> JobSender<Meter, ActionOn<Advance>, (), R> for Advancing {
    fn send<N: NamedCounter>(self, endpoint: &RemoteEndpoint<Meter, ActionOn<Advance>, N>, rt: &R) {
        for by in [2, 3] {
            let advance = ActionOn {
                subscriber: self.0,
                action: Advance(by),
            };
            expect_same(rt, &endpoint.call_blocking(advance, rt), &Ok(Ok(())));
        }
    }
}

/// Lets a meter join that has counted 5.
#[derive(Drop)]
struct Metering {
    meter: Option<SubscriberId>,
}

impl<R: Wait + Clock + Abort> LoopWithSenders<Meter, ActionOn<Advance>, Advancing, R> for Metering {
    fn begin<N: NamedCounter, P: EventPoller>(
        &mut self,
        _rt: &R,
        alloc: Global,
        manager: &mut TrackedManager<Meter, ActionOn<Advance>, N, P>,
    ) -> Result<Vec<Advancing>> {
        let meter = Meter {
            own: wanted(9),
            began: 0,
            count: 5,
        };
        let id = manager.add_subscriber(meter)?;
        self.meter = Some(id);
        Ok(Vec::from_array(alloc, [Advancing(id)])?)
    }
}

#[test]
fn a_meter_is_handed_out_with_what_it_has_counted(rt: HostRuntime) {
    let Parts {
        alloc,
        poller,
        counter,
        ..
    } = expect_ok(&rt, on_table(rt, rt.alloc(), 0));
    let mut metering = Metering { meter: None };
    let ended = expect_ok(&rt, run_meters(&rt, alloc, poller, counter, &mut metering));
    expect_same(&rt, &ended.ran, &Ok(()));
    let counts = match metering.meter {
        Some(id) => ended
            .subscribers
            .get(id)
            .map(|meter| (meter.began, meter.count)),
        None => None,
    };
    expect_same(&rt, &counts, &Some((5, 10)));
}
