//! Lists of calls.

use crate::again;
use crate::descriptors::event_of;
use crate::expecting::{Looping, expect_same};
use crate::making::over_script;
use crate::subscribers::{Manager, Watcher, heard, join};
use event_manager::{Call, EventPoller, NamedCounter, Reply, Result, SubscriberId, drive};
use fixtures::asking::wanted;
use fixtures::making::WithManager;
use std::alloc::Global;

/// The calls over a script.
#[derive(Clone, Copy, Drop)]
struct Driving<'a, R> {
    rt: &'a R,
    alloc: Global,
}

/// A run, another value for the first id, a run, and a leave of the second id.
fn calls<R: Looping>(
    rt: &R,
    alloc: Global,
    [first, second]: [SubscriberId; 2],
) -> Vec<Call<Watcher>> {
    again!(
        rt,
        "vec!",
        vec![in alloc;
            Call::Run(0),
            Call::Set(first, Watcher::new(wanted(3), alloc)),
            Call::Run(0),
            Call::Remove(second),
        ]
    )
}

/// Makes the calls once.
fn drive_once<N: NamedCounter, P: EventPoller, R: Looping>(
    rt: &R,
    alloc: Global,
    manager: &mut Manager<N, P>,
    ids: [SubscriberId; 2],
    replies: &mut Vec<Reply<Watcher>>,
) -> Result<()> {
    drive(manager, calls(rt, alloc, ids), replies, rt)
}

/// Whether these are the replies: two events each run, one of them to the first subscriber's value each time.
fn are_replies(replies: &[Reply<Watcher>]) -> bool {
    match replies {
        [
            Reply::Ran(Ok(2)),
            Reply::Set(Ok(before)),
            Reply::Ran(Ok(2)),
            Reply::Removed(Ok(left)),
        ] => before.heard == 1 && left.heard == 2,
        _ => false,
    }
}

impl<R: Looping> WithManager for Driving<'_, R> {
    type Subscriber = Watcher;

    type Output = ();

    fn run<N: NamedCounter, P: EventPoller>(self, manager: &mut Manager<N, P>) -> Result<()> {
        let Driving { rt, alloc } = self;
        let first = join(rt, alloc, manager, wanted(1));
        let second = join(rt, alloc, manager, wanted(2));
        let mut replies = Vec::new(alloc);
        again!(
            rt,
            "drive",
            drive_once(rt, alloc, manager, [first, second], &mut replies),
            replies.is_empty() && heard(rt, manager, first) == 0
        );
        let is_answered = are_replies(&replies) && heard(rt, manager, first) == 1;
        expect_same(rt, "drive", &is_answered, &true);
        Ok(())
    }
}

#[test]
fn a_list_of_calls_is_driven(rt: HostRuntime) {
    let alloc = rt.alloc();
    let body = Driving { rt: &rt, alloc };
    over_script(&rt, alloc, &[event_of(1), event_of(2)], body);
}
