//! Queues of jobs without a manager.

use crate::again;
use crate::expecting::{Looping, expect_same, mark};
use event_manager::jobs::{JobQueue, Outcome, Step, replay};
use event_manager::{Bell, Error, Result};
use std::alloc::Global;
use std::sync::Wait;
use std::time::Clock;
use vmm_sys::errno::Errno;

/// How many jobs are sent.
const SENT: u64 = 10;

/// A bell that is never heard.
#[derive(Drop)]
struct Silent;

impl Bell for Silent {
    ghost use Rattle.std.specs.Prelude.{IsOk};

    ghost rings = { λ bell answer. IsOk answer };

    fn ring<R: Wait + Clock>(&self, _rt: &R) -> std::result::Result<(), Errno> {
        Ok(())
    }
}

#[test]
fn jobs_are_sent_to_a_queue_and_taken(rt: HostRuntime) {
    let mut queue: JobQueue<u64, ()> = JobQueue::new(rt.alloc());
    for k in 0..SENT {
        let waiting = queue.waiting();
        let sent = again!(
            &rt,
            "JobQueue::send",
            queue.send(k, None, &Silent, &rt),
            queue.waiting() == waiting
        );
        expect_same(&rt, "JobQueue::send", &sent, &(k + 1));
    }
    let mut taken = Vec::new(rt.alloc());
    mark(&rt);
    queue.take(&mut taken);
    mark(&rt);
    expect_same(&rt, "JobQueue::take", &taken.len(), &10);
}

/// Two sends, a take, a send, a close and a send.
fn steps<R: Looping>(rt: &R, alloc: Global) -> Vec<Step<char>> {
    again!(
        rt,
        "vec!",
        vec![in alloc;
            Step::Send('a', Ok(())),
            Step::Send('b', Ok(())),
            Step::Take,
            Step::Send('c', Ok(())),
            Step::Close,
            Step::Send('d', Ok(())),
        ]
    )
}

/// Does the steps on a new queue, once.
fn replay_once<R: Looping>(rt: &R, alloc: Global) -> Result<Outcome<char>> {
    replay(rt, alloc, steps(rt, alloc))
}

#[test]
fn steps_are_done_again(rt: HostRuntime) {
    let Outcome { answers, taken } = again!(&rt, "replay", replay_once(&rt, rt.alloc()));
    let expected = [Ok(1), Ok(2), Ok(3), Err(Error::ChannelSend)];
    expect_same(&rt, "replay", &answers.as_slice(), &expected.as_slice());
    let expected = [(1, 'a'), (2, 'b')];
    expect_same(&rt, "replay", &taken.as_slice(), &expected.as_slice());
}
