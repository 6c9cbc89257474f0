//! The queue of jobs, and the account of a list of sends, takes and closes.

use crate::expecting::{expect_ok, expect_same};
use crate::heard::send_heard;
use event_manager::jobs::{JobQueue, Step, replay};
use event_manager::{Bell, Error};
use std::alloc::Global;
use std::process::Abort;
use std::sync::Wait;
use std::sync::atomic::{AtomicU64, Ordering};
use std::time::Clock;
use vmm_sys::errno::Errno;

/// What a send is answered whose ring is refused.
const REFUSED: Result<u64, Error> = Err(Error::EventFd(Errno::EAGAIN));

#[test]
fn accepted_jobs_have_their_tickets(rt: HostRuntime) {
    let steps = expect_ok(
        &rt,
        vec![in rt.alloc();
            Step::Send('a', Ok(())),
            Step::Send('b', Err(Errno::EAGAIN)),
            Step::Send('c', Ok(())),
            Step::Take,
            Step::Send('d', Ok(())),
            Step::Close,
            Step::Send('e', Ok(())),
            Step::Take,
        ],
    );
    let outcome = expect_ok(&rt, replay(&rt, rt.alloc(), steps));
    let answers = [Ok(1), REFUSED, Ok(2), Ok(3), Err(Error::ChannelSend)];
    expect_same(&rt, &outcome.answers.as_slice(), &answers.as_slice());
    let taken = [(1, 'a'), (2, 'c')];
    expect_same(&rt, &outcome.taken.as_slice(), &taken.as_slice());
}

#[test]
fn of_nothing_nothing_is_sent_or_taken(rt: HostRuntime) {
    let steps: Vec<Step<char>> = Vec::new(rt.alloc());
    let outcome = expect_ok(&rt, replay(&rt, rt.alloc(), steps));
    expect_same(&rt, &(outcome.answers.len(), outcome.taken.len()), &(0, 0));
}

/// A bell that counts how often it is rung, and refuses one ring by its number, counted from 1.
#[derive(Drop)]
struct Refusing {
    refused: u64,
    rings: AtomicU64,
}

fn make_refusing(refused: u64) -> Refusing {
    Refusing {
        refused,
        rings: AtomicU64::new(0),
    }
}

impl Bell for Refusing {
    ghost rings = { λ bell answer. Unit {0} };

    fn ring<R: Wait + Clock>(&self, _rt: &R) -> std::result::Result<(), Errno> {
        let before = self.rings.fetch_add(1, Ordering::SeqCst);
        if before.wrapping_add(1) == self.refused {
            return Err(Errno::EAGAIN);
        }
        Ok(())
    }
}

/// Which of three rings is refused, the answers to the sends, and the tickets and jobs that then wait.
const ROWS: [(u64, [Result<u64, Error>; 3], [(u64, char); 2]); 3] = [
    (1, [REFUSED, Ok(1), Ok(2)], [(1, 'b'), (2, 'c')]),
    (2, [Ok(1), REFUSED, Ok(2)], [(1, 'a'), (2, 'c')]),
    (3, [Ok(1), Ok(2), REFUSED], [(1, 'a'), (2, 'b')]),
];

/// Expects that these wait, and are handed out in this order.
fn expect_waiting<R: Abort>(
    rt: &R,
    alloc: Global,
    mut queue: JobQueue<char, ()>,
    expected: [(u64, char); 2],
) {
    expect_same(rt, &queue.waiting(), &2);
    let mut out = Vec::new(alloc);
    queue.take(&mut out);
    for (entry, expected) in out.iter().zip(expected) {
        expect_same(rt, &(entry.ticket, entry.job), &expected);
    }
}

#[test]
fn two_of_three_sends_are_accepted(rt: HostRuntime) {
    for (refused, answers, waiting) in ROWS {
        let bell = make_refusing(refused);
        let mut queue: JobQueue<char, ()> = JobQueue::new(rt.alloc());
        for (job, answer) in ['a', 'b', 'c'].into_iter().zip(answers) {
            expect_same(&rt, &queue.send(job, None, &bell, &rt), &answer);
        }
        expect_waiting(&rt, rt.alloc(), queue, waiting);
    }
}

#[test]
fn a_send_rings_no_bell_where_no_ticket_is_left(rt: HostRuntime) {
    let bell = make_refusing(0);
    let mut queue: JobQueue<char, ()> = JobQueue::behind(rt.alloc(), 9223372036854775807);
    let answer = send_heard(&mut queue, 'a', &bell, &rt);
    expect_same(&rt, &answer, &Err(Error::TicketsUsedUp));
    expect_same(&rt, &bell.rings.load(Ordering::SeqCst), &0);
}
