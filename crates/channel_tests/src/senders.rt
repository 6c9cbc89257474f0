//! Three threads that send, beside one that receives, or closes: no message and no wake-up is lost, and none comes twice.

use crate::expecting::{expect_ok, expect_same, put};
use crate::host::{Host, Looping};
use crate::receiving::Receiving;
use crate::rounds::{MESSAGES, ROUNDS, SENDERS, messages_of};
use crate::watched::{Watched, another, close, open};
use channels::{Refusal, SendError, Sender};
use std::process::Abort;
use std::thread;
use test_rounds::{Rounds, rest};

/// A thread's senders, one for each round, and its first number.
#[derive(Drop)]
struct Sending {
    senders: Vec<Sender<u64>>,
    from: u64,
}

impl Sending {
    /// Sends in each round, and closes its sender: how many messages of each were agreed to.
    fn send<R: Looping>(self, rt: &R, rounds: &Rounds) -> Vec<u64> {
        let Sending { senders, from } = self;
        let mut agreed = Vec::new(rt.alloc());
        for (round, sender) in (0u64..).zip(senders) {
            rounds.begin(rt, round, SENDERS + 1);
            put(rt, &mut agreed, send_round(rt, &sender, round, from));
            close(rt, sender);
        }
        agreed
    }
}

/// Sends a round's numbers from this one up, and expects all of them back from the first on that is refused: how many were
/// agreed to.
fn send_round<R: Looping>(rt: &R, sender: &Sender<u64>, round: u64, from: u64) -> u64 {
    let mut agreed = 0;
    for number in 0..messages_of(round) {
        let message = from.saturating_add(number);
        rest(round, message);
        match sender.send(message, rt) {
            Ok(()) => {
                expect_same(rt, &agreed, &number);
                agreed = number.saturating_add(1);
            }
            Err(refused) => {
                let why = Refusal::Closed;
                expect_same(rt, &refused, &SendError { why, message });
            }
        }
    }
    agreed
}

/// The channel of each round: what is received from, and each thread's senders.
fn open_all<R: Looping>(rt: &R) -> (Vec<Watched<R>>, Vec<Sending>) {
    let (mut all, mut threads) = (Vec::new(rt.alloc()), Vec::new(rt.alloc()));
    for index in 0..SENDERS {
        let thread = Sending {
            senders: Vec::new(rt.alloc()),
            from: index * MESSAGES,
        };
        put(rt, &mut threads, thread);
    }
    for _round in 0..ROUNDS {
        let (sender, watched) = open(*rt, 0);
        for thread in &mut threads {
            put(rt, &mut thread.senders, another(rt, &sender));
        }
        close(rt, sender);
        put(rt, &mut all, watched);
    }
    (all, threads)
}

/// Receives in each round: what came out in each.
fn receive_rounds<R: Looping>(
    rt: &R,
    rounds: &Rounds,
    all: Vec<Watched<R>>,
    how: Receiving,
) -> Vec<Vec<u64>> {
    let mut lists = Vec::new(rt.alloc());
    for (round, watched) in (0u64..).zip(all) {
        rounds.begin(rt, round, SENDERS + 1);
        put(rt, &mut lists, how.receive(rt, watched, round));
    }
    lists
}

/// What came out in each round, and how many of each thread's messages were agreed to in each.
#[derive(Drop)]
struct Ended {
    lists: Vec<Vec<u64>>,
    agreed: Vec<Vec<u64>>,
}

/// Makes the rounds, beside who looks on.
fn make_rounds<R: Host>(rt: &R, how: Receiving) -> Ended {
    let rounds = Rounds::new();
    let (all, threads) = open_all(rt);
    let (_, (agreed, lists)) = thread::join(
        rt,
        || expect_same(rt, &rounds.look_on(rt), &true),
        || {
            let ended = thread::join(
                rt,
                || thread::map_vec(rt, threads, &|thread| thread.send(rt, &rounds)),
                || receive_rounds(rt, &rounds, all, how),
            );
            rounds.end();
            ended
        },
    );
    Ended {
        lists,
        agreed: expect_ok(rt, agreed),
    }
}

impl Ended {
    /// Expects that in each round those messages came out that were agreed to, each once, and those of a sender in order.
    fn expect_agreed<R: Abort>(&self, rt: &R) {
        for (round, list) in self.lists.iter().enumerate() {
            let mut all = 0u64;
            for (index, counts) in (0u64..).zip(self.agreed.iter()) {
                let count = counts.get(round).copied().unwrap_or(0);
                expect_numbers(rt, list.as_slice(), index.saturating_mul(MESSAGES), count);
                all = all.saturating_add(count);
            }
            expect_same(rt, &(list.len() as u64), &all);
        }
    }

    /// Expects that all messages were agreed to.
    fn expect_none_refused<R: Abort>(&self, rt: &R) {
        for counts in &self.agreed {
            expect_same(rt, &(counts.len() as u64), &ROUNDS);
            for (round, count) in (0u64..).zip(counts.iter()) {
                expect_same(rt, count, &messages_of(round));
            }
        }
    }
}

/// Expects `count` numbers from `from` up among the messages, in order.
fn expect_numbers<R: Abort>(rt: &R, list: &[u64], from: u64, count: u64) {
    let mut next = from;
    for message in list {
        if *message / MESSAGES == from / MESSAGES {
            expect_same(rt, message, &next);
            next = next.saturating_add(1);
        }
    }
    expect_same(rt, &next, &from.saturating_add(count));
}

#[test]
fn what_threads_send_is_taken_once_and_in_order(rt: HostRuntime) {
    let ended = make_rounds(&rt, Receiving::Take);
    ended.expect_none_refused(&rt);
    ended.expect_agreed(&rt);
}

#[test]
fn what_threads_send_is_received_once_and_in_order(rt: HostRuntime) {
    let ended = make_rounds(&rt, Receiving::Receive);
    ended.expect_none_refused(&rt);
    ended.expect_agreed(&rt);
}

#[test]
fn a_close_beside_sends_loses_no_message(rt: HostRuntime) {
    make_rounds(&rt, Receiving::Close).expect_agreed(&rt);
}
