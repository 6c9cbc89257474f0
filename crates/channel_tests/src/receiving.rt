//! How the messages of a round are received, beside the threads that send them.

use crate::expecting::{expect_ok, expect_same, put};
use crate::host::Looping;
use crate::rounds::{MESSAGES, SENDERS, takes_of};
use crate::watched::Watched;
use test_rounds::rest;

/// The number of a receiver's first step in a round, behind those of the senders.
const FIRST_STEP: u64 = SENDERS * MESSAGES;

/// How the messages of a round are received.
#[derive(Clone, Copy)]
pub enum Receiving {
    /// All that wait at once, until the senders have closed.
    Take,
    /// One by one, until the senders have closed.
    Receive,
    /// Until the receiver closes, beside the senders.
    Close,
}

impl Receiving {
    /// Receives a round's messages: what came out, in order.
    pub fn receive<R: Looping>(self, rt: &R, watched: Watched<R>, round: u64) -> Vec<u64> {
        match self {
            Receiving::Take => take_all(rt, watched),
            Receiving::Receive => receive_all(rt, watched),
            Receiving::Close => take_and_close(rt, watched, round),
        }
    }
}

/// Waits and takes until all senders have closed.
fn take_all<R: Looping>(rt: &R, watched: Watched<R>) -> Vec<u64> {
    let mut watched = watched;
    let mut list = Vec::new(rt.alloc());
    for _turn in rt.forever() {
        watched.wait(rt);
        expect_ok(rt, watched.receiver.take(&mut list, rt));
        if watched.receiver.is_over(rt) {
            break;
        }
    }
    expect_same(rt, &watched.receiver.pending(), &Some(0));
    list
}

/// As [`take_all`], by one message for each wait.
fn receive_all<R: Looping>(rt: &R, watched: Watched<R>) -> Vec<u64> {
    let mut watched = watched;
    let mut list = Vec::new(rt.alloc());
    for _turn in rt.forever() {
        watched.wait(rt);
        let Some(message) = watched.receiver.recv(rt) else {
            break;
        };
        put(rt, &mut list, message);
    }
    expect_same(rt, &watched.receiver.is_over(rt), &true);
    list
}

/// Takes a few times, receives a message, and closes.
fn take_and_close<R: Looping>(rt: &R, watched: Watched<R>, round: u64) -> Vec<u64> {
    let Watched { receiver, .. } = watched;
    let mut receiver = receiver;
    let mut list = Vec::new(rt.alloc());
    let takes = takes_of(round);
    for take in 0..takes {
        rest(round, FIRST_STEP.saturating_add(take));
        expect_ok(rt, receiver.take(&mut list, rt));
    }
    rest(round, FIRST_STEP.saturating_add(takes));
    if let Some(message) = receiver.recv(rt) {
        put(rt, &mut list, message);
    }
    for message in receiver.close(rt) {
        put(rt, &mut list, message);
    }
    list
}
