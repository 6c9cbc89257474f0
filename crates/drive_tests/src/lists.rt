//! Lists of calls, and what they reply.

use crate::expecting::{Looping, expect_ok, expect_same};
use event_manager::{
    Call, Error, EventOps, EventPoller, Events, MutEventSubscriber, Reply, Request, Result,
};
use fixtures::asking::wanted;
use fixtures::driving::{id_of, replies_to};
use fixtures::parts::{Holding, silent_parts};
use std::alloc::Global;
use std::process::Abort;
use std::rc::Rc;
use vmm_sys::errno::Errno;
use vmm_sys::script_poller::ScriptPoller;

/// The replies of a new manager to the calls, over a poller that reports nothing.
fn replies_over_nothing<R, S>(rt: R, alloc: Global, calls: Vec<Call<S>>) -> Vec<Reply<S>>
where
    R: Looping + Send,
    S: MutEventSubscriber + Drop,
{
    let parts = expect_ok(&rt, silent_parts(rt, alloc, ScriptPoller::new(alloc)));
    expect_ok(&rt, replies_to(&rt, parts, calls))
}

#[test]
fn ids_go_up_and_an_id_that_left_is_unknown(rt: HostRuntime) {
    let first = expect_ok(&rt, id_of(rt.alloc(), 1));
    let second = expect_ok(&rt, id_of(rt.alloc(), 2));
    let requests = expect_ok(&rt, vec![in rt.alloc(); Request::Remove(wanted(3))]);
    let calls = vec![in rt.alloc();
        Call::Add(Holding(11)),
        Call::Remove(first),
        Call::Add(Holding(12)),
        Call::Remove(first),
        Call::Set(second, Holding(13)),
        Call::Ask(first, requests),
    ];
    let replies = replies_over_nothing(rt, rt.alloc(), expect_ok(&rt, calls));
    let expected = vec![in rt.alloc();
        Reply::Added(Ok(first)),
        Reply::Removed(Ok(Holding(11))),
        Reply::Added(Ok(second)),
        Reply::Removed(Err(Error::InvalidId)),
        Reply::Set(Ok(Holding(12))),
        Reply::Asked(Err(Error::InvalidId)),
    ];
    expect_same(&rt, &replies, &expect_ok(&rt, expected));
}

/// Counts in `init` how many hold what it holds.
#[derive(Drop)]
struct Counting {
    held: Rc<u64>,
    holders: usize,
}

impl MutEventSubscriber for Counting {
    ghost use Rattle.std.specs.Prelude.{◌≡◌, []};

    ghost begins = { λ v exchanges w. exchanges ≡ [] };

    ghost serves = { λ v event exchanges w. exchanges ≡ [] };

    fn process<P: EventPoller>(&mut self, _events: Events, _ops: &mut EventOps<P>) {}

    fn init<P: EventPoller>(&mut self, _ops: &mut EventOps<P>) {
        self.holders = Rc::strong_count(&self.held);
    }
}

fn count_holders<R: Abort>(rt: &R, held: &Rc<u64>) -> Counting {
    Counting {
        held: expect_ok(rt, held.clone()),
        holders: 0,
    }
}

#[test]
fn a_refused_set_drops_the_new_value_before_the_next_call(rt: HostRuntime) {
    let first = expect_ok(&rt, id_of(rt.alloc(), 1));
    let held = expect_ok(&rt, Rc::new(rt.alloc(), 7));
    let calls = vec![in rt.alloc();
        Call::Set(first, count_holders(&rt, &held)),
        Call::Add(count_holders(&rt, &held)),
        Call::Remove(first),
    ];
    let mut replies = replies_over_nothing(rt, rt.alloc(), expect_ok(&rt, calls));
    let Some(Reply::Removed(Ok(left))) = replies.pop() else {
        panic!(rt; "nobody leaves");
    };
    // The test's and its own.
    expect_same(&rt, &left.holders, &2);
}

#[test]
fn three_hundred_calls_have_three_hundred_replies(rt: HostRuntime) {
    let (mut calls, mut expected) = (Vec::new(rt.alloc()), Vec::new(rt.alloc()));
    for number in 1..=150 {
        let id = expect_ok(&rt, id_of(rt.alloc(), number));
        expect_ok(&rt, calls.push(Call::Add(Holding(number))));
        expect_ok(&rt, expected.push(Reply::Added(Ok(id))));
        expect_ok(&rt, calls.push(Call::Remove(id)));
        expect_ok(&rt, expected.push(Reply::Removed(Ok(Holding(number)))));
    }
    expect_same(&rt, &replies_over_nothing(rt, rt.alloc(), calls), &expected);
}

/// Four requests for each of fifty descriptors, and their answers.
fn requests_and_answers<R: Abort>(rt: &R, alloc: Global) -> (Vec<Request>, Vec<Result<()>>) {
    let (mut requests, mut answers) = (Vec::new(alloc), Vec::new(alloc));
    let unknown = Err(Error::Epoll(Errno::ENOENT));
    for fd in 1..=50 {
        let own = wanted(fd);
        let exchanges = [
            (Request::Add(own), Ok(())),
            (Request::Add(own), Err(Error::FdAlreadyRegistered)),
            (Request::Remove(own), Ok(())),
            (Request::Modify(own), unknown),
        ];
        for (request, answer) in exchanges {
            expect_ok(rt, requests.push(request));
            expect_ok(rt, answers.push(answer));
        }
    }
    (requests, answers)
}

#[test]
fn two_hundred_requests_have_their_answers_in_order(rt: HostRuntime) {
    let (requests, answers) = requests_and_answers(&rt, rt.alloc());
    expect_same(&rt, &answers.len(), &200);
    let id = expect_ok(&rt, id_of(rt.alloc(), 1));
    let calls = vec![in rt.alloc(); Call::Add(Holding(11)), Call::Ask(id, requests)];
    let replies = replies_over_nothing(rt, rt.alloc(), expect_ok(&rt, calls));
    let expected = vec![in rt.alloc(); Reply::Added(Ok(id)), Reply::Asked(Ok(answers))];
    expect_same(&rt, &replies, &expect_ok(&rt, expected));
}
