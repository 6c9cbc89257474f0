//! The lines of a script, made one after another: a call at most, and what it answers is printed.

ghost use Rattle.std.specs.Prelude.{◌≡◌, ℕ, List, Option, [], ◌∷◌, IfErr, OnOk, slice_get};
ghost use Rattle.std.specs.Option.{option_flatten};
ghost use Rattle.std.specs.Vec.Iter.{into_iter_items};
ghost use Rattle.event_manager.specs.Manager.{state_of};
ghost use Rattle.evloop.specs.Lines.{IsFaultOfLine, IsLineRun, IsRun, TakesNext, done_of};
ghost use Rattle.evloop_script.specs.Printed.{written_by};
ghost use Rattle.evloop_script.specs.declared.script.Call.TheVariants.{Join, Ask, Leave, Run};

use crate::calls::make_call;
use event_manager::laws::driven_lists_join;
use event_manager::{
    Call, Error, EventManager, EventPoller, Job, NamedCounter, Reply, Request, SubscriberId,
    SubscriberOps,
};
use evloop_script::fault::Fault;
use evloop_script::output::{Out, OutputLine, Printer};
use evloop_script::reactions::Reactions;
use evloop_script::requests::print_replies;
use evloop_script::script::Call as Line;
use evloop_script::subscriber::Subscriber;
use std::alloc::Global;
use std::sync::Wait;
use std::time::Clock;
use std::vec::IntoIter;

// The id of the join at this place; none where the join was refused.
fn id_of(ids: &[Option<SubscriberId>], join: usize) -> Option<SubscriberId>
    ensures { result ≡ option_flatten (slice_get ids.now join) }
{
    ids.get(join).copied().flatten()
}

// The reactions of the next join; without one they are none.
fn next_of(alloc: Global, reactions: &mut IntoIter<Reactions>) -> Reactions
    ensures { TakesNext (into_iter_items reactions.old) result (into_iter_items reactions.new) }
{
    match reactions.next() {
        Some(own) => own,
        None => Reactions::new(alloc),
    }
}

// Whether a leave was refused.
fn done<T: Drop>(answer: Result<T, Error>) -> Result<(), Error>
    ensures { result ≡ done_of answer }
{
    match answer {
        Ok(_) => Ok(()),
        Err(error) => Err(error),
    }
}

// A subscriber joins.
fn make_join<'a, R, O, J, N, P>(
    rt: &R,
    alloc: Global,
    manager: &mut EventManager<Subscriber<'a, O>, J, N, P>,
    name: &'a str,
    requests: Vec<Request>,
    ids: &mut Vec<Option<SubscriberId>>,
    reactions: &mut IntoIter<Reactions>,
    printer: &mut Printer<O>,
) -> Result<(), Fault>
where
    R: Wait + Clock,
    O: Out + Drop,
    J: Job<Subscriber<'a, O>>,
    N: NamedCounter,
    P: EventPoller,
    ensures made { IsLineRun J.may P.controls P.waits
        (record { ids = ids.old.items; reactions = into_iter_items reactions.old; written = written_by O.contents printer.old }) (Join name.entry requests) result
        (record { ids = ids.new.items; reactions = into_iter_items reactions.new; written = written_by O.contents printer.new }) (state_of manager.old) (state_of manager.new) }
    ensures faults { IfErr result IsFaultOfLine }
{
    let own = next_of(alloc, reactions);
    let subscriber = Subscriber::new(name, requests, own, printer.try_clone(alloc)?);
    let Reply::Added(answer) = make_call(rt, alloc, manager, Call::Add(subscriber))? else {
        unreachable!()
    };
    printer.print(&OutputLine::Joined { name, answer })?;
    Ok(ids.push(answer.ok())?)
}

// Requests are made under the id of a join.
fn make_ask<'a, R, O, J, N, P>(
    rt: &R,
    alloc: Global,
    manager: &mut EventManager<Subscriber<'a, O>, J, N, P>,
    name: &'a str,
    ids: &[Option<SubscriberId>],
    join: usize,
    requests: Vec<Request>,
    printer: &mut Printer<O>,
) -> Result<(), Fault>
where
    R: Wait + Clock,
    O: Out + Drop,
    J: Job<Subscriber<'a, O>>,
    N: NamedCounter,
    P: EventPoller,
    ensures made { (reactions : List Reactions) → IsLineRun J.may P.controls P.waits
        (record { ids = ids.now; reactions = reactions; written = written_by O.contents printer.old }) (Ask name.entry join requests) result
        (record { ids = ids.now; reactions = reactions; written = written_by O.contents printer.new }) (state_of manager.old) (state_of manager.new) }
    ensures faults { IfErr result IsFaultOfLine }
{
    // Its contract says that each held id is below the next.
    let _next = manager.next_id();
    let Some(id) = id_of(ids, join) else {
        let error = Error::InvalidId;
        return printer.print(&OutputLine::AskRefused { name, error });
    };
    let asked = requests.clone()?;
    match make_call(rt, alloc, manager, Call::Ask(id, requests))? {
        Reply::Asked(Ok(answers)) => {
            print_replies(name, &asked, &answers, printer);
            Ok(())
        }
        Reply::Asked(Err(error)) => printer.print(&OutputLine::AskRefused { name, error }),
        _ => unreachable!(),
    }
}

// The subscriber of a join leaves.
fn make_leave<'a, R, O, J, N, P>(
    rt: &R,
    alloc: Global,
    manager: &mut EventManager<Subscriber<'a, O>, J, N, P>,
    name: &'a str,
    ids: &[Option<SubscriberId>],
    join: usize,
    printer: &mut Printer<O>,
) -> Result<(), Fault>
where
    R: Wait + Clock,
    O: Out + Drop,
    J: Job<Subscriber<'a, O>>,
    N: NamedCounter,
    P: EventPoller,
    ensures made { (reactions : List Reactions) → IsLineRun J.may P.controls P.waits
        (record { ids = ids.now; reactions = reactions; written = written_by O.contents printer.old }) (Leave name.entry join) result
        (record { ids = ids.now; reactions = reactions; written = written_by O.contents printer.new }) (state_of manager.old) (state_of manager.new) }
    ensures faults { IfErr result IsFaultOfLine }
{
    let _next = manager.next_id();
    let Some(id) = id_of(ids, join) else {
        let answer = Err(Error::InvalidId);
        return printer.print(&OutputLine::Left { name, answer });
    };
    let Reply::Removed(left) = make_call(rt, alloc, manager, Call::Remove(id))? else {
        unreachable!()
    };
    let answer = done(left);
    printer.print(&OutputLine::Left { name, answer })
}

// The loop runs once.
fn make_run<'a, R, O, J, N, P>(
    rt: &R,
    alloc: Global,
    manager: &mut EventManager<Subscriber<'a, O>, J, N, P>,
    printer: &mut Printer<O>,
) -> Result<(), Fault>
where
    R: Wait + Clock,
    O: Out + Drop,
    J: Job<Subscriber<'a, O>>,
    N: NamedCounter,
    P: EventPoller,
    ensures made { (ids : List (Option ℕ)) (reactions : List Reactions) → IsLineRun J.may P.controls P.waits
        (record { ids = ids; reactions = reactions; written = written_by O.contents printer.old }) Run result
        (record { ids = ids; reactions = reactions; written = written_by O.contents printer.new }) (state_of manager.old) (state_of manager.new) }
    ensures faults { IfErr result IsFaultOfLine }
{
    let Reply::Ran(answer) = make_call(rt, alloc, manager, Call::Run(-1))? else {
        unreachable!()
    };
    printer.print(&OutputLine::Ran { answer })
}

// Makes one line.
fn make_line<'a, R, O, J, N, P>(
    rt: &R,
    alloc: Global,
    manager: &mut EventManager<Subscriber<'a, O>, J, N, P>,
    line: Line<'a>,
    ids: &mut Vec<Option<SubscriberId>>,
    reactions: &mut IntoIter<Reactions>,
    printer: &mut Printer<O>,
) -> Result<(), Fault>
where
    R: Wait + Clock,
    O: Out + Drop,
    J: Job<Subscriber<'a, O>>,
    N: NamedCounter,
    P: EventPoller,
    ensures made { IsLineRun J.may P.controls P.waits
        (record { ids = ids.old.items; reactions = into_iter_items reactions.old; written = written_by O.contents printer.old }) line.entry result
        (record { ids = ids.new.items; reactions = into_iter_items reactions.new; written = written_by O.contents printer.new }) (state_of manager.old) (state_of manager.new) }
    ensures faults { IfErr result IsFaultOfLine }
{
    match line {
        Line::Join { name, requests } => {
            make_join(rt, alloc, manager, name, requests, ids, reactions, printer)
        }
        Line::Ask {
            name,
            join,
            requests,
        } => make_ask(rt, alloc, manager, name, ids, join, requests, printer),
        Line::Leave { name, join } => make_leave(rt, alloc, manager, name, ids, join, printer),
        Line::Run => make_run(rt, alloc, manager, printer),
    }
}

/// Makes the lines in order, and prints what they are answered. Each makes one call of the manager; an `ask` or `drop` line
/// of a name whose join was refused makes none. The reactions are those of the joins, in order; a join behind the last of
/// them has none. The rest of a reply's line that can't be written is dropped.
///
/// The calls that were made, with their replies, are one list that was driven, whose `Remove` and `Ask` calls have the ids
/// that the replies to the joins gave. Each line of `sub`, `drop` and `run`, and of an `ask` that is refused as a whole, is
/// printed as its reply; an `ask` that is agreed to prints each of its requests with its answer, in order. All this stands
/// behind what the output held, where std knows what it holds.
///
/// # Errors
///
/// `OutOfMemory`; `CannotWrite` where another line can't be written. Then the first lines were made and printed, but for the
/// rest of what the last of them prints, and those behind them were not made.
pub fn make_lines<'a, R, O, J, N, P>(
    rt: &R,
    alloc: Global,
    manager: &mut EventManager<Subscriber<'a, O>, J, N, P>,
    lines: Vec<Line<'a>>,
    reactions: Vec<Reactions>,
    printer: &mut Printer<O>,
) -> Result<(), Fault>
where
    R: Wait + Clock,
    O: Out + Drop,
    J: Job<Subscriber<'a, O>>,
    N: NamedCounter,
    P: EventPoller,
    ensures made { IsRun J.may P.controls P.waits (record { ids = []; reactions = reactions.items; written = written_by O.contents printer.old })
        lines.entry.items result (written_by O.contents printer.new) (state_of manager.old) (state_of manager.new) }
    ensures faults { IfErr result IsFaultOfLine }
{
    // Their contracts say that no call is a driven list, and that each held id is below the next.
    driven_lists_join::<Subscriber<'a, O>, J, P>();
    let _next = manager.next_id();
    let mut reactions = reactions.into_iter();
    let mut ids = Vec::new(alloc);
    for line in lines {
        make_line(rt, alloc, manager, line, &mut ids, &mut reactions, printer)?;
    }
    Ok(())
}
