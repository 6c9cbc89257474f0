//! Loops on threads of their own, beside one on the thread that starts them.

ghost use Rattle.std.specs.Prelude.{◌≡◌, [], map, IfOk, IfErr, IfSome};
ghost use Rattle.std.specs.List.{AllZip};
ghost use Rattle.std.specs.Thread.{IsSend, IsSync};
ghost use Rattle.event_loop.specs.declared.error.Error.TheVariants.{OutOfMemory};

use event_loop::{Error, Result};
use std::alloc::Global;
use std::marker::PhantomData;
use std::snapshot::Snapshot;
use std::sync::{OnceLock, Wait};
use std::thread;
use std::thread::{Promise, PromisedHandle, Scope, Threads};

/// A loop that [`with_loops`] runs on a thread: over a poller that it was given, of a type parameter `P: EventPoller` of the impl,
/// it makes an [`EventLoop`](crate::EventLoop) or [`EventManager`](crate::EventManager), and runs it for as long as it likes.
pub trait ThreadLoop<R> {
    /// What it returns in the end.
    type Output;

    /// What a run may return; by default anything.
    ghost gives: { Self → Self.Output → Type 0 } = { λ _ _. Unit {0} };

    /// Runs it to its end, on the thread that calls this.
    fn run(self, rt: &R) -> Self::Output
        ensures { gives self result };
}

#[derive(Drop)]
struct Given<L, R> {
    of: Snapshot<L>,
    rt: PhantomData<R>,
}

impl<R, L: ThreadLoop<R>> Promise<Option<L::Output>> for Given<L, R> {
    ghost kept_by = { λ given output. IfSome output (L.gives given.of.value) };
}

fn run_later<L: ThreadLoop<R> + Drop, R: Wait>(
    it: L,
    may_begin: &OnceLock<bool>,
    rt: &R,
) -> Option<L::Output>
    ensures { IfSome result (L.gives it) }
{
    if *may_begin.wait(rt) {
        Some(it.run(rt))
    } else {
        None
    }
}

fn start<'s, E, L, R>(
    scope: &Scope<'s, E>,
    it: L,
    may_begin: &'s OnceLock<bool>,
    rt: &'s R,
) -> Option<PromisedHandle<Option<L::Output>, Given<L, R>>>
where
    L: ThreadLoop<R> + Send + Drop + 's,
    L::Output: Send + Drop + 's,
    R: Wait + Sync,
    ensures { IfSome result (λ thread. thread.promise.of.value ≡ it) }
{
    let given = Given {
        of: Snapshot::of(&it),
        rt: PhantomData,
    };
    scope
        .spawn_with(given, move || run_later(it, may_begin, rt))
        .ok()
}

fn start_all<'s, E, L, R>(
    scope: &Scope<'s, E>,
    alloc: Global,
    loops: Vec<L>,
    may_begin: &'s OnceLock<bool>,
    rt: &'s R,
) -> Option<Vec<PromisedHandle<Option<L::Output>, Given<L, R>>>>
where
    L: ThreadLoop<R> + Send + Drop + 's,
    L::Output: Send + Drop + 's,
    R: Wait + Sync,
    ensures { IfSome result (λ threads. map (λ thread. thread.promise.of.value) threads.items ≡ loops.items) }
{
    let mut threads = Vec::new(alloc);
    for it in loops {
        threads.push(start(scope, it, may_begin, rt)?).ok()?;
    }
    Some(threads)
}

fn join_all<L, R>(
    threads: Vec<PromisedHandle<Option<L::Output>, Given<L, R>>>,
    mut outputs: Vec<L::Output>,
    rt: &R,
) -> Option<Vec<L::Output>>
where
    L: ThreadLoop<R>,
    L::Output: Drop,
    R: Threads,
    requires { outputs.items ≡ [] }
    ensures { IfSome result (λ all. AllZip L.gives (map (λ thread. thread.promise.of.value) threads.items) all.items) }
{
    for thread in threads {
        let output = thread.join(rt)?;
        if outputs.push(output).is_err() {
            return None;
        }
    }
    Some(outputs)
}

/// Runs `own` on this thread, beside each of the others on its own thread, and returns, once all have ended, what they returned,
/// the others' in order. None begins before all threads are made. They reach each other through what they were given, such as
/// channels and endpoints. Each ends by itself: one that never ends keeps this call waiting. Not in event-manager.
///
/// `OutOfMemory` if there is no thread for one of them, or no room for what they return: then none begins, and all are dropped.
pub fn with_loops<B, L, R>(
    rt: &R,
    alloc: Global,
    own: B,
    others: Vec<L>,
) -> Result<(B::Output, Vec<L::Output>)>
where
    B: ThreadLoop<R> + Drop,
    B::Output: Drop,
    L: ThreadLoop<R> + Send + Drop,
    L::Output: Send + Drop,
    R: Threads + Wait + Sync,
    ensures own { IfOk result (λ gave. B.gives own gave.0) }
    ensures others { IfOk result (λ gave. AllZip L.gives others.items gave.1.items) }
    ensures refusals { IfErr result (λ e. e ≡ OutOfMemory) }
{
    let may_begin = OnceLock::new();
    let may_begin = &may_begin;
    thread::scope(
        thread::scope_env(),
        rt,
        move |scope| -> Result<(B::Output, Vec<L::Output>)>
            requires { IsSend L.row × IsSync R.row }
            ensures { IfOk result (λ gave. B.gives own gave.0 × AllZip L.gives others.items gave.1.items) × IfErr result (λ e. e ≡ OutOfMemory) }
        {
            let outputs = Vec::with_capacity(alloc, others.len())?;
            let threads = start_all(scope, alloc, others, may_begin, rt);
            let _ = may_begin.set(rt, threads.is_some());
            let Some(threads) = threads else {
                return Err(Error::OutOfMemory);
            };
            let gave = own.run(rt);
            match join_all(threads, outputs, rt) {
                Some(all) => Ok((gave, all)),
                None => Err(Error::OutOfMemory),
            }
        },
    )
}
