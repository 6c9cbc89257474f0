//! A script, run over an event manager.

ghost use Rattle.std.specs.Prelude.{◌≡◌, IfOk, OnOk, IsOkUnless};
ghost use Rattle.evloop.specs.ScriptedPoller.{empty, wait_answer, with_waits, with_refusals};
ghost use Rattle.vmm_sys.specs.ScriptPoller.{with_answer};

use crate::lines::make_lines;
use event_manager::{
    BoxedPoller, EventManager, Ledgers, NamedCounter, NoJob, WithLedgers, with_ledgers,
};
use evloop_script::fault::Fault;
use evloop_script::input::read_text;
use evloop_script::output::{Out, Printer};
use evloop_script::reactions::Reactions;
use evloop_script::script::{Call, Refusal, Wait as ScriptedWait, parse};
use evloop_script::subscriber::Subscriber;
use std::alloc::Global;
use std::io::Read;
use std::sync::Wait;
use std::time::Clock;
use vmm_sys::epoll::Epoll;
use vmm_sys::errno::Errno;
use vmm_sys::eventfd::EventFd;
use vmm_sys::poller::Poller;
use vmm_sys::script_poller::ScriptPoller;

/// How many counters are opened for the manager's endpoint: the last one has descriptor 9.
const COUNTERS: u32 = 10;

/// Reads a script from `input`, runs it, and writes what happens to `out`.
///
/// The whole script is read and checked before anything runs. `deliver` and `reply` lines that can't be
/// written are dropped.
///
/// # Errors
///
/// `CannotRead` or `BadScript`, nothing having run; `OutOfMemory`; `Manager` where the manager can't be
/// made; `CannotWrite` where another line can't be written.
pub fn run_script<R, I, O>(rt: &R, alloc: Global, input: I, out: O) -> Result<(), Fault>
where
    R: Wait + Clock + Clone + Send + Drop,
    I: Read + Drop,
    O: Out + Drop,
{
    let mut input = input;
    let text = read_text(alloc, &mut input)?;
    let script = parse(alloc, text.as_str())?;
    let printer = Printer::new(alloc, out)?;
    let Ok(poller) = poller_of(alloc, script.waits, script.refusals) else {
        return Err(Fault::OutOfMemory);
    };
    let poller: Box<dyn Poller + Send> = Box::new(alloc, poller)?;
    let Ok(endpoint) = open_endpoint(rt, alloc) else {
        return Err(Fault::OutOfMemory);
    };
    let run = ScriptRun {
        rt,
        alloc,
        poller: BoxedPoller(poller),
        calls: script.calls,
        reactions: script.reactions,
        printer,
    };
    with_ledgers(endpoint, run)
}

/// A script that is ready to run: all that it needs but the manager, which is made of a counter and ledgers.
struct ScriptRun<'a, R, O> {
    rt: &'a R,
    alloc: Global,
    poller: BoxedPoller,
    calls: Vec<Call<'a>>,
    reactions: Vec<Reactions>,
    printer: Printer<O>,
}

impl<R: Wait + Clock, O: Out + Drop> WithLedgers for ScriptRun<'_, R, O> {
    type Output = Result<(), Fault>;

    fn run<N: NamedCounter + Send + Sync>(
        self,
        counter: N,
        ledgers: Ledgers<N>,
    ) -> Result<(), Fault> {
        let ScriptRun {
            rt,
            alloc,
            poller,
            calls,
            reactions,
            mut printer,
        } = self;
        let mut manager = EventManager::<Subscriber<O>, NoJob, N>::new(
            alloc, poller, counter, ledgers,
        )?;
        make_lines(rt, alloc, &mut manager, calls, reactions, &mut printer)
    }
}

// A counter of descriptor 9, in a table that nobody polls.
fn open_endpoint<R: Wait + Clock + Clone + Send + Drop>(
    rt: &R,
    alloc: Global,
) -> Result<EventFd, Errno> {
    let Ok(handle) = rt.clone() else {
        return Err(Errno::ENOMEM);
    };
    let epoll = Epoll::new(handle, alloc)?;
    let mut endpoint = EventFd::new(&epoll, 0, rt)?;
    for _ in 1..COUNTERS {
        endpoint = EventFd::new(&epoll, 0, rt)?;
    }
    Ok(endpoint)
}

// A poller that answers what the script says. `ENOMEM`: memory was refused.
fn poller_of(
    alloc: Global,
    waits: Vec<ScriptedWait>,
    refusals: Vec<Refusal>,
) -> Result<ScriptPoller, Errno>
    ensures errors { IsOkUnless result Errno.ENOMEM }
    ensures follows { IfOk result (λ poller. poller ≡ with_refusals (with_waits empty waits.items) refusals.items) }
{
    let mut poller = ScriptPoller::new(alloc);
    for wait in waits {
        push_wait(&mut poller, wait)?;
    }
    for refusal in refusals {
        poller.push_refusal(refusal.operation, refusal.fd, refusal.errno)?;
    }
    Ok(poller)
}

// Appends what one wait answers. `ENOMEM`: memory was refused.
fn push_wait(poller: &mut ScriptPoller, wait: ScriptedWait) -> Result<(), Errno>
    ensures errors { IsOkUnless result Errno.ENOMEM }
    ensures pushed { OnOk result (poller.new ≡ with_answer poller.old (wait_answer wait)) }
{
    match wait {
        ScriptedWait::Report(events) => poller.push_report(events),
        ScriptedWait::Interrupted => poller.push_fault(Errno::EINTR),
    }
}
