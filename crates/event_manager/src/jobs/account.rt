//! Sends, takes and closes, replayed on a new queue.

ghost use Rattle.std.specs.Prelude.{◌≡◌, ◌++◌, [], IfOk, IfErr};
ghost use Rattle.event_manager.specs.Account.{answers_to_sends, jobs_handed_out, IsReplayed};
ghost use Rattle.event_manager.specs.JobQueue.{tickets_and_jobs};
ghost use Rattle.event_loop.specs.declared.error.Error.TheVariants.{OutOfMemory};

use crate::jobs::queue::{Entry, JobQueue};
use event_loop::{Error, Result};
use std::alloc::{AllocError, Global};
use std::sync::Wait;
use std::time::Clock;
use vmm_sys::counter::Bell;
use vmm_sys::errno::Errno;

/// A step of a replay.
#[derive(Drop)]
pub enum Step<J> {
    /// A send of this job, with the bell's answer.
    Send(J, std::result::Result<(), Errno>),
    /// A take of all waiting jobs.
    Take,
    /// A close, which drops the waiting jobs.
    Close,
}

/// The result of a replay.
#[derive(Drop)]
pub struct Outcome<J> {
    /// The answer of each send, in order: its ticket, or why it was refused.
    pub answers: Vec<Result<u64>>,
    /// The tickets and jobs of all takes, in order.
    pub taken: Vec<(u64, J)>,
}

#[derive(Drop)]
struct Told(std::result::Result<(), Errno>);

impl Bell for Told {
    ghost use Rattle.std.specs.Prelude.{◌≡◌};

    ghost rings = { λ t answer. answer ≡ t.0 };

    fn ring<R: Wait + Clock>(&self, _rt: &R) -> std::result::Result<(), Errno> {
        match &self.0 {
            Ok(()) => Ok(()),
            Err(errno) => Err(*errno),
        }
    }
}

// If memory is refused, some entries may be lost.
fn move_all<J: Drop>(out: &mut Vec<Entry<J, ()>>, taken: &mut Vec<(u64, J)>) -> Result<()>
    ensures taken { IfOk result (λ _. taken.new.items ≡ taken.old.items ++ tickets_and_jobs out.old.items) }
    ensures empty { IfOk result (λ _. out.new.items ≡ []) }
    ensures err { IfErr result (λ e. e ≡ OutOfMemory) }
{
    out.reverse();
    while let Some(
        Entry {
            ticket,
            job,
            slot: _,
        },
    ) = out.pop()
    {
        taken.push((ticket, job))?;
    }
    Ok(())
}

fn replay_one<J: Drop, R: Wait + Clock>(
    step: Step<J>,
    queue: &mut JobQueue<J, ()>,
    outcome: &mut Outcome<J>,
    out: &mut Vec<Entry<J, ()>>,
    rt: &R,
) -> Result<()>
    requires { out.old.items ≡ [] }
    ensures turn { IfOk result (λ _. IsReplayed step queue.old outcome.old.answers.items outcome.old.taken.items queue.new outcome.new.answers.items outcome.new.taken.items) }
    ensures empty { IfOk result (λ _. out.new.items ≡ []) }
    ensures err { IfErr result (λ e. e ≡ OutOfMemory) }
{
    match step {
        Step::Send(job, answer) => {
            let sent = queue.send(job, None, &Told(answer), rt);
            if let Err(Error::OutOfMemory) = sent {
                return Err(Error::OutOfMemory);
            }
            if outcome.answers.push(sent).is_err() {
                return Err(Error::OutOfMemory);
            }
            Ok(())
        }
        Step::Take => {
            queue.take(out);
            move_all(out, &mut outcome.taken)
        }
        Step::Close => {
            queue.close(out);
            out.clear();
            Ok(())
        }
    }
}

fn make_room<J: Drop>(
    alloc: Global,
    queue: &mut JobQueue<J, ()>,
    count: usize,
) -> std::result::Result<(Outcome<J>, Vec<Entry<J, ()>>), AllocError>
    ensures queue { queue.new ≡ queue.old }
    ensures answers { IfOk result (λ made. made.0.answers.items ≡ []) }
    ensures taken { IfOk result (λ made. made.0.taken.items ≡ []) }
    ensures out { IfOk result (λ made. made.1.items ≡ []) }
{
    let mut answers = Vec::new(alloc);
    let mut taken = Vec::new(alloc);
    let mut out = Vec::new(alloc);
    queue.reserve(count)?;
    out.reserve(count)?;
    answers.reserve(count)?;
    taken.reserve(count)?;
    Ok((Outcome { answers, taken }, out))
}

/// Does the steps in order on a new queue. Its contract, the account of these steps, speaks of no queue: accepted are the jobs sent
/// before the first close whose bell agrees, at most 9223372036854775807, and the n-th has ticket n; taken are those accepted
/// before the last take that precedes the first close. All room is made before the first step; `OutOfMemory` if it is refused.
pub fn replay<J: Drop, R: Wait + Clock>(
    rt: &R,
    alloc: Global,
    steps: Vec<Step<J>>,
) -> Result<Outcome<J>>
    ensures answers { IfOk result (λ o. o.answers.items ≡ answers_to_sends steps.items) }
    ensures taken { IfOk result (λ o. o.taken.items ≡ jobs_handed_out steps.items) }
    ensures err { IfErr result (λ e. e ≡ OutOfMemory) }
{
    let mut queue = JobQueue::new(alloc);
    let Ok((mut outcome, mut out)) = make_room(alloc, &mut queue, steps.len()) else {
        return Err(Error::OutOfMemory);
    };
    for step in steps {
        replay_one(step, &mut queue, &mut outcome, &mut out, rt)?;
    }
    Ok(outcome)
}
