//! A queue of jobs over which a loop may sleep.

ghost use Rattle.std.specs.Prelude.{◌≡◌, false, List, None};
ghost use Rattle.event_manager.specs.WakeUps.{WakeState, AreSteps, NoJobWaitsUnheard};
ghost use Rattle.event_manager.specs.JobQueue.{IsSend};
ghost use Rattle.event_manager.specs.declared.laws.WakeStep.{WakeStep};

use event_manager::jobs::JobQueue;
use event_manager::laws::no_job_waits_unheard;
use event_manager::{Bell, Result};
use std::sync::Wait;
use std::time::Clock;

/// Sends a job to a queue in which no job waits unheard. Whatever is answered, the model's steps lead from there to the queue as it
/// is then, and no job waits unheard in it.
pub fn send_heard<J: Drop, B: Bell, R: Wait + Clock>(
    queue: &mut JobQueue<J, ()>,
    job: J,
    bell: &B,
    rt: &R,
) -> Result<u64>
    ensures sent { IsSend (B.rings bell.now) queue.old job None result queue.new }
    ensures heard { (before : WakeState J) → before.queue ≡ queue.old → before.job_is_to_come ≡ false → NoJobWaitsUnheard before → (steps : List (WakeStep J)) × (after : WakeState J) × AreSteps before steps after × (after.queue ≡ queue.new) × NoJobWaitsUnheard after }
{
    no_job_waits_unheard::<J>();
    queue.send(job, None, bell, rt)
}
