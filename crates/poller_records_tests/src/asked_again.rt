//! What a law says of a program's own calls of a poller that is recorded, and of its replay.

ghost use Rattle.std.specs.Prelude.{◌≡◌, ◌+◌, ◌≤◌, true, length, IfOk, IsOkUnless};
ghost use base.Stored.{Gv};
ghost use Rattle.vmm_sys.specs.Poller.{reported};
ghost use Rattle.poller_records.specs.PollerRun.{Runs};
ghost use Rattle.poller_records_tests.specs.Asking.{calls_of};

use poller_records::recording_poller::RecordingPoller;
use poller_records::replay_poller::{ReplayPoller, recorded_runs_replay};
use std::alloc::Global;
use vmm_sys::epoll::{ControlOperation, EpollEvent, RawFd};
use vmm_sys::errno::Errno;
use vmm_sys::poller::Poller;

/// What a poller is asked: to add a descriptor, and then to wait.
#[derive(Clone, Copy)]
pub struct Asked {
    pub fd: RawFd,
    pub event: EpollEvent,
    pub ms: i32,
}

/// What it answers to both.
#[derive(Clone, Copy, PartialEq, Eq, Debug)]
pub struct Answers {
    pub added: Result<(), Errno>,
    pub waited: Result<usize, Errno>,
}

/// What a poller answered, what its replay did, and whether no call was left out of the record.
#[derive(Clone, Copy, PartialEq, Eq, Debug)]
pub struct AskedTwice {
    pub recorded: Answers,
    pub replayed: Answers,
    pub is_complete: bool,
}

/// Asks a poller.
fn ask<P: Poller>(poller: &mut P, asked: Asked, buffer: &mut [EpollEvent]) -> Answers
    ensures { Runs P.may_ctl P.may_wait (P.meaning poller.old) (calls_of asked result (length buffer.old) (reported result.waited buffer.new)) (P.meaning poller.new) }
{
    let added = poller.ctl(ControlOperation::Add, asked.fd, asked.event);
    let waited = poller.wait(asked.ms, buffer);
    Answers { added, waited }
}

/// Asks a poller that is recorded with room for `most` entries, and then a replay of its record. Where no call was left out, as
/// where all entries find room, the replay answers and reports what the poller did.
///
/// `ENOMEM`: memory was refused; nothing was asked.
pub fn ask_again<P: Poller>(
    poller: P,
    alloc: Global,
    most: usize,
    asked: Asked,
    first: &mut [EpollEvent],
    second: &mut [EpollEvent],
) -> Result<AskedTwice, Errno>
    requires { length second.old ≡ length first.old }
    ensures errors { IsOkUnless result Errno.ENOMEM }
    ensures complete { IfOk result (λ both. 2 + length (reported both.recorded.waited first.new) ≤ most → both.is_complete ≡ true) }
    ensures recorded { IfOk result (λ both. both.is_complete ≡ true → (after : Gv) × Runs P.may_ctl P.may_wait (P.meaning poller) (calls_of asked both.recorded (length first.old) (reported both.recorded.waited first.new)) after) }
    ensures answers { IfOk result (λ both. both.is_complete ≡ true → both.replayed ≡ both.recorded) }
    ensures reports { IfOk result (λ both. both.is_complete ≡ true → reported both.replayed.waited second.new ≡ reported both.recorded.waited first.new) }
{
    recorded_runs_replay::<P>();
    let mut recording = RecordingPoller::new(poller, alloc, most)?;
    let recorded = ask(&mut recording, asked, first);
    let is_complete = recording.is_complete();
    let (_poller, entries) = recording.into_parts();
    let mut replay = ReplayPoller::new(entries);
    let replayed = ask(&mut replay, asked, second);
    Ok(AskedTwice {
        recorded,
        replayed,
        is_complete,
    })
}
