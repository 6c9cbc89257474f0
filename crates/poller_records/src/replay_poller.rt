//! A poller that answers from a record.

ghost use Rattle.std.specs.Prelude.{◌≡◌, ◌≢◌, ◌↔◌, ◌+◌, ◌≤◌, ℕ, true, false, List, [], ◌++◌, map, drop, length, Result, if◌then◌else◌, IsTrue, IfSome, IfNone, IfOk, OnErr};
ghost use Rattle.std.specs.List.{list_all};
ghost use base.Stored.{Gv};
ghost use Rattle.vmm_sys.specs.declared.entries.EpollEvent.{EpollEvent};
ghost use Rattle.vmm_sys.specs.declared.errno.Errno.{Errno};
ghost use Rattle.poller_records.specs.declared.record.RecordEntry.{RecordEntry};
ghost use Rattle.poller_records.specs.declared.record.RecordEntry.TheVariants.{Reported};
ghost use Rattle.vmm_sys.specs.Poller.{reported};
ghost use Rattle.poller_records.specs.PollerRun.{Call, question, entries_of_calls, Runs};
ghost use Rattle.poller_records.specs.Record.{entries_of_ctl, entries_of_wait, IsReport, is_reported};
ghost use Rattle.poller_records.specs.Recording as recording;
ghost use Rattle.poller_records.specs.Recording.{Recording, recording_code};
ghost use Rattle.poller_records.specs.Replay.{start_of, divergence, divergence_index, replay_code, MayCtl, MayWait};

use crate::record::RecordEntry;
use std::marker::Model;
use vmm_sys::epoll::{ControlOperation, EpollEvent, RawFd};
use vmm_sys::errno::Errno;
use vmm_sys::poller::Poller;

/// A poller that answers each call as a record says, while the calls are those of the record, in its order; it isn't the system's.
///
/// A `ctl` is the next call if the next entry has its operation, descriptor and event. A `wait` is, if the next entry has its limit
/// and the length of its buffer, and the events that the entry counts stand behind it and find room. At the first call that isn't
/// the next one the replay diverges: that call and all later ones are refused with `EIO`.
#[derive(Drop)]
pub struct ReplayPoller {
    entries: Vec<RecordEntry>,
    passed: usize,
    diverged: bool,
}

impl Model for ReplayPoller {
    ghost use Rattle.std.specs.Prelude.{◌≤◌, drop, vec_len};
    ghost use Rattle.poller_records.specs.Replay.{Replay};

    ghost Value = { Replay };

    ghost view = { λ r. record { passed = r.passed; ahead = drop r.passed r.entries.items; diverged = r.diverged } };

    ghost invariant = { λ r. r.passed ≤ vec_len r.entries };
}

impl ReplayPoller {
    /// A replay at the front of this record, which may hold anything.
    pub fn new(entries: Vec<RecordEntry>) -> ReplayPoller
        ensures { result ≡ start_of entries.items }
    {
        ReplayPoller {
            entries,
            passed: 0,
            diverged: false,
        }
    }

    /// How many entries of the record were answered.
    pub fn passed(&self) -> usize
        ensures { result ≡ self.now.passed }
    {
        self.passed
    }

    /// Whether all entries of the record were answered.
    pub fn is_over(&self) -> bool
        ensures { IsTrue result ↔ (self.now.ahead ≡ []) }
    {
        self.entries[self.passed..].is_empty()
    }

    /// If a call differed from the record, the index of the entry that was next, or the length of the record. It compares calls of
    /// the poller alone: what a subscriber reads elsewhere (a counter, a channel, a clock) isn't recorded, and may differ unseen.
    pub fn diverged(&self) -> Option<usize>
        ensures { result ≡ divergence_index self.now }
    {
        if self.diverged {
            Some(self.passed)
        } else {
            None
        }
    }

    // No entry is answered after a divergence.
    fn ahead(&self) -> &[RecordEntry]
        ensures { result.now ≡ (if self.now.diverged then [] else self.now.ahead) }
    {
        if self.diverged {
            return &[];
        }
        &self.entries[self.passed..]
    }

    fn pass(&mut self, count: usize)
        requires { count ≤ length self.old.ahead }
        ensures { self.new ≡ record self.old { passed = self.old.passed + count; ahead = drop count self.old.ahead } }
    {
        self.passed += count;
    }

    fn diverge(&mut self) -> Errno
        ensures error { result ≡ Errno.EIO }
        ensures diverged { self.new ≡ divergence self.old }
    {
        self.diverged = true;
        Errno::EIO
    }
}

impl Poller for ReplayPoller {
    ghost meaning = { λ s. replay_code.code s };

    ghost may_ctl = { MayCtl };

    ghost may_wait = { MayWait };

    /// The recorded answer; `EIO` if this call or an earlier one wasn't the record's next.
    fn ctl(&mut self, op: ControlOperation, fd: RawFd, event: EpollEvent) -> Result<(), Errno> {
        let Some(answer) = recorded_ctl(self.ahead(), op, fd, event) else {
            return Err(self.diverge());
        };
        self.pass(1);
        answer
    }

    /// The recorded answer with its report; refused as `ctl`, with the buffer unchanged.
    fn wait(&mut self, ms: i32, buffer: &mut [EpollEvent]) -> Result<usize, Errno>
        ensures count_fits { IfOk result (λ n. n ≤ length buffer.old) }
        ensures answer { MayWait (replay_code.code self.old) ms (length buffer.old) result (reported result buffer.new) (replay_code.code self.new) }
        ensures unchanged { OnErr result (buffer.new ≡ buffer.old) }
    {
        let Some(answer) = recorded_wait(self.ahead(), ms, buffer) else {
            return Err(self.diverge());
        };
        self.pass(1 + answer.unwrap_or(0));
        answer
    }
}

/// A record from which no call was left out states its calls, and they are a run of the recorded poller. A replay of a run's record
/// that is asked what the run was asked answers the same, reports included, and then stands behind its entries, before later ones.
pub fn recorded_runs_replay<P: Poller>()
    ensures recorded { (before after : Recording Gv) (calls : List Call) → after.complete ≡ true →
        Runs (recording.MayCtl P.may_ctl) (recording.MayWait P.may_wait) (recording_code.code before) calls (recording_code.code after) →
        (after.entries ≡ before.entries ++ entries_of_calls calls) × Runs P.may_ctl P.may_wait before.poller calls after.poller }
    ensures replayed { (before after : Gv) (calls others : List Call) (later : List RecordEntry) (left : Gv) →
        Runs P.may_ctl P.may_wait before calls after → map question others ≡ map question calls →
        Runs MayCtl MayWait (replay_code.code (start_of (entries_of_calls calls ++ later))) others left →
        (others ≡ calls) × (left ≡ replay_code.code (record { passed = length (entries_of_calls calls); ahead = later; diverged = false })) }
{}

fn recorded_ctl(
    ahead: &[RecordEntry],
    op: ControlOperation,
    fd: RawFd,
    event: EpollEvent,
) -> Option<Result<(), Errno>>
    ensures found { IfSome result (λ answer. (rest : List RecordEntry) × (ahead.now ≡ entries_of_ctl op fd event answer ++ rest)) }
    ensures missing { IfNone result ((answer : Result (Unit {0}) Errno) (rest : List RecordEntry) → ahead.now ≢ entries_of_ctl op fd event answer ++ rest) }
{
    let Some(
        RecordEntry::Control {
            op: recorded_op,
            fd: recorded_fd,
            event: recorded_event,
            answer,
        },
    ) = ahead.first()
    else {
        return None;
    };
    if *recorded_op == op && is_number(recorded_fd, fd) && *recorded_event == event {
        Some(*answer)
    } else {
        None
    }
}

// Without such an answer the buffer stays.
fn recorded_wait(
    ahead: &[RecordEntry],
    ms: i32,
    buffer: &mut [EpollEvent],
) -> Option<Result<usize, Errno>>
    ensures found { IfSome result (λ answer. IsReport (length buffer.old) answer (reported answer buffer.new) ×
        ((rest : List RecordEntry) × (ahead.now ≡ entries_of_wait ms (length buffer.old) answer (reported answer buffer.new) ++ rest))) }
    ensures missing { IfNone result ((answer : Result ℕ Errno) (events : List EpollEvent) (rest : List RecordEntry) →
        IsReport (length buffer.old) answer events → ahead.now ≢ entries_of_wait ms (length buffer.old) answer events ++ rest) }
    ensures unchanged { IfNone result (buffer.new ≡ buffer.old) }
    ensures refused { IfSome result (λ answer. OnErr answer (buffer.new ≡ buffer.old)) }
{
    let Some(
        (
            RecordEntry::Wait {
                ms: recorded_ms,
                room,
                answer,
            },
            behind,
        ),
    ) = ahead.split_first()
    else {
        return None;
    };
    if !is_number(recorded_ms, ms) || *room != buffer.len() {
        return None;
    }
    let Ok(count) = *answer else {
        return Some(*answer);
    };
    if count > buffer.len() || count > behind.len() {
        return None;
    }
    let report = &behind[..count];
    if !are_reported(report) {
        return None;
    }
    copy_report(report, &mut buffer[..count]);
    Some(*answer)
}

fn is_number(recorded: &i32, number: i32) -> bool
    ensures { IsTrue result ↔ (recorded.now ≡ number) }
{
    *recorded == number
}

fn is_reported(entry: &RecordEntry) -> bool
    ensures { result ≡ is_reported entry.now }
{
    matches!(entry, RecordEntry::Reported(_))
}

fn are_reported(entries: &[RecordEntry]) -> bool
    ensures { result ≡ list_all is_reported entries.now }
{
    entries.iter().all(is_reported)
}

fn copy_report(report: &[RecordEntry], places: &mut [EpollEvent])
    requires events { IsTrue (list_all is_reported report.now) }
    requires room { length report.now ≡ length places.old }
    ensures { report.now ≡ map Reported places.new }
{
    for (at, entry) in report.iter().enumerate() {
        if let RecordEntry::Reported(event) = entry {
            places[at] = *event;
        }
    }
}
