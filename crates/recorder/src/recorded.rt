//! A run that is recorded, and made again.

ghost use Rattle.std.specs.Prelude.{◌≡◌, true, IfOk, string_bytes};
ghost use Rattle.event_manager.specs.EventLoop.{seen_of};
ghost use Rattle.recorder.specs.Recorded.{IsRecorded, RanOver, TellsTheSame};
ghost use Rattle.recorder.specs.declared.run.Told.{Told};

use crate::device::{Device, devices_are_functions};
use crate::guest::{Absent, Guest};
use crate::run::{Told, drive};
use anyhow::Result;
use event_manager::{EventLoop, EventPoller};
use poller_records::laws::entries_are_held;
use poller_records::recording_poller::RecordingPoller;
use poller_records::replay_poller::ReplayPoller;
use poller_records::text::{read_record, write_record};
use recorded_runs::laws::a_recorded_loop_is_made_again;
use std::alloc::Global;
use vmm_sys::poller::Poller;

/// How many entries find room in the record.
const MOST_ENTRIES: usize = 64;

/// A run that was recorded.
#[derive(Drop)]
pub struct Recorded {
    pub told: Told,
    /// Its record, a line an entry.
    pub text: String,
    /// Whether no call was left out of the record.
    pub is_complete: bool,
}

/// A run over a record.
#[derive(Clone, Copy)]
pub enum Replayed {
    /// It didn't leave the record: what it told, and whether it came to the record's end.
    Made { told: Told, is_over: bool },
    /// The index of the entry where it left the record.
    Left(usize),
}

/// Runs devices beside a guest over this poller, each call of which is recorded.
pub fn record<P: Poller + Drop, G: Guest>(
    epoll: P,
    devices: &(Device, Device),
    guest: &G,
    alloc: Global,
) -> Result<Recorded>
    ensures { IfOk result (λ recorded.
        IsRecorded ⟦<RecordingPoller<P> as EventPoller>⟧.controls ⟦<RecordingPoller<P> as EventPoller>⟧.waits devices.now recorded.told (string_bytes recorded.text) recorded.is_complete) }
{
    let poller = RecordingPoller::new(epoll, alloc, MOST_ENTRIES)?;
    let mut event_loop = EventLoop::new(alloc, poller)?;
    let told = drive(&mut event_loop, devices, guest)?;
    let recording = event_loop.poller();
    entries_are_held(recording.record());
    let text = write_record(alloc, recording.record())?;
    let is_complete = recording.is_complete();
    Ok(Recorded {
        told,
        text,
        is_complete,
    })
}

/// Runs devices over the record of this text, without a guest. Where a run of the same devices over a poller of type `P` was
/// recorded so, it tells what that run told, or leaves the record, or memory is refused. Whatever the text, what is made is a run
/// over its record, to the end or not.
pub fn replay<P: Poller>(text: &str, devices: &(Device, Device), alloc: Global) -> Result<Replayed>
    ensures tells { (told : Told) → IsRecorded ⟦<RecordingPoller<P> as EventPoller>⟧.controls ⟦<RecordingPoller<P> as EventPoller>⟧.waits devices.now told text.now true →
        IfOk result (λ replayed. TellsTheSame told replayed) }
    ensures runs { IfOk result (λ replayed. RanOver ⟦<ReplayPoller as EventPoller>⟧.controls ⟦<ReplayPoller as EventPoller>⟧.waits devices.now text.now replayed) }
{
    devices_are_functions();
    a_recorded_loop_is_made_again::<Device, P>();
    let poller = ReplayPoller::new(read_record(alloc, text)?);
    let mut event_loop = EventLoop::new(alloc, poller)?;
    let driven = drive(&mut event_loop, devices, &Absent);
    let poller = event_loop.poller();
    match poller.diverged() {
        Some(index) => Ok(Replayed::Left(index)),
        None => Ok(Replayed::Made {
            told: driven?,
            is_over: poller.is_over(),
        }),
    }
}

/// Runs devices beside a guest, and the same over the text of that run's record: where no call was left out, and the replay
/// didn't leave the record, both tell the same.
pub fn run_twice<P: Poller + Drop, G: Guest>(
    epoll: P,
    devices: &(Device, Device),
    guest: &G,
    alloc: Global,
) -> Result<(Recorded, Replayed)>
    ensures recorded { IfOk result (λ both.
        IsRecorded ⟦<RecordingPoller<P> as EventPoller>⟧.controls ⟦<RecordingPoller<P> as EventPoller>⟧.waits devices.now both.0.told (string_bytes both.0.text) both.0.is_complete) }
    ensures replayed { IfOk result (λ both. RanOver ⟦<ReplayPoller as EventPoller>⟧.controls ⟦<ReplayPoller as EventPoller>⟧.waits devices.now (string_bytes both.0.text) both.1) }
    ensures same { IfOk result (λ both. both.0.is_complete ≡ true → TellsTheSame both.0.told both.1) }
{
    let recorded = record(epoll, devices, guest, alloc)?;
    let replayed = replay::<P>(&recorded.text, devices, alloc)?;
    Ok((recorded, replayed))
}
