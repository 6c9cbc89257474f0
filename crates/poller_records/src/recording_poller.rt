//! A poller with a record of its calls.

ghost use Rattle.std.specs.Prelude.{◌≡◌, ◌+◌, ◌≤◌, true, [], ◌∷◌, ◌++◌, map, length, vec_len, vec_capacity, IfOk, IfSome, IsOkUnless};
ghost use Rattle.poller_records.specs.declared.record.RecordEntry.TheVariants.{Reported};
ghost use Rattle.vmm_sys.specs.Poller.{reported};
ghost use Rattle.poller_records.specs.Recording.{recorded, with_poller, recording_code, MayCtl, MayWait};

use crate::record::RecordEntry;
use std::alloc::Global;
use std::marker::Model;
use vmm_sys::epoll::{ControlOperation, EpollEvent, EventSet, RawFd};
use vmm_sys::errno::Errno;
use vmm_sys::poller::Poller;

/// A poller of any type, which answers as it does alone, with a record of its calls and answers: an entry for each `ctl` and each
/// `wait`, refused ones too, and behind a `wait` the events that it reported. The room is made with the record. A call whose
/// entries don't all find room isn't recorded, nor is any after it: the record is the front of the run.
#[derive(Drop)]
pub struct RecordingPoller<P> {
    poller: P,
    entries: Vec<RecordEntry>,
    complete: bool,
}

impl<P> Model for RecordingPoller<P> {
    ghost use Rattle.std.specs.Prelude.{vec_capacity};
    ghost use Rattle.poller_records.specs.Recording.{Recording};

    ghost Value = { Recording P };

    ghost view = { λ r. record { poller = r.poller; entries = r.entries.items; most = vec_capacity r.entries; complete = r.complete } };
}

impl<P: Poller> RecordingPoller<P> {
    /// An empty record with room for `most` entries, which is written once, so that the system gives it now and not in a call.
    /// `ENOMEM` if memory is refused; then the poller is dropped.
    pub fn new(poller: P, alloc: Global, most: usize) -> Result<Self, Errno>
        ensures errors { IsOkUnless result Errno.ENOMEM }
        ensures made { IfOk result (λ r. r ≡ record { poller = poller; entries = []; most = most; complete = true }) }
    {
        match written_room(alloc, most) {
            Some(entries) => Ok(RecordingPoller {
                poller,
                entries,
                complete: true,
            }),
            None => Err(Errno::ENOMEM),
        }
    }

    /// The poller.
    pub fn poller(&self) -> &P
        ensures { result.now ≡ self.now.poller }
    {
        &self.poller
    }

    /// The entries that were recorded.
    pub fn record(&self) -> &[RecordEntry]
        ensures { result.now ≡ self.now.entries }
    {
        &self.entries
    }

    /// Whether all calls were recorded.
    pub fn is_complete(&self) -> bool
        ensures { result ≡ self.now.complete }
    {
        self.complete
    }

    /// The poller, and the entries that were recorded.
    pub fn into_parts(self) -> (P, Vec<RecordEntry>)
        ensures poller { result.0 ≡ self.poller }
        ensures entries { result.1.items ≡ self.entries }
    {
        (self.poller, self.entries)
    }

    fn keep(&mut self, call: RecordEntry, report: &[EpollEvent])
        ensures { self.new ≡ recorded self.old (call ∷ map Reported report.now) }
    {
        let room = self.entries.capacity() - self.entries.len();
        self.complete = self.complete && report.len() < room;
        if self.complete {
            push_call(&mut self.entries, call, report);
        }
    }
}

impl<P: Poller> Poller for RecordingPoller<P> {
    ghost meaning = { λ r. recording_code.code (with_poller r (P.meaning r.poller)) };

    ghost may_ctl = { MayCtl P.may_ctl };

    ghost may_wait = { MayWait P.may_wait };

    /// Answers as the poller does.
    fn ctl(&mut self, op: ControlOperation, fd: RawFd, event: EpollEvent) -> Result<(), Errno> {
        let answer = self.poller.ctl(op, fd, event);
        let call = RecordEntry::Control {
            op,
            fd,
            event,
            answer,
        };
        self.keep(call, &[]);
        answer
    }

    /// Answers and reports as the poller does.
    fn wait(&mut self, ms: i32, buffer: &mut [EpollEvent]) -> Result<usize, Errno> {
        let room = buffer.len();
        let answer = self.poller.wait(ms, buffer);
        let call = RecordEntry::Wait { ms, room, answer };
        self.keep(call, report_in(answer, buffer));
        answer
    }
}

// Room for `most` entries, each of which was written once. `None` if memory is refused.
fn written_room(alloc: Global, most: usize) -> Option<Vec<RecordEntry>>
    ensures empty { IfSome result (λ entries. entries.items ≡ []) }
    ensures room { IfSome result (λ entries. vec_capacity entries ≡ most) }
{
    let Ok(mut entries) = Vec::with_capacity(alloc, most) else {
        return None;
    };
    let blank = RecordEntry::Reported(EpollEvent::new(EventSet::empty(), 0));
    for _entry in 0..most {
        entries.push_reserved(blank);
    }
    entries.truncate(0);
    Some(entries)
}

fn report_in(answer: Result<usize, Errno>, buffer: &[EpollEvent]) -> &[EpollEvent]
    requires { IfOk answer (λ n. n ≤ length buffer.now) }
    ensures { result.now ≡ reported answer buffer.now }
{
    match answer {
        Ok(count) => &buffer[..count],
        Err(_) => &[],
    }
}

fn push_call(entries: &mut Vec<RecordEntry>, call: RecordEntry, report: &[EpollEvent])
    requires { vec_len entries.old + 1 + length report.now ≤ vec_capacity entries.old }
    ensures pushed { entries.new.items ≡ entries.old.items ++ call ∷ map Reported report.now }
    ensures room { vec_capacity entries.new ≡ vec_capacity entries.old }
{
    entries.push_reserved(call);
    for event in report {
        entries.push_reserved(RecordEntry::Reported(*event));
    }
}
