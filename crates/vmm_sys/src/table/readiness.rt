//! Which interests are ready: their marks, and the reports of a wait.

ghost use Rattle.std.specs.Prelude.{◌≡◌, ◌<◌, ◌≤◌, ◌+◌, ◌-◌, length, ◌++◌, drop, map, slice_get, slice_set, ℕ, Bool, Some, IsSome};
ghost use Rattle.vmm_sys.specs.EventSet.{bits_of};
ghost use Rattle.vmm_sys.specs.Table.{state_at, is_ready, entry_of as entry_in, first_ready, first_ready_last};
ghost use Rattle.vmm_sys.specs.Lists.{held};
ghost use Rattle.vmm_sys.specs.Interests.{slot_at, Holds, AreMarked, AgreeBut};

use super::interests::{Interest, Interests};
use super::source::Source;
use crate::entries::EpollEvent;
use crate::event_set::EventSet;

fn state_at(sources: &[Source], descriptor: usize) -> EventSet
    ensures { bits_of result ≡ state_at (slice_get sources.now descriptor) }
{
    match sources.get(descriptor) {
        Some(source) => source.state(),
        None => EventSet::empty(),
    }
}

// Its set is empty where the interest isn't ready.
fn entry_of(sources: &[Source], interest: Interest) -> EpollEvent
    ensures { result ≡ entry_in sources.now interest }
{
    let always = EventSet::ERROR.union(EventSet::HANG_UP);
    let wanted = interest.event.event_set().union(always);
    let state = state_at(sources, interest.descriptor);
    EpollEvent::new(wanted.intersection(state), interest.event.data())
}

pub(super) fn is_ready(sources: &[Source], interest: Interest) -> bool
    ensures { result ≡ is_ready sources.now interest }
{
    !entry_of(sources, interest).event_set().is_empty()
}

// Where both interests want the same set, the mark stays as it is.
#[inline(always)]
pub(super) fn modify(sources: &[Source], interests: &mut Interests, slot: usize, interest: Interest)
    requires { Holds interests.old.slots slot interest.descriptor }
    ensures slots { interests.new.slots ≡ slice_set interests.old.slots slot (Some interest) }
    ensures room { interests.new.room ≡ interests.old.room }
    ensures marks { AreMarked (is_ready sources.now) interests.old → AreMarked (is_ready sources.now) interests.new }
{
    let before = interests.interest_in(slot);
    interests.replace(slot, interest);
    if let Some(before) = before
        && before.event.event_set() == interest.event.event_set()
    {
        return;
    }
    let ready = is_ready(sources, interest);
    interests.mark(slot, ready);
}

// Marks the interest of a descriptor as it is now.
#[inline(never)]
pub(super) fn renew(sources: &[Source], interests: &mut Interests, descriptor: usize)
    requires { descriptor < interests.old.room }
    ensures slots { interests.new.slots ≡ interests.old.slots }
    ensures room { interests.new.room ≡ interests.old.room }
    ensures marks { (p : Interest → Bool) → AreMarked p interests.old → AgreeBut descriptor p (is_ready sources.now) → AreMarked (is_ready sources.now) interests.new }
{
    let Some(slot) = interests.slot_of(descriptor) else {
        return;
    };
    let Some(interest) = interests.interest_in(slot) else {
        return;
    };
    interests.mark(slot, is_ready(sources, interest));
}

// Writes the entries of the first ready interests, as many as fit, and moves these to the back.
pub(super) fn report(
    sources: &[Source],
    interests: &mut Interests,
    buffer: &mut [EpollEvent],
) -> usize
    requires { AreMarked (is_ready sources.now) interests.old }
    ensures count { result ≡ length (first_ready sources.now (held interests.old.slots) (length buffer.old)) }
    ensures room { interests.new.room ≡ interests.old.room }
    ensures interests { held interests.new.slots ≡ first_ready_last sources.now (held interests.old.slots) (length buffer.old) }
    ensures marks { AreMarked (is_ready sources.now) interests.new }
    ensures buffer { let entries = map (entry_in sources.now) (first_ready sources.now (held interests.old.slots) (length buffer.old)) in
        buffer.new ≡ entries ++ drop result buffer.old }
{
    if let Some(first) = interests.first_ready() {
        if interests.are_ready_from(first, buffer.len()) {
            // They are the last ones already, in this order.
            return report_from(sources, interests, first, buffer);
        }
    }
    report_and_move(sources, interests, buffer)
}

fn report_from(
    sources: &[Source],
    interests: &Interests,
    first: usize,
    buffer: &mut [EpollEvent],
) -> usize
    requires some { (s : ℕ) → first ≤ s → s < length interests.now.slots → IsSome (slot_at interests.now.slots s) }
    requires room { length interests.now.slots ≤ first + length buffer.old }
    ensures count { result ≡ length interests.now.slots - first }
    ensures entries { buffer.new ≡ map (entry_in sources.now) (held (drop first interests.now.slots)) ++ drop result buffer.old }
{
    let count = interests.end().saturating_sub(first);
    for at in 0..count {
        let Some(interest) = interests.interest_in(first + at) else {
            return at;
        };
        buffer[at] = entry_of(sources, interest);
    }
    count
}

// As `report`, whatever stands behind the ready ones: from ready slot to ready slot, up to the end of those in use at the start.
fn report_and_move(
    sources: &[Source],
    interests: &mut Interests,
    buffer: &mut [EpollEvent],
) -> usize
    requires { AreMarked (is_ready sources.now) interests.old }
    ensures count { result ≡ length (first_ready sources.now (held interests.old.slots) (length buffer.old)) }
    ensures room { interests.new.room ≡ interests.old.room }
    ensures interests { held interests.new.slots ≡ first_ready_last sources.now (held interests.old.slots) (length buffer.old) }
    ensures marks { AreMarked (is_ready sources.now) interests.new }
    ensures buffer { let entries = map (entry_in sources.now) (first_ready sources.now (held interests.old.slots) (length buffer.old)) in
        buffer.new ≡ entries ++ drop result buffer.old }
{
    let room = buffer.len().min(interests.room());
    interests.leave_unused(room);
    let end = interests.end();
    let mut from = 0;
    for count in 0..room {
        let Some(slot) = interests.ready_from(from) else {
            return count;
        };
        if slot >= end {
            return count;
        }
        let Some(interest) = interests.interest_in(slot) else {
            return count;
        };
        buffer[count] = entry_of(sources, interest);
        interests.move_to_back(slot);
        from = slot + 1;
    }
    room
}
