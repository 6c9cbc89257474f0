//! The order in which a batch is dispatched: by the classes of its entries, each class as it was reported.

ghost use Rattle.std.specs.Prelude.{◌≡◌, ◌≤◌, ◌<◌, ◌+◌, ◌++◌, ◌==◌, map, take, filter, length, vec_capacity, false, Bool};
ghost use Rattle.dispatch_tables.specs.Priority.{number_of};
ghost use Rattle.dispatch_tables.specs.Event.{event_of_entry};
ghost use Rattle.dispatch_tables.specs.Ownership.{class_in};
ghost use Rattle.dispatch_tables.specs.Classes.{numbered, classed_by, entries_of_class, AreAllLowest};
ghost use Rattle.dispatch_tables.specs.ClassOrder.{IsOrdered};

use crate::owners::Owners;
use crate::priority::Priority;
use vmm_sys::epoll::EpollEvent;

/// An entry of a report with its class: the priority that its descriptor held after the wait.
#[derive(Clone, Copy)]
pub struct ClassedEntry {
    class: Priority,
    entry: EpollEvent,
}

/// Puts the first `count` entries of the buffer in the order of dispatch. Takes no memory: the list has room for them. Where all
/// are of the lowest class, the buffer isn't written.
pub fn order_by_class(
    owners: &Owners,
    buffer: &mut [EpollEvent],
    count: usize,
    classed: &mut Vec<ClassedEntry>,
)
    requires within { count ≤ length buffer.old }
    requires room { count ≤ vec_capacity classed.old }
    ensures ordered { IsOrdered (λ fd. class_in owners.now fd) (map event_of_entry (take count buffer.old)) (map event_of_entry (take count buffer.new)) }
    ensures capacity { vec_capacity classed.old ≤ vec_capacity classed.new }
{
    if classify(owners, buffer, count, classed) {
        write_classes(classed, buffer);
    }
}

/// Replaces the list by the first `count` entries with their classes. Returns whether one is above the lowest class.
fn classify(
    owners: &Owners,
    buffer: &[EpollEvent],
    count: usize,
    classed: &mut Vec<ClassedEntry>,
) -> bool
    requires within { count ≤ length buffer.now }
    requires room { count ≤ vec_capacity classed.old }
    ensures classed { map numbered classed.new.items ≡ map (classed_by owners.now) (take count buffer.now) }
    ensures lowest { result ≡ false → AreAllLowest classed.new.items }
    ensures capacity { vec_capacity classed.old ≤ vec_capacity classed.new }
{
    classed.clear();
    let mut raised = false;
    for at in 0..count {
        let entry = buffer[at];
        let class = owners.class(entry.low_half());
        if class.is_raised() {
            raised = true;
        }
        let _ = classed.push(ClassedEntry { class, entry });
    }
    raised
}

/// Writes the entries into the front of the buffer, the highest class first.
fn write_classes(classed: &[ClassedEntry], buffer: &mut [EpollEvent])
    requires { length classed.now ≤ length buffer.old }
    ensures { take (length classed.now) buffer.new ≡ entries_of_class 3 classed.now ++ (entries_of_class 2 classed.now ++ (entries_of_class 1 classed.now ++ entries_of_class 0 classed.now)) }
{
    let at = write_class(classed, Priority::Highest, buffer, 0);
    let at = write_class(classed, Priority::High, buffer, at);
    let at = write_class(classed, Priority::Low, buffer, at);
    write_class(classed, Priority::Lowest, buffer, at);
}

/// Writes the entries of one class into the buffer, from a place on, in their order; returns the place behind them.
fn write_class(
    classed: &[ClassedEntry],
    class: Priority,
    buffer: &mut [EpollEvent],
    from: usize,
) -> usize
    requires { from + length (entries_of_class (number_of class) classed.now) ≤ length buffer.old }
    ensures place { result ≡ from + length (entries_of_class (number_of class) classed.now) }
    ensures written { take result buffer.new ≡ take from buffer.old ++ entries_of_class (number_of class) classed.now }
{
    let mut to = from;
    for one in classed {
        if one.class.number() == class.number() {
            buffer[to] = one.entry;
            to += 1;
        }
    }
    to
}
