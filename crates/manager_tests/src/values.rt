//! Ids, priorities and events as values: what laws say of them, for who compares or hashes them.

ghost use Rattle.std.specs.Hash as fed;
ghost use Rattle.std.specs.List.{fold};
ghost use Rattle.std.specs.Prelude.{◌≡◌, ◌⊎◌, ◌↔◌, IsTrue, max};
ghost use Rattle.dispatch_tables.specs.Priority.{number_of};

use event_manager::laws::{compare_priorities, events_are_equal, hash_id, ids_are_equal};
use event_manager::{Events, Priority, SubscriberId};
use std::cmp::Ordering;
use std::hash::Hasher;

/// The higher one of two priorities.
pub fn higher(one: Priority, other: Priority) -> Priority
    ensures { number_of result ≡ max (number_of one) (number_of other) }
{
    match compare_priorities(&one, &other) {
        Ordering::Less => other,
        _ => one,
    }
}

/// Whether events are one of these two.
pub fn is_either(events: &Events, one: &Events, other: &Events) -> bool
    ensures { IsTrue result ↔ ((events.now ≡ one.now) ⊎ (events.now ≡ other.now)) }
{
    events_are_equal(events, one) || events_are_equal(events, other)
}

/// Hashes two ids, each into a hasher of its own, as their numbers. The answer is whether the ids are equal.
pub fn hash_both<H: Hasher>(
    one: &SubscriberId,
    other: &SubscriberId,
    first: &mut H,
    second: &mut H,
) -> bool
    ensures equal { IsTrue result ↔ (one.now ≡ other.now) }
    ensures one { first.new ≡ fold H.write first.old (fed.u64 one.now) }
    ensures other { second.new ≡ fold H.write second.old (fed.u64 other.now) }
{
    hash_id(one, first);
    hash_id(other, second);
    ids_are_equal(one, other)
}
