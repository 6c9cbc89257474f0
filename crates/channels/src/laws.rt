//! Laws of every history of a queue: each function does nothing, and its contract is the law.

ghost use Rattle.std.specs.Prelude.{◌≡◌, ℕ, List, Option};
ghost use Rattle.channels.specs.Room.{QueueWithCounters, IsRoomCounterUpdated, AreStepsAndUpdates, NoRoomIsMissed, new_queue_with_counters};
ghost use Rattle.channels.specs.Steps.{QueueWithCounter, AreSteps, NoWakeUpIsLost, IsInOrder, new_queue_with_counter};

/// A step on a queue of messages, or on its receiver's counter.
#[derive(Drop)]
pub enum QueueStep<M> {
    /// A message is sent.
    Send(M),
    /// Somebody else rings the counter.
    Ring,
    /// All that waits is taken.
    Take,
    /// The message that has waited longest is received.
    Receive,
    /// The receiver closes.
    Close,
    /// A sender joins.
    Join,
    /// A sender leaves.
    Leave,
}

/// No wake-up is lost: while the counter's value is 0, an open queue has no message that waits, and a sender that hasn't closed. That
/// holds of a new queue, and after any steps, agreed to or refused. So a loop that sleeps because the value is 0 misses no message.
pub fn no_wake_up_is_lost<M>()
    ensures new { (most : Option ℕ) → NoWakeUpIsLost (new_queue_with_counter {M = M} most) }
    ensures kept { (before : QueueWithCounter M) (steps : List (QueueStep M)) (after : QueueWithCounter M) →
        AreSteps before steps after → NoWakeUpIsLost before → NoWakeUpIsLost after }
{}

/// No message is lost, doubled or made up, and none overtakes another: what was returned, followed by what waits, is what was sent, in
/// the order in which the sends were agreed to, so a merge of what each sender sent. That holds of a new queue, and after any steps.
pub fn messages_come_in_order<M>()
    ensures new { (most : Option ℕ) → IsInOrder (new_queue_with_counter {M = M} most) }
    ensures kept { (before : QueueWithCounter M) (steps : List (QueueStep M)) (after : QueueWithCounter M) →
        AreSteps before steps after → IsInOrder before → IsInOrder after }
{}

/// No room is missed where the senders' counter is updated behind each step: its value is 0 only where a send is refused as `Full`, or
/// where it refused its last ring. So a sender that sleeps because the value is 0, of a counter that refused nothing, misses no room.
pub fn no_room_is_missed<M>()
    ensures new { (most : Option ℕ) (after : QueueWithCounters M) → after.queue ≡ new_queue_with_counter most →
        IsRoomCounterUpdated (new_queue_with_counters most) after → NoRoomIsMissed after }
    ensures kept { (before : QueueWithCounters M) (steps : List (QueueStep M)) (after : QueueWithCounters M) →
        AreStepsAndUpdates before steps after → NoRoomIsMissed before → NoRoomIsMissed after }
{}
