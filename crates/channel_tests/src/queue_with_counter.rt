//! A queue of messages beside its receiver's counter: whatever is done to them, no wake-up is lost, and messages come in order.

ghost use Rattle.std.specs.Prelude.{◌≡◌, ◌++◌, [], IfOk, List, None, Some, length, option_to_list};
ghost use Rattle.channels.specs.Messages.{IsSend, IsLeave, IsTaken, IsReceived, IsClosed, IsJoined, IsLowered};
ghost use Rattle.channels.specs.Steps.{NoWakeUpIsLost, IsInOrder, Passes, agreed, new_queue_with_counter, raises, lowers};

use channels::SendError;
use channels::history::History;
use channels::laws::{messages_come_in_order, no_wake_up_is_lost};
use channels::queue::{MessageQueue, Signal};
use std::alloc::{AllocError, Global};
use std::marker::Model;
use std::snapshot::Snapshot;
use vmm_sys::errno::Errno;

/// How often it was raised since it was last lowered.
#[derive(Drop)]
pub(crate) struct Count {
    pub(crate) value: u64,
}

impl Model for Count {
    ghost use Rattle.std.specs.Prelude.{ℕ};

    ghost Value = { ℕ };

    ghost view = { λ count. count.value };
}

impl Signal for Count {
    ghost use Rattle.channels.specs.Steps.{raises, lowers};

    ghost raises = { raises };

    ghost lowers = { lowers };

    fn raise(&mut self) -> Result<(), Errno> {
        self.value = self.value.checked_add(1).ok_or(Errno::EAGAIN)?;
        Ok(())
    }

    fn lower(&mut self) {
        self.value = 0;
    }
}

/// Messages, their receiver's counter, and what was sent and returned. While the counter's value is 0, no message waits in an open
/// queue, and not all senders have closed; and what was returned, followed by what waits, is what was sent.
#[derive(Drop)]
pub struct QueueWithCounter<M> {
    messages: MessageQueue<M>,
    count: Count,
    sent: History<M>,
    returned: History<M>,
}

impl<M> Model for QueueWithCounter<M> {
    ghost use Rattle.channels.specs.Steps.{QueueWithCounter, NoWakeUpIsLost, IsInOrder};

    ghost Value = { QueueWithCounter M };

    ghost view = { λ q. record { messages = q.messages; value = q.count; sent = q.sent.items; returned = q.returned.items } };

    ghost invariant = { λ q. let seen : QueueWithCounter M = record { messages = q.messages; value = q.count; sent = q.sent.items; returned = q.returned.items } in NoWakeUpIsLost seen × IsInOrder seen };
}

impl<M> QueueWithCounter<M> {
    /// A new queue without a bound, and a counter that nobody rang.
    pub fn new(alloc: Global) -> Self
        ensures { result ≡ new_queue_with_counter None }
    {
        no_wake_up_is_lost::<M>();
        messages_come_in_order::<M>();
        QueueWithCounter {
            messages: MessageQueue::new(alloc),
            count: Count { value: 0 },
            sent: History::new(),
            returned: History::new(),
        }
    }

    /// One with room for `most` messages.
    pub fn with_room(alloc: Global, most: usize) -> Result<Self, AllocError>
        ensures { IfOk result (λ q. q ≡ new_queue_with_counter (Some most)) }
    {
        no_wake_up_is_lost::<M>();
        messages_come_in_order::<M>();
        Ok(QueueWithCounter {
            messages: MessageQueue::with_room(alloc, most)?,
            count: Count { value: 0 },
            sent: History::new(),
            returned: History::new(),
        })
    }

    pub(crate) fn messages(&self) -> &MessageQueue<M>
        ensures { result.now ≡ self.now.messages }
    {
        &self.messages
    }

    /// The value of the counter.
    pub fn value(&self) -> u64
        ensures value { result ≡ self.now.value }
        ensures heard { NoWakeUpIsLost self.now }
        ensures in_order { IsInOrder self.now }
    {
        self.count.value
    }

    /// How many messages wait.
    pub fn waiting(&self) -> usize
        ensures { result ≡ length self.now.messages.waiting }
    {
        self.messages.waiting()
    }

    /// Sends a message.
    pub fn send(&mut self, message: M) -> Result<(), SendError<M>>
        ensures sent { IsSend raises self.old.messages self.old.value message result self.new.messages self.new.value }
        ensures passes { Passes self.old (agreed message result) [] self.new }
    {
        no_wake_up_is_lost::<M>();
        messages_come_in_order::<M>();
        let snapshot = Snapshot::of(&message);
        self.messages.send(message, &mut self.count)?;
        self.sent.push(snapshot);
        Ok(())
    }

    /// Rings the counter beside the queue.
    pub fn ring(&mut self) -> Result<(), Errno>
        ensures rung { raises self.old.value result self.new.value }
        ensures messages { self.new.messages ≡ self.old.messages }
        ensures passes { Passes self.old [] [] self.new }
    {
        no_wake_up_is_lost::<M>();
        messages_come_in_order::<M>();
        self.count.raise()
    }

    /// Moves all that waits behind what the list has.
    pub fn take(&mut self, into: &mut Vec<M>) -> Result<(), AllocError>
        ensures taken { IsTaken self.old.messages into.old.items result self.new.messages into.new.items }
        ensures passes { (taken : List M) × (into.new.items ≡ into.old.items ++ taken) × Passes self.old [] taken self.new }
        ensures lowered { IsLowered lowers self.old.messages self.old.value self.new.messages self.new.value }
    {
        no_wake_up_is_lost::<M>();
        messages_come_in_order::<M>();
        let from = into.len();
        self.messages.take(into, &mut self.count)?;
        self.returned.push_rest(into, from);
        Ok(())
    }

    /// The message that has waited longest.
    pub fn receive(&mut self) -> Option<M>
        ensures received { IsReceived self.old.messages result self.new.messages }
        ensures passes { Passes self.old [] (option_to_list result) self.new }
        ensures lowered { IsLowered lowers self.old.messages self.old.value self.new.messages self.new.value }
    {
        no_wake_up_is_lost::<M>();
        messages_come_in_order::<M>();
        let message = self.messages.receive(&mut self.count)?;
        self.returned.push(Snapshot::of(&message));
        Some(message)
    }

    /// Takes no message in from now on, and hands out all that wait.
    pub fn close(&mut self) -> Vec<M>
        ensures closed { IsClosed self.old.messages result.items self.new.messages }
        ensures passes { Passes self.old [] result.items self.new }
        ensures lowered { IsLowered lowers self.old.messages self.old.value self.new.messages self.new.value }
    {
        no_wake_up_is_lost::<M>();
        messages_come_in_order::<M>();
        let all = self.messages.close(&mut self.count);
        self.returned.push_rest(&all, 0);
        all
    }

    /// Counts one sender more.
    pub fn join(&mut self) -> Result<(), AllocError>
        ensures joined { IsJoined self.old.messages result self.new.messages }
        ensures value { self.new.value ≡ self.old.value }
        ensures passes { Passes self.old [] [] self.new }
    {
        no_wake_up_is_lost::<M>();
        messages_come_in_order::<M>();
        self.messages.join()
    }

    /// Counts one sender less.
    pub fn leave(&mut self) -> Result<(), Errno>
        ensures left { IsLeave raises self.old.messages self.old.value result self.new.messages self.new.value }
        ensures passes { Passes self.old [] [] self.new }
    {
        no_wake_up_is_lost::<M>();
        messages_come_in_order::<M>();
        self.messages.leave(&mut self.count)
    }
}
