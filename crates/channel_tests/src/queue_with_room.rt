//! A queue of messages with a bound, beside the counters of its receiver and its senders: no room is missed, whatever is done to it.

ghost use Rattle.std.specs.Prelude.{◌≡◌, [], IfOk, IfErr, Ok, Err, Some, option_to_list};
ghost use Rattle.channels.specs.Messages.{IsSend, IsReceived, IsClosed, IsLowered};
ghost use Rattle.channels.specs.Steps.{Passes, agreed, new_queue_with_counter, raises, lowers};
ghost use Rattle.channels.specs.Room.{IsRoomCounterUpdated, NoRoomIsMissed, new_queue_with_counters};

use crate::queue_with_counter::{Count, QueueWithCounter};
use channels::SendError;
use channels::laws::no_room_is_missed;
use channels::room::Room;
use std::alloc::{AllocError, Global};
use std::marker::Model;
use vmm_sys::errno::Errno;

/// A queue beside its receiver's counter, and the counter of its senders, which each call updates.
#[derive(Drop)]
pub struct QueueWithRoom<M> {
    queue: QueueWithCounter<M>,
    room: Room,
    room_count: Count,
    // What the last telling answered.
    answer: Result<(), Errno>,
}

impl<M> Model for QueueWithRoom<M> {
    ghost use Rattle.channels.specs.Room.{QueueWithCounters, NoRoomIsMissed};

    ghost Value = { QueueWithCounters M };

    ghost view = { λ q. record { queue = q.queue; is_raised = q.room.is_raised; room = q.room_count; answer = q.answer } };

    ghost invariant = { λ q. NoRoomIsMissed (record { queue = q.queue; is_raised = q.room.is_raised; room = q.room_count; answer = q.answer }) };
}

impl<M> QueueWithRoom<M> {
    /// A new queue with room for `most` messages, which the senders' counter shows.
    pub fn new(alloc: Global, most: usize) -> Result<Self, AllocError>
        ensures { IfOk result (λ q. (q.queue ≡ new_queue_with_counter (Some most)) × IsRoomCounterUpdated (new_queue_with_counters (Some most)) q) }
    {
        no_room_is_missed::<M>();
        let queue = QueueWithCounter::with_room(alloc, most)?;
        let mut room = Room { is_raised: false };
        let mut room_count = Count { value: 0 };
        let answer = room.update(queue.messages(), &mut room_count);
        Ok(QueueWithRoom {
            queue,
            room,
            room_count,
            answer,
        })
    }

    /// The value of the senders' counter, if its last ring wasn't refused. While it is 0, a send is refused as `Full`.
    pub fn room(&self) -> Result<u64, Errno>
        ensures kept { NoRoomIsMissed self.now }
        ensures value { IfOk result (λ value. (value ≡ self.now.room) × (self.now.answer ≡ Ok tt)) }
        ensures refused { IfErr result (λ errno. self.now.answer ≡ Err errno) }
    {
        self.answer?;
        Ok(self.room_count.value)
    }

    /// Sends a message.
    pub fn send(&mut self, message: M) -> Result<(), SendError<M>>
        ensures sent { IsSend raises self.old.queue.messages self.old.queue.value message result self.new.queue.messages self.new.queue.value }
        ensures passes { Passes self.old.queue (agreed message result) [] self.new.queue }
        ensures room { IsRoomCounterUpdated self.old self.new }
    {
        no_room_is_missed::<M>();
        let sent = self.queue.send(message);
        self.answer = self
            .room
            .update(self.queue.messages(), &mut self.room_count);
        sent
    }

    /// The message that has waited longest.
    pub fn receive(&mut self) -> Option<M>
        ensures received { IsReceived self.old.queue.messages result self.new.queue.messages }
        ensures passes { Passes self.old.queue [] (option_to_list result) self.new.queue }
        ensures lowered { IsLowered lowers self.old.queue.messages self.old.queue.value self.new.queue.messages self.new.queue.value }
        ensures room { IsRoomCounterUpdated self.old self.new }
    {
        no_room_is_missed::<M>();
        let message = self.queue.receive();
        self.answer = self
            .room
            .update(self.queue.messages(), &mut self.room_count);
        message
    }

    /// Takes no message in from now on, and hands out all that wait.
    pub fn close(&mut self) -> Vec<M>
        ensures closed { IsClosed self.old.queue.messages result.items self.new.queue.messages }
        ensures passes { Passes self.old.queue [] result.items self.new.queue }
        ensures lowered { IsLowered lowers self.old.queue.messages self.old.queue.value self.new.queue.messages self.new.queue.value }
        ensures room { IsRoomCounterUpdated self.old self.new }
    {
        no_room_is_missed::<M>();
        let waiting = self.queue.close();
        self.answer = self
            .room
            .update(self.queue.messages(), &mut self.room_count);
        waiting
    }
}
