//! The messages of a channel, without a lock.

ghost use Rattle.std.specs.Prelude.{◌≡◌, ◌<◌, ◌+◌, length, vec_len, vec_capacity, IfOk, OnErr, MatchBool, not, ◌&&◌};
ghost use Rattle.channels.specs.Room.{is_full};
ghost use Rattle.channels.specs.Messages.{has_room, is_over, is_ready, new_messages, IsRaised, IsSend, IsLeave, IsTaken, IsReceived, IsClosed, IsJoined, IsLowered};

use crate::errors::{Refusal, SendError};
use std::alloc::{AllocError, Global};
use std::collections::VecDeque;
use std::marker::Model;
use std::mem;
use vmm_sys::errno::Errno;

/// What notifies an end of a queue.
pub trait Signal {
    ghost use Rattle.std.specs.Prelude.{Result};
    ghost use Rattle.vmm_sys.specs.declared.errno.Errno.{Errno};

    /// From a value: which answer a raise may give, and which value it may leave.
    ghost raises: { Self → Result (Unit {0}) Errno → Self → Type 0 };

    /// From a value, which value a lowering may leave.
    ghost lowers: { Self → Self → Type 0 };

    /// There is something. Refused with a number of the signal's own.
    fn raise(&mut self) -> Result<(), Errno>
        ensures { raises self.old result self.new };

    /// There is nothing any more.
    fn lower(&mut self)
        ensures { lowers self.old self.new };
}

/// The messages that wait, in the order in which they were sent; how many senders haven't closed; and whether the receiver hasn't.
///
/// The signal is raised where a first message waits or the last sender has closed, and lowered where neither is so any more: it is
/// raised exactly while there is something for the receiver, and a batch costs one raise.
#[derive(Drop)]
pub struct MessageQueue<M> {
    waiting: VecDeque<M>,
    most: Option<usize>,
    senders: u64,
    is_open: bool,
}

impl<M> Model for MessageQueue<M> {
    ghost use Rattle.std.specs.Prelude.{◌≡◌, ◌≤◌, true, false, [], IfSome};
    ghost use Rattle.std.specs.VecDeque.{deque_capacity};
    ghost use Rattle.channels.specs.Messages.{Messages};

    ghost Value = { Messages M };

    ghost view = { λ q. record { waiting = q.waiting.items; most = q.most; senders = q.senders; is_open = q.is_open } };

    ghost invariant = { λ q. (q.is_open ≡ false → q.waiting.items ≡ []) × (q.is_open ≡ true → IfSome q.most (λ most. most ≤ deque_capacity q.waiting)) };
}

impl<M> MessageQueue<M> {
    /// An open queue of one sender in which nothing waits, without a bound.
    pub fn new(alloc: Global) -> Self
        ensures { result ≡ new_messages None }
    {
        MessageQueue {
            waiting: VecDeque::new(alloc),
            most: None,
            senders: 1,
            is_open: true,
        }
    }

    /// As `new`, with room for `most` messages, which is allocated here.
    pub fn with_room(alloc: Global, most: usize) -> Result<Self, AllocError>
        ensures { IfOk result (λ q. q ≡ new_messages (Some most)) }
    {
        Ok(MessageQueue {
            waiting: VecDeque::with_capacity(alloc, most)?,
            most: Some(most),
            senders: 1,
            is_open: true,
        })
    }

    /// How many messages wait.
    pub fn waiting(&self) -> usize
        ensures { result ≡ length self.now.waiting }
    {
        self.waiting.len()
    }

    /// Whether there is something for the receiver.
    pub fn is_ready(&self) -> bool
        ensures { result ≡ is_ready self.now }
    {
        self.is_open && (!self.waiting.is_empty() || self.senders == 0)
    }

    /// Whether nothing waits and all senders have closed.
    pub fn is_over(&self) -> bool
        ensures { result ≡ is_over self.now }
    {
        self.waiting.is_empty() && self.senders == 0
    }

    fn has_room(&self) -> bool
        ensures { result ≡ has_room self.now.most (length self.now.waiting) }
    {
        match self.most {
            Some(most) => self.waiting.len() < most,
            None => true,
        }
    }

    /// Whether a send is refused as `Full`.
    pub fn is_full(&self) -> bool
        ensures { result ≡ is_full self.now }
    {
        self.is_open && !self.has_room()
    }

    fn raise<S: Signal>(&self, signal: &mut S) -> Result<(), Errno>
        ensures { IsRaised S.raises self.now signal.old result signal.new }
    {
        if self.is_ready() {
            return Ok(());
        }
        signal.raise()
    }

    fn lower<S: Signal>(&self, was_ready: bool, signal: &mut S)
        ensures { MatchBool (was_ready && not (is_ready self.now)) (S.lowers signal.old signal.new) (signal.new ≡ signal.old) }
    {
        if was_ready && !self.is_ready() {
            signal.lower();
        }
    }

    /// Puts the message last, and raises the signal first where there is nothing for the receiver yet. Refused, in this order, and
    /// nothing changes: `Closed`; `Full`; `OutOfMemory`, of a queue without a bound; `EventFd` with the number of the refused
    /// raise.
    pub fn send<S: Signal>(&mut self, message: M, signal: &mut S) -> Result<(), SendError<M>>
        ensures { IsSend S.raises self.old signal.old message result self.new signal.new }
    {
        let why = if !self.is_open {
            Refusal::Closed
        } else if !self.has_room() {
            Refusal::Full
        } else if self.waiting.reserve(1).is_err() {
            Refusal::OutOfMemory
        } else if let Err(errno) = self.raise(signal) {
            Refusal::EventFd(errno)
        } else {
            self.waiting.push_back_reserved(message);
            return Ok(());
        };
        Err(SendError { why, message })
    }

    /// Moves all that waits behind what the list has, in order. Refused where the list gets no memory; then nothing is moved.
    pub fn take<S: Signal>(&mut self, into: &mut Vec<M>, signal: &mut S) -> Result<(), AllocError>
        ensures taken { IsTaken self.old into.old.items result self.new into.new.items }
        ensures refused { OnErr result (vec_capacity into.old < vec_len into.old + length self.old.waiting) }
        ensures lowered { IsLowered S.lowers self.old signal.old self.new signal.new }
    {
        let was_ready = self.is_ready();
        let empty = VecDeque::new(*self.waiting.allocator());
        let mut all = mem::replace(&mut self.waiting, empty).into_vec();
        let taken = into.append(&mut all);
        mem::replace(&mut self.waiting, VecDeque::from_vec(all)).destroy_empty();
        self.lower(was_ready, signal);
        taken
    }

    /// The message that has waited longest, if one waits.
    pub fn receive<S: Signal>(&mut self, signal: &mut S) -> Option<M>
        ensures received { IsReceived self.old result self.new }
        ensures lowered { IsLowered S.lowers self.old signal.old self.new signal.new }
    {
        let was_ready = self.is_ready();
        let message = self.waiting.pop_front();
        self.lower(was_ready, signal);
        message
    }

    /// Refuses messages from now on, and returns all that wait, in order.
    pub fn close<S: Signal>(&mut self, signal: &mut S) -> Vec<M>
        ensures closed { IsClosed self.old result.items self.new }
        ensures lowered { IsLowered S.lowers self.old signal.old self.new signal.new }
    {
        let was_ready = self.is_ready();
        let empty = VecDeque::new(*self.waiting.allocator());
        let all = mem::replace(&mut self.waiting, empty).into_vec();
        self.is_open = false;
        self.lower(was_ready, signal);
        all
    }

    /// Counts one sender more. Refused where none is left, and past 18446744073709551615.
    pub fn join(&mut self) -> Result<(), AllocError>
        ensures { IsJoined self.old result self.new }
    {
        let senders = match self.senders {
            0 | u64::MAX => return Err(AllocError),
            senders => senders + 1,
        };
        self.senders = senders;
        Ok(())
    }

    /// Counts one sender less, and raises the signal where that was the last one and no message waits. Refused with the number of
    /// the refused raise; then the sender still counts.
    pub fn leave<S: Signal>(&mut self, signal: &mut S) -> Result<(), Errno>
        ensures { IsLeave S.raises self.old signal.old result self.new signal.new }
    {
        let senders = self.senders.saturating_sub(1);
        if self.is_open && senders == 0 {
            self.raise(signal)?;
        }
        self.senders = senders;
        Ok(())
    }
}
