//! The sending end.

ghost use Rattle.std.specs.Prelude.{◌≡◌, Err, IfOk, IfErr, None, Some, MatchOption};
ghost use Rattle.channels.specs.Ends.{counter_of_sender, room_of_sender, IsSendRefusal};

use crate::errors::{CloseError, SendError};
use crate::shared::{self, Shared};
use std::alloc::AllocError;
use std::sync::{Arc, Wait};
use std::time::Clock;
use vmm_sys::counter::Counter;
use vmm_sys::eventfd::EventFd;

/// Sends messages to the receiver that it was made with, from any thread. A drop doesn't close it, since that has no handle to wait
/// with: the receiver learns of the end by [`close`](Sender::close) alone.
#[derive(Drop)]
pub struct Sender<M, C = EventFd> {
    pub(crate) shared: Arc<Shared<M, C>>,
}

impl<M: Drop, C: Counter + Drop> Sender<M, C> {
    /// Puts the message last. The counter is rung where nothing waited, so a full counter refuses no message behind another.
    ///
    /// Refused, in this order, and what waits stays: `Closed`; `Full`; `OutOfMemory`, of a channel without a bound; `EventFd` with
    /// the number with which the counter refuses its ring.
    pub fn send<R: Wait + Clock>(&self, message: M, rt: &R) -> Result<(), SendError<M>>
        ensures handed_back { IfErr result (λ refused. refused.message ≡ message) }
        ensures refusals { IfErr result (λ refused. IsSendRefusal (C.rings (counter_of_sender self.now)) refused.why) }
    {
        let shared = &*self.shared;
        let mut signal = shared.signal(rt);
        let mut state = shared.state.lock(rt);
        let sent = state.queue.send(message, &mut signal);
        let _ = shared.update_room(&mut state, rt);
        sent
    }

    /// The counter that is ready for `IN` while no send is refused as `Full`: see
    /// [`sync_channel_with_room`](crate::sync_channel_with_room).
    pub fn room(&self) -> Option<&C>
        ensures { MatchOption result (room_of_sender self.now ≡ None) (λ counter. room_of_sender self.now ≡ Some counter.now) }
    {
        self.shared.room.as_ref()
    }

    /// Another sender to the same receiver. Refused where memory is, and where 18446744073709551615 senders haven't closed.
    pub fn try_clone<R: Wait>(&self, rt: &R) -> Result<Self, AllocError>
        ensures same_counter { IfOk result (λ other. counter_of_sender other ≡ counter_of_sender self.now) }
        ensures same_room { IfOk result (λ other. room_of_sender other ≡ room_of_sender self.now) }
    {
        let shared = Arc::try_clone(&self.shared)?;
        self.shared.state.lock(rt).queue.join()?;
        Ok(Sender { shared })
    }

    /// Sends no more. Once all senders have closed, the receiver stays ready; the counter is rung for that where nothing waits. The
    /// last end closes the channel's counters, too ([`Counter::close`]).
    ///
    /// Refused with the number with which the counter refuses that ring; then the sender comes back, and hasn't closed.
    pub fn close<R: Wait + Clock>(self, rt: &R) -> Result<(), CloseError<Self>>
        ensures handed_back { IfErr result (λ refused. (refused.sender ≡ self) × C.rings (counter_of_sender self) (Err refused.errno)) }
    {
        let shared = &*self.shared;
        let mut signal = shared.signal(rt);
        let left = shared.state.lock(rt).queue.leave(&mut signal);
        match left {
            Ok(()) => {
                shared::close(self.shared, rt);
                Ok(())
            }
            Err(errno) => Err(CloseError {
                errno,
                sender: self,
            }),
        }
    }
}
