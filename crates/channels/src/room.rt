//! How senders are notified of room.

ghost use Rattle.channels.specs.Room.{IsRoomUpdated};

use crate::queue::{MessageQueue, Signal};
use vmm_sys::errno::Errno;

/// The state of the senders' signal, which is raised while no send is refused as `Full`, so also once the receiver has closed.
#[derive(Clone, Copy, PartialEq, Eq, Debug)]
pub struct Room {
    /// Whether the signal is raised.
    pub is_raised: bool,
}

impl Room {
    /// Raises or lowers the signal where the queue has changed so. Refused with the number of the refused raise, which the next
    /// call makes again.
    pub fn update<M, S: Signal>(
        &mut self,
        queue: &MessageQueue<M>,
        signal: &mut S,
    ) -> Result<(), Errno>
        ensures { IsRoomUpdated S.raises S.lowers queue.now self.old.is_raised signal.old result self.new.is_raised signal.new }
    {
        let is_raised = !queue.is_full();
        if is_raised && !self.is_raised {
            signal.raise()?;
        }
        if !is_raised && self.is_raised {
            signal.lower();
        }
        self.is_raised = is_raised;
        Ok(())
    }
}
