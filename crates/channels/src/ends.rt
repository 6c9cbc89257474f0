//! The constructors of channels.

ghost use Rattle.std.specs.Prelude.{◌≡◌, ◌⊎◌, IfOk, IfErr, Err, None, Some};
ghost use Rattle.vmm_sys.specs.declared.errno.TheConstants.Errno.{ENOMEM};
ghost use Rattle.channels.specs.Ends.{counter_of_sender, counter_of_receiver, room_of_sender};

use crate::queue::MessageQueue;
use crate::receiver::Receiver;
use crate::room::Room;
use crate::sender::Sender;
use crate::shared::{Shared, State};
use std::alloc::{AllocError, Global};
use std::sync::{Arc, Mutex, Wait};
use std::time::Clock;
use vmm_sys::counter::Counter;
use vmm_sys::errno::Errno;

fn ends_of<M: Drop, C: Counter + Drop>(
    queue: MessageQueue<M>,
    counter: C,
    room: Option<C>,
    alloc: Global,
) -> Result<(Sender<M, C>, Receiver<M, C>), AllocError>
    ensures counter { IfOk result (λ ends. (counter_of_sender ends.0 ≡ counter) × (counter_of_receiver ends.1 ≡ counter)) }
    ensures room { IfOk result (λ ends. room_of_sender ends.0 ≡ room) }
{
    let state = Mutex::new(State {
        queue,
        room: Room { is_raised: false },
    });
    let shared = Arc::new(
        alloc,
        Shared {
            state,
            counter,
            room,
        },
    )?;
    let other = Arc::try_clone(&shared)?;
    Ok((Sender { shared }, Receiver { shared: other }))
}

/// A channel without a bound, whose receiver has the counter's descriptor. The counter must have the value 0, and nobody else may
/// ring or clear it. It is rung and cleared under the channel's lock: a counter of your own may use neither end in its `ring` and
/// `clear`. Refused where memory is; then the counter is dropped.
pub fn channel<M: Drop, C: Counter + Drop>(
    counter: C,
    alloc: Global,
) -> Result<(Sender<M, C>, Receiver<M, C>), AllocError>
    ensures counter { IfOk result (λ ends. (counter_of_sender ends.0 ≡ counter) × (counter_of_receiver ends.1 ≡ counter)) }
    ensures room { IfOk result (λ ends. room_of_sender ends.0 ≡ None) }
{
    ends_of(MessageQueue::new(alloc), counter, None, alloc)
}

/// As [`channel`], with room for `most` messages, which is allocated here: no send takes memory.
pub fn sync_channel<M: Drop, C: Counter + Drop>(
    counter: C,
    most: usize,
    alloc: Global,
) -> Result<(Sender<M, C>, Receiver<M, C>), AllocError>
    ensures counter { IfOk result (λ ends. (counter_of_sender ends.0 ≡ counter) × (counter_of_receiver ends.1 ≡ counter)) }
    ensures room { IfOk result (λ ends. room_of_sender ends.0 ≡ None) }
{
    ends_of(MessageQueue::with_room(alloc, most)?, counter, None, alloc)
}

/// As [`sync_channel`], with a counter for its senders, too ([`Sender::room`]), which is ready for `IN` while no send is refused as
/// `Full`, as `OUT` of a socket is: a sender that was refused adds it to its poller, and removes it once all is sent. Both counters
/// must have the value 0. Where the counter of room refuses its ring, the next send, take or `recv` rings it again.
///
/// Refused with `ENOMEM`, or with the number with which `room` refuses its first ring; then both counters are dropped.
pub fn sync_channel_with_room<M: Drop, C: Counter + Drop, R: Wait + Clock>(
    counter: C,
    room: C,
    most: usize,
    alloc: Global,
    rt: &R,
) -> Result<(Sender<M, C>, Receiver<M, C>), Errno>
    ensures counter { IfOk result (λ ends. (counter_of_sender ends.0 ≡ counter) × (counter_of_receiver ends.1 ≡ counter)) }
    ensures room { IfOk result (λ ends. room_of_sender ends.0 ≡ Some room) }
    ensures refused { IfErr result (λ errno. (errno ≡ ENOMEM) ⊎ C.rings room (Err errno)) }
{
    let queue = MessageQueue::with_room(alloc, most)?;
    let ends = ends_of(queue, counter, Some(room), alloc)?;
    let shared = &*ends.0.shared;
    shared.update_room(&mut shared.state.lock(rt), rt)?;
    Ok(ends)
}
