//! A connection.

use event_manager::{EventOps, EventPoller, EventSet, Events, MutEventSubscriber, Request};
use std::sync::Wait;
use std::time::{Clock, Duration};
use timerfd::TimerFd;
use vmm_sys::line::Line;

/// The milliseconds that a connection may be without input.
pub const IDLE: u64 = 30_000;

/// The server's end of a connection: it reads, and is over once the other end hung up or it was idle for too long.
#[derive(Drop)]
pub struct Connection<R> {
    // A line in the socket's place.
    socket: Line,
    timer: TimerFd,
    input: Events,
    idle: Events,
    bytes: u64,
    is_over: bool,
    rt: R,
}

impl<R: Drop> Connection<R> {
    /// The connection over this socket, with a timer of its own.
    pub fn new(socket: Line, timer: TimerFd, rt: R) -> Self {
        let input = Events::new(&socket, EventSet::IN);
        let idle = Events::with_data(&timer, 1, EventSet::IN);
        Connection {
            socket,
            timer,
            input,
            idle,
            bytes: 0,
            is_over: false,
            rt,
        }
    }

    /// The number of bytes that it has read.
    pub fn bytes(&self) -> u64 {
        self.bytes
    }

    /// Whether it has nothing more to read.
    pub fn is_over(&self) -> bool {
        self.is_over
    }
}

impl<R: Wait + Clock> MutEventSubscriber for Connection<R> {
    ghost use Rattle.std.specs.Prelude.{◌≡◌, ◌==◌, ◌||◌, [], ◌∷◌, true, not, is_ok, bit_and, MatchBool};
    ghost use Rattle.event_manager.specs.CounterEvents.{next_count};
    ghost use Rattle.event_manager.specs.Exchange.{AsksNothing, requests_of, answers_of, first_refusal};
    ghost use Rattle.event_manager.specs.Request.TheVariants.{Add};

    // It asks to add its socket and its timer, and is over where either is refused; else only where the timer can't be armed.
    ghost begins = { λ v exchanges w. (requests_of exchanges ≡ Add v.input ∷ Add v.idle ∷ []) × (w ≡ record v { is_over = not (is_ok (first_refusal (answers_of exchanges))) || w.is_over }) };

    // It takes nothing out: what it leaves behind goes when it leaves. By its timer or a hang-up it is over; else it has read, and
    // is over where it was, or where the timer can't be armed again.
    ghost serves = { λ v event exchanges w. AsksNothing exchanges × MatchBool (event.payload == v.idle.payload || bit_and event.set 0x10 == 0x10)
        (w ≡ record v { is_over = true }) (w ≡ record v { bytes = next_count v.bytes; is_over = v.is_over || w.is_over }) };

    fn process<P: EventPoller>(&mut self, events: Events, _ops: &mut EventOps<P>) {
        if events.data() == self.idle.data() || events.event_set().contains(EventSet::HANG_UP) {
            self.is_over = true;
        } else {
            self.bytes = self.bytes.saturating_add(1);
            let _ = self.socket.set(EventSet::empty(), &self.rt);
            let idle = Duration::from_millis(IDLE);
            let armed = self.timer.reset(idle, None, &self.rt);
            self.is_over = self.is_over || armed.is_err();
        }
    }

    fn init<P: EventPoller>(&mut self, ops: &mut EventOps<P>) {
        let asked = ops.request_all(&[Request::Add(self.input), Request::Add(self.idle)]);
        let idle = Duration::from_millis(IDLE);
        let armed = self.timer.reset(idle, None, &self.rt);
        self.is_over = asked.is_err() || armed.is_err();
    }
}
