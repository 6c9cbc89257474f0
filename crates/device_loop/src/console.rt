//! The console.

use crate::statistics::Statistics;
use event_manager::{EventOps, EventPoller, EventSet, Events, MutEventSubscriber, Result};
use std::sync::Wait;
use vmm_sys::errno::Errno;
use vmm_sys::line::Line;

/// A console at one end of a line.
#[derive(Drop)]
pub struct Console<R> {
    line: Line,
    inputs: u64,
    hung_up: bool,
    // The answer to its last request.
    answer: Result<()>,
    rt: R,
}

impl<R: Wait + Drop> Console<R> {
    /// A console with a handle of its own on this line. `ENOMEM`: one more owner of its table was refused.
    pub fn new(line: &Line, rt: R) -> std::result::Result<Self, Errno> {
        Ok(Console {
            line: line.try_clone()?,
            inputs: 0,
            hung_up: false,
            answer: Ok(()),
            rt,
        })
    }
}

impl<R> Console<R> {
    ghost use Rattle.std.specs.Prelude.{◌≡◌};
    ghost use Rattle.device_loop.specs.Answers.{unless_refused, counted_by};

    /// What it has counted; or the refusal, where its last request was refused.
    pub fn statistics(&self) -> Result<Statistics>
        ensures { result ≡ unless_refused self.now.answer (counted_by self.now) }
    {
        self.answer?;
        Ok(Statistics::Console {
            inputs: self.inputs,
            hung_up: self.hung_up,
        })
    }
}

impl<R: Wait> MutEventSubscriber for Console<R> {
    ghost use Rattle.std.specs.Prelude.{◌≡◌, ◌==◌, [], ◌∷◌, true, MatchBool, bit_and, unsigned_abs};
    ghost use Rattle.event_manager.specs.CounterEvents.{next_count};
    ghost use Rattle.event_manager.specs.Request.TheVariants.{Add, Remove};
    ghost use Rattle.vmm_sys.specs.Line.{descriptor_of};

    ghost begins = { λ v exchanges w. (exchanges ≡ (Add (record { fd = unsigned_abs (descriptor_of v.line); payload = 0; set = 0x1 }), w.answer) ∷ []) × (w ≡ record v { answer = w.answer }) };

    ghost serves = { λ v event exchanges w. MatchBool (bit_and event.set 0x10 == 0x10)
        ((exchanges ≡ (Remove event, w.answer) ∷ []) × (w ≡ record v { hung_up = true; answer = w.answer }))
        ((exchanges ≡ []) × (w ≡ record v { inputs = next_count v.inputs })) };

    fn process<P: EventPoller>(&mut self, events: Events, ops: &mut EventOps<P>) {
        if events.event_set().contains(EventSet::HANG_UP) {
            self.hung_up = true;
            self.answer = ops.remove(events);
        } else {
            self.inputs = self.inputs.saturating_add(1);
            let _ = self.line.set(EventSet::empty(), &self.rt);
        }
    }

    fn init<P: EventPoller>(&mut self, ops: &mut EventOps<P>) {
        self.answer = ops.add(Events::new(&self.line, EventSet::IN));
    }
}
