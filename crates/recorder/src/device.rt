//! The devices of the machine.

ghost use Rattle.std.specs.Prelude.{◌≡◌, Ok, IfOk};
ghost use Rattle.event_manager.specs.LoopState.{no_job};
ghost use Rattle.recorded_runs.specs.Determinism.{AreFunctions};
ghost use Rattle.recorder.specs.Devices.{counted, device_begins, device_serves, with_answer};

use event_manager::{EventOps, EventPoller, EventSet, Events, MutEventSubscriber, Result};

/// A device, which counts its events. At the first one it asks for a second descriptor, where it has one; at a hang-up it
/// gives the descriptor back.
///
/// What it counts and asks for comes of its events alone, so a replay of a run's record brings it to where the run did.
#[derive(Clone, Copy)]
pub struct Device {
    own: Events,
    // Until it is asked for.
    second: Option<Events>,
    /// How many events with data 0 it got.
    pub of_first: u64,
    /// How many with other data.
    pub of_second: u64,
    /// Whether one was a hang-up, which isn't counted.
    pub hung_up: bool,
    // The first refusal of its requests.
    answer: Result<()>,
}

impl Device {
    /// A device that had no event, and what it wants of its descriptors.
    pub fn new(own: Events, second: Option<Events>) -> Self {
        Device {
            own,
            second,
            of_first: 0,
            of_second: 0,
            hung_up: false,
            answer: Ok(()),
        }
    }

    /// The device; or the refusal, where one of its requests was refused.
    pub fn answered(&self) -> Result<Device>
        ensures device { IfOk result (λ device. device ≡ self.now) }
        ensures answered { IfOk result (λ device. device.answer ≡ Ok tt) }
    {
        self.answer?;
        Ok(*self)
    }

    // Counts an event by its data.
    fn count(&mut self, events: Events)
        ensures { self.new ≡ counted self.old events }
    {
        if events.data() == 0 {
            self.of_first = self.of_first.saturating_add(1);
        } else {
            self.of_second = self.of_second.saturating_add(1);
        }
    }

    // Keeps an answer, unless a refusal is kept.
    fn keep(&mut self, answer: Result<()>)
        ensures { self.new ≡ with_answer self.old answer }
    {
        if self.answer.is_ok() {
            self.answer = answer;
        }
    }
}

impl MutEventSubscriber for Device {
    ghost begins = { device_begins };

    ghost serves = { device_serves };

    fn process<P: EventPoller>(&mut self, events: Events, ops: &mut EventOps<P>) {
        if events.event_set().contains(EventSet::HANG_UP) {
            self.hung_up = true;
            let answer = ops.remove(events);
            self.keep(answer);
            return;
        }
        self.count(events);
        if let Some(second) = self.second.take() {
            let answer = ops.add(second);
            self.keep(answer);
        }
    }

    fn init<P: EventPoller>(&mut self, ops: &mut EventOps<P>) {
        let answer = ops.add(self.own);
        self.keep(answer);
    }
}

/// A device is a function: its value and what it is answered decide what it asks for next, and its value after.
pub fn devices_are_functions()
    ensures { AreFunctions ⟦<Device as MutEventSubscriber>⟧.begins ⟦<Device as MutEventSubscriber>⟧.serves no_job }
{}
