//! The subscribers of a script.

ghost use Rattle.std.specs.Prelude.{◌≡◌};
ghost use Rattle.evloop_script.specs.Scripted.{script_begins, script_serves};

use crate::output::{Out, OutputLine, Printer};
use crate::reactions::Reactions;
use crate::requests::make_requests;
use event_loop::{EventOps, EventPoller, Events, MutEventSubscriber, Request};

/// A subscriber of a script. It asks for what its lines say, and prints what happens to it. A line that
/// can't be written is dropped.
#[derive(Drop)]
pub struct Subscriber<'a, O> {
    name: &'a str,
    first: Vec<Request>,
    reactions: Reactions,
    printer: Printer<O>,
}

impl<'a, O: Out> Subscriber<'a, O> {
    /// A subscriber of this name. Its `init` makes the requests of `first`, and each `process` the next
    /// ones of `reactions` for the event's descriptor.
    pub fn new(
        name: &'a str,
        first: Vec<Request>,
        reactions: Reactions,
        printer: Printer<O>,
    ) -> Subscriber<'a, O>
        ensures name { result.name.now ≡ name.now }
        ensures first { result.first ≡ first }
        ensures reactions { result.reactions ≡ reactions }
    {
        Subscriber {
            name,
            first,
            reactions,
            printer,
        }
    }
}

impl<O: Out> MutEventSubscriber for Subscriber<'_, O> {
    ghost begins = { script_begins };

    ghost serves = { script_serves };

    fn process<P: EventPoller>(&mut self, events: Events, ops: &mut EventOps<P>) {
        let _ = self.printer.print(&OutputLine::Deliver {
            name: self.name,
            events,
        });
        if let Some(requests) = self.reactions.next(events) {
            make_requests(self.name, &requests, ops, &mut self.printer);
        }
    }

    fn init<P: EventPoller>(&mut self, ops: &mut EventOps<P>) {
        make_requests(self.name, &self.first, ops, &mut self.printer);
    }
}
