//! The action that stops a dispatcher.

use crate::dispatcher::Dispatcher;
use event_manager::Action;
use std::sync::Wait;
use std::time::Clock;

/// Stops a dispatcher.
#[derive(Drop)]
pub struct Stop;

impl<R: Wait + Clock + Drop> Action<Dispatcher<R>> for Stop {
    type Reply = ();

    ghost use Rattle.std.specs.Prelude.{◌≡◌, true};

    ghost does = { λ self v reply w. w ≡ record v { stopped = true } };

    fn act<W: Wait + Clock>(self, dispatcher: &mut Dispatcher<R>, _rt: &W) {
        dispatcher.stop();
    }
}
