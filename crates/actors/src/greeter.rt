//! The greeter. A line that can't be printed is passed over.

ghost use Rattle.std.specs.Prelude.{◌≡◌, ◌++◌, ◌∷◌, [], MatchOption, map, if◌then◌else◌};
ghost use Rattle.actors.specs.Handed.{IsInOrder};
ghost use Rattle.actors.specs.declared.tally.Told.TheVariants.{Name};

use crate::tally::Told;
use channels::{Receiver, Sender, TrackedReceiver, TrackedSender};
use event_loop::{EventSet, Events, Request, StepInput, StepSubscriber};
use std::mem;
use std::sync::Wait;
use std::time::Clock;

/// Greets the names that it is sent, one at a time, and hands each on. While it keeps one that was refused, it waits for room, and
/// for no more names.
#[derive(Drop)]
pub struct Greeter<R> {
    names: TrackedReceiver<String>,
    tally: TrackedSender<Told>,
    names_ready: Events,
    room_ready: Events,
    // Whose name is still to be handed on.
    kept: Option<Told>,
    waits_for_room: bool,
    rt: R,
}

impl<R> Greeter<R> {
    /// One that is sent names here, and hands them on there, where `room_ready` is the event of the tally's room.
    pub fn new(names: Receiver<String>, tally: Sender<Told>, room_ready: Events, rt: R) -> Self
        ensures { IsInOrder result.names.messages result.tally.messages result.kept }
    {
        Greeter {
            names_ready: Events::new(&names, EventSet::IN),
            names: TrackedReceiver::new(names),
            tally: TrackedSender::new(tally),
            room_ready,
            kept: None,
            waits_for_room: false,
            rt,
        }
    }

    /// The event that it waits for.
    fn awaited(&self) -> Events
        ensures { result ≡ if self.now.waits_for_room then self.now.room_ready else self.now.names_ready }
    {
        if self.waits_for_room {
            self.room_ready
        } else {
            self.names_ready
        }
    }
}

impl<R: Wait + Clock + Print + AllocGlobal + Drop> Greeter<R> {
    /// The next name, which it greets.
    #[tactic(auto, using(crate::proofs::Names::as_told, crate::proofs::Names::one_more))]
    fn greet_next(&mut self) -> Option<Told>
        ensures rest { self.new ≡ record self.old { names = record self.old.names { messages = self.new.names.messages } } }
        ensures next { let before = map Name self.old.names.messages in let after = map Name self.new.names.messages in MatchOption result (after ≡ before) (λ told. after ≡ before ++ told ∷ []) }
    {
        let name = self.names.recv(&self.rt)?;
        let _ = println!(self.rt; "hello, {name}");
        Some(Told::Name(name))
    }

    /// Hands on whom it has kept, or else the next, and keeps whom the tally refuses.
    fn hand_on(&mut self)
        ensures rest { self.new ≡ record self.old { names = record self.old.names { messages = self.new.names.messages }; tally = record self.old.tally { messages = self.new.tally.messages }; kept = self.new.kept } }
        ensures in_order { IsInOrder self.old.names.messages self.old.tally.messages self.old.kept → IsInOrder self.new.names.messages self.new.tally.messages self.new.kept }
    {
        if self.kept.is_none() {
            self.kept = self.greet_next();
        }
        if let Some(told) = self.kept.take() {
            if let Err(refused) = self.tally.send(told, &self.rt) {
                self.kept = Some(refused.message);
            }
        }
    }
}

/// It asks for its names' event when it is added. Once it keeps one, it asks for that of room in its place, and then back again.
/// Whom it was sent it has handed on, in order, but the last, whom it may keep.
impl<R: Wait + Clock + Print + AllocGlobal + Drop> StepSubscriber for Greeter<R> {
    ghost use Rattle.std.specs.Prelude.{◌≡◌, is_some, if◌then◌else◌};
    ghost use Rattle.actors.specs.Handed.{IsInOrder};
    ghost use Rattle.actors.specs.Wanted.{IsWanted, is_settled};

    ghost requests = { λ v input wanted w.
        (w ≡ record v { names = record v.names { messages = w.names.messages }; tally = record v.tally { messages = w.tally.messages }; kept = w.kept; waits_for_room = w.waits_for_room })
        × (IsInOrder v.names.messages v.tally.messages v.kept → IsInOrder w.names.messages w.tally.messages w.kept)
        × IsWanted v.names_ready v.room_ready input v.waits_for_room (is_some w.kept) wanted w.waits_for_room };

    ghost requests_left = { λ v. if is_settled v.waits_for_room (is_some v.kept) then 0 else 1 };

    fn next(&mut self, input: StepInput) -> Option<Request> {
        match input {
            StepInput::Init => Some(Request::Add(self.names_ready)),
            StepInput::Event(_) => {
                self.hand_on();
                (self.waits_for_room != self.kept.is_some()).then_some(Request::Remove(
                    self.awaited(),
                ))
            }
            StepInput::Answer(_) => {
                let keeps = self.kept.is_some();
                let waited = mem::replace(&mut self.waits_for_room, keeps);
                (waited != keeps).then_some(Request::Add(self.awaited()))
            }
        }
    }
}
