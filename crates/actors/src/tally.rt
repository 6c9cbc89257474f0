//! The tally. A line that can't be printed is passed over.

ghost use Rattle.std.specs.Prelude.{◌≡◌, ◌≤◌};

use channels::{Receiver, Sender};
use event_loop::{EventSet, Events, Request, StepInput, StepSubscriber};
use std::sync::Wait;
use std::time::Clock;

/// What a tally is told.
#[derive(Drop)]
pub enum Told {
    /// A name was greeted.
    Name(String),
    /// It is to say how many were.
    Say,
}

/// Counts the names that it is told of, and says how many there were behind each batch of them.
#[derive(Drop)]
pub struct Tally<R> {
    told: Receiver<Told>,
    // By which it tells itself to say.
    itself: Sender<Told>,
    count: usize,
    rt: R,
}

impl<R> Tally<R> {
    /// One that is told here, by others and, there, by itself.
    pub fn new(told: Receiver<Told>, itself: Sender<Told>, rt: R) -> Self {
        Tally {
            told,
            itself,
            count: 0,
            rt,
        }
    }
}

/// How many names a batch has, and whether it is to be said how many there were.
fn sort(batch: Vec<Told>) -> (usize, bool) {
    let mut names: usize = 0;
    let mut says = false;
    for told in batch {
        match told {
            Told::Name(_) => names = names.saturating_add(1),
            Told::Say => says = true,
        }
    }
    (names, says)
}

impl<R: Wait + Clock + Print + AllocGlobal + Drop> Tally<R> {
    /// Says how many names there were so far, where it is told to; counts those of this batch, and tells itself to say so.
    fn hear(&mut self)
        ensures { (self.new ≡ record self.old { count = self.new.count }) × (self.old.count ≤ self.new.count) }
    {
        let mut batch = Vec::new(self.rt.alloc());
        let _ = self.told.take(&mut batch, &self.rt);
        let (names, says) = sort(batch);
        if says {
            let count = self.count;
            let _ = println!(self.rt; "{count} greeted");
        }
        self.count = self.count.saturating_add(names);
        if names > 0 {
            let _ = self.itself.send(Told::Say, &self.rt);
        }
    }
}

/// It wants its channel's event when it is added, and nothing after that. Its count alone changes, and never goes down.
impl<R: Wait + Clock + Print + AllocGlobal + Drop> StepSubscriber for Tally<R> {
    ghost use Rattle.std.specs.Prelude.{◌≡◌, ◌≤◌};
    ghost use Rattle.channels.specs.Ends.{counter_of_receiver};
    ghost use Rattle.actors.specs.Wanted.{wanted_on};

    ghost requests = { λ v input wanted w. (wanted ≡ wanted_on (counter_of_receiver v.told) input) × (w ≡ record v { count = w.count }) × (v.count ≤ w.count) };

    ghost requests_left = { λ v. 0 };

    fn next(&mut self, input: StepInput) -> Option<Request> {
        match input {
            StepInput::Init => Some(Request::Add(Events::new(&self.told, EventSet::IN))),
            StepInput::Event(_) => {
                self.hear();
                None
            }
            StepInput::Answer(_) => None,
        }
    }
}
