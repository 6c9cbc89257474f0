//! The script: what its lines say, and the reading of a whole text.

mod line;

use crate::fault::Fault;
use crate::reactions::Reactions;
use event_loop::Request;
use line::{Line, LineError};
use std::alloc::Global;
use std::collections::HashMap;
use vmm_sys::epoll::{ControlOperation, EpollEvent, RawFd};
use vmm_sys::errno::Errno;

/// One call of the manager. A subscriber is named by the place of its join among the joins, from 0.
#[derive(PartialEq, Drop)]
pub enum Call<'a> {
    /// A subscriber joins; its `init` makes these requests, each an addition.
    Join {
        name: &'a str,
        requests: Vec<Request>,
    },
    /// The subscriber makes these requests, at least one.
    Ask {
        name: &'a str,
        join: usize,
        requests: Vec<Request>,
    },
    /// The subscriber leaves.
    Leave {
        name: &'a str,
        join: usize,
    },
    /// One iteration of the loop.
    Run,
}

/// What one wait of the poller answers.
#[derive(Debug, PartialEq, Drop)]
pub enum Wait {
    Report(Vec<EpollEvent>),
    Interrupted,
}

/// A refusal that the poller gives once.
#[derive(Clone, Copy, Debug, PartialEq, Eq)]
pub struct Refusal {
    pub operation: ControlOperation,
    pub fd: RawFd,
    pub errno: Errno,
}

/// A whole script, each list in the order of its lines. Names are parts of the text.
#[derive(Drop)]
pub struct Script<'a> {
    pub calls: Vec<Call<'a>>,
    pub waits: Vec<Wait>,
    pub refusals: Vec<Refusal>,
    /// What the subscriber of each join asks for on its events, in the order of the joins.
    pub reactions: Vec<Reactions>,
}

// A name that is to be joined somewhere in the script, and the line that says so.
#[derive(Clone, Copy)]
struct Mention<'a> {
    name: &'a str,
    line: usize,
}

// A script in the making: what the lines so far say, the place of each join by its name, the names of
// the joins in order, what `on` lines say by name, and the names that they mention.
#[derive(Drop)]
struct Reader<'a> {
    script: Script<'a>,
    joins: HashMap<&'a str, usize>,
    names: Vec<&'a str>,
    reactions: HashMap<&'a str, Reactions>,
    mentions: Vec<Mention<'a>>,
    first_bad: Option<usize>,
}

impl<'a> Reader<'a> {
    fn new(alloc: Global) -> Reader<'a> {
        let script = Script {
            calls: Vec::new(alloc),
            waits: Vec::new(alloc),
            refusals: Vec::new(alloc),
            reactions: Vec::new(alloc),
        };
        Reader {
            script,
            joins: HashMap::new(alloc),
            names: Vec::new(alloc),
            reactions: HashMap::new(alloc),
            mentions: Vec::new(alloc),
            first_bad: None,
        }
    }

    // The place of a name that joined on an earlier line.
    fn place(&self, name: &'a str) -> Result<usize, LineError> {
        self.joins.get(&name).copied().ok_or(LineError::Bad)
    }

    // A name joins once.
    fn join(&mut self, name: &'a str, requests: Vec<Request>) -> Result<(), LineError> {
        if self.joins.contains_key(&name) {
            return Err(LineError::Bad);
        }
        let place = self.joins.len();
        self.joins.insert(name, place)?;
        self.names.push(name)?;
        self.script.calls.push(Call::Join { name, requests })?;
        Ok(())
    }

    fn ask(&mut self, name: &'a str, requests: Vec<Request>) -> Result<(), LineError> {
        let join = self.place(name)?;
        self.script.calls.push(Call::Ask {
            name,
            join,
            requests,
        })?;
        Ok(())
    }

    fn leave(&mut self, name: &'a str) -> Result<(), LineError> {
        let join = self.place(name)?;
        self.script.calls.push(Call::Leave { name, join })?;
        Ok(())
    }

    // The name may join on a later line.
    fn react(
        &mut self,
        alloc: Global,
        line: usize,
        name: &'a str,
        fd: RawFd,
        requests: Vec<Request>,
    ) -> Result<(), LineError> {
        self.mentions.push(Mention { name, line })?;
        let reactions = self
            .reactions
            .entry(name)?
            .or_insert_with(|| Reactions::new(alloc));
        reactions.push(alloc, fd, requests)?;
        Ok(())
    }

    fn put(&mut self, alloc: Global, number: usize, line: Line<'a>) -> Result<(), LineError> {
        match line {
            Line::Blank => Ok(()),
            Line::Sub { name, requests } => self.join(name, requests),
            Line::Ask { name, requests } => self.ask(name, requests),
            Line::On { name, fd, requests } => self.react(alloc, number, name, fd, requests),
            Line::Leave { name } => self.leave(name),
            Line::Run => Ok(self.script.calls.push(Call::Run)?),
            Line::Batch(events) => Ok(self.script.waits.push(Wait::Report(events))?),
            Line::Interrupt => Ok(self.script.waits.push(Wait::Interrupted)?),
            Line::Refuse(refusal) => Ok(self.script.refusals.push(refusal)?),
        }
    }

    // Takes one line, and keeps the number of the first bad one.
    fn take(&mut self, alloc: Global, number: usize, text: &'a str) -> Result<(), Fault> {
        let taken = match line::read(alloc, text) {
            Ok(line) => self.put(alloc, number, line),
            Err(error) => Err(error),
        };
        match taken {
            Ok(()) => Ok(()),
            Err(LineError::Bad) => {
                self.first_bad = self.first_bad.or(Some(number));
                Ok(())
            }
            Err(LineError::OutOfMemory(error)) => Err(error.into()),
        }
    }

    // The first bad line, once all lines were taken: a name that an `on` line has may not be joined.
    fn first_bad(&self) -> Option<usize> {
        let mut first = self.first_bad;
        for mention in &self.mentions {
            if !self.joins.contains_key(&mention.name) {
                first = match first {
                    Some(line) if line < mention.line => Some(line),
                    _ => Some(mention.line),
                };
            }
        }
        first
    }
}

impl<'a> Reader<'a> {
    // The script, with the reactions of each join.
    fn finish(self, alloc: Global) -> Result<Script<'a>, Fault> {
        let Reader {
            script,
            joins: _,
            names,
            reactions,
            mentions: _,
            first_bad: _,
        } = self;
        let (mut script, mut reactions) = (script, reactions);
        for name in names {
            let own = match reactions.remove(&name) {
                Some(own) => own,
                None => Reactions::new(alloc),
            };
            script.reactions.push(own)?;
        }
        Ok(script)
    }
}

/// Reads a whole script.
///
/// # Errors
///
/// `BadScript` with the number of the first line that the grammar does not have, counted from 1;
/// `OutOfMemory`.
pub fn parse<'a>(alloc: Global, text: &'a str) -> Result<Script<'a>, Fault> {
    let mut reader = Reader::new(alloc);
    for (index, line) in text.lines().enumerate() {
        reader.take(alloc, index + 1, line)?;
    }
    match reader.first_bad() {
        Some(line) => Err(Fault::BadScript(line)),
        None => reader.finish(alloc),
    }
}
