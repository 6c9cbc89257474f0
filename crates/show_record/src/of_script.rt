//! The steps of a script that `evloop` ran, from its text with what was printed behind it.

use crate::picture::{Form, INTERRUPTED, Lane, Step, Tone, count_text};
use crate::shown::Set;
use anyhow::{Result, bail};
use evloop_script::names::event_set;
use evloop_script::number::{descriptor, payload};
use evloop_script::script::{Call, Wait, parse};
use std::alloc::{AllocError, Global};
use std::collections::{HashMap, VecDeque};
use vmm_sys::epoll::{EpollEvent, RawFd};

/// How many events of a report a run takes.
const BATCH: usize = 256;

/// An event of the run in the making that was delivered to nobody so far, and the index of its step.
#[derive(Clone, Copy)]
struct Pending {
    event: EpollEvent,
    step: usize,
}

/// The steps in the making: the places of the subscribers' joins by their names, what the next waits answer, what is left of
/// a long report, how many runs began, and of the one that has not ended its pending events and how many it had.
#[derive(Drop)]
struct Reader<'a> {
    alloc: Global,
    joins: HashMap<&'a str, usize>,
    waits: VecDeque<Wait>,
    rest: VecDeque<EpollEvent>,
    pending: Vec<Pending>,
    begun: Option<usize>,
    runs: usize,
    steps: Vec<Step>,
}

/// Whether the line is one that `evloop` prints.
fn is_printed(line: &str) -> bool {
    match line.split_once(' ') {
        Some(("deliver" | "reply" | "run:", _)) => true,
        Some(("sub" | "ask" | "drop", rest)) => rest.contains(": "),
        _ => false,
    }
}

/// The script, and what was printed behind it.
fn split(text: &str) -> (&str, &str) {
    let mut length = 0usize;
    for line in text.split_inclusive('\n') {
        if is_printed(line) {
            break;
        }
        length = length.saturating_add(line.len());
    }
    text.split_at_checked(length).unwrap_or((text, ""))
}

impl<'a> Reader<'a> {
    /// Of the subscribers and the reports of a script.
    fn of_script(alloc: Global, text: &'a str) -> Result<Reader<'a>> {
        let script = parse(alloc, text)?;
        let mut joins = HashMap::new(alloc);
        for call in &script.calls {
            if let Call::Join { name, .. } = call {
                let place = joins.len();
                joins.insert(*name, place)?;
            }
        }
        let mut waits = VecDeque::new(alloc);
        for wait in script.waits {
            waits.push_back(wait)?;
        }
        Ok(Reader {
            alloc,
            joins,
            waits,
            rest: VecDeque::new(alloc),
            pending: Vec::new(alloc),
            begun: None,
            runs: 0,
            steps: Vec::new(alloc),
        })
    }

    /// The colour of a subscriber. Refused where none of this name joins.
    fn tone(&self, name: &'a str) -> Result<Tone> {
        match self.joins.get(&name) {
            Some(place) => Ok(Tone::Owner(*place)),
            None => bail!("no such subscriber"),
        }
    }

    /// Takes what the next wait answers, where nothing is left of a report. Answers whether it is interrupted.
    fn take_wait(&mut self) -> Result<bool, AllocError> {
        if !self.rest.is_empty() {
            return Ok(false);
        }
        match self.waits.pop_front() {
            Some(Wait::Report(events)) => {
                for event in events {
                    self.rest.push_back(event)?;
                }
                Ok(false)
            }
            Some(Wait::Interrupted) => Ok(true),
            None => Ok(false),
        }
    }

    /// Puts the wait of a run there, with its events, which went to nobody so far.
    fn begin(&mut self) -> Result<(), AllocError> {
        self.runs = self.runs.saturating_add(1);
        let is_interrupted = self.take_wait()?;
        let count = self.rest.len().min(BATCH);
        let second = if is_interrupted {
            String::from_str(self.alloc, INTERRUPTED)?
        } else {
            count_text(self.alloc, count)?
        };
        self.steps.push(Step {
            form: Form::Wait,
            tone: Tone::Plain,
            first: format!(in self.alloc; "run {}", self.runs)?,
            second,
            told: String::new(self.alloc),
        })?;
        for _ in 0..count {
            if let Some(event) = self.rest.pop_front() {
                self.report(event)?;
            }
        }
        self.begun = Some(count);
        Ok(())
    }

    /// Puts an event of the run there, which went to nobody so far.
    fn report(&mut self, event: EpollEvent) -> Result<(), AllocError> {
        let (fd, set) = (event.fd(), Set(event.event_set()));
        self.pending.push(Pending {
            event,
            step: self.steps.len(),
        })?;
        self.steps.push(Step {
            form: Form::Event(Lane::Descriptor(fd)),
            tone: Tone::Nobody,
            first: set.to_string(self.alloc)?,
            second: String::from_str(self.alloc, "nobody")?,
            told: format!(in self.alloc; "{fd}:{set}:{}", event.high_half())?,
        })?;
        Ok(())
    }

    /// Gives the first event that is as the line says, and was delivered to nobody so far, to this subscriber.
    fn deliver(&mut self, name: &'a str, words: [&str; 3]) -> Result<()> {
        if self.begun.is_none() {
            self.begin()?;
        }
        let tone = self.tone(name)?;
        let [fd, set, data_word] = words;
        let (Some(fd), Some(set), Some(payload)) = (
            descriptor(fd),
            event_set(set),
            payload(data_word),
        ) else {
            bail!("no line of a delivery");
        };
        let event = |it: &Pending| it.event.fd() == fd
            && it.event.event_set() == set
            && it.event.high_half() == payload;
        let Some(place) = self.pending.iter().position(event) else {
            bail!("no such event in the script's report");
        };
        let pending = self.pending.remove(place);
        if let Some(step) = self.steps.get_mut(pending.step) {
            step.tone = tone;
            step.second = String::from_str(self.alloc, name)?;
        }
        Ok(())
    }

    /// Ends the run that answered so.
    fn end(&mut self, answer: &str) -> Result<()> {
        if self.begun.is_none() {
            self.begin()?;
        }
        let counted = self.begun.take();
        self.pending.clear();
        match answer.parse::<usize>() {
            Ok(count) if counted == Some(count) => Ok(()),
            _ => bail!("the script reports another number of events"),
        }
    }

    /// Puts a call there that the line tells: of this word and subscriber, in this lane.
    fn call(
        &mut self,
        word: &str,
        name: &'a str,
        lane: Lane,
        is_refused: bool,
        line: &str,
    ) -> Result<()> {
        let alloc = self.alloc;
        let owner = self.tone(name)?;
        let (tone, first) = if is_refused {
            (Tone::Refused, format!(in alloc; "{word} refused")?)
        } else {
            (owner, String::from_str(alloc, word)?)
        };
        self.steps.push(Step {
            form: Form::Call(lane),
            tone,
            first,
            second: String::from_str(alloc, name)?,
            told: String::from_str(alloc, line)?,
        })?;
        Ok(())
    }

    /// Takes a line that was printed.
    fn take(&mut self, line: &'a str) -> Result<()> {
        let (head, answer) = line.split_once(": ").unwrap_or((line, ""));
        let words: Vec<&str> = head.split(' ').collect(self.alloc)?;
        match words.as_slice() {
            ["deliver", name, fd, set, data] => self.deliver(name, [fd, set, data]),
            [
                "reply",
                name,
                word @ ("add" | "addp" | "modify" | "remove"),
                fd,
            ] => match descriptor(fd) {
                Some(fd) => self.call(word, name, Lane::Descriptor(fd), answer != "ok", line),
                None => bail!("no descriptor"),
            },
            ["sub", name] => self.call(
                "sub",
                name,
                Lane::Subscribers,
                answer.parse::<u64>().is_err(),
                line,
            ),
            ["ask", name] => self.call("ask", name, Lane::Subscribers, true, line),
            ["drop", name] => self.call("drop", name, Lane::Subscribers, answer != "ok", line),
            ["run"] => self.end(answer),
            _ => bail!("no line that evloop prints"),
        }
    }
}

/// The steps of a script's run, one for each line that was printed and for each event that the runs were reported: that one
/// coloured as of the subscriber to which it was delivered.
///
/// # Errors
///
/// Those of the script; the first line behind it that isn't one of `evloop`'s, has a name that doesn't join, or doesn't fit
/// the script's reports; a request for memory was refused.
pub fn steps(alloc: Global, text: &str) -> Result<Vec<Step>> {
    let (script, printed) = split(text);
    let mut reader = Reader::of_script(alloc, script)?;
    let before = script.lines().count();
    for (index, line) in printed.lines().enumerate() {
        if let Err(error) = reader.take(line) {
            bail!(
                "line {}: {error}",
                before.saturating_add(index).saturating_add(1)
            );
        }
    }
    let Reader { steps, .. } = reader;
    Ok(steps)
}
