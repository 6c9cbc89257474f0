//! What the program writes.

ghost use Rattle.std.specs.Prelude.{◌≡◌, ◌⊎◌, pos, IfErr, OnOk, IsOkUnless};
ghost use Rattle.std.specs.Io.KnownBytes.{Appends};
ghost use Rattle.event_loop.specs.Exchange.{event_of};
ghost use Rattle.evloop_script.specs.Printed.{line_text, operation_text, written_by, AppendsPart, Prints, PrintsPart};
ghost use Rattle.evloop_script.specs.declared.fault.Fault.TheVariants as fault;

use crate::fault::Fault;
use crate::names::SetNames;
use event_loop::{Error, Events, Request, SubscriberId};
use std::alloc::{AllocError, Global};
use std::fmt;
use std::fmt::Display;
use std::io::{ErrorKind, Stdout, Write};

/// An output that can be written to by several.
pub trait Out: Write {
    /// A second handle on the same output; `None` where memory for it is refused.
    fn try_clone(&self) -> Option<Self>
    where
        Self: Sized;
}

impl Out for Stdout {
    fn try_clone(&self) -> Option<Stdout> {
        Some(*self)
    }
}

/// A line of the output.
#[derive(Clone, Copy)]
pub enum OutputLine<'a> {
    /// An event is handed to the subscriber of this name.
    Deliver {
        name: &'a str,
        events: Events,
    },
    /// A request of the subscriber of this name, with its answer.
    Reply {
        name: &'a str,
        request: Request,
        answer: Result<(), Error>,
    },
    /// A join.
    Joined {
        name: &'a str,
        answer: Result<SubscriberId, Error>,
    },
    /// A list of requests that is refused as a whole.
    AskRefused {
        name: &'a str,
        error: Error,
    },
    /// A leave.
    Left {
        name: &'a str,
        answer: Result<(), Error>,
    },
    /// An iteration of the loop.
    Ran {
        answer: Result<usize, Error>,
    },
}

// The word of a request, as the script has it.
fn operation(request: &Request) -> &'static str
    ensures { result.now ≡ operation_text request.now }
{
    match request {
        Request::Add(_) => "add",
        Request::AddWithPriority(..) => "addp",
        Request::Modify(_) => "modify",
        Request::Remove(_) => "remove",
    }
}

fn descriptor(request: &Request) -> i32
    ensures { result ≡ pos (event_of request.now).fd }
{
    match request {
        Request::Add(events) => events.fd(),
        Request::AddWithPriority(events, _) => events.fd(),
        Request::Modify(events) => events.fd(),
        Request::Remove(events) => events.fd(),
    }
}

impl Display for OutputLine<'_> {
    ghost output = { line_text };

    fn fmt<W: fmt::Write>(&self, f: &mut fmt::Formatter<W>) -> fmt::Result {
        match self {
            OutputLine::Deliver { name, events } => {
                let fd = events.fd();
                let set = SetNames(events.event_set());
                let data = events.data();
                write!(f, "deliver {name} {fd} {set} {data}")
            }
            OutputLine::Reply {
                name,
                request,
                answer,
            } => {
                let operation = operation(request);
                let fd = descriptor(request);
                match answer {
                    Ok(()) => write!(f, "reply {name} {operation} {fd}: ok"),
                    Err(error) => write!(f, "reply {name} {operation} {fd}: {error}"),
                }
            }
            OutputLine::Joined { name, answer } => match answer {
                Ok(id) => {
                    let number = id.number();
                    write!(f, "sub {name}: {number}")
                }
                Err(error) => write!(f, "sub {name}: {error}"),
            },
            OutputLine::AskRefused { name, error } => write!(f, "ask {name}: {error}"),
            OutputLine::Left { name, answer } => match answer {
                Ok(()) => write!(f, "drop {name}: ok"),
                Err(error) => write!(f, "drop {name}: {error}"),
            },
            OutputLine::Ran { answer } => match answer {
                Ok(count) => write!(f, "run: {count}"),
                Err(error) => write!(f, "run: {error}"),
            },
        }
    }
}

// Writes the bytes, however few the output takes at a time. A write that is interrupted is tried again.
fn write_whole<O: Write>(out: &mut O, bytes: &[u8]) -> Result<(), Fault>
    ensures whole { OnOk result (Appends (O.contents out.old) (O.contents out.new) bytes.now) }
    ensures part { AppendsPart (O.contents out.old) (O.contents out.new) bytes.now }
    ensures errors { IsOkUnless result fault.CannotWrite }
{
    let mut done = 0;
    'writes: for _ in 0..u64::MAX {
        if done >= bytes.len() {
            return Ok(());
        }
        match out.write(&bytes[done..]) {
            Ok(0) => return Err(Fault::CannotWrite),
            Ok(count) => done += count,
            Err(error) if error.kind() == ErrorKind::Interrupted => {}
            Err(_) => return Err(Fault::CannotWrite),
        }
    }
    Err(Fault::CannotWrite)
}

/// No line is longer, in bytes.
const LINE_CAPACITY: usize = 256;

/// Writes lines to an output, each whole and at once.
#[derive(Drop)]
pub struct Printer<O> {
    out: O,
    line: String,
}

impl<O: Out> Printer<O> {
    /// A printer with room for a line, so that printing takes no memory.
    pub fn new(alloc: Global, out: O) -> Result<Printer<O>, AllocError>
    where
        O: Drop,
    {
        Ok(Printer {
            line: String::with_capacity(alloc, LINE_CAPACITY)?,
            out,
        })
    }

    /// A second printer on the same output.
    ///
    /// # Errors
    ///
    /// `OutOfMemory`.
    pub fn try_clone(&self, alloc: Global) -> Result<Printer<O>, Fault>
    where
        O: Drop,
        ensures memory { IfErr result (λ f. f ≡ fault.OutOfMemory) }
    {
        match self.out.try_clone() {
            Some(out) => Printer::new(alloc, out).map_err(|_| Fault::OutOfMemory),
            None => Err(Fault::OutOfMemory),
        }
    }

    /// Writes the line: all of it, however little the output takes at a time. A write that is interrupted
    /// is tried again. What the output held stays in front, whatever is answered.
    ///
    /// # Errors
    ///
    /// `CannotWrite` where the output refuses it. What the output took before, a first part of the line, stays
    /// written, and the next line goes right behind it. `OutOfMemory`, nothing having been written.
    pub fn print(&mut self, line: &OutputLine<'_>) -> Result<(), Fault>
        ensures printed { OnOk result (Prints (written_by O.contents self.old) line.now (written_by O.contents self.new)) }
        ensures part { PrintsPart (written_by O.contents self.old) line.now (written_by O.contents self.new) }
        ensures memory { IfErr result (λ f. f ≡ fault.OutOfMemory → written_by O.contents self.new ≡ written_by O.contents self.old) }
        ensures errors { IfErr result (λ f. (f ≡ fault.OutOfMemory) ⊎ (f ≡ fault.CannotWrite)) }
    {
        self.line.clear();
        match writeln!(self.line, "{line}") {
            Ok(()) => write_whole(&mut self.out, self.line.as_bytes()),
            Err(_) => Err(Fault::OutOfMemory),
        }
    }
}
