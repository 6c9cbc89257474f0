//! Errors of sends and closes.

ghost use Rattle.channels.specs.RefusalText.{text_of};
ghost use Rattle.channels.specs.declared.errors.Refusal.TheVariants as refusal;
ghost use Rattle.std.specs.Prelude.{Some};

use std::error::Error;
use std::fmt;
use vmm_sys::errno::Errno;

/// Why a message is refused.
#[derive(Clone, Copy, PartialEq, Eq, Debug)]
pub enum Refusal {
    /// The receiver has closed.
    Closed,
    /// As many messages wait as the channel has room for.
    Full,
    /// Memory was refused.
    OutOfMemory,
    /// The counter refuses its ring, with this number.
    EventFd(Errno),
}

/// A message that was refused. It prints why.
#[derive(Drop, PartialEq, Eq)]
pub struct SendError<M> {
    /// Why.
    pub why: Refusal,
    /// The message.
    pub message: M,
}

/// A sender that was not closed. It prints that the counter refuses its ring.
#[derive(Drop)]
pub struct CloseError<S> {
    /// The number with which the counter refused its ring.
    pub errno: Errno,
    /// The sender.
    pub sender: S,
}

impl fmt::Display for Refusal {
    ghost output = { λ refused. Some (text_of refused) };

    fn fmt<W: fmt::Write>(&self, f: &mut fmt::Formatter<W>) -> fmt::Result {
        match self {
            Refusal::Closed => f.write_str("channels: the receiver has closed"),
            Refusal::Full => f.write_str("channels: as many messages wait as there is room for"),
            Refusal::OutOfMemory => f.write_str("channels: memory was refused"),
            Refusal::EventFd(errno) => write!(f, "channels: the counter refuses its ring: {errno}"),
        }
    }
}

impl<M> fmt::Display for SendError<M> {
    ghost output = { λ error. Some (text_of error.why) };

    fn fmt<W: fmt::Write>(&self, f: &mut fmt::Formatter<W>) -> fmt::Result {
        write!(f, "{}", self.why)
    }
}

impl<S> fmt::Display for CloseError<S> {
    ghost output = { λ error. Some (text_of (refusal.EventFd error.errno)) };

    fn fmt<W: fmt::Write>(&self, f: &mut fmt::Formatter<W>) -> fmt::Result {
        write!(f, "{}", Refusal::EventFd(self.errno))
    }
}

// Not derived: as std's, these want nothing of what is handed back.
impl<M> fmt::Debug for SendError<M> {
    fn fmt<W: fmt::Write>(&self, f: &mut fmt::Formatter<W>) -> fmt::Result {
        write!(f, "SendError {{ why: {:?}, .. }}", self.why)
    }
}

impl<S> fmt::Debug for CloseError<S> {
    fn fmt<W: fmt::Write>(&self, f: &mut fmt::Formatter<W>) -> fmt::Result {
        write!(f, "CloseError {{ errno: {:?}, .. }}", self.errno)
    }
}

impl Error for Refusal {}

impl<M: Drop> Error for SendError<M> {}

impl<S: Drop> Error for CloseError<S> {}
