//! The grammar of one line.

ghost use Rattle.std.specs.Prelude.{◌≡◌, ◌≤◌, ◌<◌, ◌↔◌, IsTrue, IfSome, IfOk, All, length, codes, Some};
ghost use Rattle.evloop_script.specs.Asked.{IsAddition};
ghost use Rattle.evloop_script.specs.Item.{before_colon, after_colon, IsOfItem};
ghost use Rattle.evloop_script.specs.Name.{IsName, IsNameByte};
ghost use Rattle.std.specs.List.{AllZip};
ghost use Rattle.std.specs.Str.Parse.{digits_value};
ghost use Rattle.vmm_sys.specs.EpollEvent.{fd_of, high_half};

use crate::names::event_set;
use crate::number::{descriptor, errno, payload, priority, signed_descriptor};
use crate::script::Refusal;
use event_loop::{Events, Request};
use std::alloc::{AllocError, AllocFailed, Global};
use thiserror::Error;
use vmm_sys::epoll::{ControlOperation, EpollEvent, EventSet, RawFd};

/// The longest name of a subscriber, in characters.
const MAX_NAME: usize = 32;

/// What one line says.
#[derive(Drop)]
pub(super) enum Line<'a> {
    /// No word, or a comment.
    Blank,
    Sub {
        name: &'a str,
        requests: Vec<Request>,
    },
    Ask {
        name: &'a str,
        requests: Vec<Request>,
    },
    On {
        name: &'a str,
        fd: RawFd,
        requests: Vec<Request>,
    },
    Leave {
        name: &'a str,
    },
    Run,
    Batch(Vec<EpollEvent>),
    Interrupt,
    Refuse(Refusal),
}

/// Why a line can't be taken.
#[derive(Clone, Copy, Debug, Error)]
pub(super) enum LineError {
    #[error("the grammar does not have it")]
    Bad,
    #[error("out of memory")]
    OutOfMemory(#[from] AllocError),
}

impl<T: Drop> From<AllocFailed<T>> for LineError {
    fn from(_error: AllocFailed<T>) -> LineError {
        LineError::OutOfMemory(AllocError)
    }
}

/// Reads a line by itself: whether its names are joined is left to the caller.
pub(super) fn read<'a>(alloc: Global, line: &'a str) -> Result<Line<'a>, LineError> {
    let words = words(alloc, line)?;
    match words.as_slice() {
        [] => Ok(Line::Blank),
        [first, ..] if first.starts_with('#') => Ok(Line::Blank),
        ["sub", name, rest @ ..] if is_name(name) => Ok(Line::Sub {
            name,
            requests: additions(alloc, rest)?,
        }),
        ["ask", name, rest @ ..] if is_name(name) && !rest.is_empty() => Ok(Line::Ask {
            name,
            requests: requests(alloc, rest)?,
        }),
        ["on", name, fd, rest @ ..] if is_name(name) && !rest.is_empty() => Ok(Line::On {
            name,
            fd: descriptor(fd).ok_or(LineError::Bad)?,
            requests: requests(alloc, rest)?,
        }),
        ["drop", name] if is_name(name) => Ok(Line::Leave { name }),
        ["run"] => Ok(Line::Run),
        ["batch", items @ ..] => Ok(Line::Batch(events(alloc, items)?)),
        ["intr"] => Ok(Line::Interrupt),
        ["refuse", operation, fd, errno] => {
            let refusal = refusal(operation, fd, errno).ok_or(LineError::Bad)?;
            Ok(Line::Refuse(refusal))
        }
        _ => Err(LineError::Bad),
    }
}

// The words of a line: what stands between spaces, tabs and carriage returns.
fn words<'a>(alloc: Global, line: &'a str) -> Result<Vec<&'a str>, AllocError>
    ensures { IfOk result (λ words. All (λ word. 0 < length word.now) words.items) }
{
    line.split([' ', '\t', '\r'])
        .filter(|word| !word.is_empty())
        .collect(alloc)
}

// An ASCII letter, a digit or an underscore.
fn is_name_byte(byte: u8) -> bool
    ensures { IsTrue result ↔ IsNameByte byte }
{
    byte.is_ascii_alphanumeric() || byte == b'_'
}

// Whether the word is a name: 1 to 32 ASCII letters, digits and underscores.
fn is_name(word: &str) -> bool
    ensures { IsTrue result ↔ IsName word.now }
{
    !word.is_empty() && word.len() <= MAX_NAME && word.bytes().all(is_name_byte)
}

// A descriptor, a set and data, by their words.
fn registration(fd: &str, set: &str, data: &str) -> Option<Events>
    ensures { IfSome result (λ e. (e.fd ≡ digits_value 10 fd.now) × (e.payload ≡ digits_value 10 «data».now)) }
{
    let fd = descriptor(fd)?;
    let set = event_set(set)?;
    Some(Events::with_data_raw(fd, payload(data)?, set))
}

// The request that the words begin with, and how many words it takes.
fn leading_request(words: &[&str]) -> Option<(Request, usize)>
    ensures { IfSome result (λ p. (0 < p.1) × (p.1 ≤ length words.now)) }
{
    match words {
        ["add", fd, set, data, ..] => Some((Request::Add(registration(fd, set, data)?), 4)),
        ["addp", fd, set, data, level, ..] => {
            let events = registration(fd, set, data)?;
            Some((Request::AddWithPriority(events, priority(level)?), 5))
        }
        ["modify", fd, set, data, ..] => Some((Request::Modify(registration(fd, set, data)?), 4)),
        ["remove", fd, ..] => Some((Request::Remove(Events::empty_raw(descriptor(fd)?)), 2)),
        _ => None,
    }
}

// All words as requests.
fn requests(alloc: Global, words: &[&str]) -> Result<Vec<Request>, LineError> {
    let mut requests = Vec::new(alloc);
    let mut at = 0;
    while at < words.len() {
        let (request, count) = leading_request(&words[at..]).ok_or(LineError::Bad)?;
        requests.push(request)?;
        at += count;
    }
    Ok(requests)
}

// All words as requests to add.
fn additions(alloc: Global, words: &[&str]) -> Result<Vec<Request>, LineError>
    ensures { IfOk result (λ requests. All IsAddition requests.items) }
{
    let requests = requests(alloc, words)?;
    if requests.iter().all(|request| matches!(
        request,
        Request::Add(_) | Request::AddWithPriority(..)
    )) {
        return Ok(requests);
    }
    Err(LineError::Bad)
}

// The event of a set, a descriptor and data.
fn packed(set: EventSet, fd: RawFd, payload: u32) -> EpollEvent
    ensures descriptor { fd_of result ≡ fd }
    ensures payload { high_half result ≡ payload }
{
    EpollEvent::packed(set, fd.cast_unsigned(), payload)
}

// What stands before and behind the first colon.
fn cut_at_colon(text: &str) -> Option<(&str, &str)>
    ensures { IfSome result (λ parts. (parts.0.now ≡ before_colon text.now) × (parts.1.now ≡ after_colon text.now)) }
{
    text.split_once(':')
}

// A reported event, as `FD:SET:DATA`.
fn event(item: &str) -> Option<EpollEvent>
    ensures { IfSome result (λ event. IsOfItem item.now event) }
{
    let (fd, rest) = cut_at_colon(item)?;
    let (set, data) = cut_at_colon(rest)?;
    let (fd, data) = (signed_descriptor(fd)?, payload(data)?);
    Some(packed(event_set(set)?, fd, data))
}

// The event of each word, in the order of the words.
fn events(alloc: Global, items: &[&str]) -> Result<Vec<EpollEvent>, LineError>
    ensures { IfOk result (λ events. AllZip (λ item event. IsOfItem item.now event) items.now events.items) }
{
    let mut events = Vec::new(alloc);
    for item in items {
        let Some(event) = event(item) else {
            return Err(LineError::Bad);
        };
        events.push(event)?;
    }
    Ok(events)
}

fn operation(word: &str) -> Option<ControlOperation>
    ensures add { (result ≡ Some ControlOperation.Add) ↔ (word.now ≡ codes "add") }
    ensures modify { (result ≡ Some ControlOperation.Modify) ↔ (word.now ≡ codes "modify") }
    ensures delete { (result ≡ Some ControlOperation.Delete) ↔ (word.now ≡ codes "delete") }
{
    match word {
        "add" => Some(ControlOperation::Add),
        "modify" => Some(ControlOperation::Modify),
        "delete" => Some(ControlOperation::Delete),
        _ => None,
    }
}

fn refusal(word: &str, fd: &str, number: &str) -> Option<Refusal> {
    Some(Refusal {
        operation: operation(word)?,
        fd: descriptor(fd)?,
        errno: errno(number)?,
    })
}
