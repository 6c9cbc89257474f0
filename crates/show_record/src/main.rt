//! Shows the record of a poller's calls that it reads from standard input, in the words of `evloop`'s scripts or as a picture.
//!
//! ```text
//! show_record                      the calls, a line each
//! show_record picture [INDEX]      an SVG of them; with INDEX, a line in front of the entry of that index, from 0, or behind
//!                                  the last: where a replay left the record, as `diverged` says
//! show_record picture script       an SVG of what `evloop` did: of a script, and behind it what `evloop` printed
//! ```
//!
//! A line is one of these:
//!
//! ```text
//! add FD SET DATA: ANSWER      a call of ctl; also modify
//! delete FD: ANSWER            the same, of which the event is without effect
//! batch FD:SET:DATA ..         a wait, and the events that it reported
//! intr                         a wait that was interrupted
//! wait: ANSWER                 a wait that was refused otherwise
//! ```
//!
//! A set with a bit that has no name is shown as its number, which no script has. A record knows descriptors and not their
//! owners: behind the subscribers of a script, `batch` and `intr` lines and a `run` for each let `evloop` say who got what.
//!
//! In a picture time goes from left to right, row by row. Each wait has a line across the lanes, with its number and its
//! answer above; each event that it reported has a mark behind it, with its set and data, in the lane of the descriptor
//! that its word has in its low half; each call of ctl has one in the lane of its descriptor, with its set. What was refused
//! is red, with its answer. A row has the lanes alone in which it has marks.
//!
//! That of a script has a line across the lanes for each `run: ` that was printed, and behind it the events that the script
//! reports to it: each in the colour of the subscriber to which a `deliver` line gives it, and with its name, or grey and with
//! `nobody`; six colours serve in turn. Of equal events in one batch the first ones have the deliveries. Each `reply`, `sub`,
//! `ask` and `drop` line has a mark, in the colour of its subscriber or red: what was asked for in a batch stands behind all
//! events of the batch. What happens without a line isn't drawn, as the deletes of a leave.
#![tactic(auto)]

mod of_record;
mod of_script;
mod picture;
mod shown;
mod svg;

use anyhow::{Result, bail};
use picture::Picture;
use poller_records::record::RecordEntry;
use poller_records::text::read_record;
use shown::call_at;
use std::env;
use std::io::Read;
use std::rt::Env;

/// What is to be shown.
#[derive(Clone, Copy)]
enum Wanted {
    /// The calls of a record.
    Calls,
    /// A picture of a record, and of where a replay left it.
    Picture(Option<usize>),
    /// A picture of a script that was run.
    ScriptPicture,
}

/// What the arguments ask for.
fn wanted_by_arguments<R: Env + AllocGlobal>(rt: &R) -> Result<Wanted> {
    let mut arguments = env::args(rt)?.skip(1);
    let Some(first) = arguments.next() else {
        return Ok(Wanted::Calls);
    };
    let second = arguments.next();
    match (first.as_str(), second.as_ref().map(|it| it.as_str())) {
        ("picture", None) => Ok(Wanted::Picture(None)),
        ("picture", Some("script")) => Ok(Wanted::ScriptPicture),
        ("picture", Some(index)) => match index.parse() {
            Ok(index) => Ok(Wanted::Picture(Some(index))),
            Err(_) => usage(),
        },
        _ => usage(),
    }
}

fn usage() -> Result<Wanted> {
    bail!("usage: show_record [picture [INDEX | script]] < RECORD")
}

/// Prints a line for each call. Ends at the first line of the record behind which another number of events stands than its
/// call reported, or that is an event behind no call.
fn show<R: Print>(record: &[RecordEntry], rt: &R) -> Result<()> {
    for index in 0..record.len() {
        if let Some(call) = call_at(record, index)? {
            println!(rt; "{call}")?;
        }
    }
    Ok(())
}

fn main(rt: HostRuntime) -> Result<()> {
    let alloc = rt.alloc();
    let wanted = wanted_by_arguments(&rt)?;
    let mut text = String::new(alloc);
    rt.stdin().read_to_string(&mut text)?;
    let (steps, parting) = match wanted {
        Wanted::Calls => return show(&read_record(alloc, &text)?, &rt),
        Wanted::Picture(parting) => (
            of_record::steps(alloc, &read_record(alloc, &text)?)?,
            parting,
        ),
        Wanted::ScriptPicture => (of_script::steps(alloc, &text)?, None),
    };
    let picture = Picture::new(alloc, steps, parting)?;
    Ok(print!(rt; "{picture}")?)
}
