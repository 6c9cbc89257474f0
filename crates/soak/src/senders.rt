//! The senders that load the loop, each from a thread of its own.

use crate::device::Device;
use crate::parts::{Pair, Parts};
use crate::work::{Reply, Work};
use anyhow::{Context, Result, bail};
use event_manager::{JobSender, NamedCounter, RemoteEndpoint, SubscriberId};
use measures::bench::expect;
use measures::progress::Progress;
use std::sync::Wait;
use std::thread;
use std::time::{Clock, Duration};

type Endpoint<N, R> = RemoteEndpoint<Device<R>, Work<R>, N>;

const PAUSE: u64 = 10;

/// What is done in a round.
#[derive(Drop)]
pub enum Load {
    /// Each counter of each device is written to.
    Write,
    /// A job is sent to each device.
    Fire(Vec<SubscriberId>),
    /// A guest is received, and a job sent to the device, each with its reply; then one more is sent, and the queue runs empty.
    Call(SubscriberId),
}

/// Loads the loop, and notes each round.
#[derive(Drop)]
pub struct Loader<'a> {
    /// What it does in a round.
    pub load: Load,
    /// What all load the loop with.
    pub parts: &'a Parts<'a>,
}

impl<R: Wait + Clock + Copy + Drop> JobSender<Device<R>, Work<R>, Result<()>, R> for Loader<'_> {
    fn send<N: NamedCounter>(self, endpoint: &Endpoint<N, R>, rt: &R) -> Result<()> {
        let parts = self.parts;
        for _ in 0..parts.rounds {
            match &self.load {
                Load::Write => write_all(parts.pairs.as_slice(), rt)?,
                Load::Fire(ids) => fire_all(endpoint, ids.as_slice(), rt)?,
                Load::Call(device) => call_all(endpoint, *device, parts, rt)?,
            }
            parts.progress.step();
        }
        Ok(())
    }
}

fn write_all<R: Wait>(pairs: &[Pair], rt: &R) -> Result<()> {
    for pair in pairs {
        pair.write(rt)?;
    }
    Ok(())
}

fn fire_all<N: NamedCounter, R: Wait + Clock + Drop>(
    endpoint: &Endpoint<N, R>,
    ids: &[SubscriberId],
    rt: &R,
) -> Result<()> {
    for id in ids {
        let _ticket = endpoint.fire(Work::Count(*id), rt)?;
    }
    Ok(())
}

// Sends a job, and right behind it one to wait for: a loop that misses the second sleeps on while its caller waits.
fn fire_and_call<N: NamedCounter, R: Wait + Clock + Drop>(
    endpoint: &Endpoint<N, R>,
    id: SubscriberId,
    work: Work<R>,
    progress: &Progress,
    rt: &R,
) -> event_manager::Result<Reply> {
    let _ticket = endpoint.fire(Work::Count(id), rt)?;
    let reply = endpoint.call_blocking(work, rt);
    progress.step();
    reply
}

// Waits until the queue is empty: a job that the loop missed stays in it.
fn fire_and_settle<N: NamedCounter, R: Wait + Clock + Drop>(
    endpoint: &Endpoint<N, R>,
    id: SubscriberId,
    rt: &R,
) -> Result<()> {
    let _ticket = endpoint.fire(Work::Count(id), rt)?;
    for _ in rt.forever() {
        if endpoint.pending() == Some(0) {
            break;
        }
        thread::sleep(rt, Duration::from_micros(PAUSE));
    }
    Ok(())
}

fn receive_guest<N: NamedCounter, R: Wait + Clock + Copy + Drop>(
    endpoint: &Endpoint<N, R>,
    id: SubscriberId,
    parts: &Parts<'_>,
    rt: &R,
) -> Result<()> {
    let (pair, progress) = (&parts.guest, parts.progress);
    let guest = Work::Join(pair.device(rt)?);
    let Reply::Joined(joined) = fire_and_call(endpoint, id, guest, progress, rt)? else {
        bail!("the reply of another job");
    };
    pair.write(rt)?;
    let leave = Work::Leave(joined?);
    let Reply::Left(left) = fire_and_call(endpoint, id, leave, progress, rt)? else {
        bail!("the reply of another job");
    };
    let (read, refused) = left?;
    expect(refused, 0).context("refused requests of a guest")?;
    expect(read.saturating_add(pair.rest(rt)), 2).context("read of a guest")?;
    Ok(())
}

fn call_all<N: NamedCounter, R: Wait + Clock + Copy + Drop>(
    endpoint: &Endpoint<N, R>,
    device: SubscriberId,
    parts: &Parts<'_>,
    rt: &R,
) -> Result<()> {
    receive_guest(endpoint, device, parts, rt)?;
    let count = Work::Count(device);
    let Reply::Counted(counted) = fire_and_call(endpoint, device, count, parts.progress, rt)? else {
        bail!("the reply of another job");
    };
    counted?;
    fire_and_settle(endpoint, device, rt)
}
