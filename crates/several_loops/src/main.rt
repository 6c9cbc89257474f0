//! The program `several_loops`: an acceptor's loop gives each client a connection to one of three workers, whose loops run on
//! threads of their own, each with its poller, and which report to it when all is served. What they say to each other goes over
//! channels. Each run prints the same; arguments and input are ignored.
#![tactic(auto)]

mod acceptor;
mod fault;
mod worker;

use acceptor::{Acceptor, Client, Lane};
use channels::{Receiver, Sender, channel};
use closing::Closing;
use event_manager::with_loops;
use fault::Fault;
use std::alloc::Global;
use std::process::ExitCode;
use std::sync::Wait;
use std::thread::Threads;
use std::time::Clock;
use vmm_sys::epoll::Epoll;
use vmm_sys::eventfd::EventFd;
use worker::{Report, Worker};

/// How many workers there are.
const WORKERS: usize = 3;

/// Who comes, and what each says.
const CLIENTS: [Client; 7] = [
    ["Ada", "Lovelace"],
    ["Grace", "Hopper"],
    ["Edsger", "Dijkstra"],
    ["Barbara", "Liskov"],
    ["Alan", "Turing"],
    ["Tony", "Hoare"],
    ["Leslie", "Lamport"],
];

/// A channel that a loop over the poller can watch, whose sender closes where it is dropped.
fn open_channel<M: Drop, R: Wait + Clock + Copy + Drop>(
    epoll: &Epoll<R>,
    rt: &R,
    alloc: Global,
) -> Result<(Closing<Sender<M>, R>, Receiver<M>), Fault> {
    let (sender, receiver) = channel(EventFd::new(epoll, 0, rt)?, alloc)?;
    Ok((Closing::new(sender, *rt), receiver))
}

/// All clients come, by a channel whose sender is closed.
fn send_clients<R: Wait + Clock + Copy + Drop>(
    epoll: &Epoll<R>,
    rt: &R,
    alloc: Global,
) -> Result<Receiver<Client>, Fault> {
    let (to_acceptor, clients) = open_channel(epoll, rt, alloc)?;
    for client in CLIENTS {
        to_acceptor.end.send(client, rt)?;
    }
    Ok(clients)
}

/// A worker, and the way to it.
fn open_worker<R: Wait + Clock + Copy + Send + Drop>(
    number: usize,
    to_report: &Sender<Report>,
    rt: &R,
    alloc: Global,
) -> Result<(Lane<R>, Worker<Epoll<R>>), Fault> {
    let poller = Epoll::new(*rt, alloc)?;
    let epoll = poller.try_clone()?;
    let (to_worker, connections) = open_channel(&poller, rt, alloc)?;
    let worker = Worker {
        number,
        poller,
        connections,
        reports: to_report.try_clone(rt)?,
        alloc,
    };
    let lane = Lane {
        epoll,
        connections: to_worker,
    };
    Ok((lane, worker))
}

/// Runs the loops, and answers what the workers report, by their numbers.
fn serve<R: Threads + Wait + Clock + Copy + Send + Sync + Drop>(
    rt: &R,
    alloc: Global,
) -> Result<Vec<Report>, Fault> {
    let poller = Epoll::new(*rt, alloc)?;
    let clients = send_clients(&poller, rt, alloc)?;
    let (to_report, reports) = open_channel(&poller, rt, alloc)?;
    let mut lanes = Vec::new(alloc);
    let mut workers = Vec::new(alloc);
    for number in 0..WORKERS {
        let (lane, worker) = open_worker(number, &to_report.end, rt, alloc)?;
        lanes.push(lane)?;
        workers.push(worker)?;
    }
    drop(to_report);
    let acceptor = Acceptor {
        poller,
        clients,
        reports,
        lanes,
        alloc,
    };
    let (gathered, served) = with_loops(rt, alloc, acceptor, workers)?;
    for worker_served in served {
        worker_served?;
    }
    gathered
}

/// Serves, and prints the reports.
fn play<R: Threads + Wait + Clock + Print + Copy + Send + Sync + Drop>(
    rt: &R,
    alloc: Global,
) -> Result<(), Fault> {
    let mut reports = serve(rt, alloc)?;
    reports.sort_unstable_by_key(|report| report.worker);
    for report in reports {
        let Report {
            worker,
            connections,
            bytes,
        } = report;
        println!(rt; "worker {worker}: {connections} connections, {bytes} bytes")?;
    }
    Ok(())
}

fn main(rt: HostRuntime) -> ExitCode {
    match play(&rt, rt.alloc()) {
        Ok(()) => ExitCode::SUCCESS,
        Err(fault) => {
            let _ = eprintln!(rt; "several_loops: {fault}");
            ExitCode::FAILURE
        }
    }
}
