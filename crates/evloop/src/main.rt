//! The program `evloop`: reads a script of subscribers, requests and reported events from standard input,
//! runs it over an event manager, and writes what happens to standard output. Arguments are ignored.
#![tactic(auto)]

pub mod calls;
pub mod lines;
pub mod run;

use run::run_script;
use std::process::ExitCode;

fn main(rt: HostRuntime) -> ExitCode {
    match run_script(&rt, rt.alloc(), rt.stdin(), rt.stdout()) {
        Ok(()) => ExitCode::SUCCESS,
        Err(fault) => {
            let _ = eprintln!(rt; "evloop: {fault}");
            ExitCode::FAILURE
        }
    }
}
