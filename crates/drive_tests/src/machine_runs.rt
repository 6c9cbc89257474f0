//! A machine's run, over a script.

ghost use Rattle.std.specs.Prelude.{◌≡◌, ◌≤ℤ◌, pos, unsigned_abs, [], ◌∷◌};
ghost use Rattle.event_manager.specs.Wants.{WantApart};
ghost use Rattle.drive_tests.specs.Devices.{wants};

use crate::apart::{Device, Machine, run_machine};
use crate::expecting::{expect_ok, expect_same};
use event_manager::{
    EventManager, EventPoller, Events, Ledgers, NamedCounter, Result, WithLedgers, with_ledgers,
};
use fixtures::parts::silent_endpoint;
use fixtures::scripts::script_of;
use std::alloc::Global;
use std::sync::Wait;
use std::time::Clock;
use vmm_sys::epoll::{EventSet, RawFd};

/// A device of this descriptor, which has served nothing.
fn device_on(fd: RawFd) -> Device
    requires { pos 0 ≤ℤ fd }
    ensures { result.own.fd ≡ unsigned_abs fd }
{
    Device {
        own: Events::new_raw(fd, EventSet::IN),
        served: 0,
        is_paused: false,
    }
}

/// A machine whose devices have the descriptors from 3 to 6.
fn machine() -> Machine
    ensures { WantApart wants (result.disk ∷ result.network ∷ result.console ∷ result.timer ∷ []) }
{
    Machine {
        disk: device_on(3),
        network: device_on(4),
        console: device_on(5),
        timer: device_on(6),
    }
}

/// Runs the machine on a new manager over this poller.
#[derive(Drop)]
struct MachineRun<P, R> {
    alloc: Global,
    poller: P,
    rt: R,
}

impl<P: EventPoller + Drop, R: Wait + Clock + Drop> WithLedgers for MachineRun<P, R> {
    type Output = Result<usize>;

    fn run<N: NamedCounter + Send + Sync>(self, counter: N, ledgers: Ledgers<N>) -> Result<usize> {
        let MachineRun { alloc, poller, rt } = self;
        let mut manager = EventManager::new(alloc, poller, counter, ledgers)?;
        run_machine(machine(), &mut manager, &rt)
    }
}

#[test]
fn a_machine_is_served(rt: HostRuntime) {
    let poller = expect_ok(&rt, script_of(rt.alloc(), &[3, 4, 5, 6]));
    let counter = expect_ok(&rt, silent_endpoint(rt, rt.alloc()));
    let alloc = rt.alloc();
    let ran = with_ledgers(counter, MachineRun { alloc, poller, rt });
    expect_same(&rt, &ran, &Ok(4));
}
