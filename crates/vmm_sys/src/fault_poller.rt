//! A poller that refuses one of its calls.

ghost use Rattle.std.specs.Prelude.{◌≡◌};
ghost use Rattle.vmm_sys.specs.FaultPoller.{counted, is_refused, faulty_code, MayCtl, MayWait};

use crate::descriptors::RawFd;
use crate::entries::{ControlOperation, EpollEvent};
use crate::errno::Errno;
use crate::poller::Poller;
use crate::script_poller::ScriptPoller;
use std::marker::Model;

/// A [`ScriptPoller`] of which one call of your choice is refused, to test what uses a poller; it is no poller of the system's. Its
/// calls of `ctl` and `wait` are counted together from 1, up to 18446744073709551615, the number of each further call.
#[derive(Drop)]
pub struct FaultPoller {
    inner: ScriptPoller,
    at: u64,
    errno: Errno,
    calls: u64,
}

impl Model for FaultPoller {
    ghost use Rattle.vmm_sys.specs.FaultPoller.{Faulty};

    ghost Value = { Faulty };

    ghost view = { λ f. record { script = f.inner; at = f.at; errno = f.errno; calls = f.calls } };
}

impl FaultPoller {
    /// Refuses call number `at` with `errno`, without asking `inner`, which answers all others. With `at` 0 no call is refused.
    pub fn new(inner: ScriptPoller, at: u64, errno: Errno) -> FaultPoller
        ensures { result ≡ record { script = inner; at = at; errno = errno; calls = 0 } }
    {
        FaultPoller {
            inner,
            at,
            errno,
            calls: 0,
        }
    }

    fn count(&mut self) -> bool
        ensures refused { result ≡ is_refused self.old }
        ensures counted { self.new ≡ counted self.old }
    {
        self.calls = self.calls.saturating_add(1);
        self.calls == self.at
    }
}

impl Poller for FaultPoller {
    ghost meaning = { λ f. faulty_code.code f };

    ghost may_ctl = { MayCtl };

    ghost may_wait = { MayWait };

    /// Answers as the script does, or with the one refusal, which leaves the script as it is.
    fn ctl(&mut self, op: ControlOperation, fd: RawFd, _event: EpollEvent) -> Result<(), Errno> {
        if self.count() {
            return Err(self.errno);
        }
        self.inner.strike_refusal(op, fd)
    }

    /// As the script does, or with the one refusal, which leaves the script as it is. A wait whose buffer has no room counts too.
    fn wait(&mut self, _ms: i32, buffer: &mut [EpollEvent]) -> Result<usize, Errno> {
        if self.count() {
            return Err(self.errno);
        }
        self.inner.take_answer(buffer)
    }
}
