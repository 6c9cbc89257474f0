//! An account.

use event_manager::{EventOps, EventPoller, EventSet, Events, MutEventSubscriber, Result};
use std::sync::Wait;
use vmm_sys::errno::Errno;
use vmm_sys::eventfd::EventFd;

/// The most that a deposit may bring a balance to.
pub const MOST: u64 = 1000;

/// A balance, and a counter by which it grows too.
#[derive(Drop)]
pub struct Account<R> {
    balance: u64,
    counter: EventFd,
    /// What the addition of its counter was answered.
    pub asked: Result<()>,
    rt: R,
}

impl<R: Wait + Drop> Account<R> {
    ghost use Rattle.std.specs.Prelude.{◌≡◌, ◌≤◌, ◌<◌, ◌+◌, MatchOption, IfOk};

    /// An account of balance 0 with a handle of its own on the counter. `ENOMEM`: one more owner of its table was refused.
    pub fn new(counter: &EventFd, rt: R) -> std::result::Result<Self, Errno>
        ensures { IfOk result (λ account. account.balance ≡ 0) }
    {
        Ok(Account {
            balance: 0,
            counter: counter.try_clone()?,
            asked: Ok(()),
            rt,
        })
    }

    /// The balance.
    pub fn balance(&self) -> u64
        ensures { result ≡ self.now.balance }
    {
        self.balance
    }

    /// Adds the amount, and answers the new balance; or `None`, where it would be above `MOST`. Then all stays.
    pub fn deposit(&mut self, amount: u64) -> Option<u64>
        ensures { MatchOption result ((self.new ≡ self.old) × (1000 < self.old.balance + amount)) (λ sum. (self.new ≡ record self.old { balance = sum }) × (sum ≡ self.old.balance + amount) × (sum ≤ 1000)) }
    {
        let sum = self.balance.saturating_add(amount);
        if sum > MOST {
            return None;
        }
        self.balance = sum;
        Some(sum)
    }
}

impl<R: Wait> MutEventSubscriber for Account<R> {
    ghost use Rattle.std.specs.Prelude.{◌≡◌, ◌≤◌, [], ◌∷◌, unsigned_abs};
    ghost use Rattle.event_manager.specs.Exchange.{AsksNothing};
    ghost use Rattle.event_manager.specs.Request.TheVariants.{Add};
    ghost use Rattle.vmm_sys.specs.EventFd.{descriptor_of};

    // It asks to add its counter, wanted for IN, and keeps the answer.
    ghost begins = { λ v exchanges w. (exchanges ≡ (Add (record { fd = unsigned_abs (descriptor_of v.counter); payload = 0; set = 0x1 }), w.asked) ∷ []) × (w ≡ record v { asked = w.asked }) };

    // It asks for nothing; its balance alone changes, and doesn't fall.
    ghost serves = { λ v event exchanges w. AsksNothing exchanges × (w ≡ record v { balance = w.balance }) × (v.balance ≤ w.balance) };

    fn process<P: EventPoller>(&mut self, _events: Events, _ops: &mut EventOps<P>) {
        let read = self.counter.read(&self.rt).unwrap_or(0);
        self.balance = self.balance.saturating_add(read);
    }

    fn init<P: EventPoller>(&mut self, ops: &mut EventOps<P>) {
        self.asked = ops.add(Events::new(&self.counter, EventSet::IN));
    }
}
