//! The ledgers and the counter of a manager.

ghost use Rattle.std.specs.Prelude.{◌≡◌};

use crate::named_counter::{Named, NamedCounter};
use job_tickets::ledgers::Ledgers;
use job_tickets::naming::Naming;
use std::marker::Brand;
use std::sync::ledger::Blank;
use vmm_sys::counter::Counter;

/// A program's body that runs with the counter and the ledgers of a manager, generic over their name.
pub trait WithLedgers {
    /// What the body returns.
    type Output;

    /// Runs with the counter that [`with_ledgers`] was given, and both ledgers.
    fn run<N: NamedCounter + Send + Sync>(self, counter: N, ledgers: Ledgers<N>) -> Self::Output;
}

fn run_named<B, C, N>(body: B, counter: C, tickets: Blank, taken: Blank) -> B::Output
where
    B: WithLedgers,
    C: Counter + Send + Sync + Drop,
    N: Naming + Send + Sync,
    requires tickets { (tickets.name ≡ N.tickets) × (tickets.parts ≡ 9223372036854775808) }
    requires taken { (taken.name ≡ N.taken) × (taken.parts ≡ 1) }
{
    body.run::<Named<N, C>>(Named::new(counter), Ledgers::new(tickets, taken))
}

/// Runs the body with the counter and with new ledgers; a program or a test calls it once. The counter is an
/// [`EventFd`](vmm_sys::eventfd::EventFd) of the table of the manager's poller, or one of the caller's own that the poller watches.
pub fn with_ledgers<B: WithLedgers, C: Counter + Send + Sync + Drop>(
    counter: C,
    body: B,
) -> B::Output {
    let (tickets, taken) = (Blank::new(9223372036854775808), Blank::new(1));
    run_named::<B, C, Brand>(body, counter, tickets, taken)
}
