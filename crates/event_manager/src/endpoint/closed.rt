//! What is left of a manager that was closed.

ghost use Rattle.std.specs.Prelude.{◌≡◌, ◌↔◌, true, false, IsTrue, vec_len};
ghost use Rattle.std.specs.List.Sorted.{IsPermutation};
ghost use Rattle.job_tickets.specs.Weights.{one_to};

use job_tickets::naming::Naming;
use job_tickets::tickets::{Register, Ticket};
use std::fmt;
use std::marker::Model;

/// What is known of a closed manager. Contracts see how many tickets were issued and how many jobs taken.
#[derive(Drop)]
pub struct Closed<N: Naming> {
    register: Register<N>,
    taken: u64,
}

impl<N: Naming> Model for Closed<N> {
    ghost use Rattle.event_manager.specs.Endpoint.{ClosedState};

    ghost Value = { ClosedState };

    ghost view = { λ c. record { issued = c.register; taken = c.taken } };
}

impl<N: Naming> fmt::Debug for Closed<N> {
    fn fmt<W: fmt::Write>(&self, f: &mut fmt::Formatter<W>) -> fmt::Result {
        let (issued, taken) = (self.issued(), self.taken());
        write!(f, "Closed {{ issued: {issued}, taken: {taken} }}")
    }
}

impl<N: Naming> Closed<N> {
    pub(crate) fn new(register: Register<N>, taken: u64) -> Self
        ensures { (result.issued ≡ register) × (result.taken ≡ taken) }
    {
        Closed { register, taken }
    }

    /// How many tickets were issued.
    pub fn issued(&self) -> u64
        ensures { result ≡ self.now.issued }
    {
        self.register.issued()
    }

    /// How many jobs the manager took from the queue and ran.
    pub fn taken(&self) -> u64
        ensures { result ≡ self.now.taken }
    {
        self.taken
    }

    /// Whether these are all issued tickets; if so, sorts them. Takes no memory. Once a `call_blocking` was accepted it returns
    /// `false`, as nobody has its ticket.
    pub fn gather(&mut self, tickets: &mut Vec<Ticket<N>>) -> bool
        ensures exactly { IsTrue result ↔ vec_len tickets.old ≡ self.old.issued }
        ensures all { result ≡ true → tickets.new.items ≡ one_to self.old.issued }
        ensures same { result ≡ true → IsPermutation tickets.old.items tickets.new.items }
        ensures none { result ≡ false → tickets.new ≡ tickets.old }
        ensures kept { self.new ≡ self.old }
    {
        self.register.gather(tickets)
    }
}
