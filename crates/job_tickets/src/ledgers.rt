//! Both ledgers of a manager.

ghost use Rattle.std.specs.Prelude.{◌≡◌};

use crate::naming::Naming;
use crate::taken::{self, TakenBook, TakenCount};
use crate::tickets::Register;
use std::marker::PhantomData;
use std::sync::ledger::Blank;

/// Both ledgers, still without an entry.
#[derive(Drop)]
pub struct Ledgers<N: Naming> {
    tickets: Blank,
    taken: Blank,
    of: PhantomData<N>,
    ghost tickets_are: { (tickets.name ≡ N.tickets) × (tickets.parts ≡ 9223372036854775808) },
    ghost taken_are: { (taken.name ≡ N.taken) × (taken.parts ≡ 1) },
}

impl<N: Naming> Ledgers<N> {
    /// The ledgers over two blanks, of 2^63 parts and of one.
    pub fn new(tickets: Blank, taken: Blank) -> Ledgers<N>
        requires tickets { (tickets.name ≡ N.tickets) × (tickets.parts ≡ 9223372036854775808) }
        requires taken { (taken.name ≡ N.taken) × (taken.parts ≡ 1) }
    {
        Ledgers {
            tickets,
            taken,
            of: PhantomData,
        }
    }

    /// Opens both: the register has issued no ticket, and no job was taken.
    pub fn open(self) -> (Register<N>, TakenBook<N>, TakenCount<N>)
        ensures { (result.0 ≡ 0) × (result.1 ≡ 0) × (result.2 ≡ 0) }
    {
        let Ledgers { tickets, taken, .. } = self;
        let (book, count) = taken::open(taken);
        (Register::new(tickets), book, count)
    }
}
