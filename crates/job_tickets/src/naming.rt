//! The ledgers of one manager, by one name.

use std::marker::{Brand, PhantomData};
use std::sync::ledger::Ledger;

/// Names a manager's two ledgers, of its tickets and of its taken jobs: what is generic over one such name is generic over both.
pub trait Naming {
    ghost use Rattle.std.specs.Prelude.{ℕ};

    ghost tickets: { ℕ };

    ghost taken: { ℕ };
}

impl Naming for Brand {
    ghost tickets = { 0 };

    ghost taken = { 0 };
}

/// The ledger of the tickets: it has a part for each, and one more.
pub struct Tickets<N> {
    of: PhantomData<N>,
}

impl<N: Naming> Ledger for Tickets<N> {
    ghost name = { N.tickets };

    ghost parts = { 9223372036854775808 };
}

/// The ledger of the taken jobs: it has one part.
pub struct Taken<N> {
    of: PhantomData<N>,
}

impl<N: Naming> Ledger for Taken<N> {
    ghost name = { N.taken };

    ghost parts = { 1 };
}
