//! Weights of tickets, as amounts of a ledger: fewer than 2^64 tickets of lower numbers weigh less together.

ghost use Rattle.std.specs.Prelude.{◌≡◌, ◌+◌, ◌<◌};
ghost use Rattle.job_tickets.specs.Weights.{weight};

use std::sync::ledger::{Book, Ledger, Share};

/// Does nothing at run time: only proofs see the amount, which may be larger than any number of the program.
pub(crate) fn add_weight<L: Ledger>(book: &mut Book<L>, share: &mut Share<L>, number: u64)
    requires { 0 < share.old.parts }
    ensures total { book.new.total ≡ book.old.total + weight number }
    ensures amount { share.new.amount ≡ share.old.amount + weight number }
    ensures parts { share.new.parts ≡ share.old.parts }
{}
