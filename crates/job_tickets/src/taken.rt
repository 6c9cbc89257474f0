//! The number of jobs that were taken: one keeps the book of it, another the only share, and both agree.

ghost use Rattle.std.specs.Prelude.{◌≡◌, ◌+◌, ◌^◌, ◌<◌, ℕ};

use crate::naming::{Naming, Taken};
use std::marker::Model;
use std::sync::ledger::{Blank, Book, Share};

/// The book: contracts see how many jobs were taken.
#[derive(Drop)]
pub struct TakenBook<N: Naming> {
    book: Book<Taken<N>>,
}

impl<N: Naming> Model for TakenBook<N> {
    ghost Value = { ℕ };

    ghost view = { λ b. b.book.total };
}

/// The count, of which there is one for a ledger: contracts see how many jobs were taken.
#[derive(Drop)]
pub struct TakenCount<N: Naming> {
    count: u64,
    share: Share<Taken<N>>,
}

impl<N: Naming> Model for TakenCount<N> {
    ghost Value = { ℕ };

    ghost view = { λ c. c.count };

    ghost invariant = { λ c. (c.share.parts ≡ 1) × (c.share.amount ≡ c.count) };
}

pub(crate) fn open<N: Naming>(blank: Blank) -> (TakenBook<N>, TakenCount<N>)
    requires name { blank.name ≡ N.taken }
    requires parts { blank.parts ≡ 1 }
    ensures { (result.0 ≡ 0) × (result.1 ≡ 0) }
{
    let (book, share) = blank.open::<Taken<N>>();
    (TakenBook { book }, TakenCount { count: 0, share })
}

impl<N: Naming> TakenCount<N> {
    /// How many jobs were taken.
    pub fn count(&self) -> u64
        ensures { result ≡ self.now }
    {
        self.count
    }

    /// Counts `more` jobs, here and in the book. Before, both agreed.
    pub fn add(&mut self, book: &mut TakenBook<N>, more: u64)
        requires { book.old + more < 2 ^ 64 }
        ensures agree { self.old ≡ book.old }
        ensures count { self.new ≡ self.old + more }
        ensures book { book.new ≡ book.old + more }
    {
        book.book.audit(&mut self.share);
        book.book.add(&mut self.share, more);
        self.count += more;
    }

    /// States that there is no other count of this ledger.
    pub fn is_alone(&mut self, other: Option<TakenCount<N>>)
        ensures none { other ≡ None }
        ensures count { self.new ≡ self.old }
    {
        if let Some(other) = other {
            let TakenCount { share, .. } = other;
            self.share.merge(share);
            unreachable!();
        }
    }

    /// States that the book says the same.
    pub fn agree(&mut self, book: &mut TakenBook<N>)
        ensures agree { self.old ≡ book.old }
        ensures count { self.new ≡ self.old }
        ensures book { book.new ≡ book.old }
    {
        book.book.audit(&mut self.share);
    }
}
