//! Tickets, and the register that issues them.

ghost use Rattle.std.specs.Prelude.{◌≡◌, ◌+◌, ◌^◌, ◌<◌, ◌≤◌, ◌↔◌, ℕ, true, false, IsTrue, vec_len};
ghost use Rattle.std.specs.List.Sorted.{IsNonDecreasing, IsPermutation};
ghost use Rattle.job_tickets.specs.Weights.{weight, weight_to, weigh, one_to};

use crate::naming::{Naming, Tickets};
use crate::weights::add_weight;
use std::fmt;
use std::marker::Model;
use std::sync::ledger::{Blank, Book, Share};

/// How many tickets a register can issue.
pub const MOST_TICKETS: u64 = 9223372036854775807;

/// A ticket: contracts see its number, from 1 up. Its register issues one for each number; it can't be copied or made otherwise.
#[derive(Drop)]
pub struct Ticket<N: Naming> {
    number: u64,
    share: Share<Tickets<N>>,
}

impl<N: Naming> Model for Ticket<N> {
    ghost Value = { ℕ };

    ghost view = { λ t. t.number };

    ghost invariant = { λ t. (1 ≤ t.number) × (t.share.parts ≡ 1) × (t.share.amount ≡ weight t.number) };
}

impl<N: Naming> Ticket<N> {
    /// Its number.
    pub fn number(&self) -> u64
        ensures number { result ≡ self.now }
        ensures from_1 { 1 ≤ result }
    {
        self.number
    }
}

impl<N: Naming> fmt::Debug for Ticket<N> {
    fn fmt<W: fmt::Write>(&self, f: &mut fmt::Formatter<W>) -> fmt::Result {
        write!(f, "Ticket({})", self.number)
    }
}

/// Issues tickets, numbered from 1. Contracts see how many it issued.
#[derive(Drop)]
pub struct Register<N: Naming> {
    issued: u64,
    book: Book<Tickets<N>>,
    rest: Share<Tickets<N>>,
}

impl<N: Naming> Model for Register<N> {
    ghost Value = { ℕ };

    ghost view = { λ r. r.issued };

    ghost invariant = { λ r. (r.rest.parts + r.issued ≡ 2 ^ 63) × (r.rest.amount ≡ 0) × (r.book.total ≡ weight_to r.issued) };
}

impl<N: Naming> Register<N> {
    pub(crate) fn new(blank: Blank) -> Self
        requires name { blank.name ≡ N.tickets }
        requires parts { blank.parts ≡ 9223372036854775808 }
        ensures { result ≡ 0 }
    {
        let (book, rest) = blank.open::<Tickets<N>>();
        Register {
            issued: 0,
            book,
            rest,
        }
    }

    /// How many it issued.
    pub fn issued(&self) -> u64
        ensures { result ≡ self.now }
    {
        self.issued
    }

    /// Whether these are all the tickets that it issued, told by how many they are. If so, they are sorted by number.
    pub fn gather(&mut self, tickets: &mut Vec<Ticket<N>>) -> bool
        ensures exactly { IsTrue result ↔ vec_len tickets.old ≡ self.old }
        ensures all { result ≡ true → tickets.new.items ≡ one_to self.old }
        ensures same { result ≡ true → IsPermutation tickets.old.items tickets.new.items }
        ensures none { result ≡ false → tickets.new ≡ tickets.old }
        ensures kept { self.new ≡ self.old }
    {
        if tickets.len() as u64 != self.issued {
            return false;
        }
        sort(tickets);
        if !are_in_order(tickets) {
            // Never: the shares of as many tickets with other numbers would add up to another amount than the book's.
            put_together(&mut self.book, &mut self.rest, tickets);
            unreachable!();
        }
        true
    }

    /// Issues the next ticket.
    pub fn issue(&mut self) -> Ticket<N>
        requires { self.old < MOST_TICKETS }
        ensures next { result ≡ self.old + 1 }
        ensures issued { self.new ≡ self.old + 1 }
    {
        let number = self.issued + 1;
        let mut share = self.rest.split_off(1, 0);
        add_weight(&mut self.book, &mut share, number);
        self.issued = number;
        Ticket { number, share }
    }
}

// Sorts by number. It takes no memory.
fn sort<N: Naming>(tickets: &mut Vec<Ticket<N>>)
    ensures order { IsNonDecreasing tickets.new.items }
    ensures same { IsPermutation tickets.old.items tickets.new.items }
    ensures len { vec_len tickets.new ≡ vec_len tickets.old }
{
    tickets.sort_unstable_by_key(|t| t.number());
}

fn are_in_order<N: Naming>(tickets: &Vec<Ticket<N>>) -> bool
    ensures { IsTrue result ↔ tickets.now.items ≡ one_to (vec_len tickets.now) }
{
    for i in 0..tickets.len() {
        if tickets[i].number() != i as u64 + 1 {
            return false;
        }
    }
    true
}

// Merges the shares of all tickets into the rest, which then has all parts, and so the whole amount of the book.
fn put_together<N: Naming>(
    book: &mut Book<Tickets<N>>,
    rest: &mut Share<Tickets<N>>,
    tickets: &mut Vec<Ticket<N>>,
)
    requires parts { rest.old.parts + vec_len tickets.old ≡ 2 ^ 63 }
    requires none { rest.old.amount ≡ 0 }
    ensures { weigh tickets.old.items ≡ book.old.total }
{
    while let Some(ticket) = tickets.pop() {
        let Ticket { number: _, share } = ticket;
        rest.merge(share);
    }
    book.audit(rest);
}
