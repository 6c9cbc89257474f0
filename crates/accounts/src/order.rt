//! What is asked of an account, and what it replies.

use crate::account::Account;
use event_manager::Action;
use std::fmt;
use std::sync::Wait;
use std::time::Clock;

/// What is asked of an account.
#[derive(Clone, Copy)]
pub enum Order {
    /// To add the amount to its balance, where the sum isn't above 1000.
    Deposit(u64),
    /// To tell its balance.
    Read,
}

/// What an account replies.
#[derive(Clone, Copy, PartialEq, Eq, Debug)]
pub enum Told {
    /// The balance after a deposit.
    Deposited(u64),
    /// The balance.
    Holds(u64),
    /// The balance would be above 1000; it stays as it is.
    TooMuch,
}

impl fmt::Display for Told {
    fn fmt<W: fmt::Write>(&self, f: &mut fmt::Formatter<W>) -> fmt::Result {
        match self {
            Told::Deposited(balance) => write!(f, "the new balance is {balance}"),
            Told::Holds(balance) => write!(f, "the balance is {balance}"),
            Told::TooMuch => write!(f, "refused: that would be too much"),
        }
    }
}

impl<R: Wait + Drop> Action<Account<R>> for Order {
    type Reply = Told;

    ghost use Rattle.accounts.specs.Orders.{order_does, deposits_fit};

    ghost does = { order_does };

    ghost replies = { deposits_fit };

    fn act<W: Wait + Clock>(self, account: &mut Account<R>, _rt: &W) -> Told {
        match self {
            Order::Deposit(amount) => match account.deposit(amount) {
                Some(balance) => Told::Deposited(balance),
                None => Told::TooMuch,
            },
            Order::Read => Told::Holds(account.balance()),
        }
    }
}
