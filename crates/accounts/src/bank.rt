//! The loop's side, and the customer.

use crate::account::Account;
use crate::order::{Order, Told};
use event_manager::{
    ActionOn, Error, EventPoller, JobSender, LoopWithSenders, NamedCounter, RemoteEndpoint, Result,
    SubscriberId, TrackedManager,
};
use std::alloc::Global;
use std::sync::Wait;
use std::time::Clock;
use vmm_sys::eventfd::EventFd;

/// The loop of one account, and its one sender, the customer.
#[derive(Drop)]
pub struct Bank {
    /// The counter of the account.
    pub counter: EventFd,
}

impl<R: Wait + Clock + Copy + Drop> LoopWithSenders<Account<R>, ActionOn<Order>, Customer, R>
    for Bank {
    fn begin<N: NamedCounter, P: EventPoller>(
        &mut self,
        rt: &R,
        alloc: Global,
        manager: &mut TrackedManager<Account<R>, ActionOn<Order>, N, P>,
    ) -> Result<Vec<Customer>> {
        let first = Account::new(&self.counter, *rt).map_err(Error::EventFd)?;
        let removed = manager.add_subscriber(first)?;
        manager.remove_subscriber(removed)?;
        let second = Account::new(&self.counter, *rt).map_err(Error::EventFd)?;
        let account = manager.add_subscriber(second)?;
        manager.subscriber(account)?.asked?;
        let customer = Customer {
            counter: self.counter.try_clone().map_err(Error::EventFd)?,
            account,
            removed,
        };
        Ok(vec![in alloc; customer]?)
    }
}

/// Who sends the jobs.
#[derive(Drop)]
pub struct Customer {
    counter: EventFd,
    account: SubscriberId,
    removed: SubscriberId,
}

/// What the customer was told.
#[derive(Drop)]
pub struct Answers {
    /// The balance after three deposits.
    pub balance: Told,
    /// The balance after the counter was written.
    pub later: Told,
    /// The reply to a job for an account that was removed.
    pub removed: Result<Told>,
}

impl<R: Wait + Clock + Drop> JobSender<Account<R>, ActionOn<Order>, Result<Answers>, R>
    for Customer {
    /// Deposits three times without waiting, and then asks.
    fn send<N: NamedCounter>(
        self,
        endpoint: &RemoteEndpoint<Account<R>, ActionOn<Order>, N>,
        rt: &R,
    ) -> Result<Answers> {
        let ask = |subscriber, action| ActionOn { subscriber, action };
        for _ in 0..3 {
            let _ticket = endpoint.fire(ask(self.account, Order::Deposit(400)), rt)?;
        }
        let balance = endpoint.call_blocking(ask(self.account, Order::Read), rt)??;
        self.counter.write(25, rt).map_err(Error::EventFd)?;
        // The run that replies to it may have waited before the write.
        let _earlier = endpoint.call_blocking(ask(self.account, Order::Read), rt)??;
        let later = endpoint.call_blocking(ask(self.account, Order::Read), rt)??;
        let removed = endpoint.call_blocking(ask(self.removed, Order::Deposit(1)), rt)?;
        Ok(Answers {
            balance,
            later,
            removed,
        })
    }
}
