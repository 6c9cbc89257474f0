//! Tickets of jobs and the count of taken jobs, each tied to what it counts by a ledger of `std::sync::ledger` whose amounts only
//! proofs see; a [`naming::Naming`] names both. A [`tickets::Register`] issues tickets numbered from 1, and tells whether a list
//! holds all of them. A [`taken::TakenBook`] agrees with its one [`taken::TakenCount`], whose holder alone can count on.
#![tactic(auto)]

pub mod ledgers;
pub mod naming;
pub mod taken;
pub mod tickets;
mod weights;
