//! Tests of the event manager on one thread or two: what it asks its poller, what comes of refusals and of reports of any kind,
//! and subscribers of many kinds, the counting ones among them.
#![tactic(auto)]

#[cfg(test)]
mod boxes;
#[cfg(test)]
mod cells;
#[cfg(test)]
mod closed_first;
#[cfg(test)]
mod closing;
#[cfg(test)]
mod compared;
#[cfg(test)]
mod costs;
#[cfg(test)]
mod endpoint;
#[cfg(test)]
mod events;
#[cfg(test)]
mod expecting;
#[cfg(test)]
mod faults;
pub mod forms;
#[cfg(test)]
mod making;
#[cfg(test)]
mod places;
#[cfg(test)]
mod registrations;
#[cfg(test)]
mod requests;
#[cfg(test)]
mod served;
#[cfg(test)]
mod sizes;
#[cfg(test)]
mod steps;
#[cfg(test)]
mod threads;
#[cfg(test)]
mod triggers;
pub mod values;
