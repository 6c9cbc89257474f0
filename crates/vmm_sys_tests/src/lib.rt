//! Tests of `vmm_sys`: worked examples, and what its contracts leave open, such as what happens
//! under the lock of a shared table.
#![tactic(auto)]

pub mod by_laws;
#[cfg(test)]
mod closings;
#[cfg(test)]
mod event_sets;
#[cfg(test)]
mod expecting;
#[cfg(test)]
mod fixture;
#[cfg(test)]
mod hundreds;
#[cfg(test)]
mod missed;
#[cfg(test)]
mod random;
#[cfg(test)]
mod random_calls;
#[cfg(test)]
mod random_closings;
#[cfg(test)]
mod shared_table;
#[cfg(test)]
mod table;
#[cfg(test)]
mod waits;
