//! Numbers, sets and changes at random.

use rand_core::Rng;
use rand_pcg::Pcg32;
use vmm_sys::epoll::{ControlOperation, EventSet};

#[derive(Drop)]
pub(crate) struct Random(Pcg32);

impl Random {
    pub(crate) fn new(seed: u64) -> Random {
        Random(Pcg32::new(seed, seed))
    }

    /// A number below the limit, which isn't 0.
    pub(crate) fn below(&mut self, limit: u32) -> u32 {
        self.0.next_u32().checked_rem(limit).unwrap_or(0)
    }

    /// Some of these bits.
    pub(crate) fn set(&mut self, of: u32) -> EventSet {
        EventSet::from_bits_retain(self.0.next_u32() & of)
    }

    pub(crate) fn operation(&mut self) -> ControlOperation {
        match self.below(4) {
            0 => ControlOperation::Modify,
            1 => ControlOperation::Delete,
            _ => ControlOperation::Add,
        }
    }

    /// Room for 1 to 3 entries.
    pub(crate) fn room(&mut self) -> usize {
        1usize.saturating_add(self.below(3) as usize).min(3)
    }
}
