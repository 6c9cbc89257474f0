//! The operators of sets of events.

ghost use Rattle.std.specs.Prelude.{◌≡◌};
ghost use Rattle.std.specs.Int.RustNames.{bit_and, bit_or, bit_xor};
ghost use Rattle.bitflags.specs.Sets.{without};
ghost use Rattle.vmm_sys.specs.EventSet.{bits_of};

use crate::event_set::EventSet;
use std::ops::{
    BitAnd, BitAndAssign, BitOr, BitOrAssign, BitXor, BitXorAssign, Not, Sub, SubAssign,
};

impl BitOr for EventSet {
    type Output = EventSet;

    ghost bitor_gives = { λ a b result. bits_of result ≡ bit_or (bits_of a) (bits_of b) };

    fn bitor(self, other: EventSet) -> EventSet {
        EventSet(self.0 | other.0)
    }
}

impl BitOrAssign for EventSet {
    ghost bitor_assign_gives = { λ a b result. bits_of result ≡ bit_or (bits_of a) (bits_of b) };

    fn bitor_assign(&mut self, other: EventSet) {
        *self = *self | other;
    }
}

impl BitAnd for EventSet {
    type Output = EventSet;

    ghost bitand_gives = { λ a b result. bits_of result ≡ bit_and (bits_of a) (bits_of b) };

    fn bitand(self, other: EventSet) -> EventSet {
        EventSet(self.0 & other.0)
    }
}

impl BitAndAssign for EventSet {
    ghost bitand_assign_gives = { λ a b result. bits_of result ≡ bit_and (bits_of a) (bits_of b) };

    fn bitand_assign(&mut self, other: EventSet) {
        *self = *self & other;
    }
}

impl BitXor for EventSet {
    type Output = EventSet;

    ghost bitxor_gives = { λ a b result. bits_of result ≡ bit_xor (bits_of a) (bits_of b) };

    fn bitxor(self, other: EventSet) -> EventSet {
        EventSet(self.0 ^ other.0)
    }
}

impl BitXorAssign for EventSet {
    ghost bitxor_assign_gives = { λ a b result. bits_of result ≡ bit_xor (bits_of a) (bits_of b) };

    fn bitxor_assign(&mut self, other: EventSet) {
        *self = *self ^ other;
    }
}

impl Sub for EventSet {
    type Output = EventSet;

    ghost sub_gives = { λ a b result. bits_of result ≡ without 32 (bits_of a) (bits_of b) };

    fn sub(self, other: EventSet) -> EventSet {
        EventSet(self.0 & !other.0)
    }
}

impl SubAssign for EventSet {
    ghost sub_assign_gives = { λ a b result. bits_of result ≡ without 32 (bits_of a) (bits_of b) };

    fn sub_assign(&mut self, other: EventSet) {
        *self = *self - other;
    }
}

impl Not for EventSet {
    type Output = EventSet;

    ghost not_gives = { λ a result. bits_of result ≡ without 32 0xF000201F (bits_of a) };

    fn not(self) -> EventSet {
        EventSet::all() - self
    }
}
