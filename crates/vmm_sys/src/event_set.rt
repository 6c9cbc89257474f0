//! Sets of events, as bits.

ghost use Rattle.std.specs.Prelude.{⊤, ◌≡◌, ◌==◌, [], ◌∷◌, codes, not};
ghost use Rattle.std.specs.Int.RustNames.{bit_and, bit_or};
ghost use Rattle.bitflags.specs.Sets.{without};

mod formats;
mod operators;

use bitflags::{Flag, Flags};

/// A set of events and of modes, as `epoll` numbers them. Ten bits have names; others come only through
/// [`EventSet::from_bits_retain`], and are kept. `|`, `&`, `-` and `^` are union, intersection, difference and symmetric
/// difference; `!` gives the named bits that are not in a set.
#[derive(Clone, Copy, PartialEq, Eq, Debug)]
pub struct EventSet(u32);

// Written out: `bitflag_items!` would give the operators too, without a clause.
impl EventSet {
    /// There is something to read.
    pub const IN: EventSet = EventSet(0x1);
    /// There is something urgent to read.
    pub const PRIORITY: EventSet = EventSet(0x2);
    /// A write would not have to wait.
    pub const OUT: EventSet = EventSet(0x4);
    /// An error; reported whether it is wanted or not.
    pub const ERROR: EventSet = EventSet(0x8);
    /// Hang up; reported whether it is wanted or not.
    pub const HANG_UP: EventSet = EventSet(0x10);
    /// The other side writes no more.
    pub const READ_HANG_UP: EventSet = EventSet(0x2000);
}

impl EventSet {
    /// A mode: one of several waiters is woken.
    pub const EXCLUSIVE: EventSet = EventSet(0x1000_0000);
    /// A mode: the system stays awake while the event is served.
    pub const WAKE_UP: EventSet = EventSet(0x2000_0000);
    /// A mode: the interest is off after one report.
    pub const ONE_SHOT: EventSet = EventSet(0x4000_0000);
    /// A mode: changes are reported, and not states.
    pub const EDGE_TRIGGERED: EventSet = EventSet(0x8000_0000);

    /// The ten named bits, each with its name.
    pub const FLAGS: &'static [Flag<EventSet>] = &[
        Flag {
            name: "IN",
            value: EventSet::IN,
        },
        Flag {
            name: "PRIORITY",
            value: EventSet::PRIORITY,
        },
        Flag {
            name: "OUT",
            value: EventSet::OUT,
        },
        Flag {
            name: "ERROR",
            value: EventSet::ERROR,
        },
        Flag {
            name: "HANG_UP",
            value: EventSet::HANG_UP,
        },
        Flag {
            name: "READ_HANG_UP",
            value: EventSet::READ_HANG_UP,
        },
        Flag {
            name: "EXCLUSIVE",
            value: EventSet::EXCLUSIVE,
        },
        Flag {
            name: "WAKE_UP",
            value: EventSet::WAKE_UP,
        },
        Flag {
            name: "ONE_SHOT",
            value: EventSet::ONE_SHOT,
        },
        Flag {
            name: "EDGE_TRIGGERED",
            value: EventSet::EDGE_TRIGGERED,
        },
    ];
}

impl Flags for EventSet {
    type Bits = u32;

    ghost exact = { ⊤ };

    ghost table = { (codes "IN", 0x1)
        ∷ (codes "PRIORITY", 0x2)
        ∷ (codes "OUT", 0x4)
        ∷ (codes "ERROR", 0x8)
        ∷ (codes "HANG_UP", 0x10)
        ∷ (codes "READ_HANG_UP", 0x2000)
        ∷ (codes "EXCLUSIVE", 0x10000000)
        ∷ (codes "WAKE_UP", 0x20000000)
        ∷ (codes "ONE_SHOT", 0x40000000)
        ∷ (codes "EDGE_TRIGGERED", 0x80000000)
        ∷ [] };

    ghost set_of = { λ s. s.0 };

    fn flags<'a>() -> &'a [Flag<EventSet>] {
        EventSet::FLAGS
    }

    fn bits(&self) -> u32 {
        self.0
    }

    fn from_bits_retain(bits: u32) -> EventSet {
        EventSet(bits)
    }
}

impl EventSet {
    ghost use Rattle.vmm_sys.specs.EventSet.{bits_of};

    /// The set of no bit.
    pub fn empty() -> EventSet
        ensures { bits_of result ≡ 0 }
    {
        <EventSet as Flags>::empty()
    }

    /// The set of the ten named bits.
    pub fn all() -> EventSet
        ensures { bits_of result ≡ 0xF000201F }
    {
        <EventSet as Flags>::all()
    }

    /// The set of these bits; those without a name are kept.
    pub fn from_bits_retain(bits: u32) -> EventSet
        ensures { bits_of result ≡ bits }
    {
        <EventSet as Flags>::from_bits_retain(bits)
    }

    /// The bits of the set.
    pub fn bits(&self) -> u32
        ensures { result ≡ bits_of self.now }
    {
        <EventSet as Flags>::bits(self)
    }

    /// Whether the set has no bit.
    pub fn is_empty(&self) -> bool
        ensures { result ≡ (bits_of self.now == 0) }
    {
        <EventSet as Flags>::is_empty(self)
    }

    /// Whether each bit of `other` is in the set.
    pub fn contains(&self, other: EventSet) -> bool
        ensures { result ≡ (bit_and (bits_of self.now) (bits_of other) == bits_of other) }
    {
        <EventSet as Flags>::contains(self, other)
    }

    /// Whether the two sets share a bit.
    pub fn intersects(&self, other: EventSet) -> bool
        ensures { result ≡ not (bit_and (bits_of self.now) (bits_of other) == 0) }
    {
        <EventSet as Flags>::intersects(self, other)
    }

    /// The bits that are in both sets.
    pub fn intersection(self, other: EventSet) -> EventSet
        ensures { bits_of result ≡ bit_and (bits_of self) (bits_of other) }
    {
        <EventSet as Flags>::intersection(self, other)
    }

    /// The bits that are in either set.
    pub fn union(self, other: EventSet) -> EventSet
        ensures { bits_of result ≡ bit_or (bits_of self) (bits_of other) }
    {
        <EventSet as Flags>::union(self, other)
    }

    /// The bits of this set that are not in `other`.
    pub fn difference(self, other: EventSet) -> EventSet
        ensures { bits_of result ≡ without 32 (bits_of self) (bits_of other) }
    {
        <EventSet as Flags>::difference(self, other)
    }

    /// Puts the bits of `other` in.
    pub fn insert(&mut self, other: EventSet)
        ensures { bits_of self.new ≡ bit_or (bits_of self.old) (bits_of other) }
    {
        <EventSet as Flags>::insert(self, other)
    }

    /// Takes the bits of `other` out.
    pub fn remove(&mut self, other: EventSet)
        ensures { bits_of self.new ≡ without 32 (bits_of self.old) (bits_of other) }
    {
        <EventSet as Flags>::remove(self, other)
    }
}
