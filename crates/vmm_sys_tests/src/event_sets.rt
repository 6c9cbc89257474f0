//! Sets of events as numbers in text, and their bits one by one.

use crate::expecting::{expect_ok, expect_same};
use std::fmt::{self, Binary, Formatter, LowerHex, Octal, UpperHex, Write};
use std::process::Abort;
use vmm_sys::epoll::EventSet;

/// A set in base 2, 8 and 16, and in base 16 once more with capital letters.
#[derive(Clone, Copy)]
struct InBases(EventSet);

impl fmt::Display for InBases {
    fn fmt<W: Write>(&self, f: &mut Formatter<W>) -> fmt::Result {
        Binary::fmt(&self.0, f)?;
        f.write_str(" ")?;
        Octal::fmt(&self.0, f)?;
        f.write_str(" ")?;
        LowerHex::fmt(&self.0, f)?;
        f.write_str(" ")?;
        UpperHex::fmt(&self.0, f)
    }
}

/// Bits, and how a set of them is printed. 0x20 and 0x40 have no name.
const IN_BASES: [(u32, &str); 5] = [
    (0x0, "0 0 0 0"),
    (0x1, "1 1 1 1"),
    (0x5, "101 5 5 5"),
    (0x2b, "101011 53 2b 2B"),
    (
        0xF000_201F,
        "11110000000000000010000000011111 36000020037 f000201f F000201F",
    ),
];

#[test]
fn a_set_is_printed_as_the_number_of_its_bits(rt: HostRuntime) {
    for (bits, want) in IN_BASES {
        let set = InBases(EventSet::from_bits_retain(bits));
        let text = expect_ok(&rt, set.to_string(rt.alloc()));
        expect_same(&rt, &text.as_str(), &want);
    }
}

/// The ten bits that have names.
const NAMED: [u32; 10] = [
    0x1,
    0x2,
    0x4,
    0x8,
    0x10,
    0x2000,
    0x1000_0000,
    0x2000_0000,
    0x4000_0000,
    0x8000_0000,
];

/// Expects that a set of these bits goes through sets of those, in this order.
fn expect_each<R: Abort>(rt: &R, bits: u32, expected: &[u32]) {
    let mut sets = EventSet::from_bits_retain(bits).into_iter();
    for bits in expected {
        let next = sets.next().map(|set| set.bits());
        expect_same(rt, &next, &Some(*bits));
    }
    expect_same(rt, &sets.next(), &None);
}

#[test]
fn a_set_goes_through_its_named_bits_and_then_the_others_as_one(rt: HostRuntime) {
    let rows: [(u32, &[u32]); 6] = [
        (0x0, &[]),
        (0x1, &[0x1]),
        (0x5, &[0x1, 0x4]),
        (0x60, &[0x60]),
        (0x8000_0061, &[0x1, 0x8000_0000, 0x60]),
        (0xF000_201F, &NAMED),
    ];
    for (bits, expected) in rows {
        expect_each(&rt, bits, expected);
    }
}
