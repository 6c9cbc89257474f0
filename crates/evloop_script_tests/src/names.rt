//! Event sets by the names of their members.

use crate::expecting::{expect_ok, expect_same, expect_same_for};
use evloop_script::names::{SetNames, event_set};
use vmm_sys::epoll::EventSet;

const ALL: &str =
    "IN+PRIORITY+OUT+ERROR+HANG_UP+READ_HANG_UP+EXCLUSIVE+WAKE_UP+ONE_SHOT+EDGE_TRIGGERED";

const ALL_BACKWARDS: &str =
    "EDGE_TRIGGERED+ONE_SHOT+WAKE_UP+EXCLUSIVE+READ_HANG_UP+HANG_UP+ERROR+OUT+PRIORITY+IN";

// Names, and the bits of their set.
const BITS_OF_NAMES: [(&str, u32); 17] = [
    ("-", 0),
    ("IN", 0x1),
    ("PRIORITY", 0x2),
    ("OUT", 0x4),
    ("ERROR", 0x8),
    ("HANG_UP", 0x10),
    ("READ_HANG_UP", 0x2000),
    ("EXCLUSIVE", 0x1000_0000),
    ("WAKE_UP", 0x2000_0000),
    ("ONE_SHOT", 0x4000_0000),
    ("EDGE_TRIGGERED", 0x8000_0000),
    ("IN+OUT", 0x5),
    ("OUT+IN", 0x5),
    ("IN+IN", 0x1),
    ("OUT+IN+OUT", 0x5),
    (ALL, 0xF000_201F),
    (ALL_BACKWARDS, 0xF000_201F),
];

#[test]
fn names_give_their_bits(rt: HostRuntime) {
    for (word, bits) in BITS_OF_NAMES {
        let set = event_set(word);
        expect_same_for(&rt, &set.map(|set| set.bits()), &Some(bits), &word);
    }
}

// The first is the empty text.
const NO_SETS: &str =
    "; +; IN+; +IN; IN++OUT; --; -+IN; IN+-; in; Out; IN ; IN|OUT; IN,OUT; RDHUP; ALL; 0x1; 1; IN+NONE";

#[test]
fn other_texts_are_no_sets(rt: HostRuntime) {
    for word in NO_SETS.split("; ") {
        expect_same_for(&rt, &event_set(word), &None, &word);
    }
}

// Bits, and how their set is printed.
const NAMES_OF_BITS: [(u32, &str); 8] = [
    (0, "-"),
    (0x40, "-"),
    (0x1, "IN"),
    (0x41, "IN"),
    (0x5, "IN+OUT"),
    (0x2018, "ERROR+HANG_UP+READ_HANG_UP"),
    (0x8000_0002, "PRIORITY+EDGE_TRIGGERED"),
    (0xF000_201F, ALL),
];

#[test]
fn sets_are_printed_in_the_order_of_bits(rt: HostRuntime) {
    for (bits, want) in NAMES_OF_BITS {
        let names = SetNames(EventSet::from_bits_retain(bits));
        let text = expect_ok(&rt, names.to_string(rt.alloc()));
        expect_same(&rt, &text.as_str(), &want);
    }
}
