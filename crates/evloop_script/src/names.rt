//! Event sets by the names of their members.

use bitflags::Flags;
use std::fmt;
use vmm_sys::epoll::EventSet;

/// The set that `word` names: `-` is the empty set, and else names are joined by `+`, in any order and
/// any number of times each. `None` for any other text.
pub fn event_set(word: &str) -> Option<EventSet> {
    if word == "-" {
        return Some(EventSet::empty());
    }
    let mut set = EventSet::empty();
    for name in word.split('+') {
        set = set.union(<EventSet as Flags>::from_name(name)?);
    }
    Some(set)
}

/// Prints an event set: its names in the order of growing bits joined by `+`, or `-` where it is empty.
/// Bits without a name are left out.
#[derive(Clone, Copy)]
pub struct SetNames(pub EventSet);

impl fmt::Display for SetNames {
    fn fmt<W: fmt::Write>(&self, f: &mut fmt::Formatter<W>) -> fmt::Result {
        let mut is_first = true;
        for (name, _) in self.0.iter_names() {
            if !is_first {
                f.write_str("+")?;
            }
            f.write_str(name)?;
            is_first = false;
        }
        if is_first {
            f.write_str("-")?;
        }
        Ok(())
    }
}
