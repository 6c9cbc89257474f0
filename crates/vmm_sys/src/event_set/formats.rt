//! Sets of events as numbers in text, and their named bits one by one.

use crate::event_set::EventSet;
use bitflags::Flags;
use bitflags::iter::Iter;
use std::fmt::{self, Binary, Formatter, LowerHex, Octal, UpperHex, Write};

impl Binary for EventSet {
    fn fmt<W: Write>(&self, f: &mut Formatter<W>) -> fmt::Result {
        Binary::fmt(&self.0, f)
    }
}

impl Octal for EventSet {
    fn fmt<W: Write>(&self, f: &mut Formatter<W>) -> fmt::Result {
        Octal::fmt(&self.0, f)
    }
}

impl LowerHex for EventSet {
    fn fmt<W: Write>(&self, f: &mut Formatter<W>) -> fmt::Result {
        LowerHex::fmt(&self.0, f)
    }
}

impl UpperHex for EventSet {
    fn fmt<W: Write>(&self, f: &mut Formatter<W>) -> fmt::Result {
        UpperHex::fmt(&self.0, f)
    }
}

impl IntoIterator for EventSet {
    type Item = EventSet;

    type IntoIter = Iter<EventSet>;

    fn into_iter(self) -> Iter<EventSet> {
        <EventSet as Flags>::iter(&self)
    }
}
