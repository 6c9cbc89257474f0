//! What a poller is given and what it reports; [`epoll`](crate::epoll) re-exports it.

ghost use Rattle.std.specs.Prelude.{◌≡◌};

use crate::descriptors::RawFd;
use crate::event_set::EventSet;

/// A change of an interest list.
#[derive(Clone, Copy, PartialEq, Eq, Debug)]
pub enum ControlOperation {
    /// Adds an interest.
    Add,
    /// Replaces the wanted set and the word of an interest.
    Modify,
    /// Removes an interest.
    Delete,
}

/// What is wanted of a descriptor, or an entry of a report: a set of events, and a word of the caller's own.
#[derive(Clone, Copy, PartialEq, Eq, Debug)]
pub struct EpollEvent {
    set: EventSet,
    word: u64,
}

impl EpollEvent {
    ghost use Rattle.vmm_sys.specs.EventSet.{bits_of};
    ghost use Rattle.vmm_sys.specs.EpollEvent.{set_of, word_of, high_half, low_half, word_of_halves, fd_of, event};

    /// An event of this set and word.
    pub fn new(set: EventSet, word: u64) -> EpollEvent
        ensures { result ≡ event set word }
    {
        EpollEvent { set, word }
    }

    /// An event of this set, with the word `data * 2^32 + fd`: so the Rust crate packs a descriptor and its data.
    pub fn packed(set: EventSet, fd: u32, data: u32) -> EpollEvent
        ensures { result ≡ event set (word_of_halves «data» fd) }
    {
        EpollEvent::new(set, u64::from(data) << 32 | u64::from(fd))
    }

    /// The bits of the set.
    pub fn events(&self) -> u32
        ensures { result ≡ bits_of (set_of self.now) }
    {
        self.set.bits()
    }

    /// The set.
    pub fn event_set(&self) -> EventSet
        ensures { result ≡ set_of self.now }
    {
        self.set
    }

    /// The word.
    pub fn data(&self) -> u64
        ensures { result ≡ word_of self.now }
    {
        self.word
    }

    /// The high 32 bits of the word: the data, where the word was packed with one.
    pub fn high_half(&self) -> u32
        ensures { result ≡ high_half self.now }
    {
        (self.word >> 32) as u32
    }

    /// The low 32 bits of the word: the descriptor, where the word was packed with one.
    pub fn low_half(&self) -> u32
        ensures { result ≡ low_half self.now }
    {
        (self.word & 0xffff_ffff) as u32
    }

    /// The low half of the word as a signed number: as a descriptor.
    pub fn fd(&self) -> RawFd
        ensures { result ≡ fd_of self.now }
    {
        self.low_half().cast_signed()
    }
}
