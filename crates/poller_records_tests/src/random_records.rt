//! Random records, written and read again.

use crate::expecting::{expect_ok, expect_same};
use poller_records::laws::what_is_written_is_read;
use poller_records::record::RecordEntry;
use rand_core::Rng;
use rand_pcg::Pcg32;
use vmm_sys::epoll::{ControlOperation, EpollEvent, EventSet};
use vmm_sys::errno::Errno;

/// How many entries a record has.
const ENTRIES: u32 = 4_000;

/// Numbers of all lengths, each as likely as another.
#[derive(Drop)]
struct Source {
    random: Pcg32,
}

impl Source {
    fn number(&mut self) -> u64 {
        let bits = self.random.next_u32() & 63;
        self.random.next_u64() >> bits
    }

    fn signed(&mut self) -> i32 {
        let bits = self.random.next_u32() & 31;
        self.random.next_u32().cast_signed() >> bits
    }

    fn event(&mut self) -> EpollEvent {
        let bits = self.random.next_u32() & 31;
        let set = EventSet::from_bits_retain(self.random.next_u32() >> bits);
        EpollEvent::new(set, self.number())
    }

    fn operation(&mut self) -> ControlOperation {
        match self.random.next_u32() & 3 {
            0 => ControlOperation::Add,
            1 => ControlOperation::Modify,
            _ => ControlOperation::Delete,
        }
    }

    fn refuses(&mut self) -> bool {
        self.random.next_u32() & 1 == 0
    }

    fn control(&mut self) -> RecordEntry {
        RecordEntry::Control {
            op: self.operation(),
            fd: self.signed(),
            event: self.event(),
            answer: if self.refuses() {
                Err(Errno(self.signed()))
            } else {
                Ok(())
            },
        }
    }

    fn wait(&mut self) -> RecordEntry {
        RecordEntry::Wait {
            ms: self.signed(),
            room: self.number() as usize,
            answer: if self.refuses() {
                Err(Errno(self.signed()))
            } else {
                Ok(self.number() as usize)
            },
        }
    }

    fn entry(&mut self) -> RecordEntry {
        match self.random.next_u32() & 3 {
            0 => self.control(),
            1 => self.wait(),
            _ => RecordEntry::Reported(self.event()),
        }
    }
}

#[test]
fn random_records_are_read_as_they_were_written(rt: HostRuntime) {
    for seed in 0..3 {
        let mut source = Source {
            random: Pcg32::new(seed, 1),
        };
        let mut entries = Vec::new(rt.alloc());
        for _entry in 0..ENTRIES {
            expect_same(&rt, &entries.push(source.entry()).is_ok(), &true);
        }
        let read = expect_ok(&rt, what_is_written_is_read(rt.alloc(), &entries));
        expect_same(&rt, &(read.as_slice() == entries.as_slice()), &true);
    }
}
