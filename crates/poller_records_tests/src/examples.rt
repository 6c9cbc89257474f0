//! Records beside their texts.

use crate::expecting::{expect_ok, expect_same};
use poller_records::record::RecordEntry;
use poller_records::text::write_record;
use vmm_sys::epoll::{ControlOperation, EpollEvent, EventSet};
use vmm_sys::errno::Errno;

const TEXT: &str = "add 5 1 12 ok\n\
    modify 2147483647 4294967295 18446744073709551615 error 2\n\
    delete -2147483648 0 0 error -2147483648\n\
    wait -1 16 ok 2\n\
    event 1 12\n\
    event 2147483648 18446744073709551615\n\
    wait 0 18446744073709551615 ok 0\n\
    wait 100 1 error 4\n";

fn control(
    op: ControlOperation,
    fd: i32,
    event: EpollEvent,
    answer: Result<(), Errno>,
) -> RecordEntry {
    RecordEntry::Control {
        op,
        fd,
        event,
        answer,
    }
}

fn wait(ms: i32, room: usize, answer: Result<usize, Errno>) -> RecordEntry {
    RecordEntry::Wait { ms, room, answer }
}

fn record() -> [RecordEntry; 8] {
    [
        control(
            ControlOperation::Add,
            5,
            EpollEvent::new(EventSet::IN, 12),
            Ok(()),
        ),
        control(
            ControlOperation::Modify,
            i32::MAX,
            EpollEvent::new(EventSet::from_bits_retain(u32::MAX), u64::MAX),
            Err(Errno::ENOENT),
        ),
        control(
            ControlOperation::Delete,
            i32::MIN,
            EpollEvent::new(EventSet::empty(), 0),
            Err(Errno(i32::MIN)),
        ),
        wait(-1, 16, Ok(2)),
        RecordEntry::Reported(EpollEvent::new(EventSet::IN, 12)),
        RecordEntry::Reported(EpollEvent::new(EventSet::EDGE_TRIGGERED, u64::MAX)),
        wait(0, usize::MAX, Ok(0)),
        wait(100, 1, Err(Errno::EINTR)),
    ]
}

#[test]
fn a_record_has_its_text(rt: HostRuntime) {
    let text = expect_ok(&rt, write_record(rt.alloc(), &record()));
    expect_same(&rt, &text.as_str(), &TEXT);
}
