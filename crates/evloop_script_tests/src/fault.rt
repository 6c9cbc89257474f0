//! The texts of faults.

use crate::expecting::{expect_ok, expect_same};
use event_loop::Error;
use evloop_script::fault::Fault;
use vmm_sys::errno::Errno;

#[test]
fn faults_have_their_texts(rt: HostRuntime) {
    let table = [
        (Fault::BadScript(1), "line 1: bad script"),
        (Fault::BadScript(20001), "line 20001: bad script"),
        (Fault::CannotRead, "cannot read the script"),
        (Fault::CannotWrite, "cannot write"),
        (Fault::OutOfMemory, "out of memory"),
        (
            Fault::Manager(Error::Epoll(Errno(22))),
            "event_manager: failed to manage epoll file descriptor: os error 22",
        ),
    ];
    for (fault, want) in table {
        let text = expect_ok(&rt, fault.to_string(rt.alloc()));
        expect_same(&rt, &text.as_str(), &want);
    }
}
