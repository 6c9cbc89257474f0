//! The text of a script, from readers.

use crate::expecting::{expect_ok, expect_same};
use evloop_script::fault::Fault;
use evloop_script::input::read_text;
use std::io;
use std::io::{ErrorKind, Read};

/// Gives its bytes one at a time, and then fails or ends.
#[derive(Drop)]
struct Trickle {
    bytes: [u8; 4],
    given: usize,
    error: Option<ErrorKind>,
}

impl Read for Trickle {
    fn read(&mut self, buffer: &mut [u8]) -> io::Result<usize> {
        if buffer.is_empty() {
            return Ok(0);
        }
        if self.given < 4 {
            buffer[0] = self.bytes[self.given];
            self.given += 1;
            return Ok(1);
        }
        match self.error {
            Some(kind) => Err(io::Error::from(kind)),
            None => Ok(0),
        }
    }
}

fn make_trickle(error: Option<ErrorKind>) -> Trickle {
    Trickle {
        bytes: *b"run\n",
        given: 0,
        error,
    }
}

#[test]
fn all_bytes_are_read(rt: HostRuntime) {
    let text = expect_ok(&rt, read_text(rt.alloc(), &mut make_trickle(None)));
    expect_same(&rt, &text.as_str(), &"run\n");
    let mut bytes = "# \u{4e16}\n".as_bytes();
    let text = expect_ok(&rt, read_text(rt.alloc(), &mut bytes));
    expect_same(&rt, &text.as_str(), &"# \u{4e16}\n");
}

#[test]
fn a_failing_read_is_told(rt: HostRuntime) {
    let read = read_text(
        rt.alloc(),
        &mut make_trickle(Some(ErrorKind::ConnectionReset)),
    );
    expect_same(&rt, &read.err(), &Some(Fault::CannotRead));
}

#[test]
fn want_of_memory_while_reading_is_told(rt: HostRuntime) {
    let read = read_text(rt.alloc(), &mut make_trickle(Some(ErrorKind::OutOfMemory)));
    expect_same(&rt, &read.err(), &Some(Fault::OutOfMemory));
}

#[test]
fn other_encodings_are_refused(rt: HostRuntime) {
    let inputs = [
        b"run\n# \xe4\xb8".as_slice(),
        b"\xffrun now",
        b"run\n# \xed\xa0\x80\n",
    ];
    for bytes in inputs {
        let mut input = bytes;
        let read = read_text(rt.alloc(), &mut input);
        expect_same(&rt, &read.err(), &Some(Fault::CannotRead));
    }
}
