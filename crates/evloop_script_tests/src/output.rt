//! What is printed, also to outputs that take little, refuse a write or have no second handle.

ghost use Rattle.std.specs.Prelude.{◌≤◌, length, IfOk};

use crate::expecting::{expect_ok, expect_same};
use event_loop::{EventLoop, EventSet, Events, Request, SubscriberOps};
use evloop_script::fault::Fault;
use evloop_script::output::{Out, OutputLine, Printer};
use evloop_script::reactions::Reactions;
use evloop_script::requests::print_replies;
use evloop_script::subscriber::Subscriber;
use std::cell::RefCell;
use std::io;
use std::io::{ErrorKind, Write};
use std::process::Abort;
use std::rc::Rc;
use vmm_sys::epoll::EpollEvent;
use vmm_sys::script_poller::ScriptPoller;

/// What an output takes: at most `at_most` bytes a write, and not the write numbered `refused`, counted from 0.
#[derive(Clone, Copy)]
struct Terms {
    at_most: usize,
    refused: Option<u64>,
    error: ErrorKind,
}

/// Takes all that it is given, and at once.
const ALL: Terms = Terms {
    at_most: 65536,
    refused: None,
    error: ErrorKind::StorageFull,
};

/// The same but for the write of this number.
fn but_for(number: u64) -> Terms {
    Terms {
        refused: Some(number),
        ..ALL
    }
}

/// What was written so far.
#[derive(Drop)]
struct Page {
    bytes: Vec<u8>,
    writes: u64,
    terms: Terms,
}

/// An output in memory. Its handles write to one page, and `handles` more of them can be made.
#[derive(Drop)]
struct Memory {
    page: Rc<RefCell<Page>>,
    handles: u64,
}

impl Page {
    fn put(&mut self, bytes: &[u8]) -> io::Result<usize>
        ensures { IfOk result (λ count. count ≤ length bytes.now) }
    {
        let write = self.writes;
        self.writes = write.saturating_add(1);
        if self.terms.refused == Some(write) {
            return Err(io::Error::from(self.terms.error));
        }
        let count = bytes.len().min(self.terms.at_most);
        self.bytes.extend_from_slice(&bytes[..count])?;
        Ok(count)
    }
}

impl Write for Memory {
    fn write(&mut self, bytes: &[u8]) -> io::Result<usize> {
        match self.page.try_borrow_mut() {
            Ok(mut page) => page.put(bytes),
            Err(_) => Err(io::Error::from(ErrorKind::WouldBlock)),
        }
    }

    fn flush(&mut self) -> io::Result<()> {
        Ok(())
    }
}

impl Out for Memory {
    fn try_clone(&self) -> Option<Memory> {
        let handles = self.handles.checked_sub(1)?;
        let page = self.page.clone().ok()?;
        Some(Memory { page, handles })
    }
}

// Expects that this was written.
fn expect_text<R: Abort>(rt: &R, page: &RefCell<Page>, expected: &str) {
    let page = expect_ok(rt, page.try_borrow());
    let text = expect_ok(rt, std::str::from_utf8(&page.bytes));
    expect_same(rt, &text, &expected);
}

// A printer on an output of these terms, and what is written to it.
fn printer_on<R: Abort + AllocGlobal>(
    rt: &R,
    terms: Terms,
) -> (Rc<RefCell<Page>>, Printer<Memory>) {
    let page = Page {
        bytes: Vec::new(rt.alloc()),
        writes: 0,
        terms,
    };
    let page = expect_ok(rt, Rc::new(rt.alloc(), RefCell::new(page)));
    let out = Memory {
        page: expect_ok(rt, page.clone()),
        handles: 0,
    };
    (page, expect_ok(rt, Printer::new(rt.alloc(), out)))
}

// A leave of eleven bytes with its end, and a run of seven.
const LEFT: OutputLine = OutputLine::Left {
    name: "a",
    answer: Ok(()),
};

const RAN: OutputLine = OutputLine::Ran { answer: Ok(0) };

#[test]
fn an_output_that_takes_single_bytes_loses_nothing(rt: HostRuntime) {
    let (page, mut printer) = printer_on(&rt, Terms { at_most: 1, ..ALL });
    expect_ok(&rt, printer.print(&LEFT));
    expect_ok(&rt, printer.print(&RAN));
    expect_text(&rt, &page, "drop a: ok\nrun: 0\n");
}

// The output takes five bytes a write.
#[test]
fn a_line_refused_in_the_middle_keeps_its_beginning(rt: HostRuntime) {
    let terms = Terms {
        at_most: 5,
        refused: Some(1),
        ..ALL
    };
    let (page, mut printer) = printer_on(&rt, terms);
    let refused = printer.print(&LEFT);
    expect_same(&rt, &refused.err(), &Some(Fault::CannotWrite));
    expect_ok(&rt, printer.print(&RAN));
    expect_text(&rt, &page, "drop run: 0\n");
}

#[test]
fn an_interrupted_write_is_tried_again(rt: HostRuntime) {
    for write in [0, 1, 2, 3] {
        let terms = Terms {
            at_most: 5,
            refused: Some(write),
            error: ErrorKind::Interrupted,
        };
        let (page, mut printer) = printer_on(&rt, terms);
        expect_ok(&rt, printer.print(&LEFT));
        expect_ok(&rt, printer.print(&RAN));
        expect_text(&rt, &page, "drop a: ok\nrun: 0\n");
    }
}

#[test]
fn an_output_without_another_handle_is_want_of_memory(rt: HostRuntime) {
    let (_page, printer) = printer_on(&rt, ALL);
    let copied = printer.try_clone(rt.alloc());
    expect_same(&rt, &copied.err(), &Some(Fault::OutOfMemory));
}

const LINES: [&str; 5] = [
    "reply a add 3: ok\n",
    "reply a add 4: ok\n",
    "deliver a 3 IN 0\n",
    "reply a modify 3: ok\n",
    "reply a remove 3: ok\n",
];

// The subscriber asks for two descriptors, and at an event of the first changes it and takes it out.
fn make_subscriber<R: Abort + AllocGlobal>(
    rt: &R,
    printer: Printer<Memory>,
) -> Subscriber<'static, Memory> {
    let alloc = rt.alloc();
    let own = Events::with_data_raw(3, 0, EventSet::IN);
    let other = Events::with_data_raw(4, 0, EventSet::IN);
    let first = vec![in alloc; Request::Add(own), Request::Add(other)];
    let reaction = vec![in alloc; Request::Modify(own), Request::Remove(own)];
    let mut reactions = Reactions::new(alloc);
    expect_ok(rt, reactions.push(alloc, 3, expect_ok(rt, reaction)));
    Subscriber::new("a", expect_ok(rt, first), reactions, printer)
}

// One event of descriptor 3.
fn make_poller<R: Abort + AllocGlobal>(rt: &R) -> ScriptPoller {
    let mut poller = ScriptPoller::new(rt.alloc());
    let report = vec![in rt.alloc(); EpollEvent::new(EventSet::IN, 3)];
    expect_ok(rt, poller.push_report(expect_ok(rt, report)));
    poller
}

#[test]
fn a_subscriber_drops_a_line_that_cannot_be_written(rt: HostRuntime) {
    for write in 0..5 {
        let (page, printer) = printer_on(&rt, but_for(write));
        let mut running = expect_ok(&rt, EventLoop::new(rt.alloc(), make_poller(&rt)));
        let subscriber = make_subscriber(&rt, printer);
        expect_ok(&rt, running.add_subscriber(subscriber));
        expect_same(&rt, &running.run_with_timeout(0), &Ok(1));
        let mut want = String::new(rt.alloc());
        for (line, number) in LINES.iter().zip(0..5) {
            if number != write {
                expect_ok(&rt, want.push_str(line));
            }
        }
        expect_text(&rt, &page, &want);
    }
}

#[test]
fn a_reply_behind_one_that_cannot_be_written_is_written(rt: HostRuntime) {
    let (page, mut printer) = printer_on(&rt, but_for(0));
    let own = Events::empty_raw(3);
    let requests = [Request::Modify(own), Request::Remove(own)];
    print_replies("a", &requests, &[Ok(()), Ok(())], &mut printer);
    expect_text(&rt, &page, "reply a remove 3: ok\n");
}
