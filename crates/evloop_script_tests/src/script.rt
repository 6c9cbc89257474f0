//! The grammar as a whole: which scripts are taken, what they say, and which line is named where one is not.

use crate::expecting::{expect_ok, expect_same, expect_same_for};
use event_loop::{Events, Request};
use evloop_script::fault::Fault;
use evloop_script::script::{Call, Script, Wait, parse};
use std::fmt::Write;
use std::process::Abort;
use vmm_sys::epoll::RawFd;
use vmm_sys::errno::Errno;

const EVERY_LINE: &str = "# a comment\n\
    sub a add 3 IN 0 add 4 IN+OUT 7\n\
    batch 3:IN:0 -1:-:4294967295\n\
    sub b\n\
    ask a modify 4 OUT 8 remove 3 add 5 - 1\n\
    refuse delete 4 22\n\
    intr\n\
    run\n\
    drop a\n\
    batch\n\
    refuse add 3 12\n\
    refuse modify 2147483647 4095\n\
    ask b add 3 IN 0\n\
    run\n";

// Sets are numbers here; an event has the word that its data and descriptor make, and a call the place
// of its join.
const ITS_LISTS: &str = "join a add 3 1 0 add 4 5 7\n\
    join b\n\
    ask a 0 modify 4 4 8 remove 3 0 0 add 5 0 1\n\
    run\n\
    leave a 0\n\
    ask b 1 add 3 1 0\n\
    run\n\
    report 1:3 0:18446744073709551615\n\
    interrupted\n\
    report\n\
    Delete 4 22\n\
    Add 3 12\n\
    Modify 2147483647 4095\n";

#[test]
fn a_script_is_sorted_into_its_lists(rt: HostRuntime) {
    let script = expect_ok(&rt, parse(rt.alloc(), EVERY_LINE));
    let lists = lists_of(&rt, &script);
    expect_same(&rt, &lists.as_str(), &ITS_LISTS);
}

fn lists_of<R: Abort + AllocGlobal>(rt: &R, script: &Script) -> String {
    let mut text = String::new(rt.alloc());
    for call in &script.calls {
        push_call(rt, &mut text, call);
    }
    for wait in &script.waits {
        push_wait(rt, &mut text, wait);
    }
    for refusal in &script.refusals {
        let Errno(errno) = refusal.errno;
        let fd = refusal.fd;
        expect_ok(rt, writeln!(text, "{:?} {fd} {errno}", refusal.operation));
    }
    text
}

fn push_call<R: Abort>(rt: &R, text: &mut String, call: &Call) {
    match call {
        Call::Join { name, requests } => {
            expect_ok(rt, write!(text, "join {name}"));
            push_requests(rt, text, requests);
        }
        Call::Ask {
            name,
            join,
            requests,
        } => {
            expect_ok(rt, write!(text, "ask {name} {join}"));
            push_requests(rt, text, requests);
        }
        Call::Leave { name, join } => expect_ok(rt, write!(text, "leave {name} {join}")),
        Call::Run => expect_ok(rt, text.push_str("run")),
    }
    expect_ok(rt, text.push('\n'));
}

fn push_wait<R: Abort>(rt: &R, text: &mut String, wait: &Wait) {
    match wait {
        Wait::Report(events) => {
            expect_ok(rt, text.push_str("report"));
            for event in events {
                let bits = event.events();
                let word = event.data();
                expect_ok(rt, write!(text, " {bits}:{word}"));
            }
        }
        Wait::Interrupted => expect_ok(rt, text.push_str("interrupted")),
    }
    expect_ok(rt, text.push('\n'));
}

fn push_requests<R: Abort>(rt: &R, text: &mut String, requests: &[Request]) {
    for request in requests {
        let (operation, events) = match request {
            Request::Add(events) => ("add", events),
            Request::AddWithPriority(events, _) => ("addp", events),
            Request::Modify(events) => ("modify", events),
            Request::Remove(events) => ("remove", events),
        };
        let fd = events.fd();
        let bits = events.event_set().bits();
        let data = events.data();
        expect_ok(rt, write!(text, " {operation} {fd} {bits} {data}"));
    }
}

// Reports, and the bits and word of each event.
const REPORTED: [(&str, &str); 7] = [
    ("batch 5:IN:42", "report 1:180388626437\n"),
    ("batch 5:OUT:43", "report 4:184683593733\n"),
    ("batch -1:IN:0", "report 1:4294967295\n"),
    ("batch -2147483648:-:0", "report 0:2147483648\n"),
    ("batch -2147483648:IN:1", "report 1:6442450944\n"),
    (
        "batch 2147483647:IN:4294967295",
        "report 1:18446744071562067967\n",
    ),
    ("batch 0005:IN:0042", "report 1:180388626437\n"),
];

#[test]
fn words_of_reported_events(rt: HostRuntime) {
    for (text, want) in REPORTED {
        let script = expect_ok(&rt, parse(rt.alloc(), text));
        let lists = lists_of(&rt, &script);
        expect_same(&rt, &lists.as_str(), &want);
    }
}

// Whole scripts; the first is empty.
const TAKEN: &str =
    "; \n; \n\n\n; run; run\n; run\r\n;  \t\r run \t\r \n; \t\tbatch\t3:IN:0\r4:IN:0  5:IN:0\r\n; #\n;   # run now\n; \
    #run now\n; # \u{e9}\u{4e16}\n; intr; batch; sub a; sub A_z0_9\n; \
    sub abcdefghijklmnopqrstuvwxyz012345\n; sub 7 add 3 IN 0\nask 7 remove 3\n; \
    sub a add 2147483647 IN 4294967295\n; sub a add 003 IN 00\n; \
    sub run add 3 EXCLUSIVE+ONE_SHOT 0\nask run remove 3\n; sub a add 3 - 0 add 3 - 0\n; \
    sub a\nsub b\nask b remove 3\nask a remove 3\n; on a 3 remove 3\nsub a\n; \
    sub a\non a 003 add 4 IN 0 modify 4 OUT 1 remove 4\non a 3 remove 3\n; \
    sub a\ndrop a\ndrop a\nask a remove 3\n; sub on\nsub drop\non on 3 remove 3\ndrop drop\n; \
    refuse add 0 1\nrefuse modify 2147483647 4095\nrefuse delete 0007 0022\n";

#[test]
fn scripts_that_are_taken(rt: HostRuntime) {
    for text in TAKEN.split("; ") {
        expect_same_for(&rt, &parse(rt.alloc(), text).err(), &None, &text);
    }
}

const OTHER_WORDS: &str = "go; Run; run now; run #; intr 4; x; -; \u{e9}; run\u{b}; run\u{a0}";

#[test]
fn other_words_are_bad(rt: HostRuntime) {
    are_bad(&rt, OTHER_WORDS);
}

const BAD_REACTIONS_AND_LEAVES: &str =
    "on; on a; on a 3; on a remove 3; on a -3 remove 3; on a 2147483648 remove 3; on a 3 go; \
    on a 3 remove; on a 3 remove 3 #; on a-b 3 remove 3; on b 3 remove 3; drop; drop b; drop a a; \
    drop a-b";

const BAD_NAMES: &str =
    "sub; sub a-b; sub a.b; sub \u{e9}; sub #; sub -; sub abcdefghijklmnopqrstuvwxyz0123456";

const BAD_REQUESTS: &str =
    "sub z add; sub z add 3; sub z add 3 IN; sub z add 3 IN 0 4; sub z add 3 IN 0 add; \
    sub z add IN 3 0; sub z modify 3 IN 0; sub z remove 3; sub z add 3 IN 0 remove 3; sub z delete 3; \
    sub z add -3 IN 0; sub z add -0 IN 0; sub z add 2147483648 IN 0; sub z add 3 IN 4294967296; \
    sub z add 3 IN+ 0; sub z add 3 +IN 0; sub z add 3 in 0; sub z add 3 IN -1; sub z add 3 IN +1; \
    sub z add 3 IN #; sub z addp 3 IN 0; sub z addp 3 IN 0 4; sub z add 3 IN 1000000000000000000000; \
    ask; ask a; ask a remove; ask a remove -3; ask a remove 3 4; ask a modify 3 IN; \
    ask a add 3 IN 0 go; ask b remove 3; ask A remove 3; sub a";

#[test]
fn bad_requests(rt: HostRuntime) {
    are_bad(&rt, BAD_REQUESTS);
}

const BAD_ITEMS: &str =
    "batch 3; batch 3:IN; batch 3:IN:0:0; batch 3:IN:; batch :IN:0; batch 3::0; batch ::; \
    batch 3:IN:-1; batch -0:IN:0; batch -00:IN:0; batch -2147483649:IN:0; batch 2147483648:IN:0; \
    batch 3:IN:4294967296; batch +3:IN:0; batch 3:-+IN:0; batch 3:IN:0 3; batch 3 :IN:0; \
    batch --3:IN:0; batch 3:IN:0,4:IN:0; batch #";

const BAD_REFUSALS: &str =
    "refuse; refuse add 3; refuse add 3 22 1; refuse remove 3 22; refuse Add 3 22; refuse add -1 22; \
    refuse add 2147483648 22; refuse add 3 0; refuse add 3 4096; refuse add 3 -22; refuse add 3 ENOENT";

#[test]
fn bad_names_reactions_leaves_items_and_refusals(rt: HostRuntime) {
    for lines in [BAD_NAMES, BAD_REACTIONS_AND_LEAVES, BAD_ITEMS, BAD_REFUSALS] {
        are_bad(&rt, lines);
    }
}

// Each line is bad as the fourth, behind a comment, an empty line and a join of `a`.
fn are_bad<R: Abort + AllocGlobal>(rt: &R, lines: &str) {
    for line in lines.split("; ") {
        expect_same_for(rt, &refused(rt, line), &Some(Fault::BadScript(4)), &line);
    }
}

// What is answered where the line is the fourth, behind a comment, an empty line and a join of `a`.
fn refused<R: AllocGlobal>(rt: &R, line: &str) -> Option<Fault> {
    let text = format!(in rt.alloc(); "# first\n\nsub a\n{line}\nrun now").ok()?;
    parse(rt.alloc(), text.as_str()).err()
}

// Scripts, and the number of the first bad line.
const FIRST_BAD_LINES: [(&str, usize); 19] = [
    ("run now", 1),
    ("\nrun now", 2),
    ("run\nrun\nrun now\nintr 4\n", 3),
    ("# run now\r\n \t \r\nrun now\n", 3),
    ("ask a remove 3\nsub a\n", 1),
    ("sub a\nsub b\nsub a\nsub b\n", 3),
    ("sub a add 3 IN\nask a remove 3\n", 1),
    ("run\nbatch 3:IN:0\nrun now", 3),
    ("drop a\nsub a\n", 1),
    ("on a 3 remove 3\nrun\n", 1),
    ("run\non a 3 remove 3\nrun now\n", 2),
    ("run now\non a 3 remove 3\n", 1),
    ("on a 3 remove 3\nsub a add 3 IN\n", 1),
    ("on a 3 remove 3\nrun now\nsub a\n", 2),
    ("on a 3 remove 3\nrun now\nsub a add 3 IN\n", 1),
    ("on a 3 remove 3\nsub a\nsub a\n", 3),
    ("on b 3 remove 3\non a 3 remove 3\nsub a\n", 1),
    ("on a 3 remove 3\non b 3 remove 3\nsub a\n", 2),
    (
        "sub a\n#\non a 3 remove 3\non b 3 remove\non b 3 remove 3\n",
        4,
    ),
];

#[test]
fn the_first_bad_line_is_named(rt: HostRuntime) {
    for (text, line) in FIRST_BAD_LINES {
        let fault = parse(rt.alloc(), text).err();
        expect_same_for(&rt, &fault, &Some(Fault::BadScript(line)), &text);
    }
}

#[test]
fn reactions_stand_by_name_and_descriptor(rt: HostRuntime) {
    let text =
        "on a 3 remove 4\nsub a\non b 3 remove 5\nsub b\non a 4 remove 6\non a 3 remove 7 remove 8\n";
    let mut script = expect_ok(&rt, parse(rt.alloc(), text));
    let table = [
        (0, 3, " remove 4 0 0"),
        (0, 4, " remove 6 0 0"),
        (0, 3, " remove 7 0 0 remove 8 0 0"),
        (0, 3, ""),
        (0, 5, ""),
        (1, 4, ""),
        (1, 3, " remove 5 0 0"),
    ];
    for (join, fd, want) in table {
        let next = next_reaction(&rt, &mut script, join, fd);
        expect_same(&rt, &next.as_str(), &want);
    }
}

// The requests of the next event of the descriptor.
fn next_reaction<R: Abort + AllocGlobal>(
    rt: &R,
    script: &mut Script,
    join: usize,
    fd: u8,
) -> String {
    let mut text = String::new(rt.alloc());
    let reactions = expect_ok(rt, script.reactions.get_mut(join).ok_or("no such join"));
    if let Some(requests) = reactions.next(Events::empty_raw(RawFd::from(fd))) {
        push_requests(rt, &mut text, &requests);
    }
    text
}

// A text with another behind it, `count` times.
fn repeated<R: Abort + AllocGlobal>(rt: &R, text: &str, part: &str, count: u32) -> String {
    let mut whole = expect_ok(rt, String::from_str(rt.alloc(), text));
    for _ in 0..count {
        expect_ok(rt, whole.push_str(part));
    }
    whole
}

#[test]
fn thousands_of_lines_are_taken(rt: HostRuntime) {
    let text = repeated(&rt, "sub a\n", "batch 3:IN:0\nrun\n", 2000);
    let script = expect_ok(&rt, parse(rt.alloc(), text.as_str()));
    expect_same(&rt, &script.calls.len(), &2001);
    expect_same(&rt, &script.waits.len(), &2000);
}

#[test]
fn hundreds_of_reactions_are_taken(rt: HostRuntime) {
    let text = repeated(&rt, "sub a\n", "on a 3 remove 3\n", 500);
    let mut script = expect_ok(&rt, parse(rt.alloc(), text.as_str()));
    for _ in 0..500 {
        let next = next_reaction(&rt, &mut script, 0, 3);
        expect_same(&rt, &next.as_str(), &" remove 3 0 0");
    }
}

#[test]
fn hundreds_of_requests_of_one_line_are_taken(rt: HostRuntime) {
    let text = repeated(&rt, "sub a\nask a", " modify 3 OUT 1", 500);
    let want = repeated(&rt, "join a\nask a 0", " modify 3 4 1", 500);
    let script = expect_ok(&rt, parse(rt.alloc(), text.as_str()));
    let lists = lists_of(&rt, &script);
    expect_same(&rt, &lists.as_str().trim_end(), &want.as_str());
}
