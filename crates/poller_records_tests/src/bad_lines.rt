//! Texts that are no records: which line is named, and why.

use crate::expecting::{expect_ok, expect_same, expect_same_for};
use crate::first_bad::first_bad_line;
use poller_records::fault::{LineFault, RecordFault};
use poller_records::text::read_record;
use std::process::Abort;

/// Expects of each line, as the second of three, that it is bad for this reason.
fn expect_bad<R: Abort + AllocGlobal>(rt: &R, lines: &str, fault: LineFault) {
    for line in lines.split("; ") {
        let text = format!(in rt.alloc(); "wait 0 8 ok 1\n{line}\nwait 0 8 ok 1\n");
        let text = expect_ok(rt, text);
        let found = read_record(rt.alloc(), text.as_str()).err();
        let expected = RecordFault::BadLine { number: 2, fault };
        expect_same_for(rt, &found, &Some(expected), &line);
    }
}

/// Lines with another word in front; the first is empty.
const OTHER_WORDS: &str =
    ";  ; remove 5 1 12 ok; Add 5 1 12 ok; add: 5 1 12 ok;  add 5 1 12 ok; events 1 12; \tevent 1 12; \
    ok; 5";

#[test]
fn an_entry_has_one_of_five_words_in_front(rt: HostRuntime) {
    expect_bad(&rt, OTHER_WORDS, LineFault::UnknownEntry);
}

/// Lines without a field, or with one more.
const OTHER_FIELDS: &str =
    "add; modify 5; delete 5 1; wait; wait 0; event; event 1; event 1 12 ok; event 1 12 ; event 1  12";

#[test]
fn an_entry_has_each_of_its_fields(rt: HostRuntime) {
    expect_bad(&rt, OTHER_FIELDS, LineFault::WrongFields);
}

/// Lines with a number that is none of its type.
const BAD_NUMBERS: &str =
    "event  12; event x 12; event 0x1 12; event 01 12; event +1 12; event -1 12; event 00 12; \
    event 4294967296 12; event 1 18446744073709551616; event 1 12\r; event 1 1_2; event 1 \u{0661}; \
    add 2147483648 1 12 ok; add -2147483649 1 12 ok; add -0 1 12 ok; add -05 1 12 ok; add +5 1 12 ok; \
    add -- 1 12 ok; add - 1 12 ok; wait 1.5 8 ok 1; wait 0 -1 ok 1; wait 0 8 ok -1; wait 0 8 ok ; \
    wait 0 8 error 04; add 5 1 12 error x; add 5 1 12 error ";

#[test]
fn numbers_are_in_range_and_written_in_one_way(rt: HostRuntime) {
    expect_bad(&rt, BAD_NUMBERS, LineFault::BadNumber);
}

/// Lines with an answer that the call can not have.
const BAD_ANSWERS: &str =
    "add 5 1 12; add 5 1 12 ; add 5 1 12 OK; add 5 1 12 ok 0; add 5 1 12 ok ; add 5 1 12 error; \
    add 5 1 12 error 2 2; wait 0 8; wait 0 8 ok; wait 0 8 1; wait 0 8 ok 1 2; wait 0 8 error; \
    wait 0 8 fail 4";

#[test]
fn an_answer_is_one_that_the_call_can_have(rt: HostRuntime) {
    expect_bad(&rt, BAD_ANSWERS, LineFault::BadAnswer);
}

#[test]
fn a_line_ends_with_a_newline(rt: HostRuntime) {
    for text in [
        "event 1 12\nevent 1 12",
        "event 1 12\nx",
        "event 1 12\n\u{0}",
    ] {
        let found = read_record(rt.alloc(), text).err();
        let expected = RecordFault::BadLine {
            number: 2,
            fault: LineFault::NoEnd,
        };
        expect_same_for(&rt, &found, &Some(expected), &text);
    }
}

#[test]
fn the_first_bad_line_is_named(rt: HostRuntime) {
    let found = read_record(rt.alloc(), "event 1 12\nevent\nadd\n\n").err();
    let expected = RecordFault::BadLine {
        number: 2,
        fault: LineFault::WrongFields,
    };
    expect_same(&rt, &found, &Some(expected));
}

#[test]
fn a_text_has_one_first_bad_line_or_none(rt: HostRuntime) {
    let texts = [
        ("", None),
        ("event 1 12\nwait 0 8 ok 1\n", None),
        ("\n", Some(1)),
        ("event 1 12\nevent\nadd\n\n", Some(2)),
        ("event 1 12\nevent 1 12\nevent 1 12", Some(3)),
    ];
    for (text, line) in texts {
        let found = expect_ok(&rt, first_bad_line(rt.alloc(), text));
        expect_same_for(&rt, &found, &line, &text);
    }
}

#[test]
fn faults_have_their_texts(rt: HostRuntime) {
    let table = [
        (LineFault::UnknownEntry, "line 7: unknown entry"),
        (LineFault::WrongFields, "line 7: wrong number of fields"),
        (LineFault::BadNumber, "line 7: bad number"),
        (LineFault::BadAnswer, "line 7: bad answer"),
        (LineFault::NoEnd, "line 7: no end of line"),
    ];
    for (fault, expected) in table {
        let bad = RecordFault::BadLine { number: 7, fault };
        let text = expect_ok(&rt, bad.to_string(rt.alloc()));
        expect_same(&rt, &text.as_str(), &expected);
    }
    let text = expect_ok(&rt, RecordFault::OutOfMemory.to_string(rt.alloc()));
    expect_same(&rt, &text.as_str(), &"out of memory");
}
