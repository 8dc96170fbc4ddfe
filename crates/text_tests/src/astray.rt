//! The lines at which bytes go astray that are no answer document.

use crate::checks::check_reply;
use crate::documents::FOUND;
use crate::two_operations::plain_names;
use answer_reader::{AnswerRefusal, read_answer};
use program_text::Names;
use std::alloc::{AllocError, Global};
use std::process::Abort;
use std::test::Fail;

// The document with other lines in place of one, by its number from 1.
fn with_line(alloc: Global, number: usize, lines: &str) -> Result<String, AllocError> {
    let mut text = String::new(alloc);
    for (place, line) in FOUND.lines().enumerate() {
        let other = (place + 1 == number).then_some(lines);
        add_line(&mut text, line, other)?;
    }
    Ok(text)
}

// Adds a line, or what stands in its place.
fn add_line(text: &mut String, line: &str, other: Option<&str>) -> Result<(), AllocError> {
    match other {
        Some(lines) => text.push_str(lines),
        None => add_whole_line(text, line),
    }
}

fn add_whole_line(text: &mut String, line: &str) -> Result<(), AllocError> {
    text.push_str(line)?;
    text.push_str("\n")
}

// What stands in place of a line of the document, by the line's number, and the line at which the bytes then go astray.
const ROWS: &[(usize, &str, u64)] = &[
    (1, "bfgp answer 2\n", 1),
    (1, "", 1),
    (2, "pointers 0\n", 2),
    (2, "pointers 5\n", 2),
    (2, "pointers 01\n", 2),
    (3, "lines 17\n", 3),
    (4, "instances 33\n", 4),
    (4, "instances  1\n", 4),
    (5, "verdict program 4\n", 5),
    (5, "verdict spent run 2 1\n", 5),
    (5, "verdict program 3\n", 12),
    (5, "verdict none\n", 12),
    (5, "verdict spent expansions 2\n", 12),
    (6, "tree 2\n", 6),
    (7, "f 1 0\n", 7),
    (7, "f 0 10000001\n", 7),
    (7, "s 0 0\n", 7),
    (7, "f 0 0\no\n", 8),
    (9, "s 1 0\n", 9),
    (9, "s 0 100000\n", 9),
    (10, "s 0 1\n", 10),
    (11, "l 0 3 3\n", 11),
    (11, "r 1\n", 11),
    (11, "f 0 1 \n", 11),
    // a child is lacking
    (11, "", 11),
    (12, "programs\n", 12),
    (13, "goto 1 if zero\n", 13),
    (13, "ACT light p0\n", 13),
    (14, "inc p0\n", 14),
    (15, "ends 1 1\n", 15),
    (15, "ends 0 10000001\n", 15),
    (15, "ends 0 1\nends 1 1\n", 16),
    // the document stops early
    (16, "", 16),
    (16, "end of answer", 16),
    (16, "end of answer\r\n", 16),
    (16, "end of answer\nx", 17),
    (16, "end of answer\n\n", 17),
];

/// Why a text is no answer document, if it is none.
fn refusal_of(alloc: Global, text: &[u8], names: &Names) -> Option<AnswerRefusal> {
    read_answer(alloc, text, names).err()
}

fn check_line<R: Abort>(rt: &R, alloc: Global, names: &Names, text: &str, astray: u64) {
    let refusal = refusal_of(alloc, text.as_bytes(), names);
    check_reply(rt, text, &refusal, &Some(AnswerRefusal::Line(astray)));
}

#[test]
fn the_line_at_which_bytes_go_astray(rt: HostRuntime) -> Result<(), Fail> {
    let names = plain_names(rt.alloc())?;
    for &(number, lines, astray) in ROWS {
        let text = with_line(rt.alloc(), number, lines)?;
        check_line(&rt, rt.alloc(), &names, text.as_str(), astray);
    }
    Ok(())
}

#[test]
fn no_bytes_go_astray_at_line_1(rt: HostRuntime) -> Result<(), Fail> {
    let names = plain_names(rt.alloc())?;
    check_line(&rt, rt.alloc(), &names, "", 1);
    Ok(())
}
