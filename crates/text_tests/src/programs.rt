//! Program texts: read, and written again.

use crate::checks::{check_bytes, check_reply, check_written};
use crate::sinks::{failing_sink, sink_of};
use crate::two_operations::{plain_names, two_names};
use bfgp_outside::MemorySink;
use flag_rules::{Cond, MAX_FILE_BYTES};
use program_model::Instr;
use program_text::{Names, ProgramRefusal, instr_len, read_program, write_instr, write_program};
use std::alloc::Global;
use std::process::Abort;
use std::test::Fail;

// A text, and the program that it says, as it is written, or why it says none.
type Row = (&'static str, Result<&'static str, ProgramRefusal>);

const ROWS: &[Row] = &[
    ("end", Ok("end\n")),
    ("act light p0\nend\n", Ok("act light p0\nend\n")),
    ("  ACT Light  P0 ; on\n\nEnd", Ok("act light p0\nend\n")),
    (
        "; a comment\n\t\r\n\tinc\t p0\r\n;\nend;;end",
        Ok("inc p0\nend\n"),
    ),
    (
        "inc p0\ninc p0\nGOTO  0 IF NonZero\nend",
        Ok("inc p0\ninc p0\ngoto 0 if nonzero\nend\n"),
    ),
    (
        "goto 2 if carry\ninc p0\nend",
        Ok("goto 2 if carry\ninc p0\nend\n"),
    ),
    ("", Err(ProgramRefusal::NoEnd)),
    ("; end", Err(ProgramRefusal::NoEnd)),
    ("act light p0", Err(ProgramRefusal::NoEnd)),
    ("end\ninc p0\n", Err(ProgramRefusal::NoEnd)),
    ("goto 1 if zero\nend", Err(ProgramRefusal::Line(1))),
    (
        "\ninc p0\n\ngoto 1 if zero\nend",
        Err(ProgramRefusal::Line(4)),
    ),
    ("goto 02 if zero\ninc p0\nend", Err(ProgramRefusal::Line(1))),
    ("goto 3 if zero\ninc p0\nend", Err(ProgramRefusal::Line(1))),
    (
        "goto 2 if nozero\ninc p0\nend",
        Err(ProgramRefusal::Line(1)),
    ),
    ("inc p0\nend\nend", Err(ProgramRefusal::Line(2))),
    ("inc p0\ninc p1\nend", Err(ProgramRefusal::Line(2))),
    ("inc\u{c}p0\nend", Err(ProgramRefusal::Line(1))),
    ("inc p0 \u{e9}\nend", Err(ProgramRefusal::Line(1))),
    (
        "a\na\na\na\na\na\na\na\na\na\na\na\na\na\na\na",
        Err(ProgramRefusal::NoEnd),
    ),
    (
        "a\na\na\na\na\na\na\na\na\na\na\na\na\na\na\na\n\na",
        Err(ProgramRefusal::TooLong(17)),
    ),
];

/// Reads a program and writes it to a sink, and tells whether it was put.
fn write_again(
    alloc: Global,
    names: &Names,
    text: &str,
    sink: &mut MemorySink,
) -> Result<bool, ProgramRefusal> {
    if text.len() > MAX_FILE_BYTES {
        return Err(ProgramRefusal::OutOfMemory);
    }
    let program = read_program(alloc, text.as_bytes(), names)?;
    Ok(write_program(sink, names, &program).is_ok())
}

// That a program was put, where there is one.
fn put_of(want: Result<&str, ProgramRefusal>) -> Result<bool, ProgramRefusal> {
    match want {
        Ok(_) => Ok(true),
        Err(refusal) => Err(refusal),
    }
}

fn check_row<R: Abort>(rt: &R, alloc: Global, names: &Names, row: Row) -> Result<(), Fail> {
    let (text, want) = row;
    let mut sink = sink_of(alloc, 7)?;
    let is_put = write_again(alloc, names, text, &mut sink);
    check_reply(rt, text, &is_put, &put_of(want));
    check_written(rt, &sink, want.unwrap_or(""));
    Ok(())
}

#[test]
fn program_texts_are_read_and_written_back(rt: HostRuntime) -> Result<(), Fail> {
    let names = plain_names(rt.alloc())?;
    for &row in ROWS {
        check_row(&rt, rt.alloc(), &names, row)?;
    }
    Ok(())
}

const JUMP: Instr = Instr::Goto {
    target: 10,
    cond: Cond::Nocarry,
};

#[test]
fn the_length_of_an_instruction_is_told(rt: HostRuntime) -> Result<(), Fail> {
    let names = two_names(rt.alloc())?;
    assert_eq!(rt; instr_len(&names, JUMP), 19);
    assert_eq!(rt; instr_len(&names, Instr::Op(0)), 13);
    Ok(())
}

fn put_jump(names: &Names, sink: &mut MemorySink) -> bool {
    write_instr(sink, names, JUMP).is_ok()
}

#[test]
fn an_instruction_is_put_until_a_put_fails(rt: HostRuntime) -> Result<(), Fail> {
    let names = plain_names(rt.alloc())?;
    for (call, want) in [
        (0, ""),
        (2, "goto 10 "),
        (4, "goto 10 if nocar"),
        (5, "goto 10 if nocarry\n"),
    ] {
        let mut sink = failing_sink(rt.alloc(), 4, call)?;
        check_reply(&rt, want, &put_jump(&names, &mut sink), &(call == 5));
        check_written(&rt, &sink, want);
    }
    Ok(())
}

// A program that is short is put in one piece, so that no second put fails.
#[test]
fn a_program_is_put_in_one_piece(rt: HostRuntime) -> Result<(), Fail> {
    let names = plain_names(rt.alloc())?;
    let text = "inc p0\ngoto 0 if zero\nend";
    for (call, want) in [(0, ""), (1, "inc p0\ngoto 0 if zero\nend\n")] {
        let mut sink = failing_sink(rt.alloc(), 64, call)?;
        let is_put = write_again(rt.alloc(), &names, text, &mut sink)?;
        check_reply(&rt, want, &is_put, &(call == 1));
        check_written(&rt, &sink, want);
    }
    Ok(())
}

#[test]
fn names_are_found(rt: HostRuntime) -> Result<(), Fail> {
    let names = two_names(rt.alloc())?;
    assert_eq!(rt; names.count(), 2);
    check_bytes(&rt, names.text(1), "inc p0");
    assert_eq!(rt; names.find(b"inc p0"), Some(1));
    assert_eq!(rt; names.find(b"inc p"), None);
    Ok(())
}
