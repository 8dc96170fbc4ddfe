//! Documents of searches: read, and written again byte for byte; and where they go astray.

use crate::calls::{asked, document_of};
use crate::changes::with_line;
use answer_reader::{AnswerRefusal, read_answer};
use answer_writer::write_answer;
use bfgp_outside::MemorySink;
use program_text::Names;
use std::alloc::Global;
use std::process::Abort;
use std::test::Fail;

// The names of the operations of a search over one pointer.
fn names_of(alloc: Global) -> Result<Names, Fail> {
    let words = "check --pointers 1 --lines 3 --answer answer lights unlit";
    let (_job, machine) = asked(alloc, words)?;
    Ok(Names::build(alloc, machine.op_texts(alloc)?)?)
}

#[test]
fn documents_that_are_read_are_written_as_they_were(rt: HostRuntime) -> Result<(), Fail> {
    let names = names_of(rt.alloc())?;
    for search in [
        "synth --pointers 1 --lines 3 lights unlit",
        "synth --pointers 1 --lines 3 lights two",
        "synth --pointers 1 --lines 3 lights two three",
    ] {
        let document = document_of(rt.alloc(), search)?;
        check_written_again(&rt, rt.alloc(), &names, document.as_str())?;
    }
    Ok(())
}

fn check_written_again<R: Abort>(
    rt: &R,
    alloc: Global,
    names: &Names,
    document: &str,
) -> Result<(), Fail> {
    let Ok(answer) = read_answer(alloc, document.as_bytes(), names) else {
        return Err(Fail::new("no answer"));
    };
    let mut sink = MemorySink::new(alloc, 4096, 16)?;
    assert!(rt; write_answer(&mut sink, &answer, names).is_ok());
    assert_eq!(rt; sink.written(), document.as_bytes());
    Ok(())
}

// Without its last line, without a child, and with a byte after its end.
#[test]
fn the_line_at_which_a_document_goes_astray(rt: HostRuntime) -> Result<(), Fail> {
    let names = names_of(rt.alloc())?;
    let lit = document_of(rt.alloc(), "synth --pointers 1 --lines 3 lights unlit")?;
    let cut = with_line(rt.alloc(), lit.as_str(), 19, "")?;
    let lacking = with_line(rt.alloc(), lit.as_str(), 11, "")?;
    let longer = format!(in rt.alloc(); "{lit}x")?;
    for (document, line) in [
        (cut.as_str(), 19),
        (lacking.as_str(), 14),
        (longer.as_str(), 20),
    ] {
        let refusal = read_answer(rt.alloc(), document.as_bytes(), &names).err();
        assert_eq!(rt; refusal, Some(AnswerRefusal::Line(line)), "{document}");
    }
    Ok(())
}
