//! Answer documents: read, and written again byte for byte.

use crate::checks::{check_reply, check_written};
use crate::sinks::{failing_sink, sink_of};
use crate::two_operations::plain_names;
use answer_reader::{AnswerRefusal, read_answer};
use answer_writer::write_answer;
use bfgp_outside::MemorySink;
use program_text::Names;
use std::alloc::Global;
use std::test::Fail;

/// A program of two lines was found.
pub const FOUND: &str = "bfgp answer 1
pointers 1
lines 3
instances 1
verdict program 2
tree 1
f 0 0
tree 2
s 0 0
g
f 0 1
program
act light p0
end
ends 0 1
end of answer
";

// No program of two lines was.
const NONE: &str = "bfgp answer 1
pointers 4
lines 2
instances 32
verdict none
tree 1
f 31 10000000
tree 2
s 0 99999
l 0 0 10000000
t
end of answer
";

// The budget of splits was spent at size 3, where a line was split below another.
const SPENT_EXPANSIONS: &str = "bfgp answer 1
pointers 2
lines 16
instances 2
verdict spent expansions 3
tree 1
o
tree 2
o
tree 3
s 1 0
s 0 7
f 0 1
o
r 1
l 1 3 6
l 1 1 2
t
g
o
f 1 2
o
t
end of answer
";

// A run was at its limit at size 1.
const SPENT_RUN: &str = "bfgp answer 1
pointers 3
lines 1
instances 2
verdict spent run 1 1
tree 1
r 1
end of answer
";

/// Reads a document and writes it to a sink, and tells whether it was put; a document that is refused is not.
fn write_again(
    alloc: Global,
    names: &Names,
    document: &str,
    sink: &mut MemorySink,
) -> Result<bool, AnswerRefusal> {
    let answer = read_answer(alloc, document.as_bytes(), names)?;
    Ok(write_answer(sink, &answer, names).is_ok())
}

#[test]
fn documents_that_are_read_are_written_as_they_were(rt: HostRuntime) -> Result<(), Fail> {
    let names = plain_names(rt.alloc())?;
    for document in [FOUND, NONE, SPENT_EXPANSIONS, SPENT_RUN] {
        let mut sink = sink_of(rt.alloc(), 16)?;
        assert!(rt; write_again(rt.alloc(), &names, document, &mut sink)?);
        check_written(&rt, &sink, document);
    }
    Ok(())
}

// A document that is short is put in one piece, so that no second put fails.
#[test]
fn a_document_is_put_in_one_piece(rt: HostRuntime) -> Result<(), Fail> {
    let names = plain_names(rt.alloc())?;
    for (call, want) in [(0, ""), (1, FOUND)] {
        let mut sink = failing_sink(rt.alloc(), 1024, call)?;
        let is_put = write_again(rt.alloc(), &names, FOUND, &mut sink)?;
        check_reply(&rt, want, &is_put, &(call == 1));
        check_written(&rt, &sink, want);
    }
    Ok(())
}
