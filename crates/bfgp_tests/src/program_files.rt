use crate::calls::{check, lines_of, shelf_of};
use std::alloc::Global;
use std::process::Abort;
use std::test::Fail;

// Programs, and the faults that are told of them: too long with 17 lines; an operation over a pointer that there is not, a jump to
// the following line, and a word too many. The first program has no line.
const FAULTS: &str = "\
: no end
inc p0: no end
end / inc p0: no end
inc p0 / inc p1 / end: line 2
; up /  / goto 1 if zero / inc p0 / end: line 3
act light p0 p0 / end: line 1
end / end: line 1
inc p0 / inc p0 / inc p0 / inc p0 / inc p0 / inc p0 / inc p0 / inc p0 / inc p0 / inc p0 / inc p0 / inc p0 / inc p0 / inc p0 / inc p0 / inc p0: no end
inc p0 / inc p0 / inc p0 / inc p0 / inc p0 / inc p0 / inc p0 / inc p0 / inc p0 / inc p0 / inc p0 / inc p0 / inc p0 / inc p0 / inc p0 / inc p0 /  / inc p0: program too long 17
";

#[test]
fn programs_with_a_fault(rt: HostRuntime) -> Result<(), Fail> {
    for row in FAULTS.lines() {
        let (program, fault) = row.split_once(": ").unwrap_or((row, ""));
        check_fault(&rt, rt.alloc(), program, fault)?;
    }
    Ok(())
}

fn check_fault<R: Abort>(rt: &R, alloc: Global, program: &str, fault: &str) -> Result<(), Fail> {
    let mut shelf = shelf_of(alloc, "")?;
    shelf.add(b"p", lines_of(alloc, program)?.as_bytes())?;
    let words = "run --pointers 1 --program p lights lit";
    let told = format!(in alloc; "input p {fault}")?;
    check(rt, alloc, &mut shelf, "3", words, told.as_str())
}
