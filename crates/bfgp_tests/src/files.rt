use crate::calls::{check, check_call, check_calls, shelf_of, status_of};
use crate::given::lit_in_four_lines;
use bfgp_outside::MemorySink;
use flag_rules::read_decimal;
use std::alloc::Global;
use std::process::Abort;
use std::test::Fail;

const ABSENT: &str = "\
3 synth --pointers 1 --lines 1 e lit
input e absent

3 synth --pointers 1 --lines 1 lights lit e
input e absent

3 run --pointers 1 --program e lights lit
input e absent

3 check --pointers 1 --lines 1 --answer e lights lit
input e absent";

#[test]
fn files_that_are_absent(rt: HostRuntime) -> Result<(), Fail> {
    check_calls(&rt, rt.alloc(), "", ABSENT)
}

const SOLVED: &str =
    "a: bfgp answer 1 / pointers 1 / lines 1 / instances 1 / verdict program 1 / tree 1 / g / program / end / ends 0 0 / end of answer";

// The words of a search that makes two reads for each of three files.
const LIT_IN_FOUR_LINES: &str = "synth --pointers 1 --lines 5 lights two three";

// How many reads a call makes, two for each file; and what comes where only the next one would fail.
const READS: &str = "\
4 0 synth --pointers 1 --lines 1 predicates lit
bfgp answer 1
pointers 1
lines 1
instances 1
verdict program 1
tree 1
g
program
end
ends 0 0
end of answer

6 0 run --pointers 1 --program light-one lights lit
instance 0 solved 1
solved 1 of 1

6 0 check --pointers 1 --lines 1 --answer a lights lit
accepted";

#[test]
fn reads_that_fail(rt: HostRuntime) -> Result<(), Fail> {
    for row in READS.split("\n\n") {
        let (reads, call) = row.split_once(' ').unwrap_or((row, ""));
        let reads = read_decimal(reads.as_bytes()).unwrap_or(0);
        check_read_faults(&rt, rt.alloc(), reads, call)?;
    }
    let document = lit_in_four_lines(rt.alloc())?;
    let call = format!(in rt.alloc(); "0 {LIT_IN_FOUR_LINES}\n{document}")?;
    check_read_faults(&rt, rt.alloc(), 6, call.as_str())
}

// Checks a call that makes so many reads, where each of them fails, and where only the next one would.
fn check_read_faults<R: Abort>(rt: &R, alloc: Global, reads: u64, call: &str) -> Result<(), Fail> {
    for read in 0..reads {
        check_read_fault(rt, alloc, read, call)?;
    }
    let mut shelf = shelf_of(alloc, SOLVED)?;
    shelf.fail_at(reads)?;
    check_call(rt, alloc, &mut shelf, call)
}

// Checks that a call where this read fails writes nothing and says so.
fn check_read_fault<R: Abort>(rt: &R, alloc: Global, read: u64, call: &str) -> Result<(), Fail> {
    let (head, _) = call.split_once('\n').unwrap_or((call, ""));
    let (_, words) = head.split_once(' ').unwrap_or((head, ""));
    let mut shelf = shelf_of(alloc, SOLVED)?;
    shelf.fail_at(read)?;
    check(rt, alloc, &mut shelf, "6", words, "")
}

// The room of the sink, which takes 16 bytes a put; the put that fails; and what is written of the answer.
const FAILED_WRITES: &[(usize, Option<u64>, &str)] = &[
    (65_536, Some(0), ""),
    (65_536, Some(2), "bfgp answer 1\npointers 1\nlines 5"),
    (20, None, "bfgp answer 1\npointe"),
];

#[test]
fn writes_that_fail(rt: HostRuntime) -> Result<(), Fail> {
    let mut shelf = shelf_of(rt.alloc(), "")?;
    for &(room, put, written) in FAILED_WRITES {
        let mut sink = MemorySink::new(rt.alloc(), room, 16)?;
        if let Some(call) = put {
            sink.fail_at(call)?;
        }
        let status = status_of(rt.alloc(), &mut shelf, &mut sink, LIT_IN_FOUR_LINES)?;
        assert_eq!(rt; status.as_str(), "7");
        assert_eq!(rt; sink.written(), written.as_bytes());
    }
    Ok(())
}
