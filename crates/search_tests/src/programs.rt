ghost use Rattle.std.specs.Prelude.{◌<◌};

use crate::counters::{Counters, Tally};
use flag_rules::{Cond, OutOfMemory, Sign};
use program_model::{Instr, Machine, Partial, alphabet_len, instr_at, rank_of};
use std::alloc::Global;
use std::test::Fail;

// The instructions of the second of four lines, over two operations, in order.
const ALPHABET: &str = "\
Op(0)
Op(1)
Goto { target: 0, cond: Zero }
Goto { target: 0, cond: Nonzero }
Goto { target: 0, cond: Carry }
Goto { target: 0, cond: Nocarry }
Goto { target: 3, cond: Zero }
Goto { target: 3, cond: Nonzero }
Goto { target: 3, cond: Carry }
Goto { target: 3, cond: Nocarry }
";

#[test]
fn alphabets_are_in_order(rt: HostRuntime) -> Result<(), Fail> {
    let mut alphabet = String::new(rt.alloc());
    for rank in 0..alphabet_len(2, 4, 1) {
        let instr = instr_at(2, 4, 1, rank);
        assert_eq!(rt; rank_of(2, 4, 1, instr), Some(rank));
        writeln!(alphabet, "{instr:?}")?;
    }
    assert_eq!(rt; alphabet.as_str(), ALPHABET);
    Ok(())
}

// The ranks of jumps to each line, and of what is in the alphabet of no such line.
#[test]
fn ranks_are_those_of_the_alphabet(rt: HostRuntime) -> Result<(), Fail> {
    let mut ranks = String::new(rt.alloc());
    for target in 0..6 {
        let cond = Cond::Zero;
        let rank = rank_of(2, 4, 1, Instr::Goto { target, cond });
        write!(ranks, "{rank:?} ")?;
    }
    let operation = rank_of(2, 4, 1, Instr::Op(2));
    let end = rank_of(2, 4, 1, Instr::End);
    write!(ranks, "{operation:?} {end:?}")?;
    assert_eq!(rt;
        ranks.as_str(),
        "Some(2) None None Some(6) None None None None"
    );
    Ok(())
}

#[test]
fn the_last_line_ends(rt: HostRuntime) {
    assert_eq!(rt; instr_at(2, 4, 3, 0), Instr::End);
}

// The lines of a copy, and those of the program, of which one was undefined afterwards.
const LINES: &str = "\
None None
Some(Op(7)) None
Some(End) Some(End)
None None
";

#[test]
fn lines_are_defined_and_undefined(rt: HostRuntime) -> Result<(), Fail> {
    let mut partial = Partial::empty(3);
    partial.define(1, Instr::Op(7));
    let copy = partial.copy();
    partial.undefine(1);
    assert_eq!(rt; partial.lines(), 3);
    let mut lines = String::new(rt.alloc());
    for line in 0..4 {
        let was = copy.at(line);
        let is = partial.at(line);
        writeln!(lines, "{was:?} {is:?}")?;
    }
    assert_eq!(rt; lines.as_str(), LINES);
    Ok(())
}

// Makes the last operation at the start of an instance, and tells the sign, how much is missing at the start, and whether a
// copy is the same.
fn act_and_copy<M: Machine>(
    alloc: Global,
    machine: &M,
    t: u8,
    meter: &mut M::Meter,
) -> Result<(Sign, u32, bool), OutOfMemory>
    requires { t < (M.semantics machine.now).instances }
{
    let mut cfg = machine.fresh(alloc, t)?;
    let mut copy = machine.fresh(alloc, t)?;
    machine.begin(t, &mut copy);
    machine.act(t, machine.ops() - 1, &mut cfg, meter);
    let missing = machine.missing(t, &copy);
    machine.copy_into(&cfg, &mut copy, meter);
    Ok((machine.sign(&copy), missing, machine.same(&cfg, &copy)))
}

#[test]
fn a_machine_acts_and_copies(rt: HostRuntime) -> Result<(), OutOfMemory> {
    let counters = Counters {
        first: 0,
        instances: 2,
    };
    let mut tally = Tally { acts: 0, copies: 0 };
    for (t, sign, missing) in [(0, Sign::Positive, 3), (1, Sign::Zero, 2)] {
        assert_eq!(rt;
            act_and_copy(rt.alloc(), &counters, t, &mut tally)?,
            (sign, missing, true)
        );
    }
    assert_eq!(rt; (Counters::acts(&tally), Counters::copies(&tally)), (2, 2));
    Ok(())
}
