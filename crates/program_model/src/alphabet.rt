ghost use Rattle.std.specs.Prelude.{◌≡◌, ◌+◌, ◌-◌, ◌*◌, ◌<◌, ◌≤◌, length, slice_get, Contains, IfSome, IfNone};
ghost use Rattle.program_model.specs.Alphabet.{alphabet, conditions, targets};

use crate::Instr;
use flag_rules::Cond;

/// The greatest number of lines of a program.
pub const MAX_LINES: u8 = 16;

/// The greatest number of operations of a machine.
pub const MAX_OPS: u32 = 448;

/// How many conditions a jump may have.
pub const CONDITIONS: u32 = 4;

/// How many instructions the alphabet of a line has, in a program of so many lines over so many operations.
pub fn alphabet_len(ops: u32, lines: u8, line: u8) -> u32
    requires ops { ops ≤ MAX_OPS }
    requires lines { lines ≤ MAX_LINES }
    requires line { line < lines }
    ensures length { result ≡ length (alphabet ops lines line) }
    ensures inner { line + 1 < lines → result ≡ ops + CONDITIONS * (lines - 2) }
    ensures last { line + 1 ≡ lines → result ≡ 1 }
{
    if line + 1 == lines {
        1
    } else {
        ops + CONDITIONS * u32::from(lines - 2)
    }
}

/// The instruction of a rank, from 0, in the alphabet of a line.
pub fn instr_at(ops: u32, lines: u8, line: u8, rank: u32) -> Instr
    requires ops { ops ≤ MAX_OPS }
    requires lines { lines ≤ MAX_LINES }
    requires line { line < lines }
    requires rank { rank < length (alphabet ops lines line) }
    ensures { slice_get (alphabet ops lines line) rank ≡ Some result }
{
    if line + 1 == lines {
        Instr::End
    } else if rank < ops {
        Instr::Op(rank)
    } else {
        let jump = rank - ops;
        Instr::Goto {
            target: target_at(lines, line, (jump / CONDITIONS) as u8),
            cond: cond_at(jump % CONDITIONS),
        }
    }
}

/// The rank of an instruction in the alphabet of a line, or `None` where it is not in it.
pub fn rank_of(ops: u32, lines: u8, line: u8, instr: Instr) -> Option<u32>
    requires ops { ops ≤ MAX_OPS }
    requires lines { lines ≤ MAX_LINES }
    requires line { line < lines }
    ensures some { IfSome result (λ rank. slice_get (alphabet ops lines line) rank ≡ Some instr) }
    ensures none { IfNone result (¬ Contains (alphabet ops lines line) instr) }
{
    if line + 1 == lines {
        return match instr {
            Instr::End => Some(0),
            _ => None,
        };
    }
    match instr {
        Instr::Op(op) => if op < ops { Some(op) } else { None },
        Instr::Goto { target, cond } => {
            let place = place_of(lines, line, target)?;
            Some(ops + CONDITIONS * u32::from(place) + cond_place(cond))
        }
        Instr::End => None,
    }
}

// The target at a place among those of a line.
fn target_at(lines: u8, line: u8, place: u8) -> u8
    requires lines { lines ≤ MAX_LINES }
    requires place { place + 2 < lines }
    ensures { slice_get (targets lines line) place ≡ Some result }
{
    if place < line { place } else { place + 2 }
}

// The place of a target among those of a line, if it is one of them.
fn place_of(lines: u8, line: u8, target: u8) -> Option<u8>
    requires lines { lines ≤ MAX_LINES }
    requires line { line + 1 < lines }
    ensures some { IfSome result (λ place. slice_get (targets lines line) place ≡ Some target) }
    ensures none { IfNone result (¬ Contains (targets lines line) target) }
{
    if target < line {
        Some(target)
    } else if line + 1 < target && target < lines {
        Some(target - 2)
    } else {
        None
    }
}

// The condition at a place among all.
fn cond_at(place: u32) -> Cond
    requires { place < CONDITIONS }
    ensures { slice_get conditions place ≡ Some result }
{
    match place {
        0 => Cond::Zero,
        1 => Cond::Nonzero,
        2 => Cond::Carry,
        _ => Cond::Nocarry,
    }
}

// The place of a condition among all.
fn cond_place(cond: Cond) -> u32
    ensures { slice_get conditions result ≡ Some cond }
{
    match cond {
        Cond::Zero => 0,
        Cond::Nonzero => 1,
        Cond::Carry => 2,
        Cond::Nocarry => 3,
    }
}
