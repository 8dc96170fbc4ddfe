ghost use Rattle.std.specs.Prelude.{◌≡◌, ◌+◌, ◌<◌, ◌≤◌, ℕ};
ghost use Rattle.program_model.specs.Program.{IsProgram};
ghost use Rattle.search_tests.specs.Counting.{start_of, next_count, sign_of_count, missing_of};

use flag_rules::{Cond, OutOfMemory, Sign};
use program_model::{Instr, Machine, Partial, Renaming};
use std::alloc::Global;

/// A machine with some of six counters in a row, each for an instance: one counts down from 3 and has its goal at 0, one
/// counts down from 1 and never has its goal, one goes to and fro between 1 and 2, one counts up, and two count down from 100
/// and from 1 and never have their goals. The one operation names the one pointer, and nothing depends on where that stands.
#[derive(Debug, Drop)]
pub struct Counters {
    /// The first of them, from 0.
    pub first: u8,
    pub instances: u8,
    ghost some: { 0 < instances },
    ghost few: { first + instances ≤ 6 },
}

/// A count, and the sign of the last one.
#[derive(Debug, Drop)]
pub struct Count {
    pub count: u32,
    pub sign: Sign,
}

/// What was counted on the counters.
#[derive(Debug, Drop)]
pub struct Tally {
    pub acts: u64,
    pub copies: u64,
}

// Where a counter starts.
fn start_of(counter: u8) -> u32
    ensures { result ≡ start_of counter }
{
    match counter {
        0 => 3,
        4 => 100,
        _ => 1,
    }
}

// The count after one more operation.
fn next_count(counter: u8, count: u32) -> u32
    ensures { result ≡ next_count counter count }
{
    match counter {
        3 => count.saturating_add(1),
        2 => 3u32.saturating_sub(count),
        _ => count.saturating_sub(1),
    }
}

// The sign of a count.
fn sign_of_count(count: u32) -> Sign
    ensures { result ≡ sign_of_count count }
{
    if count == 0 {
        Sign::Zero
    } else {
        Sign::Positive
    }
}

impl Machine for Counters {
    ghost use Rattle.std.specs.Prelude.{◌≡◌, ◌+◌, ℕ, [], ◌∷◌};
    ghost use Rattle.flag_rules.specs.declared.flags.Sign.TheVariants as signs;
    ghost use Rattle.search_tests.specs.Counting.{start_of, next_count, sign_of_count, missing_of};

    type Cfg = Count;

    type Meter = Tally;

    ghost semantics = { λ machine. record {
      instances = machine.instances;
      ops = 1;
      pointers = 1;
      start = λ t. record { count = start_of (machine.first + t); sign = signs.Negative };
      act = λ t op value. record { count = next_count (machine.first + t) value.count; sign = sign_of_count (next_count (machine.first + t) value.count) };
      sign = λ value. value.sign;
      missing = λ t value. missing_of (machine.first + t) value.count;
      pointers_of = λ op. 0 ∷ [];
      rename = λ by op. op;
      renamed = λ by value. value;
    } };

    ghost belongs = { λ machine t value. Unit {0} };

    ghost acts = { λ meter. meter.acts };

    ghost copies = { λ meter. meter.copies };

    fn instances(&self) -> u8 {
        self.instances
    }

    fn ops(&self) -> u32 {
        1
    }

    fn pointers(&self) -> u8 {
        1
    }

    fn fresh(&self, _alloc: Global, t: u8) -> Result<Count, OutOfMemory> {
        Ok(Count {
            count: start_of(self.first + t),
            sign: Sign::Negative,
        })
    }

    fn begin(&self, t: u8, cfg: &mut Count) {
        cfg.count = start_of(self.first + t);
        cfg.sign = Sign::Negative;
    }

    fn act(&self, t: u8, _op: u32, cfg: &mut Count, meter: &mut Tally) {
        cfg.count = next_count(self.first + t, cfg.count);
        cfg.sign = sign_of_count(cfg.count);
        meter.acts = meter.acts.saturating_add(1);
    }

    fn sign(&self, cfg: &Count) -> Sign {
        cfg.sign
    }

    fn missing(&self, t: u8, cfg: &Count) -> u32 {
        if self.first + t == 0 { cfg.count } else { 2 }
    }

    fn same(&self, a: &Count, b: &Count) -> bool {
        a.count == b.count && a.sign == b.sign
    }

    fn copy_into(&self, from: &Count, to: &mut Count, meter: &mut Tally) {
        to.count = from.count;
        to.sign = from.sign;
        meter.copies = meter.copies.saturating_add(1);
    }

    fn acts(meter: &Tally) -> u64 {
        meter.acts
    }

    fn copies(meter: &Tally) -> u64 {
        meter.copies
    }

    fn places(&self, _op: u32) -> u8 {
        1
    }

    fn pointer_at(&self, _op: u32, _place: u8) -> u8 {
        0
    }

    fn rename(&self, _by: &Renaming, op: u32) -> u32 {
        op
    }

    fn treats_pointers_alike(&self) {}
}

/// The program that counts until the count is 0.
pub fn count_on() -> Partial
    ensures { IsProgram 1 result }
{
    let mut program = Partial::empty(3);
    program.define(0, Instr::Op(0));
    program.define(
        1,
        Instr::Goto {
            target: 0,
            cond: Cond::Nonzero,
        },
    );
    program
}
