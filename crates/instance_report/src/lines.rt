ghost use Rattle.std.specs.Prelude.{◌≡◌, ◌++◌, OnOk};
ghost use Rattle.flag_rules.specs.Line.{line, then_number};
ghost use Rattle.instance_report.specs.Inner.Told.{IsTold};
ghost use Rattle.instance_report.specs.Report.{standing_text, run_text, count_text};

use flag_rules::{OutOfMemory, Text};
use program_model::{RunOutcome, Stand};

// Adds some words, a space and a number in decimal.
fn add_number(text: &mut Text, words: &[u8], number: u64) -> Result<(), OutOfMemory>
    ensures { OnOk result (text.new ≡ text.old ++ (words.now ++ then_number number)) }
{
    text.append(words)?;
    text.append_number(number)
}

// Adds where a run stands.
fn add_standing(text: &mut Text, run: &RunOutcome, limit: u64) -> Result<(), OutOfMemory>
    requires { IsTold run.now.standing }
    ensures { OnOk result (text.new ≡ text.old ++ standing_text limit run.now) }
{
    match run.standing {
        Stand::Ended => add_number(text, b" solved", run.steps),
        Stand::Unmet => {
            add_number(text, b" unmet", run.steps)?;
            add_number(text, b" missing", u64::from(run.missing))
        }
        Stand::Repeats { from, to } => {
            add_number(text, b" loops", from)?;
            add_number(text, b"", to)
        }
        Stand::AtLimit => add_number(text, b" limit", limit),
        Stand::Waits { .. } | Stand::QuotaUsed => unreachable!(),
    }
}

/// Adds the line of the run on an instance.
pub(crate) fn add_run(text: &mut Text, run: &RunOutcome, limit: u64) -> Result<(), OutOfMemory>
    requires { IsTold run.now.standing }
    ensures { OnOk result (text.new ≡ text.old ++ line (run_text limit run.now)) }
{
    add_number(text, b"instance", u64::from(run.instance))?;
    add_standing(text, run, limit)?;
    text.push(b'\n')
}

/// Adds the line that says how many of the instances are solved.
pub(crate) fn add_count(text: &mut Text, solved: u8, instances: u8) -> Result<(), OutOfMemory>
    ensures { OnOk result (text.new ≡ text.old ++ line (count_text solved instances)) }
{
    add_number(text, b"solved", u64::from(solved))?;
    add_number(text, b" of", u64::from(instances))?;
    text.push(b'\n')
}
