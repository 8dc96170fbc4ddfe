ghost use Rattle.std.specs.Prelude.{◌≡◌, ◌≢◌, ◌<◌, length, map, string_bytes, IfSome, IfNone};
ghost use Rattle.family_gen.specs.declared.kinds.Family.{Family as FamilyValue};
ghost use Rattle.family_gen.specs.Families.{family_name};
ghost use Rattle.command_words.specs.declared.job.SynthJob.{SynthJob as SynthJobValue};
ghost use Rattle.command_words.specs.declared.job.CheckJob.{CheckJob as CheckJobValue};
ghost use Rattle.command_words.specs.declared.job.RunJob.{RunJob as RunJobValue};
ghost use Rattle.command_words.specs.declared.job.GenJob.{GenJob as GenJobValue};
ghost use Rattle.command_words.specs.declared.matching.Command.TheVariants.{Synth, Check, Run, Gen};
ghost use Rattle.command_words.specs.Words.{IsReading, JobOf, SynthJobOf, CheckJobOf, RunJobOf, GenJobOf, names_of};
ghost use Rattle.command_words.specs.Inner.Matching.{IsMatched};
ghost use Rattle.command_words.specs.Inner.Values.{AreFileNames, AreSynthValues, AreCheckValues, AreRunValues, AreGenValues};

use crate::form::has_form;
use crate::job::{CheckJob, GenJob, Inputs, Job, RunJob, SynthJob};
use crate::matching::{Command, Matched, match_words};
use crate::number::number_of;
use crate::refusal::JobRefusal;
use crate::value::{budget_in, count_in, order_in, run_in};
use family_gen::{Family, MAX_NUMBER};
use flag_rules::{List, Text};
use program_model::{MAX_LINES, MAX_POINTERS};
use search_bounds::Bounds;
use std::alloc::Global;

/// Reads the words of a command, without the program's own name.
pub fn job_of(alloc: Global, words: &[String]) -> Result<Job, JobRefusal>
    ensures { IsReading (JobOf (map string_bytes words.now)) result }
{
    let [command, words @ ..] = words else {
        return Err(JobRefusal::Usage);
    };
    if command.as_str() == "synth" {
        Ok(Job::Synth(synth_job_of(alloc, words)?))
    } else if command.as_str() == "check" {
        Ok(Job::Check(check_job_of(alloc, words)?))
    } else if command.as_str() == "run" {
        Ok(Job::Run(run_job_of(alloc, words)?))
    } else if command.as_str() == "gen" {
        Ok(Job::Gen(gen_job_of(alloc, words)?))
    } else {
        Err(JobRefusal::Usage)
    }
}

// Reads the words after `synth`.
fn synth_job_of(alloc: Global, words: &[String]) -> Result<SynthJob, JobRefusal>
    ensures { IsReading (SynthJobOf (map string_bytes words.now)) result }
{
    synth_job(matched_in(alloc, Command::Synth, words)?).ok_or(JobRefusal::Usage)
}

// Reads the words after `check`.
fn check_job_of(alloc: Global, words: &[String]) -> Result<CheckJob, JobRefusal>
    ensures { IsReading (CheckJobOf (map string_bytes words.now)) result }
{
    check_job(matched_in(alloc, Command::Check, words)?).ok_or(JobRefusal::Usage)
}

// Reads the words after `run`.
fn run_job_of(alloc: Global, words: &[String]) -> Result<RunJob, JobRefusal>
    ensures { IsReading (RunJobOf (map string_bytes words.now)) result }
{
    run_job(matched_in(alloc, Command::Run, words)?).ok_or(JobRefusal::Usage)
}

// Reads the words after `gen`.
fn gen_job_of(alloc: Global, words: &[String]) -> Result<GenJob, JobRefusal>
    ensures { IsReading (GenJobOf (map string_bytes words.now)) result }
{
    gen_job(matched_in(alloc, Command::Gen, words)?).ok_or(JobRefusal::Usage)
}

// The values of the options, and the names, in the words after a command.
fn matched_in(alloc: Global, command: Command, words: &[String]) -> Result<Matched, JobRefusal>
    ensures { IsReading (IsMatched command (map string_bytes words.now)) result }
{
    if !has_form(alloc, command, words)? {
        return Err(JobRefusal::Usage);
    }
    Ok(match_words(alloc, command, words)?)
}

// The search that the values spell, if they spell one.
fn synth_job(matched: Matched) -> Option<SynthJob>
    requires { AreFileNames matched }
    ensures some { IfSome result (AreSynthValues matched) }
    ensures none { IfNone result ((job : SynthJobValue) → AreSynthValues matched job → ⊥) }
{
    let pointers = count_in(&matched.pointers, MAX_POINTERS)?;
    let lines = count_in(&matched.lines, MAX_LINES)?;
    let budget = budget_in(&matched.budget)?;
    let run = run_in(&matched.run)?;
    let order = order_in(&matched.order)?;
    Some(SynthJob {
        pointers,
        bounds: Bounds {
            lines,
            budget,
            run,
            order,
        },
        inputs: inputs_of(matched.names),
    })
}

// The check that the values spell, if they spell one.
fn check_job(matched: Matched) -> Option<CheckJob>
    requires { AreFileNames matched }
    ensures some { IfSome result (AreCheckValues matched) }
    ensures none { IfNone result ((job : CheckJobValue) → AreCheckValues matched job → ⊥) }
{
    Some(CheckJob {
        pointers: count_in(&matched.pointers, MAX_POINTERS)?,
        lines: count_in(&matched.lines, MAX_LINES)?,
        answer: matched.answer?,
        inputs: inputs_of(matched.names),
    })
}

// The run that the values spell, if they spell one.
fn run_job(matched: Matched) -> Option<RunJob>
    requires { AreFileNames matched }
    ensures some { IfSome result (AreRunValues matched) }
    ensures none { IfNone result ((job : RunJobValue) → AreRunValues matched job → ⊥) }
{
    Some(RunJob {
        pointers: count_in(&matched.pointers, MAX_POINTERS)?,
        run: run_in(&matched.run)?,
        program: matched.program?,
        inputs: inputs_of(matched.names),
    })
}

// The search over a family that the names spell, if they spell one.
fn gen_job(matched: Matched) -> Option<GenJob>
    ensures some { IfSome result (AreGenValues matched) }
    ensures none { IfNone result ((job : GenJobValue) → AreGenValues matched job → ⊥) }
{
    let [family, number] = matched.names.as_slice() else {
        return None;
    };
    Some(GenJob {
        family: family_named(family.as_slice())?,
        number: number_of(number.as_slice(), 0, u64::from(MAX_NUMBER))? as u32,
    })
}

// The first of the names is that of the domain file.
fn inputs_of(mut names: List<Text>) -> Inputs
    requires { 0 < length names }
    ensures { names_of result ≡ names }
{
    let domain = names.remove(0);
    Inputs {
        domain,
        instances: names,
    }
}

// The family that has a name, if one has it.
fn family_named(name: &[u8]) -> Option<Family>
    ensures some { IfSome result (λ family. name.now ≡ family_name family) }
    ensures none { IfNone result ((family : FamilyValue) → name.now ≢ family_name family) }
{
    match name {
        b"lights" => Some(Family::Lights),
        b"corridor" => Some(Family::Corridor),
        _ => None,
    }
}
