//! How jobs are told in one line each: the command, its numbers, its order, and its files.

use command_words::{CheckJob, GenJob, Inputs, Job, JobRefusal, RunJob, SynthJob, job_of};
use flag_rules::Text;
use std::alloc::{AllocError, Global};

/// The job of the words in a line, which single spaces part, as it is told; or `usage`.
pub fn job_told(alloc: Global, line: &str) -> Result<String, AllocError> {
    match job_of(alloc, &words_of(alloc, line)?) {
        Ok(job) => told(alloc, &job),
        Err(JobRefusal::Usage) => String::from_str(alloc, "usage"),
        Err(JobRefusal::OutOfMemory) => Err(AllocError),
    }
}

// The words of a line; the empty line has none.
fn words_of(alloc: Global, line: &str) -> Result<Vec<String>, AllocError> {
    let mut words = Vec::new(alloc);
    if line.is_empty() {
        return Ok(words);
    }
    for word in line.split(' ') {
        words.push(String::from_str(alloc, word)?)?;
    }
    Ok(words)
}

fn told(alloc: Global, job: &Job) -> Result<String, AllocError> {
    match job {
        Job::Synth(job) => told_synth(alloc, job),
        Job::Check(job) => told_check(alloc, job),
        Job::Run(job) => told_run(alloc, job),
        Job::Gen(job) => told_gen(alloc, job),
    }
}

fn told_synth(alloc: Global, job: &SynthJob) -> Result<String, AllocError> {
    let bounds = &job.bounds;
    let mut line = format!(in alloc;
        "synth {} {} {} {} {:?}",
        job.pointers,
        bounds.lines,
        bounds.budget,
        bounds.run,
        bounds.order.evaluations()
    )?;
    tell_inputs(&mut line, &job.inputs)?;
    Ok(line)
}

fn told_check(alloc: Global, job: &CheckJob) -> Result<String, AllocError> {
    let mut line = format!(in alloc; "check {} {}", job.pointers, job.lines)?;
    tell_name(&mut line, &job.answer)?;
    tell_inputs(&mut line, &job.inputs)?;
    Ok(line)
}

fn told_run(alloc: Global, job: &RunJob) -> Result<String, AllocError> {
    let mut line = format!(in alloc; "run {} {}", job.pointers, job.run)?;
    tell_name(&mut line, &job.program)?;
    tell_inputs(&mut line, &job.inputs)?;
    Ok(line)
}

fn told_gen(alloc: Global, job: &GenJob) -> Result<String, AllocError> {
    format!(in alloc; "gen {:?} {}", job.family, job.number)
}

fn tell_inputs(line: &mut String, inputs: &Inputs) -> Result<(), AllocError> {
    tell_name(line, &inputs.domain)?;
    for instance in inputs.instances.as_slice() {
        tell_name(line, instance)?;
    }
    Ok(())
}

fn tell_name(line: &mut String, name: &Text) -> Result<(), AllocError> {
    line.push_str(" ")?;
    line.push_str(str::from_utf8(name.as_slice()).unwrap_or("?"))
}
