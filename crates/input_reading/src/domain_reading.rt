ghost use Rattle.std.specs.Prelude.{◌≤◌, length, IfOk, IfErr};
ghost use Rattle.pddl_parser.specs.Replies.{IsDomainReply, IsDomainText};
ghost use Rattle.flag_rules.specs.declared.file.TheConstants.{MAX_FILE_BYTES};
ghost use Rattle.pddl_task.specs.Replies.{IsTaskReply};
ghost use Rattle.input_reading.specs.Faults.{parsing_fault, task_fault};
ghost use Rattle.input_reading.specs.Steps.{or_tell, Gives};
ghost use Rattle.input_reading.specs.Inputs.{domain_due};
ghost use Rattle.input_reading.specs.Inner.Causes.{TellsOther};
ghost use Rattle.input_reading.specs.Inner.Domains.{IsReadDomain};

use crate::fault::Fault;
use crate::halt::Halt;
use crate::telling::refuse;
use ground_state::Task;
use pddl_parser::DomainText;
use pddl_task::task;
use std::alloc::Global;

/// A domain as it is written, and its task.
#[derive(Debug, Drop)]
pub(crate) struct Domain {
    pub(crate) text: DomainText,
    pub(crate) task: Task,
}

/// Reads the bytes of a domain file, and gives its task.
pub(crate) fn domain_of(alloc: Global, name: &[u8], bytes: &[u8]) -> Result<Domain, Halt>
    requires { length bytes.now ≤ MAX_FILE_BYTES }
    ensures due { Gives (domain_due name.now bytes.now) result }
    ensures read { IfOk result IsReadDomain }
    ensures cause { IfErr result TellsOther }
{
    let text = domain_text(alloc, name, bytes)?;
    let task = task_of(alloc, name, &text)?;
    Ok(Domain { text, task })
}

fn domain_text(alloc: Global, name: &[u8], bytes: &[u8]) -> Result<DomainText, Halt>
    requires { length bytes.now ≤ MAX_FILE_BYTES }
    ensures due { Gives (or_tell name.now parsing_fault (IsDomainReply bytes.now)) result }
    ensures read { IfOk result IsDomainText }
    ensures cause { IfErr result TellsOther }
{
    match pddl_parser::domain(alloc, bytes) {
        Ok(text) => Ok(text),
        Err(refusal) => Err(refuse(alloc, name, Fault::of_text(refusal))),
    }
}

fn task_of(alloc: Global, name: &[u8], domain: &DomainText) -> Result<Task, Halt>
    requires { IsDomainText domain.now }
    ensures due { Gives (or_tell name.now task_fault (IsTaskReply domain.now)) result }
    ensures cause { IfErr result TellsOther }
{
    match task(alloc, domain) {
        Ok(task) => Ok(task),
        Err(refusal) => Err(refuse(alloc, name, Fault::of_task(refusal))),
    }
}
