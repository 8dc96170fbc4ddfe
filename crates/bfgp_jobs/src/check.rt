ghost use Rattle.std.specs.Prelude.{◌≡◌, [], ◌∷◌, ◌++◌, if◌then◌else◌, Err, IfOk, IfErr};
ghost use Rattle.bfgp_outside.specs.Causes.{RoseIf};
ghost use Rattle.bfgp_outside.specs.Shelf.{Knowing, GoesOn, Asks};
ghost use Rattle.program_text.specs.Names.{AreNames};
ghost use Rattle.pointer_machine.specs.Machine.{meaning_of};
ghost use Rattle.pointer_machine.specs.Texts.{operation_texts};
ghost use Rattle.document_check.specs.Files.{IsVerdictOn};
ghost use Rattle.document_check.specs.Standing.{StandsFor};
ghost use Rattle.command_words.specs.Words.{IsCheckJob, names_of};
ghost use Rattle.input_reading.specs.Asked.{AsksInTurn};
ghost use Rattle.input_reading.specs.Steps.{Gives};
ghost use Rattle.input_reading.specs.Inputs.{file_due};
ghost use Rattle.input_reading.specs.Causes.{HaltCause, is_read_fault};
ghost use Rattle.bfgp_jobs.specs.Due.{accepted_reply, check_due, rejected_reply};
ghost use Rattle.bfgp_jobs.specs.Inner.Telling.{TellsAccepted};
ghost use Rattle.bfgp_jobs.specs.Answers.{IsAnswerStatus, IsSpent};

use crate::reply::Reply;
use crate::status::Status;
use bfgp_outside::Shelf;
use command_words::CheckJob;
use document_check::{Checker, DocumentRefusal, check_file};
use flag_rules::{OutOfMemory, Text};
use input_reading::{Fault, Halt, machine_for, tell};
use pointer_machine::{Meter, PointerMachine};
use program_text::Names;
use std::alloc::Global;

/// The greatest number of bytes of an answer document that `check` reads.
pub const MAX_DOCUMENT_BYTES: u64 = 4_294_967_296;

/// What is written of a document that is accepted.
const ACCEPTED: &[u8] = b"accepted\n";

/// What is written of bytes that are no document, or that of an answer that is not accepted.
const REJECTED: &[u8] = b"rejected\n";

/// Checks the answer document of a job.
pub(crate) fn check<S: Shelf>(alloc: Global, shelf: &mut S, job: &CheckJob) -> Result<Reply, Halt>
    requires { IsCheckJob job.now }
    ensures due { Knowing (S.files shelf.old) (λ files. Gives (check_due files job.now) result) }
    ensures verdict { IfOk result (λ reply. IsAnswerStatus reply.status) }
    ensures unspent { IfOk result (λ reply. IsSpent reply.status → ⊥) }
    ensures cause { IfErr result (HaltCause (S.absences shelf.old) (S.absences shelf.new)) }
    ensures reads { RoseIf (is_read_fault result) (S.faults shelf.old) (S.faults shelf.new) }
    ensures goes_on { GoesOn S.files S.faults S.absences shelf.old shelf.new }
    ensures asks { AsksInTurn (S.asked shelf.old) (S.asked shelf.new)
        (names_of job.now.inputs ++ job.now.answer ∷ []) }
{
    let verdicts = Verdicts::new(alloc)?;
    let machine = machine_for(alloc, shelf, &job.inputs, job.pointers)?;
    let accepted = is_accepted_file(alloc, shelf, &machine, job)?;
    Ok(verdicts.reply(accepted))
}

// Whether the answer file of a job is accepted. All memory is taken before the file is read, but what is wanted to tell its fault.
fn is_accepted_file<S: Shelf>(
    alloc: Global,
    shelf: &mut S,
    machine: &PointerMachine,
    job: &CheckJob,
) -> Result<bool, Halt>
    requires { AreNames (operation_texts machine.now.task machine.now.pointers) }
    ensures tells { IfOk result (λ accepted. Knowing (S.files shelf.old)
        (λ files. TellsAccepted machine.now job.now.lines (file_due files MAX_DOCUMENT_BYTES job.now.answer) accepted)) }
    ensures due { IfErr result (λ halt. Knowing (S.files shelf.old)
        (λ files. Gives (file_due files MAX_DOCUMENT_BYTES job.now.answer) (Err halt))) }
    ensures cause { IfErr result (HaltCause (S.absences shelf.old) (S.absences shelf.new)) }
    ensures reads { RoseIf (is_read_fault result) (S.faults shelf.old) (S.faults shelf.new) }
    ensures goes_on { GoesOn S.files S.faults S.absences shelf.old shelf.new }
    ensures asks { AsksInTurn (S.asked shelf.old) (S.asked shelf.new) (job.now.answer ∷ []) }
{
    let names = Names::build(alloc, machine.op_texts(alloc)?)?;
    let checker = Checker::start(alloc, machine, &names, job.lines)?;
    judge_file(alloc, shelf, job.answer.as_slice(), checker)
}

// Whether the file of a name is accepted by a checker.
fn judge_file<S: Shelf>(
    alloc: Global,
    shelf: &mut S,
    name: &[u8],
    checker: Checker<'_, PointerMachine>,
) -> Result<bool, Halt>
    requires { StandsFor (meaning_of checker.machine) checker [] }
    ensures verdict { IfOk result (λ accepted. IsVerdictOn (meaning_of checker.entry.machine) checker.entry.texts
        checker.entry.lines (S.files shelf.old) name.now MAX_DOCUMENT_BYTES accepted) }
    ensures due { IfErr result (λ halt. Knowing (S.files shelf.old)
        (λ files. Gives (file_due files MAX_DOCUMENT_BYTES name.now) (Err halt))) }
    ensures cause { IfErr result (HaltCause (S.absences shelf.old) (S.absences shelf.new)) }
    ensures reads { RoseIf (is_read_fault result) (S.faults shelf.old) (S.faults shelf.new) }
    ensures goes_on { GoesOn S.files S.faults S.absences shelf.old shelf.new }
    ensures asks { Asks (S.asked shelf.old) (S.asked shelf.new) name.now }
{
    match check_file(checker, shelf, name, MAX_DOCUMENT_BYTES, &mut Meter::zero()) {
        Ok(accepted) => Ok(accepted),
        Err(DocumentRefusal::Absent) => Err(tell(alloc, name, Fault::Absent)),
        Err(DocumentRefusal::TooLong) => Err(tell(alloc, name, Fault::TooLong)),
        Err(DocumentRefusal::Failed) => Err(Halt::ReadFault),
    }
}

// What is written of a document, made before it is read.
#[derive(Drop)]
struct Verdicts {
    accepted: Text,
    rejected: Text,
}

impl Verdicts {
    fn new(alloc: Global) -> Result<Verdicts, OutOfMemory>
        ensures accepted { IfOk result (λ verdicts. verdicts.accepted ≡ accepted_reply.text) }
        ensures rejected { IfOk result (λ verdicts. verdicts.rejected ≡ rejected_reply.text) }
    {
        let accepted = Text::of(alloc, ACCEPTED)?;
        let rejected = Text::of(alloc, REJECTED)?;
        Ok(Verdicts { accepted, rejected })
    }

    // The reply to whether a document is accepted.
    fn reply(self, accepted: bool) -> Reply
        requires accepted { self.accepted ≡ accepted_reply.text }
        requires rejected { self.rejected ≡ rejected_reply.text }
        ensures { result ≡ (if accepted then accepted_reply else rejected_reply) }
    {
        if accepted {
            Reply::of_text(Status::Done, self.accepted)
        } else {
            Reply::of_text(Status::No, self.rejected)
        }
    }
}
