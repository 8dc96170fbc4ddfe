ghost use Rattle.std.specs.Prelude.{◌≡◌, ◌≢◌, ◌≤◌, map, string_bytes};
ghost use Rattle.bfgp_outside.specs.Causes.{Rose, RoseIf};
ghost use Rattle.bfgp_outside.specs.Shelf.{Knowing, GoesOn};
ghost use Rattle.bfgp_jobs.specs.Due.{Due};
ghost use Rattle.bfgp_jobs.specs.Answers.{Answers, AreOfFamily, AreSearch, AsksForNamed, IsSilent, IsSpent, UsageIsExact, InputCause};
ghost use Rattle.bfgp_jobs.specs.Headline.{Headline, StandsWithoutFiles};
ghost use Rattle.bfgp_jobs.specs.Acceptance.{CheckAccepts};
ghost use Rattle.bfgp_jobs.specs.Inner.Replying.{is_write_fault, IsReplyStatus, Writes};

use crate::reply::Reply;
use crate::replying::{NoReply, reply_to_words};
use crate::status::Status;
use bfgp_outside::{Shelf, Sink, SinkFailed};
use std::alloc::Global;

/// Runs the planner on the words of a command, without the program's own name. It reads the files that the words
/// name from the shelf, writes what is due to the sink, and answers the status to end with.
pub fn bfgp<S: Shelf, K: Sink>(
    alloc: Global,
    words: &[String],
    shelf: &mut S,
    out: &mut K,
) -> Status
    // `synth` and `gen`: with status 0 the bytes that were written say one answer, or its summary, whose program solves every
    // instance that the words pose, and none with fewer lines does; with status 1 they say that there is none, and no program of at
    // most as many lines as were asked for does; with status 4 they say at which size the budget of splits was spent, with status 5
    // at which size a run made as many steps as it may, and in both no program with fewer lines than that size does. No other
    // command ends so.
    // `check`: with status 0 the given document is accepted, and what it says of its program, or that there is none, is so; with
    // status 1 it is not accepted. `run`: with status 0 the given program solves every instance within the limit of steps, and
    // with status 1 it does not solve some instance within it.
    ensures headline { Knowing (S.files shelf.old) (λ files.
        Headline (map string_bytes words.now) files result (K.written out.old) (K.written out.new)) }

    // `synth`: with status 0, 1, 4 or 5 `check` accepts what was written, where it is within its limit.
    ensures check_accepts { Knowing (S.files shelf.old) (λ files.
        CheckAccepts (map string_bytes words.now) files result (K.written out.old) (K.written out.new)) }

    // Status and appended bytes are due; with a write fault a front of those bytes.
    ensures due { Knowing (S.files shelf.old) (λ files.
        Answers (Due (map string_bytes words.now) files) result (K.written out.old) (K.written out.new)) }

    // `gen`: it reads no file, so all of this stands over every shelf.
    ensures family { AreOfFamily (map string_bytes words.now) →
        StandsWithoutFiles (map string_bytes words.now) result (K.written out.old) (K.written out.new) }

    // What stands over every shelf and sink.
    ensures usage { UsageIsExact (map string_bytes words.now) result (K.written out.old) (K.written out.new) }
    ensures search_alone { IsSpent result → AreSearch (map string_bytes words.now) }
    ensures input { result ≡ Status.Input →
        InputCause (S.absences shelf.old) (S.absences shelf.new)
        (K.written out.old) (K.written out.new) }
    ensures read { result ≡ Status.ReadFault → Rose (S.faults shelf.old) (S.faults shelf.new) }
    ensures no_read_passed_over { result ≢ Status.ReadFault → S.faults shelf.new ≡ S.faults shelf.old }
    ensures write { result ≡ Status.WriteFault → Rose (K.faults out.old) (K.faults out.new) }
    ensures no_write_passed_over { result ≢ Status.WriteFault → K.faults out.new ≡ K.faults out.old }
    ensures silent { IsSilent result (K.written out.old) (K.written out.new) }
    ensures asks { AsksForNamed (map string_bytes words.now) (S.asked shelf.old) (S.asked shelf.new) }
    ensures shelf { GoesOn S.files S.faults S.absences shelf.old shelf.new }
    ensures sink { K.faults out.old ≤ K.faults out.new }
{
    match reply_to_words(alloc, words, shelf) {
        Ok(reply) => write(out, &reply),
        Err(NoReply::ReadFault) => Status::ReadFault,
        Err(NoReply::OutOfMemory) => Status::OutOfMemory,
    }
}

// Writes a reply, and answers the status to end with.
fn write<K: Sink>(out: &mut K, reply: &Reply) -> Status
    requires { IsReplyStatus reply.now.status }
    ensures writes { Writes reply.now result (K.written out.old) (K.written out.new) }
    ensures faults { RoseIf (is_write_fault result) (K.faults out.old) (K.faults out.new) }
{
    match reply.write(out) {
        Ok(()) => reply.status(),
        Err(SinkFailed) => Status::WriteFault,
    }
}
