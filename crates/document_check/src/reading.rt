ghost use Rattle.std.specs.Prelude.{◌≡◌, ℕ, ◌↔◌, ◌++◌, [], length, IfOk, IfSome, IfNone, IsTrue, List as Sequence};
ghost use Rattle.program_model.specs.Semantics.{Semantics};
ghost use Rattle.flag_rules.specs.Line.{line};
ghost use Rattle.answer_lines.specs.Cuts.{is_free_of};
ghost use Rattle.document_check.specs.Documents.{IsAcceptedDocument};
ghost use Rattle.document_check.specs.Standing.{CompletesReading, IsReading};
ghost use Rattle.document_check.specs.Inner.Pieces.{Advances};

use crate::front::Front;
use crate::progress::Progress;
use answer_lines::{cut_before, line_room};
use flag_rules::OutOfMemory;
use program_model::Machine;
use program_text::Names;
use std::alloc::Global;

/// A document that is read, where programs of at most so many lines were asked for: how far it was read, and the front of the line
/// that comes.
#[derive(Drop)]
pub(crate) struct Reading<C: Drop> {
    lines: u8,
    progress: Progress<C>,
    front: Front,
}

// The first line of bytes that have a line feed (10), and what follows it.
fn first_line(bytes: &[u8]) -> Option<(&[u8], &[u8])>
    ensures some { IfSome result (λ cut. (bytes.now ≡ line cut.0.now ++ cut.1.now) × IsTrue (is_free_of 10 cut.0.now)) }
    ensures none { IfNone result (IsTrue (is_free_of 10 bytes.now)) }
{
    let (front, back) = cut_before(bytes, b'\n');
    let rest = back.strip_prefix(b"\n".as_slice())?;
    Some((front, rest))
}

impl<C: Drop> Reading<C> {
    /// Nothing was read.
    pub(crate) fn start<M: Machine<Cfg = C>>(
        alloc: Global,
        machine: &M,
        names: &Names,
        lines: u8,
    ) -> Result<Reading<C>, OutOfMemory>
        requires { length names.now ≡ (M.semantics machine.now).ops }
        ensures lines { IfOk result (λ reading. reading.lines ≡ lines) }
        ensures reading { IfOk result (λ reading. IsReading (M.semantics machine.now) (M.belongs machine.now) names.now reading) }
        ensures stands { let m = M.semantics machine.now in IfOk result
            (λ reading. (more : Sequence ℕ) → IsAcceptedDocument m names.now lines more ↔ CompletesReading m names.now reading more) }
    {
        // their contracts give the ranges of what a heading tells
        let _pointers = machine.pointers();
        let _instances = machine.instances();
        let _count = names.count();
        Ok(Reading {
            lines,
            progress: Progress::start(alloc, machine)?,
            front: Front::new(alloc, line_room(names))?,
        })
    }

    /// Takes a piece of the document.
    pub(crate) fn take<M: Machine<Cfg = C>>(
        &mut self,
        machine: &M,
        names: &Names,
        piece: &[u8],
        meter: &mut M::Meter,
    )
        requires names { length names.now ≡ (M.semantics machine.now).ops }
        requires reading { IsReading (M.semantics machine.now) (M.belongs machine.now) names.now self.old }
        ensures lines { self.new.lines ≡ self.old.lines }
        ensures reading { IsReading (M.semantics machine.now) (M.belongs machine.now) names.now self.new }
        ensures goes_on { Advances (M.semantics machine.now) names.now self.old piece.now self.new }
    {
        let mut rest = piece;
        while let Some((front, after)) = first_line(rest) {
            self.end_line(machine, names, front, meter);
            rest = after;
        }
        self.add(machine, names, rest);
    }

    // Takes the rest of a line, and its end.
    fn end_line<M: Machine<Cfg = C>>(
        &mut self,
        machine: &M,
        names: &Names,
        rest: &[u8],
        meter: &mut M::Meter,
    )
        requires names { length names.now ≡ (M.semantics machine.now).ops }
        requires reading { IsReading (M.semantics machine.now) (M.belongs machine.now) names.now self.old }
        requires free { IsTrue (is_free_of 10 rest.now) }
        ensures lines { self.new.lines ≡ self.old.lines }
        ensures reading { IsReading (M.semantics machine.now) (M.belongs machine.now) names.now self.new }
        ensures goes_on { Advances (M.semantics machine.now) names.now self.old (line rest.now) self.new }
    {
        if self.front.is_empty() && self.front.has_room(rest.len()) {
            self.progress
                .take_line(machine, names, self.lines, rest, meter);
        } else if self.front.add(rest) {
            self.progress
                .take_line(machine, names, self.lines, self.front.as_slice(), meter);
            self.front.clear();
        } else {
            self.progress.reject();
            self.front.clear();
        }
    }

    // Takes the front of a line, or more of it.
    fn add<M: Machine<Cfg = C>>(&mut self, machine: &M, names: &Names, more: &[u8])
        requires reading { IsReading (M.semantics machine.now) (M.belongs machine.now) names.now self.old }
        requires free { IsTrue (is_free_of 10 more.now) }
        ensures lines { self.new.lines ≡ self.old.lines }
        ensures reading { IsReading (M.semantics machine.now) (M.belongs machine.now) names.now self.new }
        ensures goes_on { Advances (M.semantics machine.now) names.now self.old more.now self.new }
    {
        if !self.front.add(more) {
            self.progress.reject();
            self.front.clear();
        }
    }

    /// Whether nothing more has to come.
    pub(crate) fn is_complete(&self) -> bool
        ensures { (m : Semantics C) (texts : Sequence (Sequence ℕ)) → IsTrue (is_free_of 10 self.now.front.bytes) →
            IsTrue result ↔ CompletesReading m texts self.now [] }
    {
        self.progress.is_whole() && self.front.is_empty()
    }
}
