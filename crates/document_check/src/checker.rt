ghost use Rattle.std.specs.Prelude.{◌≡◌, ℕ, ◌↔◌, ◌++◌, [], length, IfOk, IsTrue, List as Sequence};
ghost use Rattle.program_model.specs.Semantics.{Semantics};
ghost use Rattle.document_check.specs.Documents.{IsAcceptedDocument};
ghost use Rattle.document_check.specs.Standing.{StandsFor, KeepsAsked};

use crate::reading::Reading;
use flag_rules::OutOfMemory;
use program_model::Machine;
use program_text::Names;
use std::alloc::Global;
use std::marker::Model;

/// Checks the document of an answer that comes in pieces, in memory that does not grow with it. It keeps no bytes but those of a
/// line that has not ended: contracts see for which bytes it stands.
#[derive(Drop)]
pub struct Checker<'a, M: Machine> {
    machine: &'a M,
    names: &'a Names,
    reading: Reading<M::Cfg>,
}

impl<'a, M: Machine> Model for Checker<'a, M> {
    ghost use Rattle.std.specs.Prelude.{◌≡◌, length};
    ghost use Rattle.program_model.specs.Semantics.{Semantics};
    ghost use Rattle.document_check.specs.Standing.{Checking, IsReading};

    ghost Value = { Checking M M.Cfg };

    ghost view = { λ c. record { machine = c.machine.now; texts = c.names.now; lines = c.reading.lines; reading = c.reading } };

    ghost invariant = { λ c. (length c.names.now ≡ (M.semantics c.machine.now).ops)
        × IsReading (M.semantics c.machine.now) (M.belongs c.machine.now) c.names.now c.reading };
}

impl<'a, M: Machine> Checker<'a, M> {
    /// A checker for a machine, the texts of its operations, and the number of lines that was asked for, before any byte. It
    /// takes all the memory that it needs: no other call of it takes any.
    pub fn start(
        alloc: Global,
        machine: &'a M,
        names: &'a Names,
        lines: u8,
    ) -> Result<Checker<'a, M>, OutOfMemory>
        requires { length names.now ≡ (M.semantics machine.now).ops }
        ensures machine { IfOk result (λ checker. checker.machine ≡ machine.now) }
        ensures texts { IfOk result (λ checker. checker.texts ≡ names.now) }
        ensures lines { IfOk result (λ checker. checker.lines ≡ lines) }
        ensures stands { IfOk result (λ checker. StandsFor (M.semantics machine.now) checker []) }
    {
        Ok(Checker {
            machine,
            names,
            reading: Reading::start(alloc, machine, names, lines)?,
        })
    }

    /// Takes the next piece of the document, however it is cut. The operations of its runs are counted at the meter.
    pub fn take(&mut self, piece: &[u8], meter: &mut M::Meter)
        ensures asked { KeepsAsked self.old self.new }
        ensures stands { (bytes : Sequence ℕ) →
            StandsFor (M.semantics self.old.machine) self.old bytes → StandsFor (M.semantics self.old.machine) self.new (bytes ++ piece.now) }
    {
        self.reading.take(self.machine, self.names, piece, meter);
    }

    /// Whether the pieces that were taken are, joined, the document of an accepted answer. What such a document shows is the law
    /// [`crate::accepted_documents_hold`].
    pub fn finish(&self) -> bool
        ensures { (bytes : Sequence ℕ) → StandsFor (M.semantics self.now.machine) self.now bytes →
            IsTrue result ↔ IsAcceptedDocument (M.semantics self.now.machine) self.now.texts self.now.lines bytes }
    {
        self.reading.is_complete()
    }
}
