ghost use Rattle.std.specs.Prelude.{◌≡◌, ℕ, [], IfOk, IfErr};
ghost use Rattle.program_model.specs.Semantics.{Semantics};
ghost use Rattle.bfgp_outside.specs.Shelf.{Told, CountsFaults, GoesOn, Asks};
ghost use Rattle.bfgp_outside.specs.Whole.{whole_of};
ghost use Rattle.piece_reading.specs.Through.{RefusesAs, fault_told};
ghost use Rattle.document_check.specs.Files.{IsVerdictOn};
ghost use Rattle.document_check.specs.Standing.{StandsFor};

use crate::Checker;
use bfgp_outside::Shelf;
use piece_reading::{Taker, ThroughRefusal, read_through};
use program_model::Machine;
use program_text::Names;

// A checker that takes pieces, and the meter at which it makes runs.
#[derive(Drop)]
struct Metered<'a, 'b, M: Machine> {
    checker: Checker<'a, M>,
    meter: &'b mut M::Meter,
}

impl<'a, 'b, M: Machine> Taker for Metered<'a, 'b, M> {
    type Asked = (M, Names, u8);

    ghost use Rattle.document_check.specs.Standing.{StandsFor};

    ghost asked = { λ metered. (metered.checker.machine, metered.checker.texts, metered.checker.lines) };

    ghost stands_for = { λ metered bytes. StandsFor (M.semantics metered.checker.machine) metered.checker bytes };

    fn take(&mut self, piece: &[u8]) {
        self.checker.take(piece, self.meter);
    }
}

/// Checks the document of a file by a checker that has taken nothing yet. The file is read piece by piece to its end, also after the
/// verdict is known. It takes no memory. A file of more bytes than the limit is refused. What an accepted document shows is the
/// law [`crate::accepted_documents_hold`].
pub fn check_file<M: Machine, S: Shelf>(
    checker: Checker<'_, M>,
    shelf: &mut S,
    name: &[u8],
    limit: u64,
    meter: &mut M::Meter,
) -> Result<bool, ThroughRefusal>
    requires { StandsFor (M.semantics checker.machine) checker [] }
    ensures verdict { IfOk result (λ accepted. IsVerdictOn (M.semantics checker.entry.machine) checker.entry.texts checker.entry.lines
        (S.files shelf.old) name.now limit accepted) }
    ensures refused { IfErr result (λ refusal. Told (S.files shelf.old) name.now (λ held. RefusesAs refusal (whole_of held limit))) }
    ensures counts { CountsFaults S.faults S.absences shelf.old shelf.new (fault_told result) }
    ensures goes_on { GoesOn S.files S.faults S.absences shelf.old shelf.new }
    ensures asks { Asks (S.asked shelf.old) (S.asked shelf.new) name.now }
{
    let mut taker = Metered { checker, meter };
    read_through(shelf, name, limit, &mut taker)?;
    Ok(taker.checker.finish())
}
