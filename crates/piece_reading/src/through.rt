ghost use Rattle.std.specs.Prelude.{◌≡◌, ◌<◌, length, OnOk, IfErr};
ghost use Rattle.bfgp_outside.specs.Shelf.{Told, CountsFaults, GoesOn, Asks};
ghost use Rattle.bfgp_outside.specs.Whole.{whole_of};
ghost use Rattle.piece_reading.specs.Through.{TookFile, RefusesAs, fault_told};

use crate::Taker;
use bfgp_outside::{Shelf, ShelfFault};
use thiserror::Error;

/// Why a file could not be read through.
#[derive(Clone, Copy, Debug, PartialEq, Eq, Error)]
pub enum ThroughRefusal {
    /// No file is held under the name.
    #[error("no such file")]
    Absent,
    /// The shelf could not read.
    #[error("the file could not be read")]
    Failed,
    /// The file has more bytes than the limit.
    #[error("the file is too long")]
    TooLong,
}

impl From<ShelfFault> for ThroughRefusal {
    ghost use Rattle.std.specs.Prelude.{◌≡◌};
    ghost use Rattle.piece_reading.specs.Through.{refusal_of};

    ghost from_gives = { λ fault refusal. refusal ≡ refusal_of fault };

    fn from(fault: ShelfFault) -> Self {
        match fault {
            ShelfFault::Absent => ThroughRefusal::Absent,
            ShelfFault::Failed => ThroughRefusal::Failed,
        }
    }
}

/// How many bytes one read asks for.
pub const PIECE_LENGTH: usize = 65_536;

/// Gives a file's bytes to a taker, piece by piece, to the file's end. It takes no memory, and a read that fails is not tried again.
///
/// A read of fewer bytes than were asked for is not the end; a read of none is.
pub fn read_through<T: Taker, S: Shelf>(
    shelf: &mut S,
    name: &[u8],
    limit: u64,
    taker: &mut T,
) -> Result<(), ThroughRefusal>
    ensures asked { T.asked taker.new ≡ T.asked taker.old }
    ensures ok { OnOk result (TookFile T.stands_for taker.old taker.new (S.files shelf.old) name.now limit) }
    ensures refused { IfErr result (λ refusal.
        Told (S.files shelf.old) name.now (λ held. RefusesAs refusal (whole_of held limit))) }
    ensures counts { CountsFaults S.faults S.absences shelf.old shelf.new (fault_told result) }
    ensures goes_on { GoesOn S.files S.faults S.absences shelf.old shelf.new }
    ensures asks { Asks (S.asked shelf.old) (S.asked shelf.new) name.now }
{
    let mut piece = [0; PIECE_LENGTH];
    read_pieces(shelf, name, limit, taker, &mut piece)
}

// Gives a file's bytes to a taker, in pieces that fit the buffer.
fn read_pieces<T: Taker, S: Shelf>(
    shelf: &mut S,
    name: &[u8],
    limit: u64,
    taker: &mut T,
    piece: &mut [u8],
) -> Result<(), ThroughRefusal>
    requires room { 0 < length piece.old }
    ensures asked { T.asked taker.new ≡ T.asked taker.old }
    ensures ok { OnOk result (TookFile T.stands_for taker.old taker.new (S.files shelf.old) name.now limit) }
    ensures refused { IfErr result (λ refusal.
        Told (S.files shelf.old) name.now (λ held. RefusesAs refusal (whole_of held limit))) }
    ensures counts { CountsFaults S.faults S.absences shelf.old shelf.new (fault_told result) }
    ensures goes_on { GoesOn S.files S.faults S.absences shelf.old shelf.new }
    ensures asks { Asks (S.asked shelf.old) (S.asked shelf.new) name.now }
{
    let mut place = 0;
    loop {
        let count = shelf.read_at(name, place, piece)?;
        if count == 0 {
            return Ok(());
        }
        if count as u64 > limit - place {
            return Err(ThroughRefusal::TooLong);
        }
        taker.take(&piece[..count]);
        place += count as u64;
    }
}
