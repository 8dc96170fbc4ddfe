ghost use Rattle.std.specs.Prelude.{◌≡◌, ◌<◌, ◌≤◌, [], Ok, length, IfOk, IfErr, OnOk};
ghost use Rattle.bfgp_outside.specs.Shelf.{Told, CountsFaults, GoesOn, Asks};
ghost use Rattle.bfgp_outside.specs.Whole.{whole_of, RefusesAs, fault_told};

use crate::{Shelf, ShelfFault};
use flag_rules::{OutOfMemory, Text};
use std::alloc::{AllocError, Global};
use thiserror::Error;

/// Why a whole file could not be had.
#[derive(Clone, Copy, Debug, PartialEq, Eq, Error)]
pub enum ReadRefusal {
    /// No file is held under the name.
    #[error("no such file")]
    Absent,
    /// The shelf could not read.
    #[error("the file could not be read")]
    Failed,
    /// The file has more bytes than the limit.
    #[error("the file is too long")]
    TooLong,
    /// Memory could not be had.
    #[error("out of memory")]
    OutOfMemory,
}

impl From<ShelfFault> for ReadRefusal {
    ghost use Rattle.std.specs.Prelude.{◌≡◌};
    ghost use Rattle.bfgp_outside.specs.Whole.{refusal_of};

    ghost from_gives = { λ fault refusal. refusal ≡ refusal_of fault };

    fn from(fault: ShelfFault) -> Self {
        match fault {
            ShelfFault::Absent => ReadRefusal::Absent,
            ShelfFault::Failed => ReadRefusal::Failed,
        }
    }
}

impl From<OutOfMemory> for ReadRefusal {
    ghost use Rattle.std.specs.Prelude.{◌≡◌};
    ghost use Rattle.bfgp_outside.specs.declared.whole.ReadRefusal.{ReadRefusal};

    ghost from_gives = { λ _ refusal. refusal ≡ ReadRefusal.OutOfMemory };

    fn from(_: OutOfMemory) -> Self {
        ReadRefusal::OutOfMemory
    }
}

impl From<AllocError> for ReadRefusal {
    ghost use Rattle.std.specs.Prelude.{◌≡◌};
    ghost use Rattle.bfgp_outside.specs.declared.whole.ReadRefusal.{ReadRefusal};

    ghost from_gives = { λ _ refusal. refusal ≡ ReadRefusal.OutOfMemory };

    fn from(_: AllocError) -> Self {
        ReadRefusal::OutOfMemory
    }
}

/// How many bytes one read may give.
const PIECE_BYTES: usize = 65_536;

/// Reads a file of at most `limit` bytes, whole, in pieces. A read that fails is not tried again.
pub fn read_whole<S: Shelf>(
    alloc: Global,
    shelf: &mut S,
    name: &[u8],
    limit: u64,
) -> Result<Text, ReadRefusal>
    ensures ok { IfOk result (λ text.
        Told (S.files shelf.old) name.now (λ held. whole_of held limit ≡ Ok text)) }
    ensures within { IfOk result (λ text. length text ≤ limit) }
    ensures refused { IfErr result (λ refusal.
        Told (S.files shelf.old) name.now (λ held. RefusesAs refusal (whole_of held limit))) }
    ensures counts { CountsFaults S.faults S.absences shelf.old shelf.new (fault_told result) }
    ensures goes_on { GoesOn S.files S.faults S.absences shelf.old shelf.new }
    ensures asks { Asks (S.asked shelf.old) (S.asked shelf.new) name.now }
{
    let mut piece = vec![in alloc; 0; PIECE_BYTES]?;
    let mut bytes = Text::new(alloc);
    read_pieces(shelf, name, limit, &mut piece, &mut bytes)?;
    Ok(bytes)
}

// Reads a file into `bytes`, piece by piece.
fn read_pieces<S: Shelf>(
    shelf: &mut S,
    name: &[u8],
    limit: u64,
    piece: &mut [u8],
    bytes: &mut Text,
) -> Result<(), ReadRefusal>
    requires room { 0 < length piece.old }
    requires empty { bytes.old ≡ [] }
    ensures ok { OnOk result
        (Told (S.files shelf.old) name.now (λ held. whole_of held limit ≡ Ok bytes.new)) }
    ensures within { OnOk result (length bytes.new ≤ limit) }
    ensures refused { IfErr result (λ refusal.
        Told (S.files shelf.old) name.now (λ held. RefusesAs refusal (whole_of held limit))) }
    ensures counts { CountsFaults S.faults S.absences shelf.old shelf.new (fault_told result) }
    ensures goes_on { GoesOn S.files S.faults S.absences shelf.old shelf.new }
    ensures asks { Asks (S.asked shelf.old) (S.asked shelf.new) name.now }
{
    while bytes.len() as u64 <= limit {
        let count = shelf.read_at(name, bytes.len() as u64, piece)?;
        if count == 0 {
            return Ok(());
        }
        bytes.append(&piece[..count])?;
    }
    Err(ReadRefusal::TooLong)
}
