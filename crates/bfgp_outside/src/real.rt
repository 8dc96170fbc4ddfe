ghost use Rattle.std.specs.Prelude.{◌≡◌, ◌≤◌, length, IfOk};
ghost use Rattle.bfgp_outside.specs.Inner.OpenFile.{ReadsFrom};

use crate::{Shelf, ShelfFault, Sink, SinkFailed};
use std::io::{ErrorKind, Print, Printer, Read, Seek, SeekFrom, Write};
use std::rt::Files;
use std::str::Utf8Error;
use std::{fs, io};

/// The files of the system, by their paths. A contract cannot say what they hold.
#[derive(Drop)]
pub struct RealShelf<'a, R> {
    system: &'a R,
    faults: u64,
    absences: u64,
}

impl<'a, R: Files> RealShelf<'a, R> {
    /// The files of a system.
    pub fn new(system: &'a R) -> RealShelf<'a, R>
        ensures faults { ⟦<RealShelf<'a, R> as Shelf>⟧.faults result ≡ 0 }
        ensures absences { ⟦<RealShelf<'a, R> as Shelf>⟧.absences result ≡ 0 }
    {
        RealShelf {
            system,
            faults: 0,
            absences: 0,
        }
    }
}

impl From<io::Error> for ShelfFault {
    ghost use Rattle.std.specs.Prelude.{◌≡◌};
    ghost use Rattle.std.specs.IoError.{error_kind};
    ghost use Rattle.bfgp_outside.specs.Real.{fault_of};

    ghost from_gives = { λ error fault. fault ≡ fault_of (error_kind error) };

    fn from(error: io::Error) -> Self {
        match error.kind() {
            ErrorKind::NotFound => ShelfFault::Absent,
            _ => ShelfFault::Failed,
        }
    }
}

impl From<Utf8Error> for ShelfFault {
    ghost use Rattle.std.specs.Prelude.{◌≡◌};
    ghost use Rattle.bfgp_outside.specs.declared.shelf.ShelfFault.TheVariants.{Failed};

    ghost from_gives = { λ _ fault. fault ≡ Failed };

    fn from(_: Utf8Error) -> Self {
        ShelfFault::Failed
    }
}

// Reads from a place of a file of the system on.
fn read_file<R: Files>(
    system: &R,
    name: &[u8],
    from: u64,
    into: &mut [u8],
) -> Result<usize, ShelfFault>
    ensures { IfOk result (λ m. m ≤ length into.new) }
{
    let mut file = fs::open(system, str::from_utf8(name)?)?;
    read_from(&mut file, from, into)
}

// Reads once, from a place of an open file on.
fn read_from<F: Read + Seek>(file: &mut F, from: u64, into: &mut [u8]) -> Result<usize, ShelfFault>
    ensures bound { IfOk result (λ m. m ≤ length into.new) }
    ensures read { IfOk result (λ m.
        ReadsFrom F.stream_position F.remaining file.old file.new from m into.new) }
{
    file.seek(SeekFrom::Start(from))?;
    Ok(file.read(into)?)
}

impl<'a, R: Files> Shelf for RealShelf<'a, R> {
    ghost use Rattle.std.specs.Prelude.{None};

    ghost files = { λ _. None };

    ghost faults = { λ shelf. shelf.faults };

    ghost absences = { λ shelf. shelf.absences };

    ghost asked = { λ _. None };

    /// Reads a file of the system. A name that is not UTF-8 is a failed read.
    fn read_at(&mut self, name: &[u8], from: u64, into: &mut [u8]) -> Result<usize, ShelfFault> {
        let answer = read_file(self.system, name, from, into);
        match answer {
            Ok(_) => {}
            Err(ShelfFault::Absent) => self.absences = self.absences.saturating_add(1),
            Err(ShelfFault::Failed) => self.faults = self.faults.saturating_add(1),
        }
        answer
    }
}

/// What a writer takes, as a sink.
#[derive(Drop)]
pub struct WriterSink<W: Drop> {
    output: W,
    faults: u64,
}

/// The standard output of a system. A contract cannot say what it shows.
pub type RealSink<'a, P> = WriterSink<Printer<'a, P>>;

impl<'a, P: Print> WriterSink<Printer<'a, P>> {
    /// The output of a system.
    pub fn new(output: &'a P) -> RealSink<'a, P>
        ensures { ⟦<RealSink<'a, P> as Sink>⟧.faults result ≡ 0 }
    {
        WriterSink {
            output: io::writer(output),
            faults: 0,
        }
    }
}

impl<W: Write + Drop> Sink for WriterSink<W> {
    ghost written = { λ sink. W.contents sink.output };

    ghost faults = { λ sink. sink.faults };

    /// Writes to the output, once. A write that takes nothing of a piece that is not empty is a failure.
    fn put(&mut self, piece: &[u8]) -> Result<usize, SinkFailed> {
        match self.output.write(piece) {
            Ok(count) if count > 0 || piece.is_empty() => Ok(count),
            _ => {
                self.faults = self.faults.saturating_add(1);
                Err(SinkFailed)
            }
        }
    }
}
