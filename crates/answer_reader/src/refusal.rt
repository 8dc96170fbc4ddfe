ghost use Rattle.std.specs.Prelude.{◌≡◌};
ghost use Rattle.answer_reader.specs.declared.refusal.AnswerRefusal.TheVariants.{OutOfMemory as NoMemory};

use flag_rules::OutOfMemory;
use thiserror::Error;

/// Why bytes are read as no answer.
#[derive(Clone, Copy, Debug, PartialEq, Eq, Error)]
pub enum AnswerRefusal {
    /// The number, from 1, of the first line such that the lines up to it begin no document. Where a document stops early it
    /// is the number of its lines and one more.
    #[error("line {0} is not that of a document")]
    Line(u64),
    /// Memory could not be had.
    #[error("out of memory")]
    OutOfMemory,
}

impl From<OutOfMemory> for AnswerRefusal {
    ghost from_gives = { λ _ refusal. refusal ≡ NoMemory };

    fn from(_: OutOfMemory) -> Self {
        AnswerRefusal::OutOfMemory
    }
}
